//! Sixty-four evaluations of a configured fabric at once, and counts over values in a row.
//!
//! What comes in are a configuration and words for its input pads, where bit `j` of each word
//! belongs to evaluation `j`; what goes out are such words for the output pads (`eval64`), or how
//! many of some values in a row make each output one (`count_ones`). `LaneWires` is the room for
//! this, which is taken once. The definitions stand in the crate `lanes_defs`.
#![tactic(auto)]

mod blocks;
mod cells;
mod counting;
mod evaluation;
mod ones;
mod places;
#[cfg(test)]
mod tests;
mod values;
mod wires;
mod words;

pub use counting::count_ones;
pub use evaluation::eval64;
pub use ones::Ones;
pub use wires::LaneWires;
