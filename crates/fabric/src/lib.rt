//! Fabrics, their configurations, and the bits that a configured fabric computes.
//!
//! `Geometry` has the numbers of a fabric and the kind of its cells. A `Config` is a geometry with
//! words that are in their ranges, and gives the words of each part. `eval` gives the bits of the
//! output pads for bits of the input pads, and `cell` the bit of a cell after that. The definitions
//! stand in the crate `fabric_defs`.
#![tactic(auto)]

mod bit_array;
mod config;
mod evaluation;
mod geometry;
mod ranges;
#[cfg(test)]
mod tests;
mod wires;

pub use config::Config;
pub use evaluation::eval;
pub use fabric_defs::{CellKind, ConfigError};
pub use geometry::Geometry;
pub use wires::{Wires, cell};
