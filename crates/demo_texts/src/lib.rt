//! Two designs that compute the same: the sum of two numbers of some bits, whose difference is how
//! the carry goes.
//!
//! What comes in is the number of bits, what goes out are the texts of the designs: `ripple` hands
//! the carry on from bit to bit, `select` computes blocks of four bits for both carries and chooses.
//! `specs/Designs` lists the covers of both.
#![tactic(auto)]

mod covers;
mod designs;
mod function;
mod letter;
#[cfg(test)]
mod tests;
mod texts;

pub use function::Function;
pub use letter::{CARRY, CARRY_WITH, CARRY_WITHOUT, FIRST, SECOND, SUM, SUM_WITH, SUM_WITHOUT};
pub use texts::{ripple_text, select_text};

/// The most bits that a number has.
pub const MAX_BITS: u32 = 16;
