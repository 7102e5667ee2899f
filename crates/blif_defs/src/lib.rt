//! The combinational part of BLIF, as definitions that other crates speak of.
//!
//! `specs/Values` has the value of a text, `specs/Lines` its joined lines and their words,
//! `specs/Grammar` what each line means and which fault comes first, `specs/Texts` which texts have
//! which value or fault, `specs/Printing` the text of a value. They speak of plain lists and records,
//! and of the one list of faults, `BlifError`.
#![tactic(auto)]

mod error;
mod kind;
mod mark;

pub use error::BlifError;
pub use kind::LineKind;
pub use mark::{MAX_BYTES, MAX_PORTS, MAX_SIGNALS, Mark};

#[cfg(test)]
mod tests;
