//! The literals that have been given the value true, in their order, with each one's value at hand.
//!
//! Contracts see an `Assignment` as its list of literals (`specs/Values`). A literal is true where it
//! stands in the list, and false where its negation does.
#![tactic(auto)]

mod assignment;
#[cfg(test)]
mod tests;

pub use assignment::Assignment;
