//! Lists of small numbers, no number in two lists: each number has one place for the number that
//! follows it, so that all lists together are two flat arrays, and a number goes from one list to
//! another in a few steps.
//!
//! Contracts see the lists themselves (`specs/Linked`); `specs/Chains` says how they lie in the arrays.
#![tactic(auto)]

mod links;
#[cfg(test)]
mod tests;

pub use links::Links;
