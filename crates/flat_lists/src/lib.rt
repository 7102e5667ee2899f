//! Lists of lists in two flat arrays: the items of all lists one after another, and where each list
//! ends. Nothing is kept per list but one number, and a list is lent as a slice of the items.
//!
//! Contracts see the lists themselves, and how much fits before more memory is taken
//! (`specs/Flat`).
#![tactic(auto)]

mod lists;
#[cfg(test)]
mod tests;

pub use lists::FlatLists;
