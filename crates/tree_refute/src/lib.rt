//! The search for a refutation of a miter that tries every input.
//!
//! [`tree`] goes down the inputs one after another. At the bottom both circuits are evaluated: where all
//! outputs are the same, the miter's last clause is false, and its chain ends in a clause of inputs. Above,
//! the clauses of the two halves are resolved on their input, or the one that lacks it is taken. The
//! definitions of the ends stand in `tree_defs`.
#![tactic(auto)]

mod refute;
mod search;

pub use refute::tree;
