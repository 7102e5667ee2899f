//! Which clauses of the miter belong to which part of the two circuits: the number of the first clause
//! of each node, cell and output.
//!
//! The definitions stand in `specs/Places`, each by the list of the clauses that come before.
#![tactic(auto)]

mod places;

pub use places::{Places, asked};
