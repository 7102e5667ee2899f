//! Laws of the miter, for other crates to cite.
//!
//! Each input of a network extends to an assignment that satisfies every clause of the miter but the
//! last one, and that one too where the outputs differ. So a miter that no assignment satisfies shows
//! that the network and the configuration are equal. The definitions stand in `miter_defs`;
//! `specs/Extensions` says what the extended input satisfies.
#![tactic(auto)]

mod laws;

pub use laws::{clauses_are_clauses, inputs_extend, unsatisfiable_means_equal};
