//! What a conflict teaches a search by clause learning.
//!
//! The clause in conflict is resolved with the reasons of its literals, from the last one of the trail on,
//! until one literal of the present level is left. Of the literals of lower levels, those of level 0 are
//! resolved away too, and those whose reasons bring no other literals. On level 0 that leaves the empty
//! clause.
//!
//! The trail comes as slices: its literals, and levels and reasons by variable. `specs/Analyses` has the
//! definitions.
#![tactic(auto)]

mod analysis;
mod walk;

pub use analysis::{analyze, refute, second_level};
