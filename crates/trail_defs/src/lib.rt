//! What a search's trail means: the literals that were given a value, in their order, each decided at
//! the beginning of a level or implied by a live clause; and what is settled or in conflict under it.
//!
//! The definitions stand in `specs/Assignments` and `specs/Trails`. The words are those of MiniSat:
//! trail, level, reason.
#![tactic(auto)]
