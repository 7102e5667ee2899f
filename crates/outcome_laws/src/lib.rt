//! Laws of what the program's commands come to, whose definitions stand in `pch_shell`.
//!
//! Each function of this crate does nothing. Its contract is a law, which whoever calls it can rely
//! on: the bytes of a command's files have one status and one text that is due, so that they decide
//! how a run ends unless the outside fails or memory is wanting; whether `place` places a design is
//! decided by what it needs; and whether `produce` finds a bundle or a difference is decided by whether
//! there is one. Of the lemmas, those on each command stand in a file of their own;
//! `proofs/Deciding` has them together, and `proofs/Ending` is on runs.
#![tactic(auto)]

mod laws;

pub use laws::{
    bytes_decide_the_run, demands_decide_place, equality_decides_produce, files_have_one_outcome,
};
