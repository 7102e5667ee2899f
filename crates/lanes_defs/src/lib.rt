//! Many evaluations of a configured fabric at once, as definitions that other crates speak of.
//!
//! `specs/Lanes` says which bits of some words belong to one evaluation, and `specs/Ones` how many of
//! the values in a row make each output one.
#![tactic(auto)]

/// How many evaluations a word has a bit for.
pub const LANES: u32 = 64;
