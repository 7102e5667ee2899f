//! Numbers and tokens, steps that may fail and want of memory, as definitions that every reader and
//! printer speaks of.
//!
//! `specs/Numbers` has the one spelling of a number, and `specs/Tokens` the tokens of a text with
//! their offsets. `specs/Steps` joins steps of which each may fail, and `specs/Memory` says that a call
//! gives what it should, or that memory was wanting. The lemmas of `proofs/` say how a reader goes from
//! one digit and from one token to the next.
#![tactic(auto)]

mod laws;

pub use laws::{
    number_in_is_spelled, number_within_is_spelled, positive_within_is_spelled, spelling_is_unique,
};
