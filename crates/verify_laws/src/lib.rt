//! Laws of acceptance: what is accepted is equal, bytes have one configuration and one trace, every
//! other bundle has one first refusal, a compacted bundle is accepted where the old one was, and a
//! bundle has one miter with a net or one first fault.
//!
//! Each function of this crate does nothing. Its contract is a law, which whoever calls it can rely
//! on. The definitions stand in `verify_defs`.
#![tactic(auto)]

mod laws;

pub use laws::{
    accepted_is_equal, compacted_is_accepted, delivered_miter_is_one, parts_are_unique,
    refusal_is_first,
};
