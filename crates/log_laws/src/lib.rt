//! The laws of logs, whose definitions stand in `log_defs`.
//!
//! Each function of this crate does nothing. Its contract is a law, which whoever calls it can rely
//! on.
#![tactic(auto)]

mod laws;

pub use laws::{chain_grows, indices_stay, log_trace_checks, log_trace_is_a_trace};
