//! Placing mapped cells on a fabric and routing their signals, as definitions that other crates speak of.
//!
//! `specs/Spans` has the channels on which each signal is live and how many are live on a channel,
//! `specs/Demands` what each resource of a fabric is asked for, in the order in which a refusal names
//! it, and `specs/Placed` which configurations are a placing of mapped cells.
#![tactic(auto)]

mod demand;
mod faults;
mod span;

pub use demand::{Demand, Resource};
pub use faults::RouteError;
pub use span::Span;
