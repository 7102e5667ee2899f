//! A demonstration of the whole way: two adders of different make, a bundle, the consumer's judgement,
//! and a count.
//!
//! `adders_of` makes both adders from their texts, with the least fabric for the second one. The first
//! one is the specification, and the second one the design. `demonstrate` produces a bundle with the
//! placed design, lets the consumer judge it, and counts for how many inputs each output is one, with
//! the configuration that was accepted. Since what is produced is accepted, the judgement can't refuse
//! it; so a demonstration ends as producing does. The definitions stand in `specs/Demonstrations`.
#![tactic(auto)]

mod adders;
mod counting;
mod demonstrating;
#[cfg(test)]
mod tests;

pub use adders::{Adders, AddersError, adders_of};
pub use demonstrating::{Demonstration, demonstrate};
pub use limits::{BUDGET, MAX_COUNTED_BITS, WORKERS};

mod limits;
