//! Logs of derived clauses: the memory of a producer of refutations.
//!
//! A [`Log`] has the clauses of a formula and takes derived ones, each with its antecedents. It takes a
//! clause only once, and only while the words of all derived clauses are within a budget. Its type keeps
//! that each derived clause follows from its antecedents by the chain rule, so the trace that it gives in
//! the end has no fault. All memory is taken when the log is opened.
//!
//! The definitions stand in `log_defs`; what ties the arrays to them stands in `specs/Kept`.
#![tactic(auto)]

mod log;
#[cfg(test)]
mod tests;
mod trace;

pub use log::Log;
pub use log_defs::LogEnd;
