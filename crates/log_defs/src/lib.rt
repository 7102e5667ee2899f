//! Logs of derived clauses, as definitions that other crates speak of.
//!
//! A log has the clauses of a formula and, behind them, clauses that were derived one after another by
//! the chain rule. What it keeps stands in `specs/Logs`, how deriving one more clause ends in
//! `specs/Deriving`, and the trace that a log is in `specs/LogTraces`. Their laws are the contracts of
//! the crate `log_laws`.
#![tactic(auto)]

mod log_end;

pub use log_end::LogEnd;
