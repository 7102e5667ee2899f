//! Lists of clauses and resolution traces, kept in flat arrays: no clause has a block of memory of
//! its own.
//!
//! Contracts see `Clauses` as the list of its clauses, each a list of literals, a `Trace` as the list
//! of its entries, and a `ClauseSet` as a number of variables and a list of clauses. A clause of any of
//! them has distinct literals in their order.
#![tactic(auto)]

mod clause_set;
mod clauses;
mod cnf;
mod columns;
mod compaction;
#[cfg(test)]
mod tests;
mod trace;

pub use clause_set::ClauseSet;
pub use clauses::Clauses;
pub use cnf::Cnf;
pub use compaction::compact;
pub use trace::Trace;
