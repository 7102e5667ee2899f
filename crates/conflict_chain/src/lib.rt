//! The chain of a conflict.
//!
//! A search gives values to variables and draws their consequences: each literal that follows has a
//! clause, its reason, whose other literals were false before. Where a clause is false altogether, it is
//! resolved with the reasons of its literals, from the last one on. [`ConflictChain`] has the running
//! clause and its antecedents, and each of its steps resolves and clashes exactly once. Which literals
//! are resolved away, and which stay, is the caller's choice.
//!
//! The definitions stand in `specs/Conflicts`, over lists of literals.
#![tactic(auto)]

mod chain;

pub use chain::ConflictChain;
