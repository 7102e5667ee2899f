//! Literals, clauses, resolution, traces and verdicts, as definitions that other crates speak of.
//!
//! A clause is a set of literals, an assignment a list of bits, a trace a list of clauses with the
//! places of their antecedents. What they mean stands in `specs/`, one file per subject:
//! `Literals`, `Clauses`, `Formulas`, `Resolution`, `Traces`, `Compaction`, `TraceClauses`, `Verdicts`.
//! Their laws are the contracts of the crate `clause_laws`.
#![tactic(auto)]

mod verdict;

pub use verdict::{ChainError, MAX_CLAUSES, MAX_COMPUTED, MAX_INDEX, MAX_VARIABLE, Verdict};
