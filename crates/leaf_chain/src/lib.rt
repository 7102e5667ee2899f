//! Chains that lead from a false clause to one of chosen variables.
//!
//! An [`Evaluation`] has variables with their values in the order in which these follow from each other,
//! and for each that wasn't chosen the clause that gives it its value. Where a clause is false under
//! such values, resolving it with the reasons of its variables, from the last one on, ends with a clause
//! of chosen variables alone. [`Chains`] makes these chains and derives their clauses.
//!
//! The definitions stand in `leaf_defs`; `specs/Marks` has the running clause as marks of variables.
#![tactic(auto)]

mod chains;
mod evaluation;

pub use chains::Chains;
pub use evaluation::Evaluation;
