//! The laws of clauses, resolution, traces and verdicts, whose definitions stand in `clause_defs`.
//!
//! Each function of this crate does nothing. Its contract is a law, which whoever calls it can rely
//! on.
#![tactic(auto)]

mod laws;

pub use laws::{
    chain_end_is_unique, clause_of_a_list, clauses_of_a_trace_are_determined,
    clauses_with_the_same_literals_are_equal, compacted_trace_refutes, computed_chain_is_the_rules,
    computed_resolvent_is_the_rules, derived_clause_resolves, faultless_clauses_have_literals,
    original_clause_is_in_the_list, refutation_is_sound, trace_has_a_verdict, verdict_is_unique,
};
