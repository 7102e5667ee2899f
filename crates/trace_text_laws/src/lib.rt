//! Laws of the texts of traces: what is computed of a text is exactly the trace whose text it is, or the
//! one fault that it has; and how the versions of a text differ.
//!
//! Each function of this crate does nothing. Its contract is a law, which whoever calls it can rely on.
//! The words of a text and what they spell have their lemmas in `sat_text_defs`.
#![tactic(auto)]

mod laws;

pub use laws::{
    fault_of_a_trace_text_is_computed, later_versions_agree, text_has_one_trace_or_fault,
    trace_of_a_text_is_computed, versions_agree_without_the_sign,
};
