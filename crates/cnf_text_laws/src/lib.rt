//! The laws of the texts of CNFs: what the computed reading of a text gives is what the text has.
//!
//! Which text has which CNF, and which one fault any other text has, stands in `sat_text_defs`
//! (`specs/CnfText`). Each function of this crate does nothing. Its contract is a law, which whoever
//! calls it can rely on.
#![tactic(auto)]

mod laws;

pub use laws::{
    cnf_of_a_text_is_computed, fault_of_a_text_is_computed, formula_of_a_text_keeps_the_limits,
    literal_words_are_spelled, text_has_one_cnf_or_fault,
};
