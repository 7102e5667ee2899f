//! The laws of BLIF texts, whose definitions stand in `blif_defs`.
//!
//! Each function of this crate does nothing. Its contract is a law, which whoever calls it can rely
//! on. The grammar in `blif_defs` goes from line to line; `specs/Meaning` looks at each line alone,
//! and a law says that both give the same.
#![tactic(auto)]

mod laws;

pub use laws::{
    first_fault_is_read, printed_text_is_read, text_has_one_value_or_fault, value_is_design,
    value_is_read, value_is_what_lines_say,
};
