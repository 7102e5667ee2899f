//! What the printed texts of CNFs and traces are: the text of a value is read as the same value, and is
//! hardly longer than the text that the value was read of.
//!
//! The printed texts are definitions of `sat_text_defs` (`specs/Printed`), which `sat_text` prints.
//! Each function of this crate does nothing. Its contract is a law, which whoever calls it can rely
//! on.
#![tactic(auto)]

mod laws;

pub use laws::{
    printed_cnf_is_read_again, printed_trace_is_read_again, printed_trace_is_short,
    text_states_few_literals,
};
