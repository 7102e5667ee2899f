//! Laws of the texts of scripts: what reading line after line answers is the value of the text or its
//! first fault, a text has one of both, and a value is a script within the limits.
#![tactic(auto)]

mod laws;

pub use laws::{first_fault_is_read, text_has_one_value_or_fault, value_is_read, value_is_script};
