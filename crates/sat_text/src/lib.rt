//! The values of a CNF and of a trace, and their texts: readers that answer the value or the first
//! fault, and printers.
//!
//! `sat_text_defs` says which bytes are the text of which value, and which one fault any other text
//! has. The readers go over the bytes once, from word to word (`sat_scan`); the trace's reader looks
//! antecedents up in `trace_places`.
#![tactic(auto)]

mod cnf_clauses;
mod cnf_header;
mod cnf_reader;
mod literal_order;
mod printing;
mod trace_clause;
mod trace_reader;

pub use cnf_reader::read_cnf;
pub use printing::{print_cnf, print_trace};
pub use sat_text_defs::{CnfError, TraceError};
pub use sat_values::{Cnf, Trace};
pub use trace_reader::{read_compact, read_trace};

#[cfg(test)]
mod tests;
