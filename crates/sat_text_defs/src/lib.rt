//! The texts of a CNF and of a trace, as definitions that their readers and printers speak of, and the
//! errors of the readers.
//!
//! `specs/Words` has what separates words and how a literal is spelled; `specs/Spellings` computes what
//! a word spells. `specs/CnfText` and `specs/TraceText` say which bytes are the text of which value, and
//! which one fault any other text has; they speak of the whole list of the text's tokens.
//! `specs/CnfReading` and `specs/TraceReading` compute the value or the fault from the tokens, from left
//! to right. That both say the same is proved in `trace_text_laws` and `cnf_text_laws`. No text gives
//! want of memory: that is for readers alone to answer.
#![tactic(auto)]

mod errors;
mod limits;

pub use errors::{CnfError, TraceError};
pub use limits::{MAX_CNF_BYTES, MAX_TRACE_BYTES};
