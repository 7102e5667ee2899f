//! How long the trace of a miter's log is: its text always fits the limit of a trace, and a bundle
//! of it the limit of a bundle's file.
//!
//! What counts as a word, and what fits, stands in `specs/Sizes`. The words of a miter are counted
//! part by part from the limits of nets and fabrics, those of the derived clauses are within a
//! budget, and the text has at most eleven bytes for each word. Each function of this crate does
//! nothing. Its contract is a law, which whoever calls it can rely on.
#![tactic(auto)]

mod laws;
mod limits;

pub use laws::{bundle_fits, miter_has_few_words, trace_fits, words_are_short};
pub use limits::{MAX_BUDGET, MAX_MITER_WORDS, MAX_WORD_BYTES};
