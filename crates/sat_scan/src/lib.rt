//! The words of a CNF or a trace, read byte by byte: where the next one begins, and the number or the
//! literal that it spells.
//!
//! `specs/Scan` says what a place in a text has ahead: its word, and the tokens from there on. The
//! readers of both texts go from word to word with these calls, and no token is ever copied.
#![tactic(auto)]

mod comments;
mod literals;
mod numbers;
mod words;

pub use comments::{behind_comment, next_cnf_word};
pub use literals::{LitWord, literal_at};
pub use numbers::{Number, number_at, positive_at};
pub use words::{is_separator, is_sign_at, is_zero_at, next_word};
