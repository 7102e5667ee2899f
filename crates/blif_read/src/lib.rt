//! Designs in BLIF: the value of a text, reading and printing.
//!
//! `read_blif` answers the value of a text or its first fault, as `blif_defs` says what a text means.
//! `print_blif` gives the text of a value, which is read again. The words of a line are found by
//! `push_words`, by which other texts of words are split too.
#![tactic(auto)]

mod blif;
mod cover;
mod cover_row;
mod kind;
mod line;
mod names;
mod print;
mod read;
mod reader;
mod row;

pub use blif::Blif;
pub use blif_defs::{BlifError, Mark};
pub use cover::{Cover, Covers};
pub use line::{len_before, push_words, without_comment, without_return};
pub use names::Names;
pub use print::print_blif;
pub use read::read_blif;
pub use row::{Row, Rows};

#[cfg(test)]
mod tests;
