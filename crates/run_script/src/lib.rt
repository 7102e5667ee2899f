//! Scripts of sessions and their transcripts: reading and printing.
//!
//! `read_script` answers the value of a text or its first fault, and `print_transcript` gives the
//! text of a transcript. Both are values that threads may share or move. The definitions stand in the
//! crate `script_defs`.
#![tactic(auto)]

mod files;
mod head;
mod items;
mod numbers;
mod print;
mod read;
mod reader;
mod reply;
mod reply_words;
mod said;
mod script;
mod transcript;
mod words;

pub use items::Items;
pub use print::print_transcript;
pub use read::read_script;
pub use reply::Reply;
pub use reply_words::push_bits;
pub use script::Script;
pub use script_defs::{Command, EntryKind, FileUse, Kind, Line, ScriptError};
pub use transcript::Transcript;

#[cfg(test)]
mod tests;
