//! Scripts of sessions and their transcripts, as definitions that other crates speak of.
//!
//! `specs/Scripts` has the value of a script, `specs/Lines` the lines of a text and their words,
//! `specs/Commands` what a line with a command says, `specs/Reading` what line after line gives, and
//! `specs/Texts` which texts have which value or fault. `specs/Transcripts` has the value of a
//! transcript, and `specs/Printing` its text. They speak of plain lists and records, of the commands
//! of a script and of the one list of faults, `ScriptError`.
#![tactic(auto)]

mod command;
mod error;
mod limits;
mod line;

pub use command::{Command, FileUse, Kind};
pub use error::ScriptError;
pub use limits::{
    MAX_COMMANDS, MAX_JOURNAL, MAX_LANES, MAX_SCRIPT_BYTES, MAX_SLOTS, MAX_SWEEP, MAX_WORKERS,
};
pub use line::{EntryKind, Line};

#[cfg(test)]
mod tests;
