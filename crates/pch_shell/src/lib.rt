//! The program's commands, from words to the text that is written and the exit status.
//!
//! A run goes one way: the words are those of a command; its files are loaded in their order
//! (`loading`); the command works on their bytes (`commands`, a file each) and comes to an `Ending`;
//! what is to be saved is saved, and the text is written by one put (`finishing`). `calls` has the
//! public calls. `specs/Runs` says what a run comes to, and `specs/Check`, `Verify`, `Cnf`, `Compact`,
//! `Place` and `Produce` what each command finds. `sessions` does the same for a session, whose files are named by its
//! script; `specs/Session` says what it finds, and `specs/SessionRuns` what it comes to.
#![tactic(auto)]

mod calls;
mod commands;
mod ending;
mod finishing;
mod loading;
mod sessions;
mod status;
#[cfg(test)]
mod tests;

pub use calls::{command, top};
pub use sessions::session;
pub use status::Status;
