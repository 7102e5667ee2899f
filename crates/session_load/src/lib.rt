//! The script of a session, and its files in the order of their first mention.
//!
//! `load_script` loads a script and reads it. For the uses of files that it has, `load_files` gives
//! the loaded files, each read as what it is used as, or the first one that can't be used and why. Each
//! specification is read once it is loaded. `specs/Usable` says which files can be used,
//! and `usable_files_describe_nets` that the laws of sessions apply to them.
#![tactic(auto)]

mod fault;
mod files;
mod limits;
mod names;
mod script;
#[cfg(test)]
mod tests;
mod usable;

pub use fault::{FileFault, NoScript, NotUsable};
pub use files::load_files;
pub use limits::MAX_SESSION_BYTES;
pub use names::script_names_are_texts;
pub use script::load_script;
pub use usable::usable_files_describe_nets;
