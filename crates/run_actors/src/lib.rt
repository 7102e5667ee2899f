//! Sessions: the commands of a script run on a device with slots, and their transcript is kept.
//!
//! What comes in are a script and its loaded files, what goes out is a transcript of them.
//! `run_in_order` runs lane after lane. The definition of a transcript stands in the crate
//! `session_defs`; here `specs/Loading` says what the loaded files hold, `specs/Lines` how entries
//! look in a transcript, `specs/Steps` what one command does, and `specs/Progress` what holds of the
//! commands so far.
#![tactic(auto)]

mod changes;
mod deliveries;
mod device;
mod lanes;
mod lines;
mod loaded;
mod queries;
mod running;
#[cfg(test)]
mod tests;
mod turn;

pub use loaded::{Loaded, are_loaded};
pub use running::run_in_order;
