//! The outside: stores of files, sinks of output, and gates that lanes pass.
//!
//! A store or a sink has two meanings: what it holds, where it tells that, and a count of faults that
//! never falls. `specs/Outside` says what each call does to them. The implementations in memory tell
//! what they hold; those over real files and standard output tell nothing.
#![tactic(auto)]

mod calls;
mod faults;
mod file_store;
mod gate;
mod hold_gate;
mod mem_sink;
mod mem_store;
mod named_files;
mod out_sink;
mod sink;
mod store;
#[cfg(test)]
mod tests;
mod whole;

pub use file_store::FileStore;
pub use gate::{Gate, OpenGate};
pub use hold_gate::{Hold, HoldGate, Point, PointKind};
pub use mem_sink::MemSink;
pub use mem_store::{MemStore, NoFaultStore};
pub use out_sink::OutSink;
pub use sink::{PutFail, Sink};
pub use store::{LoadFail, SaveFail, Store};
