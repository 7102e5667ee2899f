//! The words of a configuration, part by part: those of the tracks of a channel, of a cell, of pins
//! and of output pads.
//!
//! What comes in are the spans and tracks of seats, and where pins and outputs listen; what goes
//! out are words, each part behind those before it. The definitions stand in `route_laws`.
#![tactic(auto)]

mod cells;
mod channels;

pub use cells::{push_cell, push_off, tapped_word};
pub use channels::{hold, push_channel};
