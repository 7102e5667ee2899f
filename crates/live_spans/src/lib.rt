//! The channels on which the signals of mapped cells are live.
//!
//! What comes in are mapped cells with their columns, and how many columns stand before the last
//! channel; what goes out is the span of each signal, by number: the inputs, and then the cells. A
//! span begins where the signal enters, and is extended by each pin and each output that listens
//! to it.
#![tactic(auto)]

mod uses;

pub use uses::spans_of;
