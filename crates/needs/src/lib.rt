//! How many signals are live on each channel, and the first resource of which more is needed than is
//! there.
//!
//! What comes in are the spans of signals, in any order, or a list of demands; what goes out are the
//! needs of all channels, counted in one pass over the signals and one over the channels, or the
//! first demand that is over.
#![tactic(auto)]

mod channels;
mod first;

pub use channels::needs_of;
pub use first::first_over;
