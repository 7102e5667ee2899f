//! A track for each signal that is live somewhere.
//!
//! What comes in are the spans of signals in the order of their first channels, and how many tracks
//! a channel has. What goes out is a track for each of them. Each track keeps the end of its last
//! signal; a signal takes the first track whose last signal has ended. A track is never wanting
//! where no channel has more live signals than tracks, since the signals on the tracks that are not
//! free are live on this channel too.
#![tactic(auto)]

mod choice;

pub use choice::choose_tracks;
