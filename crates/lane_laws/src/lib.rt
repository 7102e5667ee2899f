//! Lanes that end apart make one transcript.
//!
//! A lane ends knowing what it has seen itself (`LaneEnds` of `session_defs`). Where each lane has seen
//! the whole journal, and the lanes made as many entries as the journal has, what they were replied is
//! a transcript. Entries of different lanes or turns are different, so by counting each entry is one
//! of a lane, and the journal has no other. No thread, lock or order of running is named.
//!
//! `proofs/Later` and `proofs/Turns` keep what a lane knows where it sees more, and are used by the
//! crates that run lanes.
#![tactic(auto)]

mod laws;

pub use laws::lanes_make_a_transcript;
