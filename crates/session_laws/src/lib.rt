//! What follows from being a transcript, as laws that other crates cite: the journal that its lines
//! mean is legal, so that each output in it is one of the agreed specification, and in a script of
//! one lane each point is the number of entries so far.
#![tactic(auto)]

mod laws;

pub use laws::{meant_journals_are_legal, outputs_are_agreed, points_of_one_lane_count};
