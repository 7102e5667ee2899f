//! Placing a network on a fabric: it is mapped to cells, and these are placed and their signals routed.
//!
//! What comes in is a net, what goes out is a configuration that computes it, or the first resource of
//! which more is needed than the fabric has. `specs/Placings` says which configurations place a network.
#![tactic(auto)]

mod placing;

pub use placing::place;
