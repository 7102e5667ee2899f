//! The least fabric of which the mapping of a net needs no more than is there.
//!
//! What comes in is a net, what goes out is a geometry: as many columns as the mapped cells take, as
//! many rows as the fullest column has cells, as many tracks as the fullest channel has live signals,
//! and a pad for each input and each output. Where a limit of fabrics is less, it is the limit, and
//! the net isn't placed there. The definition stands in `specs/LeastFabrics`.
#![tactic(auto)]

mod least;
#[cfg(test)]
mod tests;

pub use least::least_fabric;
