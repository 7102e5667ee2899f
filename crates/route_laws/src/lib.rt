//! The laws of placing and routing, whose definitions stand in `route_defs`.
//!
//! Each function of this crate does nothing. Its contract is a law, which whoever calls it can rely
//! on: a configuration that places mapped cells has their outputs, and the words of `specs/Words`
//! are those of such a configuration.
#![tactic(auto)]

mod laws;

pub use laws::{
    placed_cells_have_their_bits, placed_configuration_has_the_outputs, words_place_the_cells,
};
