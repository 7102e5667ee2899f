//! The laws of cells and their sources, whose definitions stand in `cell_defs`.
//!
//! Each function of this crate does nothing. Its contract is a law, which whoever calls it can rely
//! on: a configuration has one list of cells with one cone, the equations of cells have exactly one
//! solution, and that solution gives the bits of the configured fabric. For its output pads the
//! cone is enough.
#![tactic(auto)]

mod laws;

pub use laws::{
    bits_exist, cells_are_unique, cells_have_their_bits, cone_determines_the_outputs,
    configuration_has_cells, sources_are_cells,
};
