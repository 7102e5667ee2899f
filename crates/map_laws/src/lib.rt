//! The laws of mapped cells and of the reference mapping, whose definitions stand in `map_defs`.
//!
//! Each function of this crate does nothing. Its contract is a law, which whoever calls it can rely
//! on: settled cells have exactly one list of bits and one of columns, and the one reference mapping of
//! a net is a list of mapped cells whose outputs are the network's.
#![tactic(auto)]

mod laws;

pub use laws::{
    columns_exist, mapped_bits_exist, reference_cells_are_narrow, reference_has_the_outputs,
    reference_is_mapped, reference_is_unique,
};
