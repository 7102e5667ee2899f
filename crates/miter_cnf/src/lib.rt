//! The miter of a net and the cells of a configuration: clauses that are satisfiable where an output
//! of the two differs for some input.
//!
//! `miter_clauses` gives the clauses as a list, and `miter` as a set that can be asked whether it has a
//! clause; both want a net that `fits_pads`. `Numbering` says which variable stands for what. The
//! definitions stand in `miter_defs` and the laws in `miter_laws`; `specs/Numbered` says what a
//! numbering rests on, `specs/Circuits` what is known of a net beside cells, `specs/Tables` how the
//! clause of a bit follows from the literals of a cell, and `specs/Writing` how clauses are added.
//!
//! Variables, from 1: one that is false; the inputs and the nodes of the net; the rows by node; the
//! cells of the cone by number; the differences of the outputs. Clauses, in the same order: the false
//! one; for each node its rows and then the node; for each cell of the cone a clause for each bit of
//! its table; for each output four clauses; at last that some output differs.
#![tactic(auto)]

mod circuits;
mod formula;
mod nodes;
mod numbering;
mod outputs;
mod sums;
mod tables;
mod writer;

pub use formula::{fits_pads, miter, miter_clauses};
pub use numbering::Numbering;

#[cfg(test)]
mod tests;
