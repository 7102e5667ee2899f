//! Extraction: where the pins and output pads of a configured fabric listen, and which cells
//! matter.
//!
//! `extract` gives the `Cells` of a configuration. Tracks only pass bits on, so each pin and each
//! output pad listens in the end to an input pad, to a cell, or nowhere. The cone is the least set
//! of cells that has the cells to which output pads listen, and the cells to which its members
//! listen. A `Cell` is the pins and the table of one cell, lent by the `CellList` that holds them.
//!
//! The definitions stand in `cell_defs` and the laws in `cell_laws`; `specs/CellLists` says how
//! cells lie in flat lists, `specs/Kept` what all cells keep, and `specs/Walks` what is known while
//! the columns are passed.
#![tactic(auto)]

mod cell_list;
mod cells;
mod cone;
mod extraction;
mod sources;
#[cfg(test)]
mod tests;

pub use cell_defs::Source;
pub use cell_list::{Cell, CellList};
pub use cells::Cells;
pub use extraction::extract;
