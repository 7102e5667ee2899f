//! The mapping of a net to cells of lookup tables.
//!
//! `Luts` are mapped cells with their columns, handed in (`Luts::new`) or made from a net: `map` gives
//! the reference mapping, which has the nodes that an output needs, in the order of the file, each as
//! one cell or, where it has more than four fan-ins, as the cells that join its rows. The definitions
//! stand in `map_defs` and the laws in `map_laws`; among the laws is that the outputs of the mapping
//! are those of the net.
//!
//! The data's way: `needed` marks the nodes; `nodes` makes the cells of each node by itself, over its
//! own fan-ins, with `tables` and `gates`; `placing` puts them among those of all nodes; `columns`
//! finds the column of each cell.
#![tactic(auto)]

mod columns;
mod gates;
mod lut_cell;
mod luts;
mod made;
mod mapping;
mod needed;
mod nodes;
mod parts;
mod placing;
mod tables;
#[cfg(test)]
mod tests;

pub use lut_cell::LutCell;
pub use luts::Luts;
pub use mapping::map;
