//! The mapping of a network to cells of lookup tables, as definitions that other crates speak of.
//!
//! `specs/Mapped` has the plain record of a list of mapped cells and says which of them are settled,
//! `specs/Outputs` the bits of the cells and of the outputs, as equations, and `specs/Columns` the column
//! of each cell. None of these speaks of a network.
//!
//! The reference mapping of a network stands in four steps: `specs/Needed` has the nodes that an output
//! needs, `specs/Gates` the cells that join any number of terms, four at a time, `specs/NodeCells` the
//! cells of one node, and `specs/Reference` those of all needed nodes, one after another. `specs/Tables`
//! has the tables.
#![tactic(auto)]

mod gate;
mod limits;
mod term;

pub use gate::Gate;
pub use limits::{GROUP, MAX_COUNT, TABLE_BITS};
pub use term::Term;
