//! The cells of a configured fabric and where they listen, as definitions that other crates speak
//! of.
//!
//! `specs/Cells` has the plain records of a cell and of the cells of a fabric, `specs/Sources` the
//! cells that a configuration gives, `specs/Cones` the cells that matter to the output pads, and
//! `specs/Evaluation` the bits of cells and output pads, as equations.
#![tactic(auto)]

mod source;

pub use source::Source;
