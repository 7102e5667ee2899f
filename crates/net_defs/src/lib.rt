//! Networks and what they compute, as definitions that other crates speak of.
//!
//! `specs/Networks` has the plain record of a network, `specs/Settling` the nodes that the inputs
//! determine, and `specs/Evaluation` the bits of the signals and of the outputs. No order of
//! evaluation is named there; `specs/Orders` says which lists of nodes are one. `specs/Nets` says what
//! every net keeps, and `specs/NetOf` what network a BLIF design describes, or its first fault;
//! `specs/Specifications` says the same of the bytes of a text. `specs/Interfaces` says which nets pair
//! by their names, and `specs/Alignments` what a net is with its inputs and outputs in the order of
//! another.
#![tactic(auto)]

mod faults;
mod interface;
mod laws;
mod specification;

pub use faults::NetError;
pub use interface::{InterfaceError, Side};
pub use laws::{assignment_exists_and_is_unique, outputs_are_unique};
pub use specification::SpecError;
