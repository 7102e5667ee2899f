//! The values of a miter's variables at an input, each with the clause that leaves no other value.
//!
//! Both circuits are evaluated in an order in which each variable comes after those that it depends on:
//! the inputs and the one that is false, the nodes of the net in an order of evaluation with the rows of
//! each before it, the cells of the cone by number, and the differences of the outputs.
//!
//! `specs/Growing` says how more variables get values, `specs/Parts` which variables belong to which
//! part of the circuits.
#![tactic(auto)]

mod inputs;
mod nodes;
mod outputs;
mod parts;
mod rows;
mod values;

pub use values::MiterValues;
