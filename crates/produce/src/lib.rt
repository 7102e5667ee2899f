//! The producer: from a specification and a design to a bundle that every consumer accepts.
//!
//! The design is put into the order of the specification's names, mapped, placed and routed, and the
//! miter of the specification and the placed design is refuted: by clause learning, and where that finds
//! nothing within its limit, by trying every input, in the same log. The bundle has the placed design and
//! the trace that the log of this refutation is. Where there is none, the answer says why not: a name without
//! a partner, the first resource that is wanting, an input at which the two differ, or the spent budget
//! with the log so far. The definitions of the answers stand in `specs/Endings`, what clause learning
//! finds in `specs/Learning`, and what a bundle is accepted for in `specs/Bundling`.
#![tactic(auto)]

mod aligning;
mod budget;
mod bundling;
mod comparing;
mod differing;
mod learning;
mod placing;
mod produce_end;
mod production;
mod refutation;
mod refuting;

pub use budget::enough;
pub use bundling::printed_log;
pub use differing::{BothOutputs, outputs_at};
pub use produce_end::ProduceEnd;
pub use production::produce;
pub use refutation::{Refutation, refute};

#[cfg(test)]
mod tests;
