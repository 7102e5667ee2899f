//! What a consumer accepts, as definitions that other crates speak of: a bundle whose trace refutes the
//! miter of the agreed network and the bundle's own configuration.
//!
//! `specs/Acceptance` says which bundles are accepted, `specs/Refusals` why any other isn't, and
//! `specs/Deliveries` which miter a bundle gives with a network, whatever its trace is, and
//! `specs/Compacting` the bundle with a compacted trace.
#![tactic(auto)]

mod miter_error;
mod refusal;

pub use miter_error::MiterError;
pub use refusal::Refusal;
