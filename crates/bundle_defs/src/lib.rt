//! Bundles: a configuration and a trace for a fabric, in one file, as definitions that other crates
//! speak of.
//!
//! `specs/Bundles` has the bytes of a bundle, and `specs/Faults` the first fault of any other bytes.
#![tactic(auto)]

mod faults;
mod limits;

pub use faults::BundleError;
pub use limits::MAX_BUNDLE_BYTES;
