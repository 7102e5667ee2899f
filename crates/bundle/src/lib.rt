//! Bundles: the configuration of a fabric and a trace in one file, with a digest of both.
//!
//! `read_bundle` answers the parts of a bundle's bytes or their first fault, and `print_bundle` the
//! bytes of the parts. The digest shows damage on the way, and nothing about who made the bundle. The
//! definitions stand in the crate `bundle_defs`, and `laws` says what follows from them.
#![tactic(auto)]

mod laws;
mod layout;
mod printing;
mod reading;
mod value;

pub use bundle_defs::BundleError;
pub use laws::{bytes_have_one_bundle_or_fault, printed_bundle_is_read};
pub use printing::print_bundle;
pub use reading::read_bundle;
pub use value::Bundle;

#[cfg(test)]
mod tests;
