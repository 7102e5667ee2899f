//! The consumer's judgement: a bundle is accepted where its trace refutes the miter of the agreed
//! network and the bundle's own configuration, which the consumer makes itself.
//!
//! `verify` judges the bytes of a bundle. `Verified` is what it answers where it accepts: a net and a
//! configuration that are equal, which the type keeps. `delivered_miter` gives the miter of a bundle,
//! whatever its trace is. The definitions stand in `verify_defs`, and what follows from them in
//! `verify_laws`.
#![tactic(auto)]

mod delivery;
mod verification;
mod verified;

pub use delivery::delivered_miter;
pub use verification::verify;
pub use verified::Verified;
pub use verify_defs::{MiterError, Refusal};
