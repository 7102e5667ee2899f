//! Nets: acyclic networks that are built from BLIF designs, evaluated, paired and compared.
//!
//! A `Net` is made by `build` from a design, by `read_specification` from a text or by `aligned`
//! from another net, and never changed. `net_defs` says what networks are, what they compute and how
//! they pair, and `net_laws` what follows; here are what a net keeps (`specs/Orders`), the search for
//! an order of its nodes (`specs/Sortings`), the look-up of names (`specs/Index`), the partners of
//! names (`specs/Partners`) and where signals come to as inputs move (`specs/Moves`).
#![tactic(auto)]

mod aligned;
mod copies;
mod equality;
mod eval;
mod from_blif;
mod index;
mod moves;
mod net;
mod network;
mod order;
mod pairing;
mod ports;
mod scratch;
mod specification;

pub use equality::same;
pub use from_blif::build;
pub use net::Net;
pub use net_defs::{InterfaceError, NetError, Side, SpecError};
pub use pairing::{Pairing, same_interface};
pub use scratch::Scratch;
pub use specification::read_specification;

#[cfg(test)]
mod tests;
