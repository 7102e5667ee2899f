//! The laws of the networks that designs and texts describe, of nets that pair by their names, and of
//! nets whose inputs and outputs are put into the order of another. The definitions stand in
//! `net_defs`.
//!
//! Each function of this crate does nothing. Its contract is a law, which whoever calls it can rely
//! on.
#![tactic(auto)]

mod aligning;
mod pairing;
mod specifying;

pub use aligning::{
    aligned_network_has_the_interface, aligned_network_has_the_outputs, aligned_network_is_a_net,
    aligned_network_is_unique, reordered_list_exists_and_is_unique,
};
pub use pairing::{interface_exists_and_is_unique, pairing_pairs_each_place};
pub use specifying::{design_has_one_network_or_fault, text_has_one_network_or_fault};
