//! The journal of a device with slots, and what the slots answer after it, as definitions that other
//! crates speak of.
//!
//! `specs/Journals` has the entries of a journal and what a slot has after them: the agreed network
//! and the running configuration. `specs/Legality` says which journals are legal, and `specs/Replies`
//! what is answered of a slot. All is said of finished lists of entries; nobody who makes an entry or
//! asks a question is named, and no order of doing so.
#![tactic(auto)]

mod laws;

pub use laws::{
    appended_entry_changes_its_slot_alone, appended_journals_are_legal, legal_outputs_are_agreed,
    prefixes_are_legal, running_configurations_are_equal,
};
