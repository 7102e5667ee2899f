//! The search for a refutation of a miter that tries every input, as definitions that other crates speak
//! of: how it ends (`specs/Trees`), and how many words are enough for it (`specs/Budgets`).
#![tactic(auto)]

mod tree_end;

pub use tree_end::TreeEnd;
