//! In which order a search decides its variables, and with which value.
//!
//! Each variable has an activity, which grows where it meets conflicts, and the value that it had last.
//! Nothing of the search's answers rests on either: they only tell where it looks first.
#![tactic(auto)]

mod order;
#[cfg(test)]
mod tests;

pub use order::DecisionOrder;
