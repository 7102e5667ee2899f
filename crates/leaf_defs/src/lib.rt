//! Bits of variables that were computed one after another, each by a clause that leaves no other bit,
//! as definitions that other crates speak of (`specs/Evaluated`).
#![tactic(auto)]
