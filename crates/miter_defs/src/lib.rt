//! Equality of a network and a configuration, and the miter of both, as definitions that other crates
//! speak of. Where no assignment satisfies all clauses of the miter, the two are equal.
//!
//! `specs/Equality` says what equal means, `specs/Numberings` which variable stands for what, and
//! `specs/Miters` has the clauses.
#![tactic(auto)]
