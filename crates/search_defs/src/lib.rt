//! What a search by clause learning keeps, and how it ends.
//!
//! The search stands between a log and a trail: `specs/Solving` says what ties the two, and
//! `specs/Ends` how the search ends. The functions here do nothing. Each has a law as its contract: that
//! the search begins so, that each of its steps keeps it so, also where it forgets clauses or puts one
//! back, and that what a conflict teaches is new to the log or forgotten, so that the search gets on.
#![tactic(auto)]

mod end;
mod laws;
mod standing;

pub use end::CdclEnd;
pub use standing::Standing;
