//! What the last conflict of a search taught: a clause, and the chain by which it follows.
//!
//! A [`Lesson`] is made anew by each conflict, in memory that is taken once. It is derived in the log if
//! its words are within the search's limit. `specs/Lessons` says what contracts see of it.
#![tactic(auto)]

mod lesson;

pub use lesson::Lesson;
