//! The trail of a search: clauses in a region, literals with their values, levels and reasons, and two
//! watched literals a clause.
//!
//! A clause is looked at only where one of its two watched literals becomes false, so going back
//! touches no clause. A clause of which no two literals could be watched when it came is *loose*: it is
//! looked at whole at each end of `propagate`, until two of its literals aren't false.
//!
//! What a trail means is defined in `trail_defs`; `specs/Watching` says how clauses are watched.
#![tactic(auto)]

mod levels;
mod loose;
mod propagation;
mod spread;
#[cfg(test)]
mod tests;
mod trail;
mod visit;
mod watches;

pub use pch_region::Full;
pub use trail::Trail;
