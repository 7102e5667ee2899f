//! Clauses that can be looked up by their literals, also where the clauses are chosen to make that slow.
//!
//! A clause stands in one of the few slots that a hash of its literals says. A clause whose slots are
//! taken stands in one of the few sorted runs behind them. A look-up looks at the slots of one group,
//! and searches each run by halves. Contracts say what is found, where a clause may stand, and that
//! there are never more than [`MOST_RUNS`](runs::MOST_RUNS) runs; that no more is looked at is read off the
//! code. All is kept in flat arrays, for which the memory is taken when the index is made.
#![tactic(auto)]

mod index;
mod order;
mod runs;
mod slots;

pub use index::ClauseIndex;
