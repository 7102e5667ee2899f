//! The checker of traces with its chains divided among threads: the same verdict as that of one
//! thread, for every number of pieces.
//!
//! A trace, a list of clauses and a number of pieces come in, a verdict goes out. Clauses whose
//! literals the trace doesn't state are computed first, in rounds, since a clause needs its antecedents
//! (`progress`, by the plan of `rounds`). Then each piece is a run of places of the
//! trace, whose clauses are checked on their own (`pieces`). The workers share what is known and write
//! nothing that another reads.
#![tactic(auto)]

mod pieces;
mod progress;
mod rounds;

pub use pieces::check_pieces;
