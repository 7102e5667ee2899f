//! Rows for cells, and seats for signals.
//!
//! What comes in are the columns of cells and the spans of signals by number; what goes out are the
//! rows of the cells, and the spans of the seats, which stand in the order of first channels, each
//! with the number of the signal that has it. The definitions stand in `route_laws`.
#![tactic(auto)]

mod rows;
mod seating;

pub use rows::{Rows, rows_of};
pub use seating::{Seating, seats_of, take_seats};
