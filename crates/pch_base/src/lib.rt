//! The values that every crate of the product shares: numbers both ways, lists of bits, names,
//! literals, and clauses as sets.
#![tactic(auto)]

mod bits;
mod clause;
mod lit;
mod memory;
mod name;
mod numbers;
#[cfg(test)]
mod tests;

pub use bits::Bits;
pub use clause::{Clause, literals_are_within_limits, order_literals};
pub use clause_defs::MAX_VARIABLE;
pub use lit::Lit;
pub use memory::NoMemory;
pub use name::Name;
pub use numbers::{print_number, read_number};
