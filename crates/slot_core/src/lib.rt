//! The slots of a running device and its journal.
//!
//! A `Table` has both: it is changed by `apply` alone, which appends one entry to the journal and
//! changes the slot of that entry. Its type keeps that the journal is legal and that each slot has
//! what it has after the journal, so that whatever runs in a slot computes the agreed net. An entry
//! comes in as a `Ready`, with all the owners that a table needs of what the entry shares, so that
//! `apply` takes no memory; the room of the journal is taken by `Table::new`. `answer` is what a slot
//! answers to a cycle.
//!
//! A table has no cell and no handle, so threads can share it and move it. The definitions of
//! journals and replies stand in the crate `journal_defs`; here `specs/Entries` has the plain value
//! of an entry, `specs/Slots` what a slot has after a journal, `specs/Tables` what a table keeps, and
//! `specs/Cycles` the replies to a cycle. Contracts speak of shared nets and configurations by their
//! values alone.
#![tactic(auto)]

mod cycle;
mod entry;
mod place;
mod ready;
mod slot;
mod table;
#[cfg(test)]
mod tests;

pub use cycle::{Cycle, answer};
pub use entry::Entry;
pub use ready::Ready;
pub use slot::Slot;
pub use table::Table;
