//! A region: one run of words for many lists of literals that come and go.
//!
//! A list is put as a block, which has a name until it is freed. New blocks are written at the end of
//! the run. Where a block would fit but for the holes that freed ones left, the live blocks are first
//! moved together, in place; their names stay. All memory is taken when the region is made.
//!
//! Contracts see the live blocks as a map from names to lists, and how many words fit
//! (`specs/Blocks`). `specs/Places` says how the blocks lie in the run.
#![tactic(auto)]

mod block;
mod closing;
mod memory;
mod places;
mod region;
#[cfg(test)]
mod tests;

pub use block::{Block, Full};
pub use region::Region;
