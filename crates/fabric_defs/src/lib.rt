//! Reconfigurable fabrics and their configurations, as definitions that other crates speak of.
//!
//! `specs/Kinds` has the kinds of cells, `specs/Geometries` the numbers of a fabric, `specs/Layout`
//! the order of the words of a configuration and their ranges, `specs/Configurations` which words
//! are a configuration and what each of its parts says, `specs/Spelling` the bytes of words, and
//! `specs/Wirings` the bits of tracks, pins, cells and output pads, as equations. `specs/Bits` and
//! `specs/Numbered` have the words for lists of bits and for lists that a function of the place
//! gives.
#![tactic(auto)]

mod faults;
mod kind;
mod limits;

pub use faults::ConfigError;
pub use kind::CellKind;
pub use limits::{MAX_CELL_WORDS, MAX_PINS, MAX_SIDE, MAX_TRACKS, MAX_WORD, WORD_BITS};
