//! Laws of fabrics and their configurations, for other crates to cite.
//!
//! A configuration and the bits of the input pads have exactly one wiring, so the bits of cells and
//! output pads are determined by them. The words of a configuration have their ranges, bytes are
//! one configuration or have one first fault, and where the input bits are bits, all of them are.
//! The definitions stand in `fabric_defs`; `specs/Columns` and `specs/Ranges` say what words have
//! to keep. Of the lemmas, those on sizes and places are in `proofs/LayoutLemmas`, on the words of
//! each part in `proofs/LimitLemmas` and `proofs/PartLemmas`, on tables of several words in
//! `proofs/TableLemmas`, and on lists that a function of the place gives in
//! `proofs/NumberedLemmas`.
#![tactic(auto)]

mod laws;

pub use laws::{
    bits_are_bits, bytes_have_one_configuration_or_fault, cell_bit_is_unique, outputs_are_unique,
    wiring_exists_and_is_unique, words_have_their_ranges,
};
