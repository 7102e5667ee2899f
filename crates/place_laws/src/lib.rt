//! The laws on which the placing of mapped cells stands.
//!
//! Each function of this crate does nothing. Its contract is a law, which whoever calls it can rely
//! on: where no resource is wanting there is room for the cells and a track for each live signal,
//! and the listed words of `route_laws` are a configuration that places the cells. Of the lemmas,
//! those on demands are in `proofs/RoomLemmas`, on seats in `proofs/SeatingLemmas`, on the words of
//! channels in `proofs/TrackLemmas`, on words by place in `proofs/ListingLemmas`, and on the whole
//! in `proofs/PlacingLemmas`. What is placed is read back as the mapped cells.
#![tactic(auto)]

mod laws;

pub use laws::{
    first_over_is_unique, listed_words_place_the_cells, met_demands_leave_room,
    placed_cells_are_read_back,
};
