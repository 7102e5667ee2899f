//! Placing mapped cells on a fabric and routing their signals.
//!
//! `place_route` gives a configuration that places the cells, or the first resource of which more
//! is needed than is there. The definitions stand in `route_defs`, the laws in `place_laws`.
//!
//! The data's way: the columns of the cells give the spans of their signals; both give the
//! demands, of which the first that is over is the refusal. Where none is, each signal gets a
//! seat, the seats get tracks, and the words of all parts are written one after another. A live
//! signal is live on an interval of channels, so a track is never wanting where no channel has too
//! many of them.
#![tactic(auto)]

mod demands;
mod refusal;
mod route;
mod writing;

pub use route::place_route;
