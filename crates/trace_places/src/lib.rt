//! Where the indices of a trace's clauses stand.
//!
//! A reader looks up each antecedent of a trace by its index. Small indices stand in a table, which is
//! no longer than its maker allows, and the others in groups of slots by a hash. A look-up looks at the
//! slots of one group, and an index whose group is full stands in an ordered map: no index of a text
//! makes a look-up slow, and the memory doesn't depend on the greatest index alone.
#![tactic(auto)]

mod groups;
mod others;
mod places;

pub use places::Places;
