//! A table of slots in two published copies, and who looks at it while entries are made.
//!
//! One `Publisher` makes the entries: it changes the copy that nobody reads, and publishes it at one
//! step. Each `Evaluator` enters the copy that is published, without waiting and without memory, and
//! answers of it alone. So every answer is that of one legal journal, which begins with all that this
//! evaluator has seen or learned before.
//!
//! A `Front` stands for a beginning of the journal. A publisher gives one with each entry, and an
//! evaluator that learns it sees no less from then on.
//!
//! An evaluator reads through a `Place`: a `LivePlace` is one reader of the published copies, and a
//! `StillPlace` holds a table that never changes. `specs/Values` has what contracts see of all these,
//! `specs/Places` what entering does, `specs/Stills` what a `StillPlace` sees, `specs/Answers` what is answered, `specs/Publishing` what an
//! entry does, `specs/Rule` what holds of the copies between any two steps, and `specs/Histories` what
//! holds of the history that fronts are of.
#![tactic(auto)]

mod answers;
mod evaluator;
mod front;
mod judging;
mod live;
mod place;
mod published;
mod publisher;
mod read_end;
mod receipt;
mod rule;
mod still;
mod tasks;
#[cfg(test)]
mod tests;

pub use answers::{Look, Since, Sweep};
pub use evaluator::EvaluatorOver;
pub use front::Front;
pub use judging::{Standing, standing_of};
pub use live::{Evaluator, LivePlace};
pub use place::{Gone, Place, Task};
pub use publisher::Publisher;
pub use read_end::ReadEnd;
pub use receipt::Receipt;
pub use still::{StillPlace, still_place_is_never_gone};
