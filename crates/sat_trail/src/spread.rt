//! All watches of a literal that became false, one after another.
//!
//! They are first turned from the literal's list into list 0, and each visit takes one from there and puts it
//! into the list where it belongs then. So no list is changed in its middle. After a conflict the others are
//! still put back.

ghost use Rattle.std.specs.Prelude.{◌≡◌, ◌≤◌, IfSome, IfNone};
ghost use Rattle.clause_defs.specs.Literals.{negation};
ghost use Rattle.clause_defs.specs.Clauses.{Has};
ghost use Rattle.link_lists.specs.Linked.{list_at};
ghost use Rattle.sat_trail.specs.Watching.{AreAnswered};
ghost use Rattle.sat_trail.specs.Looks.{IsVisiting, IsResting, HasMarks, Keeps, IsOutcome};
ghost use Rattle.sat_trail.specs.Visits.{IsInConflict};

use crate::levels::{Values, imply};
use crate::visit::{Step, visit};
use crate::watches::Watches;
use pch_base::Lit;
use pch_region::Region;

/// How far the watches of a literal have been visited.
#[derive(Clone, Copy, Debug)]
pub enum Look {
    /// none is left
    Done,
    /// one more was visited
    On,
    /// one more was visited, and the clause of this number is in conflict
    Conflict(u32),
}

// Visits the next watch of `x`, and gives the literal that it forces its value.
fn visit_next(
    region: &Region,
    watches: &mut Watches,
    values: &mut Values,
    level: u32,
    x: Lit,
) -> Look
    requires visiting { IsVisiting region.now.held values.old.assignment.variables
        watches.old.watch.items watches.old.links x }
    requires marks { HasMarks values.old.assignment.variables values.old.levels.items values.old.reasons.items }
    requires is_false { Has values.old.assignment.lits (negation x) }
    ensures visiting { IsVisiting region.now.held values.new.assignment.variables
        watches.new.watch.items watches.new.links x }
    ensures marks { HasMarks values.new.assignment.variables values.new.levels.items values.new.reasons.items }
    ensures variables { values.new.assignment.variables ≡ values.old.assignment.variables }
    ensures loose { list_at watches.new.links.lists 1 ≡ list_at watches.old.links.lists 1 }
    ensures keeps { Keeps region.now.held values.old.assignment.variables level
        (list_at watches.old.links.lists 1) (list_at watches.new.links.lists 1)
        watches.old.watch.items values.old.assignment.lits
        values.old.levels.items values.old.reasons.items
        watches.new.watch.items values.new.assignment.lits
        values.new.levels.items values.new.reasons.items }
    ensures outcome { IsOutcome region.now.held x
        watches.old.watch.items watches.old.links.lists values.old.assignment.lits
        watches.new.watch.items watches.new.links.lists values.new.assignment.lits result }
{
    let step = match visit(region, watches, &values.assignment, x) {
        Some(step) => step,
        None => return Look::Done,
    };
    match step {
        Step::Answered => Look::On,
        Step::Conflict(number) => Look::Conflict(number),
        Step::Forces(number, l) => {
            imply(values, l, level, number);
            Look::On
        }
    }
}

/// Visits all watches of `x`, which is false. Answers a clause in conflict, if it met one.
pub fn spread(
    region: &Region,
    watches: &mut Watches,
    values: &mut Values,
    level: u32,
    x: Lit,
) -> Option<u32>
    requires resting { IsResting region.now.held values.old.assignment.variables
        watches.old.watch.items watches.old.links }
    requires marks { HasMarks values.old.assignment.variables values.old.levels.items values.old.reasons.items }
    requires is_false { Has values.old.assignment.lits (negation x) }
    requires within { x.variable ≤ values.old.assignment.variables }
    ensures resting { IsResting region.now.held values.new.assignment.variables
        watches.new.watch.items watches.new.links }
    ensures marks { HasMarks values.new.assignment.variables values.new.levels.items values.new.reasons.items }
    ensures variables { values.new.assignment.variables ≡ values.old.assignment.variables }
    ensures loose { list_at watches.new.links.lists 1 ≡ list_at watches.old.links.lists 1 }
    ensures keeps { Keeps region.now.held values.old.assignment.variables level
        (list_at watches.old.links.lists 1) (list_at watches.new.links.lists 1)
        watches.old.watch.items values.old.assignment.lits
        values.old.levels.items values.old.reasons.items
        watches.new.watch.items values.new.assignment.lits
        values.new.levels.items values.new.reasons.items }
    ensures conflict { IfSome result (λ k. IsInConflict region.now.held values.new.assignment.lits k) }
    ensures answered { IfNone result (AreAnswered watches.new.watch.items watches.new.links.lists
        values.new.assignment.lits x) }
{
    let mut conflict = None;
    watches.links.turn(x.code(), 0);
    loop {
        match visit_next(region, watches, values, level, x) {
            Look::Done => return conflict,
            Look::On => {}
            Look::Conflict(number) => conflict = Some(number),
        }
    }
}
