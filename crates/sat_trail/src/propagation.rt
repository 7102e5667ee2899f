//! Propagation: each literal that became true is passed on to the watches of its negation, until none is left,
//! and then the loose clauses are looked at; if these forced literals, it goes on.

ghost use Rattle.std.specs.Prelude.{◌≡◌, ℕ, length, get_or, Some, IfSome, IfNone};
ghost use Rattle.clause_defs.specs.Clauses.{Lits};
ghost use Rattle.link_lists.specs.Linked.{list_at};
ghost use Rattle.trail_defs.specs.Assignments.{IsSettled};
ghost use Rattle.sat_trail.specs.Visits.{IsInConflict};
ghost use Rattle.sat_trail.specs.Looks.{Keeps, IsPassing};

use crate::levels::Values;
use crate::loose::settle_loose;
use crate::spread::spread;
use crate::watches::Watches;
use pch_region::Region;

// Passes all literals on. `done` counts those that were.
fn pass_on(
    region: &Region,
    watches: &mut Watches,
    values: &mut Values,
    level: u32,
    done: &mut u32,
) -> Option<u32>
    requires passing { IsPassing region.now.held values.old.assignment.variables
        watches.old.watch.items watches.old.links values.old.assignment.lits
        values.old.levels.items values.old.reasons.items done.old }
    ensures passing { IsPassing region.now.held values.new.assignment.variables
        watches.new.watch.items watches.new.links values.new.assignment.lits
        values.new.levels.items values.new.reasons.items done.new }
    ensures variables { values.new.assignment.variables ≡ values.old.assignment.variables }
    ensures keeps { Keeps region.now.held values.old.assignment.variables level
        (list_at watches.old.links.lists 1) (list_at watches.new.links.lists 1)
        watches.old.watch.items values.old.assignment.lits
        values.old.levels.items values.old.reasons.items
        watches.new.watch.items values.new.assignment.lits
        values.new.levels.items values.new.reasons.items }
    ensures conflict { IfSome result (λ k. IsInConflict region.now.held values.new.assignment.lits k) }
    ensures all { IfNone result (done.new ≡ length values.new.assignment.lits) }
{
    while values.assignment.len() > *done as usize {
        let l = values.assignment.get(*done as usize);
        match spread(region, watches, values, level, l.negated()) {
            Some(number) => return Some(number),
            None => *done += 1,
        }
    }
    None
}

/// Passes all literals on and settles the loose clauses. Answers a clause in conflict, if it met one.
pub fn propagate(
    region: &Region,
    watches: &mut Watches,
    values: &mut Values,
    level: u32,
    done: &mut u32,
) -> Option<u32>
    requires passing { IsPassing region.now.held values.old.assignment.variables
        watches.old.watch.items watches.old.links values.old.assignment.lits
        values.old.levels.items values.old.reasons.items done.old }
    ensures variables { values.new.assignment.variables ≡ values.old.assignment.variables }
    ensures passing { IsPassing region.now.held values.new.assignment.variables
        watches.new.watch.items watches.new.links values.new.assignment.lits
        values.new.levels.items values.new.reasons.items done.new }
    ensures keeps { Keeps region.now.held values.old.assignment.variables level
        (list_at watches.old.links.lists 1) (list_at watches.new.links.lists 1)
        watches.old.watch.items values.old.assignment.lits
        values.old.levels.items values.old.reasons.items
        watches.new.watch.items values.new.assignment.lits
        values.new.levels.items values.new.reasons.items }
    ensures conflict { IfSome result (λ k. IsInConflict region.now.held values.new.assignment.lits k) }
    ensures settled { IfNone result ((b : ℕ) (c : Lits)
        → get_or region.now.held b None ≡ Some c → IsSettled values.new.assignment.lits c) }
{
    loop {
        match pass_on(region, watches, values, level, done) {
            Some(number) => return Some(number),
            None => {}
        }
        match settle_loose(region, watches, values, level) {
            Some(number) => return Some(number),
            None => {}
        }
        if *done as usize == values.assignment.len() {
            return None;
        }
    }
}
