//! Loose clauses: those of which no two literals could be watched so far.
//!
//! Each is looked at whole, at the end of `propagate`. Where two of its literals aren't false, it is bound by
//! them. Where one isn't, that one has to be true, and if another one became false on the present level, the
//! clause is bound by these two: they lose their values together, or the false one does first. Where none is,
//! the clause is in conflict. So a clause stays loose only while all of its literals but one are false since
//! an earlier level.

ghost use Rattle.std.specs.Prelude.{◌≡◌, ◌≢◌, ℕ, ◌+◌, ◌^◌, ◌<◌, ◌≤◌, length, get_or, IfSome, IfNone};
ghost use Rattle.clause_defs.specs.Literals.{Literal, negation, code};
ghost use Rattle.clause_defs.specs.Clauses.{Has, WithinVariables};
ghost use Rattle.link_lists.specs.Linked.{list_at};
ghost use Rattle.sat_trail.specs.Visits.{IsInConflict};
ghost use Rattle.sat_trail.specs.Looks.{IsResting, HasMarks, Keeps};
ghost use Rattle.sat_trail.specs.Loosening.{loose_in, IsSettling, AreSettledIn, IsSettlingOutcome, AreBound, IsForced};

use crate::levels::{Values, imply};
use crate::spread::Look;
use crate::visit::open_literal;
use crate::watches::Watches;
use assignment::Assignment;
use pch_base::Lit;
use pch_region::{Block, Region};

// A literal that isn't false.
fn first_open(lits: &[Lit], values: &Assignment) -> Option<Lit>
    requires { WithinVariables values.now.variables lits.now }
    ensures member { IfSome result (λ m. Has lits.now m) }
    ensures open { IfSome result (λ m. Has values.now.lits (negation m) → ⊥) }
    ensures none { IfNone result ((m : Literal) → Has lits.now m → Has values.now.lits (negation m)) }
{
    for &m in lits {
        if values.holds(m.negated()) {
            continue;
        }
        return Some(m);
    }
    None
}

// A false literal but `o` that got its value on this level.
fn late_literal(lits: &[Lit], values: &Values, level: u32, o: Lit) -> Option<Lit>
    requires within { WithinVariables values.now.assignment.variables lits.now }
    requires marks { HasMarks values.now.assignment.variables
        values.now.levels.items values.now.reasons.items }
    ensures member { IfSome result (λ m. Has lits.now m) }
    ensures apart { IfSome result (λ m. m ≢ o) }
    ensures late { IfSome result (λ m. get_or values.now.levels.items m.variable 0 ≡ level) }
{
    for &m in lits {
        if m == o || values.levels[m.variable() as usize] != level {
            continue;
        }
        return Some(m);
    }
    None
}

// Gives the only literal of a clause that isn't false its value, if it has none.
fn force(values: &mut Values, l: Lit, level: u32, number: u32)
    requires open { Has values.old.assignment.lits (negation l) → ⊥ }
    requires within { l.variable ≤ values.old.assignment.variables }
    requires marks { HasMarks values.old.assignment.variables
        values.old.levels.items values.old.reasons.items }
    requires some { number ≢ 0 }
    ensures variables { values.new.assignment.variables ≡ values.old.assignment.variables }
    ensures marks { HasMarks values.new.assignment.variables
        values.new.levels.items values.new.reasons.items }
    ensures forced { IsForced level l number
        values.old.assignment.lits values.old.levels.items values.old.reasons.items
        values.new.assignment.lits values.new.levels.items values.new.reasons.items }
{
    if !values.assignment.holds(l) {
        imply(values, l, level, number);
    }
}

// The clause is watched by these literals from now on.
fn bind(watches: &mut Watches, w: u32, first: Lit, second: Lit)
    requires within { w + 1 < watches.old.links.size }
    requires few { watches.old.links.size < 2 ^ 32 }
    requires size { length watches.old.watch.items ≡ watches.old.links.size }
    requires first_list { code first < length watches.old.links.lists }
    requires second_list { code second < length watches.old.links.lists }
    requires out { (k : ℕ) → Has (list_at watches.old.links.lists k) w → ⊥ }
    requires other_out { (k : ℕ) → Has (list_at watches.old.links.lists k) (w + 1) → ⊥ }
    ensures size { watches.new.links.size ≡ watches.old.links.size }
    ensures bound { AreBound w first second watches.old.watch.items watches.old.links.lists
        watches.new.watch.items watches.new.links.lists }
{
    watches.watch[w as usize] = first;
    watches.watch[w as usize + 1] = second;
    watches.links.push(first.code(), w);
    watches.links.push(second.code(), w + 1);
}

// Looks at the next loose clause in list 0.
fn settle_next(region: &Region, watches: &mut Watches, values: &mut Values, level: u32) -> Look
    requires settling { IsSettling region.now.held values.old.assignment.variables
        watches.old.watch.items watches.old.links }
    requires marks { HasMarks values.old.assignment.variables values.old.levels.items values.old.reasons.items }
    ensures settling { IsSettling region.now.held values.new.assignment.variables
        watches.new.watch.items watches.new.links }
    ensures marks { HasMarks values.new.assignment.variables values.new.levels.items values.new.reasons.items }
    ensures variables { values.new.assignment.variables ≡ values.old.assignment.variables }
    ensures keeps { Keeps region.now.held values.old.assignment.variables level
        (loose_in watches.old.links.lists) (loose_in watches.new.links.lists)
        watches.old.watch.items values.old.assignment.lits
        values.old.levels.items values.old.reasons.items
        watches.new.watch.items values.new.assignment.lits
        values.new.levels.items values.new.reasons.items }
    ensures outcome { IsSettlingOutcome region.now.held watches.old.links.lists values.old.assignment.lits
        watches.new.links.lists values.new.assignment.lits result }
{
    let w = match watches.links.pop(0) {
        Some(w) => w,
        None => return Look::Done,
    };
    let lits = region.get(Block::from_name(w / 2));
    let first = match first_open(lits, &values.assignment) {
        Some(first) => first,
        None => {
            watches.links.push(1, w);
            return Look::Conflict(w / 2 + 1);
        }
    };
    match open_literal(lits, &values.assignment, first) {
        Some(second) => {
            bind(watches, w, first, second);
            Look::On
        }
        None => {
            force(values, first, level, w / 2 + 1);
            match late_literal(lits, values, level, first) {
                Some(second) => {
                    bind(watches, w, first, second);
                    Look::On
                }
                None => {
                    watches.links.push(1, w);
                    Look::On
                }
            }
        }
    }
}

/// Looks at all loose clauses once. Answers one in conflict, if it met one.
pub fn settle_loose(
    region: &Region,
    watches: &mut Watches,
    values: &mut Values,
    level: u32,
) -> Option<u32>
    requires resting { IsResting region.now.held values.old.assignment.variables
        watches.old.watch.items watches.old.links }
    requires marks { HasMarks values.old.assignment.variables values.old.levels.items values.old.reasons.items }
    ensures resting { IsResting region.now.held values.new.assignment.variables
        watches.new.watch.items watches.new.links }
    ensures marks { HasMarks values.new.assignment.variables values.new.levels.items values.new.reasons.items }
    ensures variables { values.new.assignment.variables ≡ values.old.assignment.variables }
    ensures keeps { Keeps region.now.held values.old.assignment.variables level
        (list_at watches.old.links.lists 1) (list_at watches.new.links.lists 1)
        watches.old.watch.items values.old.assignment.lits
        values.old.levels.items values.old.reasons.items
        watches.new.watch.items values.new.assignment.lits
        values.new.levels.items values.new.reasons.items }
    ensures conflict { IfSome result (λ k. IsInConflict region.now.held values.new.assignment.lits k) }
    ensures settled { IfNone result (AreSettledIn region.now.held watches.new.links.lists
        values.new.assignment.lits) }
{
    let mut conflict = None;
    watches.links.turn(1, 0);
    loop {
        match settle_next(region, watches, values, level) {
            Look::Done => return conflict,
            Look::On => {}
            Look::Conflict(number) => conflict = Some(number),
        }
    }
}
