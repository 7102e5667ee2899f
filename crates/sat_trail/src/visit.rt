//! One watch of a literal that became false.
//!
//! The watch stays where the other watch of its clause is true. Otherwise it moves to another literal
//! of the clause that isn't false. Where there is none, the other watch has to be true, or is false and
//! the clause is in conflict.

ghost use Rattle.std.specs.Prelude.{◌≡◌, ◌≢◌, ◌-◌, ◌^◌, ◌<◌, [], IfSome, IfNone};
ghost use Rattle.clause_defs.specs.Literals.{Literal, negation};
ghost use Rattle.clause_defs.specs.Clauses.{Has, WithinVariables};
ghost use Rattle.link_lists.specs.Linked.{list_at};
ghost use Rattle.sat_trail.specs.Watching.{other, HasSizes};
ghost use Rattle.sat_trail.specs.Visits.{IsVisit};
ghost use Rattle.sat_trail.specs.Looks.{IsVisiting};

use crate::watches::Watches;
use assignment::Assignment;
use pch_base::Lit;
use pch_region::{Block, Region};

/// What a visit of one watch shows.
#[derive(Clone, Copy, Debug)]
pub enum Step {
    /// the other watch is true, or the watch moved
    Answered,
    /// the clause of this number has one literal that isn't false: this one, without a value
    Forces(u32, Lit),
    /// all literals of the clause of this number are false
    Conflict(u32),
}

/// The other watch of the same clause.
pub fn other_watch(w: u32) -> u32
    requires { w < 2 ^ 32 - 1 }
    ensures { result ≡ other w }
{
    if w % 2 == 0 { w + 1 } else { w - 1 }
}

/// A literal but `o` that isn't false.
pub fn open_literal(lits: &[Lit], values: &Assignment, o: Lit) -> Option<Lit>
    requires { WithinVariables values.now.variables lits.now }
    ensures member { IfSome result (λ m. Has lits.now m) }
    ensures apart { IfSome result (λ m. m ≢ o) }
    ensures open { IfSome result (λ m. Has values.now.lits (negation m) → ⊥) }
    ensures none { IfNone result
        ((m : Literal) → Has lits.now m → m ≢ o → Has values.now.lits (negation m)) }
{
    for &m in lits {
        if m == o || values.holds(m.negated()) {
            continue;
        }
        return Some(m);
    }
    None
}

/// Visits the next watch of `x`, which is false, if one is left.
pub fn visit(region: &Region, watches: &mut Watches, values: &Assignment, x: Lit) -> Option<Step>
    requires visiting { IsVisiting region.now.held values.now.variables
        watches.old.watch.items watches.old.links x }
    requires is_false { Has values.now.lits (negation x) }
    ensures end { IfNone result (list_at watches.old.links.lists 0 ≡ []) }
    ensures same { IfNone result (watches.new ≡ watches.old) }
    ensures step { IfSome result (λ step. IsVisit region.now.held values.now.lits x
        watches.old.watch.items watches.old.links.lists
        watches.new.watch.items watches.new.links.lists step) }
    ensures sizes { HasSizes region.now.held values.now.variables watches.new.links }
{
    let w = watches.links.pop(0)?;
    let beside = watches.watch[other_watch(w) as usize];
    if values.holds(beside) {
        watches.links.push(x.code(), w);
        return Some(Step::Answered);
    }
    let number = w / 2 + 1;
    match open_literal(region.get(Block::from_name(w / 2)), values, beside) {
        Some(m) => {
            watches.watch[w as usize] = m;
            watches.links.push(m.code(), w);
            Some(Step::Answered)
        }
        None => {
            watches.links.push(x.code(), w);
            Some(if values.holds(beside.negated()) {
                Step::Conflict(number)
            } else {
                Step::Forces(number, beside)
            })
        }
    }
}
