//! Variables are decided, and the consequences drawn, until a clause is in conflict or each variable has
//! a value.

ghost use Rattle.std.specs.Prelude.{◌≡◌, ℕ, true, ◌+◌, ◌<◌, ◌≤◌, ◌⊎◌, Some, None, IfSome, IfNone};
ghost use Rattle.clause_defs.specs.Clauses.{Lits};
ghost use Rattle.clause_defs.specs.declared.verdict.TheConstants.{MAX_VARIABLE};
ghost use Rattle.trail_defs.specs.Assignments.{IsConflict, IsSatisfied, IsFree};
ghost use Rattle.trail_defs.specs.Trails.{clause_at, IsTrail, HasSameClauses};
ghost use Rattle.settled_levels.specs.Levels.{IsSettledBelow};
ghost use Rattle.search_defs.specs.Ends.{IsTotal};

use decision_order::DecisionOrder;
use pch_base::Lit;
use sat_trail::Trail;

/// Decides variables in their order and draws the consequences. Answers the number of the clause that
/// is in conflict then, or None, where each variable has a value.
pub fn descend(trail: &mut Trail, order: &DecisionOrder, variables: u32) -> Option<u32>
    requires variables { variables ≡ trail.old.variables }
    requires few { variables ≤ MAX_VARIABLE }
    requires order { order.now ≡ variables + 1 }
    requires settled { IsSettledBelow trail.old }
    ensures settled { IsSettledBelow trail.new }
    ensures same { HasSameClauses trail.old trail.new }
    ensures conflict { IfSome result (λ k. (c : Lits)
        × (clause_at trail.new.clauses k ≡ Some c) × IsConflict trail.new.lits c) }
    ensures total { IfNone result (IsTotal trail.new) }
    ensures satisfied { IfNone result ((k : ℕ) (c : Lits)
        → clause_at trail.new.clauses k ≡ Some c → IsSatisfied trail.new.lits c) }
{
    'deciding: loop {
        match trail.propagate() {
            Some(number) => return Some(number),
            None => {
                let l = choose(trail, order, variables)?;
                trail.assign(l);
            }
        }
    }
}

// A literal of the variable without a value that has the greatest activity, if one is left.
fn choose(trail: &Trail, order: &DecisionOrder, variables: u32) -> Option<Lit>
    requires variables { variables ≡ trail.now.variables }
    requires few { variables ≤ MAX_VARIABLE }
    requires order { order.now ≡ variables + 1 }
    ensures free { IfSome result (λ l. IsFree trail.now.lits l) }
    ensures within { IfSome result (λ l. l.variable ≤ trail.now.variables) }
    ensures none { IfNone result (IsTotal trail.now) }
    ensures known { IsTrail trail.now }
{
    let _present = trail.present();
    let mut best = None;
    for v in 1..variables + 1 {
        match trail.value(v) {
            Some(_) => {}
            None => best = Some(better(order, best, v)),
        }
    }
    let v = best?;
    Some(Lit::from_parts(v, order.phase(v)))
}

// Of the best variable so far and another one the one of greater activity, the earlier one where they
// are alike.
fn better(order: &DecisionOrder, best: Option<u32>, v: u32) -> u32
    requires best { IfSome best (λ b. b < order.now) }
    requires other { v < order.now }
    ensures { (best ≡ Some result) ⊎ (result ≡ v) }
{
    match best {
        Some(b) => {
            if order.activity(v) > order.activity(b) {
                v
            } else {
                b
            }
        }
        None => v,
    }
}
