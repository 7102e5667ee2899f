ghost use Rattle.std.specs.Prelude.{◌≡◌, ◌≢◌, ℕ, ◌<◌, [], length, None, IfSome, IfNone};
ghost use Rattle.clause_defs.specs.Clauses.{SameSet, WithinVariables};
ghost use Rattle.clause_defs.specs.Traces.{IsTrace, stated_at, lits_at, antecedents_at, index_at};
ghost use Rattle.clause_defs.specs.Verdicts.{ClauseFault};
ghost use Rattle.clause_defs.specs.declared.verdict.ChainError.{ChainError};
ghost use Rattle.clause_defs.specs.declared.verdict.Verdict.{Verdict};
ghost use Rattle.chain_check.specs.ByPlace.{parts_of, EachEndsBy};
ghost use Rattle.chain_check.specs.Known.{IsKnownBefore};

use crate::chain::follow;
use crate::computed::Span;
use crate::marks::Marks;
use clause_defs::{ChainError, Verdict};
use pch_base::Lit;
use sat_values::{ClauseSet, Trace};

/// The fault of the clause at place `k`, counted from 0, whose literals are stated, if it has one.
///
/// The literals of the clauses before are known.
pub(crate) fn stated_fault(
    f: &ClauseSet,
    t: &Trace,
    spans: &[Span],
    lits: &[Lit],
    k: u32,
    m: &mut Marks,
) -> Option<Verdict>
    requires within { k < length t.now }
    requires trace { IsTrace t.now }
    requires stated { stated_at t.now k ≢ None }
    requires parts { EachEndsBy (length lits.now) spans.now }
    requires known { IsKnownBefore t.now m.old.variables (parts_of lits.now spans.now) k }
    ensures fault { (w : ℕ) → ClauseFault f.now.clauses t.now w k result }
    ensures variables { m.new.variables ≡ m.old.variables }
{
    if t.antecedents(k).is_empty() {
        return original_fault(f, t, k);
    }
    if let Err(fault) = follow(t, spans, lits, k, m) {
        return Some(Verdict::Chain(fault));
    }
    differs(t, k, m)
}

/// The fault of the clause at place `k`, counted from 0, which has no antecedents, if it isn't one of
/// the list.
pub fn original_fault(f: &ClauseSet, t: &Trace, k: u32) -> Option<Verdict>
    requires within { k < length t.now }
    requires original { antecedents_at t.now k ≡ [] }
    ensures fault { (w : ℕ) → ClauseFault f.now.clauses t.now w k result }
{
    if f.has(t.lits(k)) {
        return None;
    }
    Some(Verdict::NotOriginal { clause: t.index(k) })
}

/// The fault of a clause with stated literals whose chain came to the running clause.
fn differs(t: &Trace, k: u32, m: &mut Marks) -> Option<Verdict>
    requires within { k < length t.now }
    requires covered { WithinVariables m.old.variables (lits_at t.now k) }
    requires between_steps { m.old.fresh ≡ [] }
    ensures same { IfNone result (SameSet m.old.running (lits_at t.now k)) }
    ensures other { IfSome result (λ v. (v ≡ Verdict.Chain (ChainError.Other (index_at t.now k)))
        × (SameSet m.old.running (lits_at t.now k) → ⊥)) }
    ensures variables { m.new.variables ≡ m.old.variables }
{
    if m.comes_to(t.lits(k)) {
        return None;
    }
    Some(Verdict::Chain(ChainError::Other { clause: t.index(k) }))
}
