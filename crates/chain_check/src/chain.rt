ghost use Rattle.std.specs.Prelude.{◌≡◌, ◌≢◌, ℕ, ◌<◌, [], length, map, None, OnOk};
ghost use Rattle.clause_defs.specs.Clauses.{Has, WithinVariables};
ghost use Rattle.clause_defs.specs.Resolution.{Resolves};
ghost use Rattle.clause_defs.specs.Traces.{IsTrace, stated_at, lits_at, antecedents_at, index_at};
ghost use Rattle.clause_defs.specs.Verdicts.{ChainFault};
ghost use Rattle.chain_check.specs.ByPlace.{parts_of, EachEndsBy};
ghost use Rattle.chain_check.specs.Known.{literals_at, antecedents_known};

use crate::computed::{Span, part};
use crate::marks::{Clash, Marks};
use clause_defs::ChainError;
use pch_base::Lit;
use sat_values::Trace;

/// Follows the chain of the clause at place `k`, counted from 0, which has antecedents.
///
/// The literals of the clause and of its antecedents are to be stated, and the marks are to cover the
/// variables of the trace. What they held before doesn't matter. Takes no memory.
///
/// # Errors
///
/// The first faulty step, or `Other` where all steps pass and the result isn't the clause that the
/// trace states (`ChainFault`). A clause is a set: its literals are compared as one.
pub fn check_chain(t: &Trace, k: u32, m: &mut Marks) -> Result<(), ChainError>
    requires within { k < length t.now }
    requires derived { antecedents_at t.now k ≢ [] }
    requires stated { stated_at t.now k ≢ None }
    requires antecedents { (p : ℕ) → Has (antecedents_at t.now k) p → stated_at t.now p ≢ None }
    requires covered { (p : ℕ) → WithinVariables m.old.variables (lits_at t.now p) }
    ensures end { ChainFault (index_at t.now k) (stated_at t.now k)
        (map (lits_at t.now) (antecedents_at t.now k)) result }
    ensures variables { m.new.variables ≡ m.old.variables }
{
    follow(t, &[], &[], k, m)?;
    if m.comes_to(t.lits(k)) {
        Ok(())
    } else {
        Err(ChainError::Other { clause: t.index(k) })
    }
}

/// Follows the chain of the clause at place `k`, counted from 0, over the literals that are known, and
/// leaves what it comes to in the marks.
pub(crate) fn follow(
    t: &Trace,
    spans: &[Span],
    lits: &[Lit],
    k: u32,
    m: &mut Marks,
) -> Result<(), ChainError>
    requires within { k < length t.now }
    requires derived { antecedents_at t.now k ≢ [] }
    requires parts { EachEndsBy (length lits.now) spans.now }
    requires covered { (p : ℕ)
        → WithinVariables m.old.variables (literals_at t.now (parts_of lits.now spans.now) p) }
    ensures end { ChainFault (index_at t.now k) None
        (antecedents_known t.now (parts_of lits.now spans.now) k) result }
    ensures clause { OnOk result
        (Resolves (antecedents_known t.now (parts_of lits.now spans.now) k) m.new.running) }
    ensures fresh { OnOk result (m.new.fresh ≡ []) }
    ensures variables { m.new.variables ≡ m.old.variables }
    ensures trace { IsTrace t.now }
{
    let clause = t.index(k);
    let antecedents = t.antecedents(k);
    m.clear(antecedents.len() as u32);
    m.load(known_literals(t, spans, lits, antecedents[0]));
    for step in 1..antecedents.len() as u32 {
        match m.resolve(known_literals(t, spans, lits, antecedents[step as usize])) {
            Clash::NoClash => return Err(ChainError::NoClash { clause, step }),
            Clash::ManyClash => return Err(ChainError::ManyClash { clause, step }),
            Clash::OneClash => {}
        }
    }
    Ok(())
}

/// The literals that are taken for those of the clause at place `p`: the stated ones, or else the
/// computed ones, which are a part of a list.
pub(crate) fn known_literals<'a>(t: &'a Trace, spans: &[Span], lits: &'a [Lit], p: u32) -> &'a [Lit]
    requires within { p < length t.now }
    requires parts { EachEndsBy (length lits.now) spans.now }
    ensures { result.now ≡ literals_at t.now (parts_of lits.now spans.now) p }
{
    let stated = t.lits(p);
    if stated.is_empty() {
        part(spans, lits, p)
    } else {
        stated
    }
}
