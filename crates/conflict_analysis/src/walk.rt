//! The walk down the trail.

ghost use Rattle.std.specs.Prelude.{◌≡◌, ◌≢◌, ℕ, ◌+◌, ◌<◌, ◌≤◌, ◌↔◌, length, take, get_or, IfSome, IfNone};
ghost use Rattle.clause_defs.specs.Literals.{Literal, negation};
ghost use Rattle.clause_defs.specs.Clauses.{Lits, Has};
ghost use Rattle.log_defs.specs.Logs.{IsIndexOf, clause_of_log};
ghost use Rattle.trail_defs.specs.Assignments.{IsAt};
ghost use Rattle.conflict_chain.specs.Conflicts.{IsChainAt, IsSplit};
ghost use Rattle.conflict_analysis.specs.Analyses.{level_in, reason_in, IsReasonAt, IsReasoned, HasNoRootFrom};

use conflict_chain::ConflictChain;
use pch_base::Lit;
use proof_log::Log;

/// Resolves literals of the present level away, from the last one on, until one is left. Answers the place
/// behind it.
pub fn to_one(
    log: &Log,
    present: u32,
    trail: &[Lit],
    levels: &[u32],
    reasons: &[u32],
    indices: &[u32],
    chain: &mut ConflictChain,
) -> usize
    requires reasoned { IsReasoned log.now present trail.now levels.now reasons.now indices.now }
    requires room { chain.old.variables ≡ log.now.originals.variables }
    requires chain { IsChainAt log.now trail.now (length trail.now) chain.old }
    requires split { IsSplit levels.now present chain.old }
    requires some { 1 ≤ length chain.old.present }
    ensures room { chain.new.variables ≡ chain.old.variables }
    ensures within { result ≤ length trail.now }
    ensures chain { IsChainAt log.now trail.now result chain.new }
    ensures split { IsSplit levels.now present chain.new }
    ensures one { length chain.new.present ≡ 1 }
    ensures below { (x : Literal) → Has chain.new.present x → Has (take result trail.now) (negation x) }
{
    let mut i = trail.len();
    while chain.present() > 1 {
        i -= 1;
        if !chain.has_present(trail[i].negated()) {
            continue;
        }
        let index = reason_at(trail, reasons, indices, i);
        chain.resolve_at(trail, i, log, index, levels, present);
    }
    i
}

/// Resolves away, below this place, what is of level 0, and what has a reason with no other literals than
/// those of the running clause and of level 0. What is of the level `present` stays.
pub fn to_few(
    log: &Log,
    present: u32,
    trail: &[Lit],
    levels: &[u32],
    reasons: &[u32],
    indices: &[u32],
    from: usize,
    chain: &mut ConflictChain,
)
    requires reasoned { IsReasoned log.now present trail.now levels.now reasons.now indices.now }
    requires high { 1 ≤ present }
    requires room { chain.old.variables ≡ log.now.originals.variables }
    requires within { from ≤ length trail.now }
    requires chain { IsChainAt log.now trail.now from chain.old }
    requires split { IsSplit levels.now present chain.old }
    requires roots { HasNoRootFrom trail.now levels.now from chain.old.lits }
    ensures room { chain.new.variables ≡ chain.old.variables }
    ensures chain { IsChainAt log.now trail.now 0 chain.new }
    ensures split { IsSplit levels.now present chain.new }
    ensures roots { HasNoRootFrom trail.now levels.now 0 chain.new.lits }
    ensures present { (x : Literal) → Has chain.new.present x ↔ Has chain.old.present x }
{
    let mut i = from;
    while i > 0 {
        i -= 1;
        let negated = trail[i].negated();
        if !chain.has(negated) || chain.has_present(negated) {
            continue;
        }
        let Some(index) = spare_reason(log, trail, levels, reasons, indices, i, chain) else {
            continue;
        };
        chain.resolve_at(trail, i, log, index, levels, present);
    }
}

// The index of the clause that implied the literal at this place.
fn reason_at(trail: &[Lit], reasons: &[u32], indices: &[u32], i: usize) -> u32
    requires place { i < length trail.now }
    requires reasons { (l : Literal) → IsAt trail.now i l → l.variable < length reasons.now }
    requires indices { (l : Literal) → IsAt trail.now i l → reason_in reasons.now l < length indices.now }
    ensures { (l : Literal) → IsAt trail.now i l
        → result ≡ get_or indices.now (reason_in reasons.now l) 0 }
{
    indices[reasons[trail[i].variable() as usize] as usize]
}

// The index of the reason of the literal at this place, if the literal is of level 0, or if each other
// literal of the reason is in the running clause or of level 0.
fn spare_reason(
    log: &Log,
    trail: &[Lit],
    levels: &[u32],
    reasons: &[u32],
    indices: &[u32],
    i: usize,
    chain: &ConflictChain,
) -> Option<u32>
    requires reasoned { (present : ℕ) × IsReasoned log.now present trail.now levels.now reasons.now indices.now }
    requires room { chain.now.variables ≡ log.now.originals.variables }
    requires place { i < length trail.now }
    ensures some { IfSome result (λ index. IsReasonAt log.now trail.now i index) }
    ensures none { IfNone result ((l : Literal) → IsAt trail.now i l → level_in levels.now l ≢ 0) }
{
    let l = trail[i];
    if reasons[l.variable() as usize] == 0 {
        return None;
    }
    let index = reason_at(trail, reasons, indices, i);
    if levels[l.variable() as usize] > 0 && !is_covered(log.clause(index), l, levels, chain) {
        return None;
    }
    Some(index)
}

// Whether each literal of a clause but `l` is in the running clause or of level 0.
fn is_covered(clause: &[Lit], l: Lit, levels: &[u32], chain: &ConflictChain) -> bool
    requires within { (m : Literal) → Has clause.now m → m.variable ≤ chain.now.variables }
    requires levels { chain.now.variables < length levels.now }
{
    for &m in clause {
        if m != l && !chain.has(m) && levels[m.variable() as usize] > 0 {
            return false;
        }
    }
    true
}
