//! The clause that a conflict teaches, and where it asks for a value.

ghost use Rattle.std.specs.Prelude.{◌≡◌, ℕ, ◌<◌, ◌≤◌, [], length, vec_capacity};
ghost use Rattle.clause_defs.specs.Literals.{Literal};
ghost use Rattle.clause_defs.specs.Clauses.{Lits, Has};
ghost use Rattle.log_defs.specs.Logs.{IsIndexOf, clause_of_log};
ghost use Rattle.trail_defs.specs.Assignments.{IsConflict};
ghost use Rattle.conflict_analysis.specs.Analyses.{level_in, IsReasoned, IsAsserting, IsLesson, IsSecondLevel};

use crate::walk::{to_few, to_one};
use conflict_chain::ConflictChain;
use pch_base::Lit;
use proof_log::Log;

/// The clause that the conflict of the clause with this index teaches on a level above 0: `lits` gets its
/// literals, and `chain` the indices that it was resolved from. One of the literals is of the present
/// level.
pub fn analyze(
    log: &Log,
    present: u32,
    trail: &[Lit],
    levels: &[u32],
    reasons: &[u32],
    indices: &[u32],
    index: u32,
    chain: &mut ConflictChain,
    lits: &mut Vec<Lit>,
)
    requires reasoned { IsReasoned log.now present trail.now levels.now reasons.now indices.now }
    requires high { 1 ≤ present }
    requires index { IsIndexOf log.now index }
    requires conflict { IsConflict trail.now (clause_of_log log.now index) }
    requires present { (x : Literal) × Has (clause_of_log log.now index) x
        × (level_in levels.now x ≡ present) }
    requires room { chain.old.variables ≡ log.now.originals.variables }
    requires lits_room { log.now.originals.variables ≤ vec_capacity lits.old }
    ensures room { chain.new.variables ≡ chain.old.variables }
    ensures lits_room { vec_capacity lits.new ≡ vec_capacity lits.old }
    ensures lesson { IsLesson log.now trail.now levels.now chain.new.antecedents lits.new.items }
    ensures asserting { (u : Literal) × IsAsserting levels.now present lits.new.items u }
{
    chain.start(log, index, levels, present);
    let from = to_one(log, present, trail, levels, reasons, indices, chain);
    to_few(log, present, trail, levels, reasons, indices, from, chain);
    chain.list(lits);
}

/// The chain of the empty clause from the clause with this index, which is in conflict on level 0.
pub fn refute(
    log: &Log,
    trail: &[Lit],
    levels: &[u32],
    reasons: &[u32],
    indices: &[u32],
    index: u32,
    chain: &mut ConflictChain,
)
    requires reasoned { IsReasoned log.now 0 trail.now levels.now reasons.now indices.now }
    requires index { IsIndexOf log.now index }
    requires conflict { IsConflict trail.now (clause_of_log log.now index) }
    requires room { chain.old.variables ≡ log.now.originals.variables }
    ensures room { chain.new.variables ≡ chain.old.variables }
    ensures lesson { IsLesson log.now trail.now levels.now chain.new.antecedents [] }
{
    // No literal is of level 1, so none stays.
    chain.start(log, index, levels, 1);
    to_few(log, 1, trail, levels, reasons, indices, trail.len(), chain);
}

/// The second greatest level of an asserting clause.
pub fn second_level(levels: &[u32], present: u32, lits: &[Lit]) -> u32
    requires levels { (l : Literal) → Has lits.now l → l.variable < length levels.now }
    requires high { 1 ≤ present }
    ensures { (u : Literal) → IsAsserting levels.now present lits.now u
        → IsSecondLevel levels.now present lits.now u result }
{
    let mut second = 0;
    for &l in lits {
        let level = levels[l.variable() as usize];
        if level == present {
            continue;
        }
        if level <= second {
            continue;
        }
        second = level;
    }
    second
}
