ghost use Rattle.std.specs.Prelude.{◌≡◌, ℕ, ◌+◌, ◌<◌, ◌≤◌, [], length, map, IfSome, IfNone, IfOk};
ghost use Rattle.clause_defs.specs.Clauses.{Has, IsOrdered, IsClause};
ghost use Rattle.clause_defs.specs.Resolution.{Resolves};
ghost use Rattle.log_defs.specs.Logs.{Words, words_of, IsIndexOf, HasDerived, IsLog, clause_of_log};
ghost use Rattle.log_defs.specs.Deriving.{IsNew, DeriveEnds};
ghost use Rattle.log_defs.specs.LogTraces.{trace_of};

use crate::trace::trace_of_log;
use clause_defs::MAX_INDEX;
use clause_index::ClauseIndex;
use flat_lists::FlatLists;
use log_defs::LogEnd;
use pch_base::{Lit, NoMemory, literals_are_within_limits};
use sat_values::{ClauseSet, Trace};
use std::alloc::Global;
use std::marker::Model;

/// The clauses of a formula, and the clauses that were derived from them, with their antecedents.
///
/// Contracts see it as a `LogValue`, of which the type keeps `IsLog`: each derived clause follows from
/// its antecedents by the chain rule, no two are the same, and their words are within the budget.
/// The formula's clauses have their numbers as indices, from 1 on, and derived clauses the next ones in
/// their order.
#[derive(Debug, Drop)]
pub struct Log {
    originals: ClauseSet,
    clauses: ClauseIndex,
    // The antecedents of each derived clause, by their indices.
    antecedents: FlatLists<u32>,
    budget: u32,
    // The words of all derived clauses.
    used: u32,
}

impl Model for Log {
    ghost use Rattle.log_defs.specs.Logs.{LogValue};
    ghost use Rattle.proof_log.specs.Kept.{derived_of, IsKept};

    ghost Value = { LogValue };

    ghost view = { λ l. record {
      originals = l.originals;
      derived = derived_of l.clauses.clauses l.antecedents.lists;
      budget = l.budget;
    } };

    ghost invariant = { λ l. IsKept l.originals l.clauses l.antecedents l.budget l.used };
}

impl Log {
    /// The clauses of a formula with nothing derived yet, and a budget of words for derived clauses.
    /// Takes all memory of the log; what isn't used of it isn't touched.
    pub fn open(alloc: Global, originals: ClauseSet, budget: u32) -> Result<Log, NoMemory>
        requires few { length originals.clauses + budget ≤ MAX_INDEX }
        ensures { IfOk result (λ l. l ≡ record { originals = originals; derived = []; budget = budget }) }
    {
        // No clause has fewer words than its index and two zeros.
        let most = budget / 3;
        Ok(Log {
            originals,
            clauses: ClauseIndex::with_room(alloc, most, budget)?,
            antecedents: FlatLists::with_capacity(alloc, most as usize, budget as usize)?,
            budget,
            used: 0,
        })
    }

    /// The index of the derived clause that has just these literals, which are in their order.
    pub fn find(&self, lits: &[Lit]) -> Option<u32>
        requires ordered { IsOrdered lits.now }
        ensures some { IfSome result (λ index. HasDerived self.now lits.now index) }
        ensures none { IfNone result (IsNew self.now lits.now) }
    {
        let k = self.clauses.find(lits)?;
        Some(self.originals.len() + k + 1)
    }

    /// Derives the clause `lits`, whose literals are in their order, by the chain of the clauses with the
    /// indices `ants`, and answers its index. After an error the log is as before: [`LogEnd::Kept`] comes
    /// exactly where the log has derived this clause already, and else [`LogEnd::Spent`] exactly where
    /// the words are over the budget. Takes no memory.
    pub fn derive(&mut self, lits: &[Lit], ants: &[u32]) -> Result<u32, LogEnd>
        requires ordered { IsOrdered lits.now }
        requires few { length ants.now ≤ MAX_INDEX }
        requires indices { (index : ℕ) → Has ants.now index → IsIndexOf self.old index }
        requires resolves { Resolves (map (clause_of_log self.old) ants.now) lits.now }
        ensures { DeriveEnds self.old (record { lits = lits.now; antecedents = ants.now }) result self.new }
    {
        if let Some(index) = self.find(lits) {
            return Err(LogEnd::Kept { index });
        }
        let need = words(lits, ants);
        let used = self.used;
        if need > self.budget - used {
            return Err(LogEnd::Spent { used, need });
        }
        self.clauses.insert(lits);
        self.antecedents.push_reserved(ants);
        self.used = used + need;
        Ok(self.originals.len() + self.clauses.len())
    }

    /// The words of all derived clauses: of each its index, its literals, a 0, its antecedents and a 0.
    pub fn used(&self) -> u32
        ensures used { result ≡ Words self.now.derived }
        ensures log { IsLog self.now }
    {
        self.used
    }

    /// The literals of the clause with this index.
    pub fn clause(&self, index: u32) -> &[Lit]
        requires { IsIndexOf self.now index }
        ensures lits { result.now ≡ clause_of_log self.now index }
        ensures clause { IsClause result.now }
    {
        let originals = self.originals.len();
        if index <= originals {
            return self.originals.clause(index);
        }
        self.clauses.clause(index - originals - 1)
    }

    /// The clauses of the formula.
    pub fn originals(&self) -> &ClauseSet
        ensures originals { result.now ≡ self.now.originals }
        ensures log { IsLog self.now }
    {
        &self.originals
    }

    /// The clauses of the formula as originals of a trace, under their numbers, and then the derived ones
    /// in their order. After `NoMemory` the log is gone.
    pub fn into_trace(self, alloc: Global) -> Result<Trace, NoMemory>
        ensures trace { IfOk result (λ t. t ≡ trace_of self.originals.clauses self.derived) }
        ensures log { IsLog self }
    {
        trace_of_log(alloc, &self.originals, &self.clauses, &self.antecedents)
    }
}

// The words of a clause with these literals and antecedents.
fn words(lits: &[Lit], ants: &[u32]) -> u32
    requires ordered { IsOrdered lits.now }
    requires few { length ants.now ≤ MAX_INDEX }
    ensures words { result ≡ words_of (record { lits = lits.now; antecedents = ants.now }) }
    ensures clause { IsClause lits.now }
{
    literals_are_within_limits(lits);
    3 + lits.len() as u32 + ants.len() as u32
}
