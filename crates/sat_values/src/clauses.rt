ghost use Rattle.std.specs.Prelude.{◌≡◌, ◌<◌, ◌++◌, [], ◌∷◌, length, slice_get, Some, OnOk, OnErr};
ghost use Rattle.clause_defs.specs.Clauses.{IsOrdered, IsClause};
ghost use Rattle.sat_values.specs.ClauseLists.{AreClauses};

use clause_defs::MAX_CLAUSES;
use flat_lists::FlatLists;
use pch_base::{Clause, Lit, NoMemory, literals_are_within_limits};
use std::alloc::Global;
use std::marker::Model;

/// A list of clauses, at most [`MAX_CLAUSES`] of them. They are counted from 0, as in every list; a
/// [`ClauseSet`](crate::ClauseSet) numbers its clauses from 1, as texts do.
///
/// Contracts see it as the list of its clauses, each with distinct literals in their order.
#[derive(Debug, Drop)]
pub struct Clauses {
    lists: FlatLists<Lit>,
}

impl Model for Clauses {
    ghost use Rattle.std.specs.Prelude.{List};
    ghost use Rattle.clause_defs.specs.Clauses.{Lits};
    ghost use Rattle.sat_values.specs.ClauseLists.{AreClauses};

    ghost Value = { List Lits };

    ghost view = { λ c. c.lists.lists };

    ghost invariant = { λ c. AreClauses c.lists.lists };
}

impl Clauses {
    /// No clauses. Takes no memory.
    pub fn new(alloc: Global) -> Clauses
        ensures { result ≡ [] }
    {
        Clauses {
            lists: FlatLists::new(alloc),
        }
    }

    /// Makes room for so many clauses and literals more, if there is memory for it, so that lists needn't
    /// be moved as they grow. What isn't used of it isn't touched.
    pub fn make_room(&mut self, clauses: usize, literals: usize)
        ensures { self.new ≡ self.old }
    {
        let _ = self.lists.reserve(clauses, literals);
    }

    /// How many clauses there are.
    pub fn len(&self) -> u32
        ensures len { result ≡ length self.now }
        ensures clauses { AreClauses self.now }
    {
        self.lists.len()
    }

    /// The literals of clause `k`, counted from 0.
    pub fn clause(&self, k: u32) -> &[Lit]
        requires { k < length self.now }
        ensures lits { slice_get self.now k ≡ Some result.now }
        ensures clause { IsClause result.now }
    {
        self.lists.get(k)
    }

    /// Appends a clause. After `NoMemory` the list is as before.
    pub fn push(&mut self, clause: &Clause) -> Result<(), NoMemory>
        ensures ok { OnOk result (self.new ≡ self.old ++ clause.now ∷ []) }
        ensures err { OnErr result (self.new ≡ self.old) }
    {
        self.push_lits(clause.lits())
    }

    /// Appends the clause with these literals, which are in their order. After `NoMemory` the list is as
    /// before.
    pub fn push_lits(&mut self, lits: &[Lit]) -> Result<(), NoMemory>
        requires { IsOrdered lits.now }
        ensures ok { OnOk result (self.new ≡ self.old ++ lits.now ∷ []) }
        ensures err { OnErr result (self.new ≡ self.old) }
    {
        literals_are_within_limits(lits);
        let literals = u64::from(self.lists.total()) + lits.len() as u64;
        if self.lists.len() >= MAX_CLAUSES || literals > u64::from(u32::MAX) {
            return Err(NoMemory);
        }
        self.lists.push(lits)?;
        Ok(())
    }

    /// The lists of literals.
    pub(crate) fn into_lists(self) -> FlatLists<Lit>
        ensures lists { result.lists ≡ self }
        ensures clauses { AreClauses self }
    {
        self.lists
    }
}
