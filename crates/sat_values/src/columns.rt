ghost use Rattle.std.specs.Prelude.{◌≡◌, ◌<◌, ◌++◌, [], ◌∷◌, length, OnOk, OnErr};

use clause_defs::MAX_CLAUSES;
use flat_lists::FlatLists;
use pch_base::{Lit, NoMemory};
use std::alloc::Global;

/// The indices, literals and antecedents of a trace's clauses, each kind in a list of its own.
#[derive(Debug, Drop)]
pub struct Columns {
    pub indices: Vec<u32>,
    pub lits: FlatLists<Lit>,
    pub antecedents: FlatLists<u32>,
}

impl Columns {
    /// No clauses. Takes no memory.
    pub fn new(alloc: Global) -> Columns
        ensures indices { result.indices.items ≡ [] }
        ensures lits { result.lits.lists ≡ [] }
        ensures antecedents { result.antecedents.lists ≡ [] }
    {
        Columns {
            indices: Vec::new(alloc),
            lits: FlatLists::new(alloc),
            antecedents: FlatLists::new(alloc),
        }
    }

    /// Makes room for so many clauses, literals and antecedents more, if there is memory for it.
    pub fn make_room(&mut self, clauses: usize, literals: usize, antecedents: usize)
        ensures indices { self.new.indices.items ≡ self.old.indices.items }
        ensures lits { self.new.lits.lists ≡ self.old.lits.lists }
        ensures antecedents { self.new.antecedents.lists ≡ self.old.antecedents.lists }
    {
        let _ = self.indices.reserve(clauses);
        let _ = self.lits.reserve(clauses, literals);
        let _ = self.antecedents.reserve(clauses, antecedents);
    }

    /// Appends a clause. After `NoMemory` the lists are as before.
    pub fn push(&mut self, index: u32, lits: &[Lit], antecedents: &[u32]) -> Result<(), NoMemory>
        requires { length self.old.antecedents.lists ≡ length self.old.lits.lists }
        ensures indices { OnOk result
            (self.new.indices.items ≡ self.old.indices.items ++ index ∷ []) }
        ensures lits { OnOk result (self.new.lits.lists ≡ self.old.lits.lists ++ lits.now ∷ []) }
        ensures antecedents { OnOk result
            (self.new.antecedents.lists ≡ self.old.antecedents.lists ++ antecedents.now ∷ []) }
        ensures few { OnOk result (length self.old.lits.lists < MAX_CLAUSES) }
        ensures same_indices { OnErr result (self.new.indices.items ≡ self.old.indices.items) }
        ensures same_lits { OnErr result (self.new.lits.lists ≡ self.old.lits.lists) }
        ensures same_antecedents { OnErr result
            (self.new.antecedents.lists ≡ self.old.antecedents.lists) }
    {
        let literals = u64::from(self.lits.total()) + lits.len() as u64;
        let places = u64::from(self.antecedents.total()) + antecedents.len() as u64;
        if self.lits.len() >= MAX_CLAUSES
            || literals > u64::from(u32::MAX)
            || places > u64::from(u32::MAX)
        {
            return Err(NoMemory);
        }
        self.indices.reserve(1)?;
        self.lits.reserve(1, lits.len())?;
        self.antecedents.reserve(1, antecedents.len())?;
        self.indices.push_reserved(index);
        self.lits.push_reserved(lits);
        self.antecedents.push_reserved(antecedents);
        Ok(())
    }
}
