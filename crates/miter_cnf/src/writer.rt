ghost use Rattle.std.specs.Prelude.{◌≡◌, ◌++◌, [], ◌∷◌, OnOk};
ghost use Rattle.miter_cnf.specs.Writing.{Adds};

use pch_base::{Lit, NoMemory, order_literals};
use sat_values::Clauses;
use std::alloc::Global;

/// The clauses that were written, and the literals of the next one. All clauses are made in one buffer,
/// which is kept.
#[derive(Drop)]
pub(crate) struct Writer {
    pub(crate) clauses: Clauses,
    pub(crate) literals: Vec<Lit>,
}

impl Writer {
    /// No clauses.
    pub(crate) fn new(alloc: Global) -> Writer
        ensures { result.clauses ≡ [] }
    {
        Writer {
            clauses: Clauses::new(alloc),
            literals: Vec::new(alloc),
        }
    }

    /// Begins a clause.
    pub(crate) fn begin(&mut self)
        ensures clauses { self.new.clauses ≡ self.old.clauses }
        ensures literals { self.new.literals.items ≡ [] }
    {
        self.literals.clear();
    }

    /// Adds a literal to the clause.
    pub(crate) fn add(&mut self, l: Lit) -> Result<(), NoMemory>
        ensures clauses { OnOk result (self.new.clauses ≡ self.old.clauses) }
        ensures literals { OnOk result
            (self.new.literals.items ≡ self.old.literals.items ++ l ∷ []) }
    {
        self.literals.push(l)?;
        Ok(())
    }

    /// Writes the clause: each of its literals once, in their order.
    pub(crate) fn end(&mut self) -> Result<(), NoMemory>
        ensures { OnOk result (Adds self.old.clauses
            (self.old.literals.items ∷ [])
            self.new.clauses) }
    {
        order_literals(&mut self.literals);
        self.clauses.push_lits(&self.literals)
    }

    /// Writes the clause of these literals.
    pub(crate) fn write(&mut self, lits: &[Lit]) -> Result<(), NoMemory>
        ensures { OnOk result (Adds self.old.clauses (lits.now ∷ []) self.new.clauses) }
    {
        self.begin();
        self.literals.extend_from_slice(lits)?;
        self.end()
    }
}
