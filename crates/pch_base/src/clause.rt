ghost use Rattle.std.specs.Prelude.{◌≡◌, ◌↔◌, List, IsTrue, IfOk};
ghost use Rattle.clause_defs.specs.Literals.{Literal, IsLiteral};
ghost use Rattle.clause_defs.specs.Clauses.{Has, SameSet, IsOrdered, IsClause};

use crate::lit::Lit;
use crate::memory::NoMemory;
use clause_defs::MAX_VARIABLE;
use std::alloc::Global;
use std::marker::Model;

/// A clause: distinct literals in their order. Both literals of a variable may stand in it.
///
/// Contracts see it as the list of its literals. A list and a clause are the same where they have the
/// same literals (`SameSet`).
#[derive(Debug, Drop)]
pub struct Clause {
    lits: Vec<Lit>,
}

impl Model for Clause {
    ghost use Rattle.std.specs.Prelude.{List};
    ghost use Rattle.clause_defs.specs.Literals.{Literal};
    ghost use Rattle.clause_defs.specs.Clauses.{IsClause};

    ghost Value = { List Literal };

    ghost view = { λ c. c.lits.items };

    ghost invariant = { λ c. IsClause c.lits.items };
}

impl Clause {
    /// The clause with these literals, which may come in any order and repeatedly.
    pub fn from_lits(alloc: Global, l: &[Lit]) -> Result<Clause, NoMemory>
        ensures { IfOk result (λ c. IsClause c × SameSet c l.now) }
    {
        let mut lits = l.to_vec(alloc)?;
        order_literals(&mut lits);
        literals_are_within_limits(&lits);
        Ok(Clause { lits })
    }

    /// The literals in their order.
    pub fn lits(&self) -> &[Lit]
        ensures lits { result.now ≡ self.now }
        ensures clause { IsClause self.now }
    {
        &self.lits
    }

    /// Whether the literal is one of the clause's.
    pub fn has(&self, l: Lit) -> bool
        ensures { IsTrue result ↔ Has self.now l }
    {
        self.lits.contains(&l)
    }
}

/// Puts the literals in their order and leaves out repeated ones.
pub fn order_literals(lits: &mut Vec<Lit>)
    ensures ordered { IsOrdered lits.new.items }
    ensures same { SameSet lits.new.items lits.old.items }
{
    lits.sort_unstable();
    lits.dedup();
}

/// Each literal of a list is within the limits: the type keeps it, and this call says it.
pub fn literals_are_within_limits(lits: &[Lit])
    ensures { (l : Literal) → Has lits.now l → IsLiteral l }
{
    for l in lits {
        prove!(l.variable() <= MAX_VARIABLE);
    }
}
