ghost use Rattle.std.specs.Prelude.{◌≡◌, ◌↔◌, ◌-◌, ◌≤◌, length, slice_get, Some, IsTrue, IfOk};
ghost use Rattle.clause_defs.specs.Clauses.{Lits, Has, HasClause, IsOrdered, IsClause, WithinVariables};
ghost use Rattle.sat_values.specs.ClauseLists.{AreClausesOver};

use crate::clauses::Clauses;
use clause_defs::MAX_VARIABLE;
use clause_index::ClauseIndex;
use pch_base::{Lit, NoMemory};
use std::alloc::Global;
use std::marker::Model;

/// A list of clauses over a number of variables, which can be looked up by their literals. They are
/// numbered from 1, as texts number them; [`Clauses`] counts from 0.
#[derive(Debug, Drop)]
pub struct ClauseSet {
    variables: u32,
    clauses: ClauseIndex,
}

impl Model for ClauseSet {
    ghost use Rattle.clause_defs.specs.Formulas.{Formula};
    ghost use Rattle.sat_values.specs.ClauseLists.{AreClausesOver};

    ghost Value = { Formula };

    ghost view = { λ s. record { variables = s.variables; clauses = s.clauses.clauses } };

    ghost invariant = { λ s. AreClausesOver s.variables s.clauses.clauses };
}

impl ClauseSet {
    /// The clauses of a list, over the variables 1 to `variables`.
    pub fn from_clauses(alloc: Global, variables: u32, list: Clauses) -> Result<ClauseSet, NoMemory>
        requires few_variables { variables ≤ MAX_VARIABLE }
        requires within { (c : Lits) → Has list c → WithinVariables variables c }
        ensures { IfOk result (λ s. s ≡ record { variables = variables; clauses = list }) }
    {
        Ok(ClauseSet {
            variables,
            clauses: ClauseIndex::of(alloc, list.into_lists())?,
        })
    }

    /// How many clauses there are.
    pub fn len(&self) -> u32
        ensures len { result ≡ length self.now.clauses }
        ensures clauses { AreClausesOver self.now.variables self.now.clauses }
    {
        self.clauses.len()
    }

    /// The greatest variable that a literal of the clauses may have.
    pub fn variables(&self) -> u32
        ensures variables { result ≡ self.now.variables }
        ensures clauses { AreClausesOver self.now.variables self.now.clauses }
    {
        self.variables
    }

    /// The literals of the clause with this number, counted from 1.
    pub fn clause(&self, number: u32) -> &[Lit]
        requires low { 1 ≤ number }
        requires high { number ≤ length self.now.clauses }
        ensures lits { slice_get self.now.clauses (number - 1) ≡ Some result.now }
        ensures clause { IsClause result.now }
        ensures within { WithinVariables self.now.variables result.now }
    {
        self.clauses.clause(number - 1)
    }

    /// Whether some clause of the list has just these literals, which are in their order.
    pub fn has(&self, lits: &[Lit]) -> bool
        requires { IsOrdered lits.now }
        ensures { IsTrue result ↔ HasClause self.now.clauses lits.now }
    {
        self.clauses.find(lits).is_some()
    }
}
