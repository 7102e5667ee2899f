//! Levels, and what is kept of each literal beside its value.

ghost use Rattle.std.specs.Prelude.{◌≡◌, ◌+◌, ◌≤◌, ◌++◌, [], ◌∷◌, length, set, IfOk};
ghost use Rattle.trail_defs.specs.Assignments.{IsFree};

use assignment::Assignment;
use clause_defs::MAX_VARIABLE;
use pch_base::{Lit, NoMemory};
use std::alloc::Global;

/// How far the trail was when a level was opened: how many literals it had, and how many of them had
/// been passed on to the watches.
#[derive(Clone, Copy, Debug)]
pub struct Stage {
    pub len: u32,
    pub done: u32,
}

/// The literals that are true, with the level of each variable and the number of the clause that
/// implied its literal, or 0.
#[derive(Debug, Drop)]
pub struct Values {
    pub assignment: Assignment,
    pub levels: Vec<u32>,
    pub reasons: Vec<u32>,
}

impl Values {
    /// No values, with room for one of each variable.
    pub fn new(alloc: Global, variables: u32) -> Result<Values, NoMemory>
        requires { variables ≤ MAX_VARIABLE }
        ensures variables { IfOk result (λ v. v.assignment.variables ≡ variables) }
        ensures empty { IfOk result (λ v. v.assignment.lits ≡ []) }
        ensures levels { IfOk result (λ v. length v.levels.items ≡ variables + 1) }
        ensures reasons { IfOk result (λ v. length v.reasons.items ≡ variables + 1) }
    {
        Ok(Values {
            assignment: Assignment::new(alloc, variables)?,
            levels: vec![in alloc; 0u32; variables as usize + 1]?,
            reasons: vec![in alloc; 0u32; variables as usize + 1]?,
        })
    }
}

/// Gives a literal the value true at this level, implied by the clause of this number; 0 where it is decided.
pub fn imply(values: &mut Values, l: Lit, level: u32, number: u32)
    requires free { IsFree values.old.assignment.lits l }
    requires within { l.variable ≤ values.old.assignment.variables }
    requires level_size { length values.old.levels.items ≡ values.old.assignment.variables + 1 }
    requires reason_size { length values.old.reasons.items ≡ values.old.assignment.variables + 1 }
    ensures lits { values.new.assignment.lits ≡ values.old.assignment.lits ++ l ∷ [] }
    ensures variables { values.new.assignment.variables ≡ values.old.assignment.variables }
    ensures few { length values.new.assignment.lits ≤ values.new.assignment.variables }
    ensures levels { values.new.levels.items ≡ set values.old.levels.items l.variable level }
    ensures reasons { values.new.reasons.items ≡ set values.old.reasons.items l.variable number }
{
    let variable = l.variable() as usize;
    values.levels[variable] = level;
    values.reasons[variable] = number;
    values.assignment.put(l);
}
