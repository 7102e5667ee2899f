ghost use Rattle.std.specs.Prelude.{◌≡◌, ◌+◌, ◌-◌, ◌≤◌, ◌<◌, ◌++◌, ◌↔◌, [], ◌∷◌, length, take, true, false, IsTrue, IfOk, IfSome, IfNone};
ghost use Rattle.clause_defs.specs.Literals.{Literal, code};
ghost use Rattle.clause_defs.specs.Clauses.{Has};
ghost use Rattle.trail_defs.specs.Assignments.{IsAt, IsFree, IsAssignmentOf};

use clause_defs::MAX_VARIABLE;
use pch_base::{Lit, NoMemory};
use std::alloc::Global;
use std::marker::Model;

/// Literals of the variables 1 to a greatest one, no variable twice.
#[derive(Debug, Drop)]
pub struct Assignment {
    variables: u32,
    // for each code of a literal whether it is true
    truths: Vec<bool>,
    // the true literals, in the order in which they came to be so
    lits: Vec<Lit>,
}

impl Model for Assignment {
    ghost use Rattle.std.specs.Prelude.{◌≤◌, vec_capacity};
    ghost use Rattle.assignment.specs.Values.{Values, AreTruths};

    ghost Value = { Values };

    ghost view = { λ a. record { variables = a.variables; lits = a.lits.items } };

    ghost invariant = { λ a.
        AreTruths a.variables a.truths.items a.lits.items × (a.variables ≤ vec_capacity a.lits) };
}

impl Assignment {
    /// No literals, with room for one of each variable.
    pub fn new(alloc: Global, variables: u32) -> Result<Assignment, NoMemory>
        requires { variables ≤ MAX_VARIABLE }
        ensures variables { IfOk result (λ a. a.variables ≡ variables) }
        ensures empty { IfOk result (λ a. a.lits ≡ []) }
    {
        let truths = vec![in alloc; false; 2 * variables as usize + 2]?;
        let lits = Vec::with_capacity(alloc, variables as usize)?;
        Ok(Assignment {
            variables,
            truths,
            lits,
        })
    }

    /// The greatest variable.
    pub fn variables(&self) -> u32
        ensures variables { result ≡ self.now.variables }
        ensures known { IsAssignmentOf self.now.variables self.now.lits }
    {
        self.variables
    }

    /// How many literals there are, no more than variables.
    pub fn len(&self) -> usize
        ensures len { result ≡ length self.now.lits }
        ensures few { result ≤ self.now.variables }
        ensures small { result ≤ MAX_VARIABLE }
        ensures known { IsAssignmentOf self.now.variables self.now.lits }
    {
        self.lits.len()
    }

    /// The literal at a place.
    pub fn get(&self, i: usize) -> Lit
        requires { i < length self.now.lits }
        ensures at { IsAt self.now.lits i result }
        ensures known { IsAssignmentOf self.now.variables self.now.lits }
    {
        self.lits[i]
    }

    /// The literals, in their order.
    pub fn literals(&self) -> &[Lit]
        ensures lits { result.now ≡ self.now.lits }
        ensures known { IsAssignmentOf self.now.variables self.now.lits }
    {
        &self.lits
    }

    /// Whether the literal is true.
    pub fn holds(&self, l: Lit) -> bool
        requires { l.variable ≤ self.now.variables }
        ensures holds { IsTrue result ↔ Has self.now.lits l }
        ensures known { IsAssignmentOf self.now.variables self.now.lits }
    {
        self.truths[l.code() as usize]
    }

    /// The value of a variable, if it has one.
    pub fn value(&self, v: u32) -> Option<bool>
        requires low { 1 ≤ v }
        requires high { v ≤ self.now.variables }
        ensures some { IfSome result (λ b. Has self.now.lits (record { variable = v; positive = b })) }
        ensures none { IfNone result (IsFree self.now.lits (record { variable = v; positive = true })) }
        ensures known { IsAssignmentOf self.now.variables self.now.lits }
    {
        if self.truths[2 * v as usize + 1] {
            Some(true)
        } else if self.truths[2 * v as usize] {
            Some(false)
        } else {
            None
        }
    }

    /// Gives a literal the value true, as the last one.
    pub fn put(&mut self, l: Lit)
        requires free { IsFree self.old.lits l }
        requires within { l.variable ≤ self.old.variables }
        ensures lits { self.new.lits ≡ self.old.lits ++ l ∷ [] }
        ensures variables { self.new.variables ≡ self.old.variables }
        ensures few { length self.new.lits ≤ self.new.variables }
    {
        self.truths[l.code() as usize] = true;
        self.lits.push_reserved(l);
    }

    // Takes the value of the last literal away.
    fn drop_last(&mut self)
        requires { 0 < length self.old.lits }
        ensures lits { self.new.lits ≡ take (length self.old.lits - 1) self.old.lits }
        ensures variables { self.new.variables ≡ self.old.variables }
    {
        let last = self.lits.len() - 1;
        let l = self.lits[last];
        self.truths[l.code() as usize] = false;
        self.lits.truncate(last);
    }

    /// Keeps the first `n` literals, and takes the values of the others away.
    pub fn back_to(&mut self, n: usize)
        requires { n ≤ length self.old.lits }
        ensures lits { self.new.lits ≡ take n self.old.lits }
        ensures variables { self.new.variables ≡ self.old.variables }
    {
        while self.len() > n {
            self.drop_last();
        }
    }
}
