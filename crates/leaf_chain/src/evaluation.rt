ghost use Rattle.std.specs.Prelude.{◌≡◌, ◌+◌, ◌<◌, ◌≤◌, List, [], length, get_or, IfOk};
ghost use Rattle.clause_defs.specs.Clauses.{Lits};
ghost use Rattle.clause_defs.specs.declared.verdict.TheConstants.{MAX_VARIABLE};
ghost use Rattle.leaf_defs.specs.Evaluated.{value_of, variable_at, IsEvaluated};
ghost use Rattle.leaf_chain.specs.Growing.{IsWithout, CanChoose, FitsVariables, with_chosen, with_implied};

use clause_defs::MAX_VARIABLE;
use pch_base::NoMemory;
use std::alloc::Global;
use std::marker::Model;

/// Variables with their values, in the order in which the values follow from each other.
///
/// Contracts see it as the record `Evaluated`. It has room for all variables.
#[derive(Debug, Drop)]
pub struct Evaluation {
    // Whether each variable is true, by its number; at place 0 stands nothing.
    values: Vec<bool>,
    // The variables that have a value, the chosen ones first.
    order: Vec<u32>,
    chosen: u32,
    // For each of them the index of its reason, and 0 for a chosen one.
    reasons: Vec<u32>,
}

impl Model for Evaluation {
    ghost use Rattle.std.specs.Prelude.{length, vec_capacity};
    ghost use Rattle.leaf_defs.specs.Evaluated.{Evaluated};
    ghost use Rattle.leaf_chain.specs.Growing.{HasPlaces};

    ghost Value = { Evaluated };

    ghost view = { λ e. record {
      values = e.values.items;
      order = e.order.items;
      chosen = e.chosen;
      reasons = e.reasons.items;
    } };

    ghost invariant = { λ e. HasPlaces (record {
      values = e.values.items;
      order = e.order.items;
      chosen = e.chosen;
      reasons = e.reasons.items;
    }) (vec_capacity e.order) (vec_capacity e.reasons) };
}

impl Evaluation {
    /// No values yet, with room for those of so many variables.
    pub fn new(alloc: Global, variables: u32) -> Result<Evaluation, NoMemory>
        requires { variables ≤ MAX_VARIABLE }
        ensures variables { IfOk result (λ e. length e.values ≡ variables + 1) }
        ensures empty { IfOk result (λ e. e.order ≡ []) }
        ensures evaluated { IfOk result (λ e. (f : List Lits) → IsEvaluated f e) }
    {
        let room = variables as usize;
        let mut values = Vec::new(alloc);
        values.resize(room + 1, false)?;
        Ok(Evaluation {
            values,
            order: Vec::with_capacity(alloc, room)?,
            chosen: 0,
            reasons: Vec::with_capacity(alloc, room)?,
        })
    }

    /// Takes all values away.
    pub fn clear(&mut self)
        ensures variables { length self.new.values ≡ length self.old.values }
        ensures empty { self.new.order ≡ [] }
        ensures evaluated { (f : List Lits) → IsEvaluated f self.new }
    {
        self.order.clear();
        self.reasons.clear();
        self.chosen = 0;
    }

    /// Chooses the value of a variable whose number is greater than those of all variables before it, all
    /// of which were chosen.
    pub fn choose(&mut self, variable: u32, value: bool)
        requires { CanChoose self.old variable }
        ensures { self.new ≡ with_chosen self.old variable value }
    {
        self.values[variable as usize] = value;
        self.order.push_reserved(variable);
        self.reasons.push_reserved(0);
        self.chosen += 1;
    }

    /// Gives a variable without a value the one that its reason leaves: the clause with this index.
    pub fn imply(&mut self, variable: u32, value: bool, reason: u32)
        requires { IsWithout self.old variable }
        ensures { self.new ≡ with_implied self.old variable value reason }
    {
        self.values[variable as usize] = value;
        self.order.push_reserved(variable);
        self.reasons.push_reserved(reason);
    }

    /// Whether the variable is true.
    pub fn value(&self, variable: u32) -> bool
        requires { variable < length self.now.values }
        ensures { result ≡ value_of self.now.values variable }
    {
        self.values[variable as usize]
    }

    // How many variables have a value.
    pub(crate) fn len(&self) -> u32
        ensures len { result ≡ length self.now.order }
        ensures places { FitsVariables self.now }
    {
        self.order.len() as u32
    }

    // How many variables were chosen.
    pub(crate) fn chosen(&self) -> u32
        ensures chosen { result ≡ self.now.chosen }
        ensures first { result ≤ length self.now.order }
        ensures places { FitsVariables self.now }
    {
        self.chosen
    }

    // Variable number `i` in the order.
    pub(crate) fn variable(&self, i: u32) -> u32
        requires { i < length self.now.order }
        ensures variable { result ≡ variable_at self.now.order i }
        ensures within { (1 ≤ result) × (result < length self.now.values) × (result ≤ MAX_VARIABLE) }
    {
        self.order[i as usize]
    }

    // The index of its reason.
    pub(crate) fn reason(&self, i: u32) -> u32
        requires { i < length self.now.order }
        ensures { result ≡ get_or self.now.reasons i 0 }
    {
        self.reasons[i as usize]
    }
}
