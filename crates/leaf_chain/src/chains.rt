ghost use Rattle.std.specs.Prelude.{◌≡◌, ℕ, ◌+◌, ◌<◌, ◌≤◌, ◌↔◌, ◌⊎◌, List, [], ◌∷◌, length, map, take, get_or, IfOk};
ghost use Rattle.clause_defs.specs.Literals.{Literal};
ghost use Rattle.clause_defs.specs.Clauses.{Has, SameSet, IsOrdered};
ghost use Rattle.clause_defs.specs.Resolution.{Step};
ghost use Rattle.clause_defs.specs.declared.verdict.TheConstants.{MAX_VARIABLE};
ghost use Rattle.log_defs.specs.Logs.{IsIndexOf, clause_of_log};
ghost use Rattle.leaf_defs.specs.Evaluated.{IsFalseAmong, variable_at};
ghost use Rattle.leaf_chain.specs.Marks.{marked, IsMarked, HasVariable, AreMarksAmong, IsRunning};
ghost use Rattle.leaf_chain.specs.Growing.{FitsVariables};
ghost use Rattle.leaf_chain.specs.Leaves.{IsEvaluatedIn, LeafEnds};

use crate::evaluation::Evaluation;
use clause_defs::MAX_VARIABLE;
use pch_base::{Lit, NoMemory};
use proof_log::{Log, LogEnd};
use std::alloc::Global;
use std::marker::Model;

/// The room in which chains are made: a running clause, the indices of its antecedents, and the literals
/// in which it ends.
///
/// Contracts see these three. There is a mark for each variable and one more.
#[derive(Debug, Drop)]
pub struct Chains {
    // Which variables the running clause has, by their numbers. All its literals are false.
    marks: Vec<bool>,
    antecedents: Vec<u32>,
    lits: Vec<Lit>,
}

impl Model for Chains {
    ghost use Rattle.std.specs.Prelude.{length, vec_capacity};
    ghost use Rattle.leaf_chain.specs.Marks.{Chaining};
    ghost use Rattle.leaf_chain.specs.Leaves.{HasRoom};

    ghost Value = { Chaining };

    ghost view = { λ c. record { marks = c.marks.items; antecedents = c.antecedents.items; lits = c.lits.items } };

    ghost invariant = { λ c. HasRoom (length c.marks.items) (vec_capacity c.antecedents) (vec_capacity c.lits) };
}

impl Chains {
    /// Room for chains over so many variables. Takes all memory that chains will ever take.
    pub fn new(alloc: Global, variables: u32) -> Result<Chains, NoMemory>
        requires { variables ≤ MAX_VARIABLE }
        ensures { IfOk result (λ c. length c.marks ≡ variables + 1) }
    {
        let places = variables as usize + 1;
        let mut marks = Vec::new(alloc);
        marks.resize(places, false)?;
        Ok(Chains {
            marks,
            antecedents: Vec::with_capacity(alloc, places)?,
            lits: Vec::with_capacity(alloc, places)?,
        })
    }

    /// Derives a clause of chosen variables whose literals are all false. The clause with the index
    /// `start`, whose literals are all false, is resolved with the reasons of its variables, from the last
    /// one on. Where the log has derived that clause already, its index is answered. Takes no memory.
    pub fn derive_chosen(
        &mut self,
        e: &Evaluation,
        start: u32,
        log: &mut Log,
    ) -> Result<u32, LogEnd>
        requires evaluated { IsEvaluatedIn log.old e.now }
        requires start { IsIndexOf log.old start }
        requires all_false { IsFalseAmong e.now.values e.now.order (clause_of_log log.old start) }
        requires room { length self.old.marks ≡ length e.now.values }
        ensures ends { LeafEnds e.now log.old result log.new }
        ensures room { length self.new.marks ≡ length self.old.marks }
    {
        self.start(e, start, log);
        self.resolve(e, log);
        self.collect(e);
        match log.derive(&self.lits, &self.antecedents) {
            Ok(index) => Ok(index),
            Err(LogEnd::Kept { index }) => Ok(index),
            Err(LogEnd::Spent { used, need }) => Err(LogEnd::Spent { used, need }),
        }
    }

    // Begins with the clause that has the index `start`.
    fn start(&mut self, e: &Evaluation, start: u32, log: &Log)
        requires evaluated { IsEvaluatedIn log.now e.now }
        requires start { IsIndexOf log.now start }
        requires all_false { IsFalseAmong e.now.values e.now.order (clause_of_log log.now start) }
        requires room { length self.old.marks ≡ length e.now.values }
        ensures running { IsRunning e.now log.now self.new.marks self.new.antecedents (length e.now.order) }
    {
        self.marks.fill(false);
        mark(log.clause(start), &mut self.marks);
        self.antecedents.clear();
        self.antecedents.push_reserved(start);
    }

    // Resolves with the reasons of all variables that weren't chosen, from the last one on.
    fn resolve(&mut self, e: &Evaluation, log: &Log)
        requires evaluated { IsEvaluatedIn log.now e.now }
        requires running { IsRunning e.now log.now self.old.marks self.old.antecedents (length e.now.order) }
        ensures running { IsRunning e.now log.now self.new.marks self.new.antecedents e.now.chosen }
        ensures places { FitsVariables e.now }
    {
        let mut i = e.len();
        while i > e.chosen() {
            i -= 1;
            if self.marks[e.variable(i) as usize] {
                self.resolve_at(e, i, log);
            }
        }
    }

    // Resolves with the reason of variable number `i` in the order, which the running clause has.
    fn resolve_at(&mut self, e: &Evaluation, i: u32, log: &Log)
        requires evaluated { IsEvaluatedIn log.now e.now }
        requires running { IsRunning e.now log.now self.old.marks self.old.antecedents (i + 1) }
        requires derived { (e.now.chosen ≤ i) × (i < length e.now.order) }
        requires there { IsMarked self.old.marks (variable_at e.now.order i) }
        ensures running { IsRunning e.now log.now self.new.marks self.new.antecedents i }
    {
        let reason = e.reason(i);
        mark(log.clause(reason), &mut self.marks);
        self.marks[e.variable(i) as usize] = false;
        self.antecedents.push_reserved(reason);
    }

    // Lists the literals of the running clause, whose variables were all chosen.
    fn collect(&mut self, e: &Evaluation)
        requires ordered { (i j : ℕ) → i < j → j < e.now.chosen
            → variable_at e.now.order i < variable_at e.now.order j }
        requires chosen { AreMarksAmong self.old.marks (take e.now.chosen e.now.order) }
        requires room { length self.old.marks ≡ length e.now.values }
        ensures ordered { IsOrdered self.new.lits }
        ensures same { SameSet (marked self.old.marks e.now.values) self.new.lits }
        ensures few { length self.new.lits ≤ e.now.chosen }
        ensures others { (self.new.marks ≡ self.old.marks) × (self.new.antecedents ≡ self.old.antecedents) }
    {
        self.lits.clear();
        for i in 0..e.chosen() {
            let variable = e.variable(i);
            if !self.marks[variable as usize] {
                continue;
            }
            let positive = !e.value(variable);
            self.lits.push_reserved(Lit::from_parts(variable, positive));
        }
    }
}

// Marks the variables of a clause.
fn mark(clause: &[Lit], marks: &mut Vec<bool>)
    requires { (l : Literal) → Has clause.now l → l.variable < length marks.old.items }
    ensures marks { (v : ℕ) → IsMarked marks.new.items v ↔ (IsMarked marks.old.items v ⊎ HasVariable clause.now v) }
    ensures places { length marks.new.items ≡ length marks.old.items }
{
    for l in clause {
        marks[l.variable() as usize] = true;
    }
}
