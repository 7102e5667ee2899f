ghost use Rattle.std.specs.Prelude.{◌≡◌, ◌≢◌, ℕ, ◌+◌, ◌<◌, ◌≤◌, ◌↔◌, ◌⊎◌, [], ◌∷◌, ◌++◌, length, take, get_or, vec_capacity, IfOk, IsTrue, if◌then◌else◌};
ghost use Rattle.clause_defs.specs.Literals.{Literal, negation};
ghost use Rattle.clause_defs.specs.Clauses.{Has, SameSet, IsOrdered, WithinVariables};
ghost use Rattle.clause_defs.specs.declared.verdict.TheConstants.{MAX_VARIABLE};
ghost use Rattle.log_defs.specs.Logs.{IsIndexOf, clause_of_log};
ghost use Rattle.trail_defs.specs.Assignments.{AreApart, IsAt, Implies};
ghost use Rattle.conflict_chain.specs.Conflicts.{IsChain, IsSplit, IsChainAt, ClashesOnce, AreOthersOf};
ghost use Rattle.conflict_chain.specs.Kept.{is_running, is_present};

use clause_defs::MAX_VARIABLE;
use pch_base::{Lit, NoMemory};
use proof_log::Log;
use std::alloc::Global;
use std::marker::Model;

/// A running clause and the indices of its antecedents.
///
/// Contracts see it as the record `Chained`. The literals of one level, the present one, are counted, so
/// that a search sees when one of them is left.
#[derive(Debug, Drop)]
pub struct ConflictChain {
    variables: u32,
    // For each literal, by its code: `ABSENT`, or how it stands in the running clause.
    marks: Vec<u8>,
    // How many literals are `PRESENT`.
    count: usize,
    antecedents: Vec<u32>,
}

// The literal isn't in the running clause.
const ABSENT: u8 = 0;
// It is, and is of another level than the present one.
const OTHER: u8 = 1;
// It is, and is of the present level.
const PRESENT: u8 = 2;

impl Model for ConflictChain {
    ghost use Rattle.std.specs.Prelude.{vec_capacity};
    ghost use Rattle.chain_check.specs.Marks.{literals_where};
    ghost use Rattle.conflict_chain.specs.Conflicts.{Chained};
    ghost use Rattle.conflict_chain.specs.Kept.{is_running, is_present, IsKept};

    ghost Value = { Chained };

    ghost view = { λ c. record {
      variables = c.variables;
      lits = literals_where is_running 0 c.marks.items;
      present = literals_where is_present 0 c.marks.items;
      antecedents = c.antecedents.items;
    } };

    ghost invariant = { λ c. IsKept c.variables c.marks.items c.count (vec_capacity c.antecedents) };
}

impl ConflictChain {
    /// Room for chains over so many variables. Takes all memory that chains will ever take.
    pub fn new(alloc: Global, variables: u32) -> Result<ConflictChain, NoMemory>
        requires { variables ≤ MAX_VARIABLE }
        ensures variables { IfOk result (λ c. c.variables ≡ variables) }
    {
        let places = 2 * variables as usize + 2;
        Ok(ConflictChain {
            variables,
            marks: vec![in alloc; ABSENT; places]?,
            count: 0,
            antecedents: Vec::with_capacity(alloc, variables as usize + 1)?,
        })
    }

    /// Begins with the clause that has this index, over the variables' levels and the present one of
    /// these.
    pub fn start(&mut self, log: &Log, index: u32, levels: &[u32], level: u32)
        requires index { IsIndexOf log.now index }
        requires within { WithinVariables self.old.variables (clause_of_log log.now index) }
        requires levels { self.old.variables < length levels.now }
        ensures variables { self.new.variables ≡ self.old.variables }
        ensures chain { IsChain log.now self.new }
        ensures lits { SameSet self.new.lits (clause_of_log log.now index) }
        ensures one { length self.new.antecedents ≡ 1 }
        ensures split { IsSplit levels.now level self.new }
    {
        self.clear();
        self.gather(log.clause(index), levels, level);
        self.antecedents.push_reserved(index);
    }

    /// Resolves with the reason of the literal at place `i` of the list, the clause with this index. The
    /// running clause has the literal's negation.
    pub fn resolve_at(
        &mut self,
        trail: &[Lit],
        i: usize,
        log: &Log,
        index: u32,
        levels: &[u32],
        level: u32,
    )
        requires conflict { IsChainAt log.now trail.now (i + 1) self.old }
        requires split { IsSplit levels.now level self.old }
        requires apart { AreApart trail.now }
        requires few { length trail.now ≤ self.old.variables }
        requires place { i < length trail.now }
        requires there { (l : Literal) → IsAt trail.now i l → Has self.old.lits (negation l) }
        requires index { IsIndexOf log.now index }
        requires reason { (l : Literal) → IsAt trail.now i l
            → Implies (take i trail.now) (clause_of_log log.now index) l }
        requires within { WithinVariables self.old.variables (clause_of_log log.now index) }
        requires levels { self.old.variables < length levels.now }
        ensures variables { self.new.variables ≡ self.old.variables }
        ensures conflict { IsChainAt log.now trail.now i self.new }
        ensures split { IsSplit levels.now level self.new }
        ensures lits { (l : Literal) → IsAt trail.now i l
            → AreOthersOf self.old.lits (clause_of_log log.now index) l self.new.lits }
    {
        self.resolve(log, index, trail[i], levels, level);
    }

    // Resolves with the clause that has this index, which has the literal alone of those that clash.
    fn resolve(&mut self, log: &Log, index: u32, literal: Lit, levels: &[u32], level: u32)
        requires chain { IsChain log.now self.old }
        requires split { IsSplit levels.now level self.old }
        requires once { ClashesOnce self.old.lits (clause_of_log log.now index) (negation literal) }
        requires fresh { Has self.old.lits literal → ⊥ }
        requires room { length self.old.antecedents ≤ self.old.variables }
        requires index { IsIndexOf log.now index }
        requires within { WithinVariables self.old.variables (clause_of_log log.now index) }
        requires levels { self.old.variables < length levels.now }
        ensures variables { self.new.variables ≡ self.old.variables }
        ensures chain { IsChain log.now self.new }
        ensures more { length self.new.antecedents ≡ length self.old.antecedents + 1 }
        ensures split { IsSplit levels.now level self.new }
        ensures lits { AreOthersOf self.old.lits (clause_of_log log.now index) literal self.new.lits }
    {
        self.set(literal.negated(), ABSENT);
        self.gather(log.clause(index), levels, level);
        self.set(literal, ABSENT);
        self.antecedents.push_reserved(index);
    }

    /// The greatest variable that a literal may have.
    pub fn variables(&self) -> u32
        ensures variables { result ≡ self.now.variables }
        ensures few { result ≤ MAX_VARIABLE }
    {
        self.variables
    }

    /// Whether the literal stands in the running clause.
    pub fn has(&self, l: Lit) -> bool
        requires { l.variable ≤ self.now.variables }
        ensures { IsTrue result ↔ Has self.now.lits l }
    {
        self.marks[l.code() as usize] > ABSENT
    }

    /// Whether it does and is of the present level.
    pub fn has_present(&self, l: Lit) -> bool
        requires { l.variable ≤ self.now.variables }
        ensures { IsTrue result ↔ Has self.now.present l }
    {
        self.marks[l.code() as usize] > OTHER
    }

    /// How many literals of the present level stand in the running clause.
    pub fn present(&self) -> usize
        ensures present { result ≡ length self.now.present }
        ensures ordered { IsOrdered self.now.present }
    {
        self.count
    }

    /// The indices of the antecedents, in the order of the chain.
    pub fn antecedents(&self) -> &[u32]
        ensures { result.now ≡ self.now.antecedents }
    {
        &self.antecedents
    }

    /// Lists the literals of the running clause in their order, in a list with room for as many as there
    /// are variables. No literal stands in it with its negation.
    pub fn list(&self, lits: &mut Vec<Lit>)
        requires consistent { (l : Literal) → Has self.now.lits l → Has self.now.lits (negation l) → ⊥ }
        requires room { self.now.variables ≤ vec_capacity lits.old }
        ensures lits { lits.new.items ≡ self.now.lits }
        ensures ordered { IsOrdered lits.new.items }
        ensures few { length lits.new.items ≤ self.now.variables }
        ensures room { vec_capacity lits.new ≡ vec_capacity lits.old }
    {
        lits.clear();
        for code in 2..self.marks.len() {
            if self.marks[code] == ABSENT {
                continue;
            }
            lits.push_reserved(Lit::from_parts((code / 2) as u32, code % 2 == 1));
        }
    }

    // An empty clause from no antecedents.
    fn clear(&mut self)
        ensures variables { self.new.variables ≡ self.old.variables }
        ensures lits { self.new.lits ≡ [] }
        ensures present { self.new.present ≡ [] }
        ensures antecedents { self.new.antecedents ≡ [] }
    {
        self.marks.fill(ABSENT);
        self.count = 0;
        self.antecedents.clear();
    }

    // Adds the literals of a clause.
    fn gather(&mut self, clause: &[Lit], levels: &[u32], level: u32)
        requires within { WithinVariables self.old.variables clause.now }
        requires levels { self.old.variables < length levels.now }
        requires split { IsSplit levels.now level self.old }
        ensures variables { self.new.variables ≡ self.old.variables }
        ensures antecedents { self.new.antecedents ≡ self.old.antecedents }
        ensures split { IsSplit levels.now level self.new }
        ensures lits { (x : Literal) → Has self.new.lits x ↔ (Has self.old.lits x ⊎ Has clause.now x) }
    {
        for &l in clause {
            self.set(l, mark_of(l, levels, level));
        }
    }

    // Marks a literal.
    fn set(&mut self, l: Lit, mark: u8)
        requires { l.variable ≤ self.old.variables }
        ensures variables { self.new.variables ≡ self.old.variables }
        ensures antecedents { self.new.antecedents ≡ self.old.antecedents }
        ensures lits { (x : Literal) → Has self.new.lits x
            ↔ ((Has self.old.lits x × (x ≢ l)) ⊎ (IsTrue (is_running mark) × (x ≡ l))) }
        ensures present { (x : Literal) → Has self.new.present x
            ↔ ((Has self.old.present x × (x ≢ l)) ⊎ (IsTrue (is_present mark) × (x ≡ l))) }
    {
        let place = l.code() as usize;
        self.count = self.count + counted(mark) - counted(self.marks[place]);
        self.marks[place] = mark;
    }
}

// How a literal stands in the running clause, by its level.
fn mark_of(l: Lit, levels: &[u32], level: u32) -> u8
    requires { l.variable < length levels.now }
    ensures running { IsTrue (is_running result) }
    ensures present { IsTrue (is_present result) ↔ (get_or levels.now l.variable 0 ≡ level) }
{
    if levels[l.variable() as usize] == level {
        PRESENT
    } else {
        OTHER
    }
}

// 1 for the mark of a present literal, and 0 for another one.
fn counted(mark: u8) -> usize
    ensures { result ≡ (if is_present mark then 1 else 0) }
{
    if mark > OTHER { 1 } else { 0 }
}
