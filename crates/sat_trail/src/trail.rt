ghost use Rattle.std.specs.Prelude.{◌≡◌, ◌≢◌, ◌⊎◌, ℕ, ◌+◌, ◌*◌, ◌-◌, ◌^◌, ◌<◌, ◌≤◌, ◌↔◌, ◌++◌, [], ◌∷◌, length, set, get_or, take, sum_by, true, None, Some, IsTrue, IfOk, IfErr, IfSome, IfNone};
ghost use Rattle.clause_defs.specs.Literals.{Literal};
ghost use Rattle.clause_defs.specs.Clauses.{Lits, Has, IsClause, WithinVariables};
ghost use Rattle.pch_region.specs.Blocks.{words_of, blocks_of, AreAllNames};
ghost use Rattle.trail_defs.specs.Assignments.{IsAt, IsFree, IsSettled, IsConflict};
ghost use Rattle.trail_defs.specs.Trails.{clause_at, level_of, reason_of, IsTrail, IsOpened, IsUpTo, IsGrown, HasSameClauses, IsNoReason, HasSameValues};
ghost use Rattle.sat_trail.specs.Loading.{IsLoading, AreLoadedLists};

use crate::levels::{Stage, Values, imply};
use crate::propagation::propagate;
use crate::watches::Watches;
use pch_base::{Lit, NoMemory};
use pch_region::{Block, Full, Region};
use sat_values::ClauseSet;
use std::alloc::Global;
use std::marker::Model;

/// Clauses and the literals that have a value, in the order in which they got it.
///
/// Clauses have numbers from 1 on: those of the set have the set's, and learned ones get others.
/// Contracts see a trail as `Assigned` of `trail_defs`.
#[derive(Debug, Drop)]
pub struct Trail {
    // how many clauses are the set's
    originals: u32,
    // clause number k is block k - 1
    region: Region,
    watches: Watches,
    values: Values,
    // how many literals were passed on to the watches
    done: u32,
    // for each level how far the trail was when it was opened
    stages: Vec<Stage>,
    // the present level, as many as there are stages
    present: u32,
}

impl Model for Trail {
    ghost use Rattle.std.specs.Prelude.{◌≡◌, ◌≤◌, length, vec_capacity};
    ghost use Rattle.trail_defs.specs.Trails.{Assigned};
    ghost use Rattle.sat_trail.specs.Kept.{IsKept};

    ghost Value = { Assigned };

    ghost view = { λ t. record {
      variables = t.values.assignment.variables;
      originals = t.originals;
      clauses = t.region.held;
      lits = t.values.assignment.lits;
      levels = t.values.levels.items;
      reasons = t.values.reasons.items;
      present = t.present;
      words = t.region.words;
    } };

    ghost invariant = { λ t.
        IsKept t.values.assignment.variables t.originals t.region.held t.values.assignment.lits
        t.values.levels.items t.values.reasons.items t.stages.items t.done
        t.watches.watch.items t.watches.links
        × (t.values.assignment.variables ≤ vec_capacity t.stages)
        × (t.present ≡ length t.stages.items) };
}

impl Trail {
    /// The clauses of a set, with room for so many words and clauses more, and no values. Takes all memory
    /// of the trail.
    pub fn open(
        alloc: Global,
        set: &ClauseSet,
        extra_words: u32,
        extra_blocks: u32,
    ) -> Result<Trail, NoMemory>
        ensures opened { IfOk result (λ t.
            IsOpened set.now.variables set.now.clauses extra_words extra_blocks t) }
    {
        Trail::open_front(alloc, set, set.len(), extra_words, extra_blocks)
    }

    /// The same of the first `count` clauses of a set alone.
    pub fn open_front(
        alloc: Global,
        set: &ClauseSet,
        count: u32,
        extra_words: u32,
        extra_blocks: u32,
    ) -> Result<Trail, NoMemory>
        requires { count ≤ length set.now.clauses }
        ensures opened { IfOk result (λ t.
            IsOpened set.now.variables (take count set.now.clauses) extra_words extra_blocks t) }
    {
        let blocks = sum(count, extra_blocks)?;
        let links = sum(blocks, blocks)?;
        let words = sum(literals_in(set, count)?, extra_words)?;
        let variables = set.variables();
        let values = Values::new(alloc, variables)?;
        let stages = Vec::with_capacity(alloc, variables as usize)?;
        let mut watches = Watches::new(alloc, variables, links)?;
        let mut region = Region::new(alloc, words, blocks)?;
        load(set, count, &mut region, &mut watches);
        Ok(Trail {
            originals: count,
            region,
            watches,
            values,
            done: 0,
            stages,
            present: 0,
        })
    }

    /// Opens a level and gives `l` the value true, as the last literal. Its variable has no value.
    pub fn assign(&mut self, l: Lit)
        requires free { IsFree self.old.lits l }
        requires within { l.variable ≤ self.old.variables }
        ensures lits { self.new.lits ≡ self.old.lits ++ l ∷ [] }
        ensures levels { self.new.levels ≡ set self.old.levels l.variable (self.old.present + 1) }
        ensures reasons { self.new.reasons ≡ set self.old.reasons l.variable 0 }
        ensures present { self.new.present ≡ self.old.present + 1 }
        ensures own { level_of self.new l ≡ self.old.present + 1 }
        ensures others { (m : Literal) → Has self.old.lits m
            → level_of self.new m ≡ level_of self.old m }
        ensures same { HasSameClauses self.old self.new }
    {
        let stage = Stage {
            len: self.values.assignment.len() as u32,
            done: self.done,
        };
        self.present += 1;
        imply(&mut self.values, l, self.present, 0);
        self.stages.push_reserved(stage);
    }

    /// Gives values to the literals that clauses imply, each with its reason, behind those that have one.
    ///
    /// Some names a live clause whose literals are all false. None means that each live clause has a true
    /// literal, or two literals without a value.
    pub fn propagate(&mut self) -> Option<u32>
        ensures grown { IsGrown self.old self.new }
        ensures conflict { IfSome result (λ k. (c : Lits)
            × (clause_at self.old.clauses k ≡ Some c) × IsConflict self.new.lits c) }
        ensures settled { IfNone result ((k : ℕ) (c : Lits)
            → clause_at self.old.clauses k ≡ Some c → IsSettled self.new.lits c) }
        ensures present { self.new.present ≡ self.old.present }
        ensures same { HasSameClauses self.old self.new }
    {
        propagate(
            &self.region,
            &mut self.watches,
            &mut self.values,
            self.present,
            &mut self.done,
        )
    }

    /// Takes the values of all levels greater than this one away. No clause is touched.
    pub fn back_to(&mut self, level: u32)
        requires { level ≤ self.old.present }
        ensures lits { IsUpTo level self.old self.new }
        ensures levels { self.new.levels ≡ self.old.levels }
        ensures reasons { self.new.reasons ≡ self.old.reasons }
        ensures present { self.new.present ≡ level }
        ensures same { HasSameClauses self.old self.new }
    {
        if level < self.present {
            let stage = self.stages[level as usize];
            self.values.assignment.back_to(stage.len as usize);
            self.done = stage.done;
            self.stages.truncate(level as usize);
            self.present = level;
        }
    }

    /// How many variables there are; they are numbered from 1.
    pub fn variables(&self) -> u32
        ensures variables { result ≡ self.now.variables }
        ensures known { IsTrail self.now }
    {
        let _ = self.len();
        self.values.assignment.variables()
    }

    /// The value of a variable, if it has one.
    pub fn value(&self, v: u32) -> Option<bool>
        requires low { 1 ≤ v }
        requires high { v ≤ self.now.variables }
        ensures some { IfSome result (λ b. Has self.now.lits (record { variable = v; positive = b })) }
        ensures none { IfNone result (IsFree self.now.lits (record { variable = v; positive = true })) }
        ensures known { IsTrail self.now }
    {
        self.values.assignment.value(v)
    }

    /// Whether the literal is true.
    pub fn holds(&self, l: Lit) -> bool
        requires { l.variable ≤ self.now.variables }
        ensures holds { IsTrue result ↔ Has self.now.lits l }
        ensures known { IsTrail self.now }
    {
        self.values.assignment.holds(l)
    }

    /// How many literals have been given a value and are true.
    pub fn len(&self) -> u32
        ensures len { result ≡ length self.now.lits }
        ensures known { IsTrail self.now }
    {
        self.values.assignment.len() as u32
    }

    /// The literal at a place of the list, counted from 0.
    pub fn literal_at(&self, i: u32) -> Lit
        requires { i < length self.now.lits }
        ensures at { IsAt self.now.lits i result }
        ensures known { IsTrail self.now }
    {
        self.values.assignment.get(i as usize)
    }

    /// The literals that have been given a value and are true, in their order.
    pub fn literals(&self) -> &[Lit]
        ensures literals { result.now ≡ self.now.lits }
        ensures known { IsTrail self.now }
    {
        let _ = self.len();
        self.values.assignment.literals()
    }

    /// The levels of the variables, by their numbers.
    pub fn levels(&self) -> &[u32]
        ensures levels { result.now ≡ self.now.levels }
        ensures size { self.now.variables < length result.now }
        ensures known { IsTrail self.now }
    {
        let _ = self.len();
        &self.values.levels
    }

    /// For each variable, by its number, the number of the clause that implied its literal, or 0.
    pub fn reasons(&self) -> &[u32]
        ensures reasons { result.now ≡ self.now.reasons }
        ensures size { self.now.variables < length result.now }
        ensures known { IsTrail self.now }
    {
        let _ = self.len();
        &self.values.reasons
    }

    /// The present level: how many levels are open.
    pub fn present(&self) -> u32
        ensures present { result ≡ self.now.present }
        ensures known { IsTrail self.now }
    {
        let _ = self.len();
        self.present
    }

    /// Whether the clause of this number is live.
    pub fn is_live(&self, c: u32) -> bool
        ensures live { IsTrue result ↔ (clause_at self.now.clauses c ≢ None) }
        ensures known { IsTrail self.now }
    {
        let _ = self.len();
        c > 0 && self.region.is_live(Block::from_name(c - 1))
    }

    /// The clause that implied the literal of a variable; None where it has no value, or got it by `assign`.
    pub fn reason(&self, v: u32) -> Option<u32>
        requires low { 1 ≤ v }
        requires high { v ≤ self.now.variables }
        ensures some { IfSome result (λ k. (l : Literal) × Has self.now.lits l × (l.variable ≡ v)
            × (k ≢ 0) × (reason_of self.now l ≡ k)) }
        ensures none { IfNone result ((l : Literal) → Has self.now.lits l → l.variable ≡ v
            → reason_of self.now l ≡ 0) }
        ensures known { IsTrail self.now }
    {
        self.value(v)?;
        match self.values.reasons[v as usize] {
            0 => None,
            number => Some(number),
        }
    }

    /// The level of a variable that has a value.
    pub fn level(&self, v: u32) -> u32
        requires given { (l : Literal) × Has self.now.lits l × (l.variable ≡ v) }
        requires high { v ≤ self.now.variables }
        ensures level { result ≡ get_or self.now.levels v 0 }
        ensures known { IsTrail self.now }
    {
        let _ = self.len();
        self.values.levels[v as usize]
    }

    /// The literals of a live clause.
    pub fn lits(&self, c: u32) -> &[Lit]
        requires { clause_at self.now.clauses c ≢ None }
        ensures lits { clause_at self.now.clauses c ≡ Some result.now }
        ensures clause { IsClause result.now }
        ensures within { WithinVariables self.now.variables result.now }
    {
        self.region.get(Block::from_name(c - 1))
    }

    /// Adds a clause and answers its number, or `Full` as the region does. The clause is looked at from the
    /// next `propagate` on.
    pub fn learn(&mut self, lits: &[Lit]) -> Result<u32, Full>
        requires clause { IsClause lits.now }
        requires within { WithinVariables self.old.variables lits.now }
        ensures fresh { IfOk result (λ k. clause_at self.old.clauses k ≡ None) }
        ensures high { IfOk result (λ k. self.old.originals < k) }
        ensures within { IfOk result (λ k. k ≤ length self.old.clauses) }
        ensures clauses { IfOk result (λ k. self.new.clauses ≡ set self.old.clauses (k - 1) (Some lits.now)) }
        ensures fits { IfOk result (λ _. words_of self.old.clauses + length lits.now ≤ self.old.words) }
        ensures free { IfOk result (λ _. blocks_of self.old.clauses < length self.old.clauses) }
        ensures full { IfErr result (λ _.
            (self.old.words < words_of self.old.clauses + length lits.now)
            ⊎ (length self.old.clauses ≤ blocks_of self.old.clauses)) }
        ensures live_words { IfErr result (λ f. f.live_words ≡ words_of self.old.clauses) }
        ensures live_blocks { IfErr result (λ f. f.live_blocks ≡ blocks_of self.old.clauses) }
        ensures same { IfErr result (λ _. self.new ≡ self.old) }
        ensures values { IfOk result (λ _. HasSameValues self.old self.new) }
    {
        let name = self.region.put(lits)?.name();
        self.watches.links.push(1, 2 * name);
        Ok(name + 1)
    }

    /// Takes a learned clause away that is no reason.
    pub fn forget(&mut self, c: u32)
        requires live { clause_at self.old.clauses c ≢ None }
        requires learned { self.old.originals < c }
        requires no_reason { IsNoReason self.old c }
        ensures clauses { self.new.clauses ≡ set self.old.clauses (c - 1) None }
        ensures values { HasSameValues self.old self.new }
    {
        self.watches.release(c - 1);
        self.region.free(Block::from_name(c - 1));
    }
}

// The sum, if 32 bits can hold it.
fn sum(a: u32, b: u32) -> Result<u32, NoMemory>
    ensures sum { IfOk result (λ n. n ≡ a + b) }
    ensures small { IfOk result (λ n. n < 2 ^ 32) }
{
    if a > u32::MAX - b {
        return Err(NoMemory);
    }
    Ok(a + b)
}

// How many literals the first `count` clauses have together, if 32 bits can count them.
fn literals_in(set: &ClauseSet, count: u32) -> Result<u32, NoMemory>
    requires { count ≤ length set.now.clauses }
    ensures { IfOk result (λ n. n ≡ sum_by length (take count set.now.clauses)) }
{
    let mut total: u32 = 0;
    for k in 0..count {
        let more = set.clause(k + 1).len();
        if more > (u32::MAX - total) as usize {
            return Err(NoMemory);
        }
        total += more as u32;
    }
    Ok(total)
}

// Puts the first `count` clauses of the set into an empty region, all of them loose.
fn load(set: &ClauseSet, count: u32, region: &mut Region, watches: &mut Watches)
    requires count { count ≤ length set.now.clauses }
    requires loading { IsLoading set.now.clauses (length region.old.held) 0 region.old.held }
    requires names { AreAllNames (length region.old.held) region.old.unused }
    requires blocks { count ≤ length region.old.held }
    requires words { sum_by length (take count set.now.clauses) ≤ region.old.words }
    requires size { watches.old.links.size ≡ 2 * length region.old.held }
    requires few { watches.old.links.size < 2 ^ 32 }
    requires lists { AreLoadedLists 0 watches.old.links.lists }
    ensures loading { IsLoading set.now.clauses (length region.old.held) count region.new.held }
    ensures words { region.new.words ≡ region.old.words }
    ensures watch { watches.new.watch ≡ watches.old.watch }
    ensures size { watches.new.links.size ≡ watches.old.links.size }
    ensures lists { AreLoadedLists count watches.new.links.lists }
    ensures many_lists { length watches.new.links.lists ≡ length watches.old.links.lists }
{
    for k in 0..count {
        let _ = region.put(set.clause(k + 1));
        watches.links.push(1, 2 * k);
    }
}
