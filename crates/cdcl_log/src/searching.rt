ghost use Rattle.std.specs.Prelude.{◌≡◌, ℕ, ◌+◌, ◌<◌, ◌≤◌, [], length, get_or, Some, IfOk, IfSome, IfNone};
ghost use Rattle.clause_defs.specs.Literals.{Literal};
ghost use Rattle.clause_defs.specs.Clauses.{Lits, Has};
ghost use Rattle.clause_defs.specs.declared.verdict.TheConstants.{MAX_INDEX};
ghost use Rattle.log_defs.specs.Logs.{LogValue, Words, Extends, IsIndexOf, clause_of_log};
ghost use Rattle.trail_defs.specs.Assignments.{IsConflict, IsSatisfied};
ghost use Rattle.trail_defs.specs.Trails.{clause_at};
ghost use Rattle.settled_levels.specs.Levels.{IsSettledBelow, IsTaught};
ghost use Rattle.search_defs.specs.Solving.{StandsAs, never_back_of, IsSolving, GetsOn};
ghost use Rattle.search_defs.specs.Ends.{SolveEnds, IsTotal};
ghost use Rattle.search_defs.specs.declared.standing.Standing.TheVariants.{Forgotten};

use crate::descent::descend;
use crate::forgetting::{LEAST_WORDS, forget_all};
use crate::steps::{back_to, put};
use conflict_analysis::second_level;
use conflict_lesson::Lesson;
use decision_order::DecisionOrder;
use log_defs::LogEnd;
use pch_base::NoMemory;
use proof_log::Log;
use sat_trail::Trail;
use search_defs::{CdclEnd, Standing};
use std::alloc::Global;
use std::marker::Model;

/// The core of a search over the clauses of a log's formula: each call is one step of it.
///
/// Contracts see it as the record `Solving`: the words that it may derive, its trail, the index in the log of
/// each of the trail's clauses, and how each derived clause stands.
#[derive(Debug, Drop)]
pub struct Search {
    limit: u32,
    trail: Trail,
    // The index in the log of each clause of the trail, by its number.
    indices: Vec<u32>,
    // How each derived clause stands, in their order.
    standings: Vec<Standing>,
    lesson: Lesson,
    order: DecisionOrder,
}

impl Model for Search {
    ghost use Rattle.std.specs.Prelude.{◌≡◌, ◌≤◌, ◌+◌, ◌*◌, vec_capacity};
    ghost use Rattle.settled_levels.specs.Levels.{IsSettledBelow};
    ghost use Rattle.search_defs.specs.Solving.{Solving};

    ghost Value = { Solving };

    ghost view = { λ s. record {
      limit = s.limit;
      trail = s.trail;
      indices = s.indices.items;
      standings = s.standings.items;
    } };

    ghost invariant = { λ s. (s.lesson.variables ≡ s.trail.variables) × (s.order ≡ s.trail.variables + 1)
        × (s.limit ≤ 4 * vec_capacity s.standings + 3) };
}

impl Search {
    /// A search over the clauses of a log's formula that may derive so many words. Takes all memory of the
    /// search.
    pub fn open(alloc: Global, log: &Log, limit: u32) -> Result<Search, NoMemory>
        requires { limit ≤ log.now.budget }
        ensures limit { IfOk result (λ s. s.limit ≡ limit) }
        ensures solving { log.now.derived ≡ [] → IfOk result (λ s. IsSolving log.now s) }
    {
        let set = log.originals();
        let variables = set.variables();
        Ok(Search {
            limit,
            trail: Trail::open(alloc, set, limit, limit / LEAST_WORDS)?,
            indices: own_indices(alloc, set.len(), limit / LEAST_WORDS)?,
            standings: Vec::with_capacity(alloc, (limit / LEAST_WORDS) as usize)?,
            lesson: Lesson::new(alloc, variables)?,
            order: DecisionOrder::new(alloc, variables)?,
        })
    }

    /// The value of a variable, where each has one.
    pub fn value(&self, v: u32) -> bool
        requires point { IsTotal self.now.trail }
        requires low { 1 ≤ v }
        requires high { v ≤ self.now.trail.variables }
        ensures { Has self.now.trail.lits (record { variable = v; positive = result }) }
    {
        match self.trail.value(v) {
            Some(value) => value,
            None => false,
        }
    }

    /// Decides variables and draws the consequences, until a clause is in conflict, whose number it answers,
    /// or each variable has a value.
    pub fn descend(&mut self) -> Option<u32>
        requires settled { IsSettledBelow self.old.trail }
        ensures solving { (log : LogValue) → IsSolving log self.old → IsSolving log self.new }
        ensures same_limit { self.new.limit ≡ self.old.limit }
        ensures same_standings { self.new.standings ≡ self.old.standings }
        ensures conflict { IfSome result (λ k. (c : Lits)
            × (clause_at self.new.trail.clauses k ≡ Some c) × IsConflict self.new.trail.lits c) }
        ensures total { IfNone result (IsTotal self.new.trail) }
        ensures satisfied { IfNone result ((k : ℕ) (c : Lits)
            → clause_at self.new.trail.clauses k ≡ Some c → IsSatisfied self.new.trail.lits c) }
    {
        descend(&mut self.trail, &self.order, self.lesson.variables())
    }

    /// How each derived clause stands, in their order.
    pub fn standings(&self) -> &[Standing]
        ensures { result.now ≡ self.now.standings }
    {
        &self.standings
    }

    /// Goes back to level 0.
    pub fn back_to_root(&mut self)
        ensures solving { (log : LogValue) → IsSolving log self.old → IsSolving log self.new }
        ensures same_limit { self.new.limit ≡ self.old.limit }
        ensures same_standings { self.new.standings ≡ self.old.standings }
    {
        back_to(&mut self.trail, &mut self.order, 0);
    }

    /// Forgets learned clauses that are worth little and are no reason. The log keeps them.
    pub fn forget(&mut self, log: &Log)
        requires solving { IsSolving log.now self.old }
        ensures solving { IsSolving log.now self.new }
        ensures same_limit { self.new.limit ≡ self.old.limit }
        ensures never_back { never_back_of self.new.standings ≡ never_back_of self.old.standings }
    {
        forget_all(
            log,
            self.limit,
            &mut self.trail,
            &self.indices,
            &mut self.standings,
        );
    }

    /// Derives what a clause in conflict teaches, and goes back to where that clause asks for a value.
    pub fn learn_from(&mut self, number: u32, log: &mut Log) -> Option<CdclEnd>
        requires solving { IsSolving log.old self.old }
        requires conflict { (c : Lits)
            × (clause_at self.old.trail.clauses number ≡ Some c) × IsConflict self.old.trail.lits c }
        ensures log { Extends log.old log.new }
        ensures limit { Words log.new.derived ≤ self.old.limit }
        ensures same_limit { self.new.limit ≡ self.old.limit }
        ensures more { IfNone result (GetsOn log.old self.old.standings log.new self.new.standings) }
        ensures solving { IfNone result (IsSolving log.new self.new) }
        ensures end { IfSome result (λ end. SolveEnds log.new self.new end) }
    {
        let index = self.indices[number as usize];
        let present = self.trail.present();
        if present == 0 {
            return Some(self.conclude(index, log));
        }
        self.lesson.analyze(
            log,
            present,
            self.trail.literals(),
            self.trail.levels(),
            self.trail.reasons(),
            &self.indices,
            index,
        );
        self.lesson.bump(log, &mut self.order);
        let second = second_level(self.trail.levels(), present, self.lesson.lits());
        match self.lesson.derive(log, self.limit) {
            Ok(index) => {
                back_to(&mut self.trail, &mut self.order, second);
                put(
                    &mut self.trail,
                    &mut self.indices,
                    self.lesson.lits(),
                    index,
                );
                self.standings.push_reserved(Standing::Learned);
                None
            }
            Err(LogEnd::Kept { index }) => {
                self.put_back(index, second, log);
                None
            }
            Err(LogEnd::Spent { used, need }) => Some(CdclEnd::Spent { used, need }),
        }
    }

    // Goes back to a level, and puts a forgotten clause, which a conflict gave again, back into the trail.
    fn put_back(&mut self, index: u32, level: u32, log: &Log)
        requires solving { IsSolving log.now self.old }
        requires taught { (u : Literal) × IsTaught self.old.trail (clause_of_log log.now index) u level }
        requires forgotten { StandsAs log.now self.old.standings index Forgotten }
        ensures solving { IsSolving log.now self.new }
        ensures same_limit { self.new.limit ≡ self.old.limit }
        ensures fewer { never_back_of self.new.standings < never_back_of self.old.standings }
    {
        let _ = self.trail.present();
        let place = index - log.originals().len() - 1;
        back_to(&mut self.trail, &mut self.order, level);
        put(&mut self.trail, &mut self.indices, log.clause(index), index);
        self.standings[place as usize] = Standing::Back;
    }

    // Derives the empty clause from the clause with this index, which is in conflict on level 0.
    fn conclude(&mut self, index: u32, log: &mut Log) -> CdclEnd
        requires solving { IsSolving log.old self.old }
        requires root { self.old.trail.present ≡ 0 }
        requires index { IsIndexOf log.old index }
        requires conflict { IsConflict self.old.trail.lits (clause_of_log log.old index) }
        ensures log { Extends log.old log.new }
        ensures limit { Words log.new.derived ≤ self.old.limit }
        ensures end { SolveEnds log.new self.new result }
        ensures same_limit { self.new.limit ≡ self.old.limit }
    {
        self.lesson.refute(
            log,
            self.trail.literals(),
            self.trail.levels(),
            self.trail.reasons(),
            &self.indices,
            index,
        );
        match self.lesson.derive(log, self.limit) {
            Ok(index) => CdclEnd::Empty { index },
            // It isn't derived before.
            Err(LogEnd::Kept { index }) => CdclEnd::Empty { index },
            Err(LogEnd::Spent { used, need }) => CdclEnd::Spent { used, need },
        }
    }
}

// The numbers of the originals as their indices, and room for so many more.
fn own_indices(alloc: Global, originals: u32, more: u32) -> Result<Vec<u32>, NoMemory>
    requires { originals + more ≤ MAX_INDEX }
    ensures size { IfOk result (λ is. length is.items ≡ originals + more + 1) }
    ensures own { IfOk result (λ is. (k : ℕ) → k ≤ originals → get_or is.items k 0 ≡ k) }
{
    let mut indices = vec![in alloc; 0u32; originals as usize + more as usize + 1]?;
    for k in 0..originals {
        indices[k as usize + 1] = k + 1;
    }
    Ok(indices)
}
