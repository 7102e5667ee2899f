//! Reads a trace clause by clause, and judges each clause by those before it.
ghost use Rattle.std.specs.Prelude.{◌≡◌, ◌≢◌, ℕ, ◌+◌, ◌<◌, ◌≤◌, ◌++◌, ◌∷◌, true, [], length, IfOk, OnOk, None, Ok};
ghost use Rattle.text_defs.specs.Memory.{Gives};
ghost use Rattle.clause_defs.specs.Clauses.{Has};
ghost use Rattle.clause_defs.specs.Traces.{place_of, index_at};
ghost use Rattle.sat_text_defs.specs.declared.errors.TraceError.TheVariants as errors;
ghost use Rattle.pch_base.specs.declared.memory.NoMemory.{NoMemory};
ghost use Rattle.sat_text_defs.specs.TraceReading.{trace_in, judged, with_places, entry_of, places_from, indices_of};
ghost use Rattle.sat_scan.specs.Scan.{IsAtWord};
ghost use Rattle.sat_text.specs.ReadingSteps.{ReadsOn, spelled_of};

use crate::literal_order::order_clause;
use crate::trace_clause::{SpelledClause, read_clause};
use clause_defs::MAX_INDEX;
use pch_base::NoMemory;
use sat_scan::next_word;
use sat_text_defs::{MAX_TRACE_BYTES, TraceError};
use sat_values::Trace;
use std::alloc::Global;
use trace_places::Places;

/// A trace that is being read.
#[derive(Drop)]
struct Reading {
    /// The clauses so far.
    trace: Trace,
    /// Where their indices stand.
    places: Places,
    /// Room for the places of one clause's antecedents.
    found: Vec<u32>,
}

/// Appends a clause to the trace, whose antecedents stand at these places.
fn push_clause(
    trace: &mut Trace,
    clause: &mut SpelledClause,
    antecedents: &[u32],
) -> Result<(), NoMemory>
    requires low { 1 ≤ clause.old.index }
    requires high { clause.old.index ≤ MAX_INDEX }
    requires other { (k : ℕ) → k < length trace.old → index_at trace.old k ≢ clause.old.index }
    requires derived { clause.old.sign ≡ true → antecedents.now ≢ [] }
    requires earlier { (p : ℕ) → Has antecedents.now p → p < length trace.old }
    ensures pushed { OnOk result
        (trace.new ≡ trace.old ++ entry_of (spelled_of clause.old) antecedents.now ∷ []) }
    ensures index { clause.new.index ≡ clause.old.index }
{
    if clause.sign {
        return trace.push_compact(clause.index, antecedents);
    }
    order_clause(&mut clause.lits);
    trace.push(clause.index, &clause.lits, antecedents)
}

impl Reading {
    /// Reads the clause whose index is the word at `at`, judges it and appends it, and answers the place
    /// behind it.
    fn read_next(
        &mut self,
        text: &[u8],
        at: usize,
        version: u32,
        clause: &mut SpelledClause,
    ) -> Result<usize, TraceError>
        requires within { at < length text.now }
        requires stands { IsAtWord at text.now }
        requires short { length text.now ≤ MAX_TRACE_BYTES }
        requires places { self.old.places ≡ indices_of self.old.trace }
        ensures reads { ReadsOn version text.now at self.old.trace self.new.trace result }
        ensures places { IfOk result (λ _. self.new.places ≡ indices_of self.new.trace) }
        ensures later { IfOk result (λ next. at < next) }
        ensures inside { IfOk result (λ next. next ≤ length text.now) }
    {
        let behind = read_clause(text, at, version, clause)?;
        self.append(clause)?;
        Ok(behind)
    }

    /// Judges a clause and appends it.
    fn append(&mut self, clause: &mut SpelledClause) -> Result<(), TraceError>
        requires places { self.old.places ≡ indices_of self.old.trace }
        requires low { 1 ≤ clause.old.index }
        requires high { clause.old.index ≤ MAX_INDEX }
        requires derived { clause.old.sign ≡ true → 0 < length clause.old.antecedents.items }
        ensures exact { Gives errors.NoMemory (λ _. self.new.trace) result
            (judged self.old.trace (spelled_of clause.old)) }
        ensures places { IfOk result (λ _. self.new.places ≡ indices_of self.new.trace) }
    {
        if self.places.place(clause.index).is_some() {
            return Err(TraceError::Repeated {
                index: clause.index,
            });
        }
        let guess = self.found.last().copied().unwrap_or(0).wrapping_add(1);
        self.found.clear();
        match self
            .places
            .find_all(&clause.antecedents, guess, &mut self.found)?
        {
            Some(antecedent) => Err(TraceError::Unknown {
                index: clause.index,
                antecedent,
            }),
            None => self.append_judged(clause),
        }
    }

    /// Appends a clause whose index is new and whose antecedents stand at the places that were found.
    fn append_judged(&mut self, clause: &mut SpelledClause) -> Result<(), TraceError>
        requires places { self.old.places ≡ indices_of self.old.trace }
        requires low { 1 ≤ clause.old.index }
        requires high { clause.old.index ≤ MAX_INDEX }
        requires derived { clause.old.sign ≡ true → 0 < length clause.old.antecedents.items }
        requires other { place_of self.old.places clause.old.index ≡ None }
        requires found { places_from self.old.places [] clause.old.antecedents.items
            ≡ Ok self.old.found.items }
        ensures exact { Gives errors.NoMemory (λ _. self.new.trace) result
            (with_places self.old.trace (spelled_of clause.old) (Ok self.old.found.items)) }
        ensures places { IfOk result (λ _. self.new.places ≡ indices_of self.new.trace) }
    {
        push_clause(&mut self.trace, clause, &self.found)?;
        self.places.push(clause.index)?;
        Ok(())
    }
}

/// Reads a trace of this version: its value, or its one fault.
fn read_version(alloc: Global, b: &[u8], version: u32) -> Result<Trace, TraceError>
    ensures exact { Gives errors.NoMemory (λ t. t) result (trace_in version b.now) }
{
    if b.len() > MAX_TRACE_BYTES as usize {
        return Err(TraceError::TooLong);
    }
    let mut trace = Trace::empty(alloc);
    // Seldom is a clause shorter than 16 bytes, or each fourth byte the first one of a literal.
    trace.make_room(b.len() / 16, b.len() / 4, b.len() / 4);
    let mut reading = Reading {
        trace,
        places: Places::new(alloc, b.len() / 4 + 65_536),
        found: Vec::new(alloc),
    };
    let mut clause = SpelledClause {
        index: 0,
        sign: false,
        lits: Vec::new(alloc),
        antecedents: Vec::new(alloc),
    };
    let mut at = next_word(b, 0);
    while at < b.len() {
        let behind = reading.read_next(b, at, version, &mut clause)?;
        at = next_word(b, behind);
    }
    Ok(reading.trace)
}

/// Reads a trace in which every clause states its literals: its value, or its one fault.
pub fn read_trace(alloc: Global, b: &[u8]) -> Result<Trace, TraceError>
    ensures exact { Gives errors.NoMemory (λ t. t) result (trace_in 1 b.now) }
{
    read_version(alloc, b, 1)
}

/// Reads a trace in which the sign `*` may stand in place of a clause's literals and the `0` behind
/// them: its value, or its one fault.
pub fn read_compact(alloc: Global, b: &[u8]) -> Result<Trace, TraceError>
    ensures exact { Gives errors.NoMemory (λ t. t) result (trace_in 2 b.now) }
{
    read_version(alloc, b, 2)
}
