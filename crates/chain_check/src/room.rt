ghost use Rattle.std.specs.Prelude.{◌≡◌, ◌≢◌, ℕ, ◌+◌, ◌-◌, ◌*◌, ◌<◌, ◌≤◌, ◌↔◌, List, [], length, min, vec_capacity, set, Some, None, Ok, IfOk, IfSome, IfNone, IsTrue};
ghost use Rattle.std.specs.Bool.{OnTrue};
ghost use Rattle.clause_defs.specs.Literals.{Literal};
ghost use Rattle.sat_values.specs.TraceArrays.{greatest_variable};
ghost use Rattle.clause_defs.specs.Clauses.{Lits, Has, SameSet, WithinVariables};
ghost use Rattle.clause_defs.specs.Resolution.{Resolves};
ghost use Rattle.clause_defs.specs.Traces.{Entry, IsTrace, IsCompactAt, stated_at, index_at, lits_at, antecedents_at};
ghost use Rattle.clause_defs.specs.Verdicts.{ChainFault, ClauseFault, EndsEmpty};
ghost use Rattle.clause_defs.specs.declared.verdict.ChainError.{ChainError};
ghost use Rattle.clause_defs.specs.declared.verdict.Verdict.{Verdict};
ghost use Rattle.chain_check.specs.Aside.{ChainGives};
ghost use Rattle.chain_check.specs.ByPlace.{parts_of, EachEndsBy};
ghost use Rattle.chain_check.specs.Known.{literals_at, antecedents_known, AreOver, IsKnownBefore, signs_before};
ghost use Rattle.chain_check.specs.Rooms.{IsRoomFor, KnowsBefore, StopsAt, SignsAreRight, IsFirstFault};

use crate::chain::{follow, known_literals};
use crate::computed::{Computed, Span};
use crate::marks::Marks;
use crate::stated::stated_fault;
use clause_defs::Verdict;
use pch_base::{Lit, NoMemory};
use sat_values::{ClauseSet, Trace};
use std::alloc::Global;

/// All the memory that a check of a trace needs: for the running clause of a chain, and for the clauses
/// whose literals the trace doesn't state.
///
/// Where G is the greatest variable of the trace, n the number of its clauses and S of those with the
/// sign, a room takes `8 * (G + 1)` bytes for marks, `8 * G` for a clause, `4 * min(limit, 2 * G * S)`
/// for the literals of computed clauses and, if S isn't 0, `8 * n` for their places. What isn't used of
/// the two parts for literals isn't touched.
#[derive(Drop)]
pub struct Room {
    /// How many literals the clauses with the sign may have together.
    limit: u32,
    /// The running clause of a chain.
    marks: Marks,
    /// Room for one clause that is computed.
    clause: Vec<Lit>,
    /// The clauses with the sign, as far as they were computed.
    computed: Computed,
}

/// Where the computing of the clauses with the sign stopped: at the place of the first faulty one, or at
/// the end of the trace.
#[derive(Clone, Copy, Debug)]
pub struct Stop {
    /// The place, counted from 0; the number of clauses at the end of the trace.
    pub place: u32,
    /// The fault of the clause there, if it has one.
    pub fault: Option<Verdict>,
}

impl Room {
    /// The room for this trace, in which the clauses with the sign may have `limit` literals together.
    pub fn open(alloc: Global, t: &Trace, limit: u32) -> Result<Room, NoMemory>
        ensures room { IfOk result (λ r. IsRoomFor t.now r) }
        ensures limit { IfOk result (λ r. r.limit ≡ limit) }
        ensures marks { IfOk result (λ r. r.marks.variables ≡ greatest_variable t.now) }
        ensures computed { IfOk result (λ r. r.computed.room
            ≡ min limit (2 * greatest_variable t.now * signs_before t.now (length t.now))) }
    {
        let variables = t.greatest_variable();
        let signs = signs(t);
        let places = if signs > 0 { t.len() } else { 0 };
        Ok(Room {
            limit,
            marks: Marks::new(alloc, variables)?,
            clause: Vec::with_capacity(alloc, 2 * variables as usize)?,
            computed: Computed::new(alloc, places, most_literals(variables, signs, limit))?,
        })
    }

    /// Marks for the variables of the trace, besides those of the room.
    pub fn more_marks(&self, alloc: Global) -> Result<Marks, NoMemory>
        ensures { IfOk result (λ m. m.variables ≡ self.now.marks.variables) }
    {
        Marks::new(alloc, self.marks.variables())
    }

    /// Takes out what an earlier check left.
    pub fn clear(&mut self, t: &Trace)
        requires room { IsRoomFor t.now self.old }
        ensures room { IsRoomFor t.now self.new }
        ensures limit { self.new.limit ≡ self.old.limit }
        ensures knows { KnowsBefore t.now self.new 0 }
    {
        self.computed.clear();
    }

    /// The fault of the clause at place `k`, counted from 0, which has the sign, if it has one. Else its
    /// literals are known then.
    pub(crate) fn compute(&mut self, t: &Trace, k: u32) -> Option<Verdict>
        requires within { k < length t.now }
        requires sign { IsCompactAt t.now k }
        requires trace { IsTrace t.now }
        requires room { IsRoomFor t.now self.old }
        requires knows { KnowsBefore t.now self.old k }
        ensures room { IsRoomFor t.now self.new }
        ensures limit { self.new.limit ≡ self.old.limit }
        ensures fault { (f : List Lits) → ClauseFault f t.now self.old.limit k result }
        ensures knows { IfNone result (KnowsBefore t.now self.new (k + 1)) }
        ensures still { IfSome result (λ v. KnowsBefore t.now self.new k) }
    {
        let (spans, lits) = self.computed.parts();
        if let Err(fault) = follow(t, spans, lits, k, &mut self.marks) {
            return Some(Verdict::Chain(fault));
        }
        self.keep(t, k)
    }

    /// The fault of the clause at place `k`, counted from 0, whose literals are stated, if it has one.
    pub(crate) fn stated_fault(&mut self, f: &ClauseSet, t: &Trace, k: u32) -> Option<Verdict>
        requires within { k < length t.now }
        requires trace { IsTrace t.now }
        requires stated { stated_at t.now k ≢ None }
        requires room { IsRoomFor t.now self.old }
        requires knows { KnowsBefore t.now self.old k }
        ensures room { IsRoomFor t.now self.new }
        ensures limit { self.new.limit ≡ self.old.limit }
        ensures fault { ClauseFault f.now.clauses t.now self.old.limit k result }
        ensures knows { KnowsBefore t.now self.new (k + 1) }
    {
        let (spans, lits) = self.computed.parts();
        stated_fault(f, t, spans, lits, k, &mut self.marks)
    }

    /// Computes the clauses with the sign, in the order of the trace, up to the first faulty one.
    pub fn compute_all(&mut self, t: &Trace) -> Stop
        requires room { IsRoomFor t.now self.old }
        ensures room { IsRoomFor t.now self.new }
        ensures limit { self.new.limit ≡ self.old.limit }
        ensures stop { StopsAt t.now self.old.limit result.place result.fault }
        ensures right { SignsAreRight t.now self.old.limit result.place }
        ensures knows { KnowsBefore t.now self.new result.place }
        ensures within { result.place ≤ length t.now }
        ensures trace { IsTrace t.now }
    {
        self.clear(t);
        for k in 0..t.len() {
            if let Some(fault) = self.compute_at(t, k) {
                return Stop {
                    place: k,
                    fault: Some(fault),
                };
            }
        }
        Stop {
            place: t.len(),
            fault: None,
        }
    }

    /// Computes the clause at place `k`, counted from 0, if it has the sign.
    fn compute_at(&mut self, t: &Trace, k: u32) -> Option<Verdict>
        requires within { k < length t.now }
        requires trace { IsTrace t.now }
        requires room { IsRoomFor t.now self.old }
        requires knows { KnowsBefore t.now self.old k }
        ensures room { IsRoomFor t.now self.new }
        ensures limit { self.new.limit ≡ self.old.limit }
        ensures right { IfNone result
            (IsCompactAt t.now k → (f : List Lits) → ClauseFault f t.now self.old.limit k None) }
        ensures fault { IfSome result
            (λ v. (f : List Lits) → ClauseFault f t.now self.old.limit k (Some v)) }
        ensures knows { IfNone result (KnowsBefore t.now self.new (k + 1)) }
        ensures still { IfSome result (λ v. KnowsBefore t.now self.new k) }
    {
        if t.is_compact(k) {
            self.compute(t, k)
        } else {
            None
        }
    }

    /// Room for a clause over the variables of the trace, besides that of the room.
    pub fn more_room(&self, alloc: Global) -> Result<Vec<Lit>, NoMemory>
        ensures { IfOk result (λ c. 2 * self.now.marks.variables ≤ vec_capacity c) }
    {
        Ok(Vec::with_capacity(alloc, 2 * self.marks.variables() as usize)?)
    }

    /// How many literals more the clauses with the sign may have.
    pub fn leave(&self) -> u32
        ensures { result ≡ self.now.limit - self.now.computed.total }
    {
        self.limit.saturating_sub(self.computed.total())
    }

    /// Computes the clause at place `k`, counted from 0, which has the sign, into a list with room for
    /// it, with marks besides those of the room: whether its chain has no fault and the clause at most
    /// so many literals.
    pub fn compute_aside(
        &self,
        t: &Trace,
        k: u32,
        most: u32,
        m: &mut Marks,
        list: &mut Vec<Lit>,
    ) -> bool
        requires within { k < length t.now }
        requires sign { IsCompactAt t.now k }
        requires trace { IsTrace t.now }
        requires over { (p : ℕ) → AreOver m.old.variables
            (literals_at t.now self.now.computed.clauses p) }
        requires room { 2 * m.old.variables ≤ vec_capacity list.old }
        ensures gives { OnTrue result (ChainGives (index_at t.now k)
            (antecedents_known t.now self.now.computed.clauses k) list.new.items) }
        ensures few { OnTrue result (length list.new.items ≤ most) }
        ensures variables { m.new.variables ≡ m.old.variables }
        ensures room { vec_capacity list.new ≡ vec_capacity list.old }
    {
        list.clear();
        let (spans, lits) = self.computed.parts();
        let Ok(()) = follow(t, spans, lits, k, m) else {
            return false;
        };
        if m.len() > most as usize {
            return false;
        }
        gather(t, spans, lits, k, m, list);
        true
    }

    /// Keeps literals as those of the clause at place `k`, counted from 0, and says whether there is
    /// leave and room for them.
    pub fn put_aside(&mut self, k: u32, lits: &[Lit]) -> bool
        requires { k < length self.old.computed.clauses }
        ensures limit { self.new.limit ≡ self.old.limit }
        ensures variables { self.new.marks.variables ≡ self.old.marks.variables }
        ensures clauses { OnTrue result
            (self.new.computed.clauses ≡ set self.old.computed.clauses k lits.now) }
        ensures total { OnTrue result
            (self.new.computed.total ≡ self.old.computed.total + length lits.now) }
        ensures within { OnTrue result (self.new.computed.total ≤ self.old.limit) }
        ensures room { (t : List Entry) → IsRoomFor t self.old → IsRoomFor t self.new }
    {
        let limit = self.limit;
        let literals = u64::from(self.computed.total()) + lits.len() as u64;
        if literals > u64::from(limit) || !self.computed.fits(lits.len()) {
            return false;
        }
        self.computed.put(k, lits);
        true
    }

    /// The fault of the first faulty clause at the places from `from` to before `to`, where the clauses
    /// with the sign are known and right.
    pub fn first_fault(
        &self,
        f: &ClauseSet,
        t: &Trace,
        from: u32,
        to: u32,
        m: &mut Marks,
    ) -> Option<Verdict>
        requires order { from ≤ to }
        requires within { to ≤ length t.now }
        requires known { IsKnownBefore t.now self.now.marks.variables self.now.computed.clauses to }
        requires right { SignsAreRight t.now self.now.limit to }
        requires covered { m.old.variables ≡ self.now.marks.variables }
        ensures fault { IsFirstFault f.now.clauses t.now self.now.limit from to result }
        ensures variables { m.new.variables ≡ m.old.variables }
    {
        let (spans, lits) = self.computed.parts();
        for k in from..to {
            if !t.is_compact(k)
                && let Some(fault) = stated_fault(f, t, spans, lits, k, m)
            {
                return Some(fault);
            }
        }
        None
    }

    /// Keeps what the chain of the clause at place `k`, which has the sign, came to, if there is leave.
    fn keep(&mut self, t: &Trace, k: u32) -> Option<Verdict>
        requires within { k < length t.now }
        requires derived { antecedents_at t.now k ≢ [] }
        requires sign { IsCompactAt t.now k }
        requires trace { IsTrace t.now }
        requires room { IsRoomFor t.now self.old }
        requires knows { KnowsBefore t.now self.old k }
        requires between_steps { self.old.marks.fresh ≡ [] }
        requires end { ChainFault (index_at t.now k) None
            (antecedents_known t.now self.old.computed.clauses k) (Ok tt) }
        requires clause { Resolves
            (antecedents_known t.now self.old.computed.clauses k) self.old.marks.running }
        ensures room { IsRoomFor t.now self.new }
        ensures limit { self.new.limit ≡ self.old.limit }
        ensures fault { (f : List Lits) → ClauseFault f t.now self.old.limit k result }
        ensures knows { IfNone result (KnowsBefore t.now self.new (k + 1)) }
        ensures still { IfSome result (λ v. KnowsBefore t.now self.new k) }
    {
        let literals = u64::from(self.computed.total()) + self.marks.len() as u64;
        if literals > u64::from(self.limit) {
            return Some(Verdict::TooWide { clause: t.index(k) });
        }
        self.clause.clear();
        let (spans, lits) = self.computed.parts();
        gather(t, spans, lits, k, &mut self.marks, &mut self.clause);
        self.computed.put(k, &self.clause);
        None
    }

    /// Whether the trace has a clause and its last one is empty.
    pub fn ends_empty(&self, t: &Trace) -> bool
        requires { KnowsBefore t.now self.now (length t.now) }
        ensures { IsTrue result ↔ EndsEmpty t.now }
    {
        let len = t.len();
        let (spans, lits) = self.computed.parts();
        len > 0 && known_literals(t, spans, lits, len - 1).is_empty()
    }
}

/// How many clauses of the trace have the sign.
fn signs(t: &Trace) -> u32
    ensures signs { result ≡ signs_before t.now (length t.now) }
    ensures trace { IsTrace t.now }
{
    let mut signs = 0;
    for k in 0..t.len() {
        if t.is_compact(k) {
            signs += 1;
        }
    }
    signs
}

/// How many literals so many clauses over so many variables may have together, but at most the limit.
fn most_literals(variables: u32, clauses: u32, limit: u32) -> u32
    ensures { result ≡ min limit (2 * variables * clauses) }
{
    let all = (2 * u64::from(variables)).saturating_mul(u64::from(clauses));
    if all < u64::from(limit) {
        all as u32
    } else {
        limit
    }
}

/// Moves the running clause, whose literals are all of antecedents of the clause at place `k`, into an
/// empty list with room for it.
fn gather(t: &Trace, spans: &[Span], lits: &[Lit], k: u32, m: &mut Marks, list: &mut Vec<Lit>)
    requires within { k < length t.now }
    requires parts { EachEndsBy (length lits.now) spans.now }
    requires covered { (p : ℕ)
        → WithinVariables m.old.variables (literals_at t.now (parts_of lits.now spans.now) p) }
    requires between_steps { m.old.fresh ≡ [] }
    requires antecedents { (l : Literal) → Has m.old.running l → (p : ℕ)
        × Has (antecedents_at t.now k) p
        × Has (literals_at t.now (parts_of lits.now spans.now) p) l }
    requires empty { list.old.items ≡ [] }
    requires room { length m.old.running ≤ vec_capacity list.old }
    ensures same { SameSet list.new.items m.old.running }
    ensures all { length list.new.items ≡ length m.old.running }
    ensures variables { m.new.variables ≡ m.old.variables }
    ensures room { vec_capacity list.new ≡ vec_capacity list.old }
{
    for &p in t.antecedents(k) {
        if m.is_empty() {
            return;
        }
        m.move_to(known_literals(t, spans, lits, p), list);
    }
}
