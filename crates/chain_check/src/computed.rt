ghost use Rattle.std.specs.Prelude.{◌≡◌, ◌+◌, ◌^◌, ◌<◌, ◌≤◌, [], length, get_or, set, replicate, IfOk};
ghost use Rattle.std.specs.Bool.{OnTrue};
ghost use Rattle.clause_defs.specs.Clauses.{Lits};
ghost use Rattle.chain_check.specs.ByPlace.{ClausesByPlace, parts_of, EachEndsBy};

use pch_base::{Lit, NoMemory};
use std::alloc::Global;
use std::marker::Model;

/// Where the literals of a clause stand in a list of literals.
#[derive(Clone, Copy, Debug)]
pub(crate) struct Span {
    start: u32,
    len: u32,
}

/// The literals of clauses whose literals a trace doesn't state, by the places of the clauses.
#[derive(Drop)]
pub struct Computed {
    pub(crate) spans: Vec<Span>,
    pub(crate) lits: Vec<Lit>,
}

impl Model for Computed {
    ghost use Rattle.std.specs.Prelude.{length, vec_capacity};
    ghost use Rattle.chain_check.specs.ByPlace.{ClausesByPlace, parts_of, AreParts};

    ghost Value = { ClausesByPlace };

    ghost view = { λ c. record {
      clauses = parts_of c.lits.items c.spans.items;
      total = length c.lits.items;
      room = vec_capacity c.lits;
    } };

    ghost invariant = { λ c. AreParts c.spans.items (length c.lits.items) };
}

impl Computed {
    /// No clauses yet, at so many places, with room for so many literals.
    pub fn new(alloc: Global, places: u32, literals: u32) -> Result<Computed, NoMemory>
        ensures clauses { IfOk result (λ c. c.clauses ≡ replicate places []) }
        ensures total { IfOk result (λ c. c.total ≡ 0) }
        ensures room { IfOk result (λ c. c.room ≡ literals) }
    {
        Ok(Computed {
            spans: vec![in alloc; Span { start: 0, len: 0 }; places as usize]?,
            lits: Vec::with_capacity(alloc, literals as usize)?,
        })
    }

    /// How many literals the clauses have together.
    pub fn total(&self) -> u32
        ensures { result ≡ self.now.total }
    {
        self.lits.len() as u32
    }

    /// The literals that were put at place `p`; none where none were put there.
    pub fn get(&self, p: u32) -> &[Lit]
        ensures { result.now ≡ get_or self.now.clauses p [] }
    {
        part(&self.spans, &self.lits, p)
    }

    /// Where the literals stand of each place, and all literals.
    pub(crate) fn parts(&self) -> (&[Span], &[Lit])
        ensures clauses { parts_of result.1.now result.0.now ≡ self.now.clauses }
        ensures within { EachEndsBy (length result.1.now) result.0.now }
    {
        (&self.spans, &self.lits)
    }

    /// Whether there is room for so many literals more.
    pub(crate) fn fits(&self, literals: usize) -> bool
        ensures { OnTrue result (self.now.total + literals ≤ self.now.room) }
    {
        literals <= self.lits.capacity() - self.lits.len()
    }

    /// Puts the literals of a clause at its place. Takes no memory.
    pub fn put(&mut self, p: u32, lits: &[Lit])
        requires within { p < length self.old.clauses }
        requires few { self.old.total + length lits.now < 2 ^ 32 }
        requires room { self.old.total + length lits.now ≤ self.old.room }
        ensures clauses { self.new.clauses ≡ set self.old.clauses p lits.now }
        ensures total { self.new.total ≡ self.old.total + length lits.now }
        ensures room { self.old.room ≤ self.new.room }
    {
        let span = Span {
            start: self.lits.len() as u32,
            len: lits.len() as u32,
        };
        let _ = self.lits.extend_from_slice(lits);
        self.spans[p as usize] = span;
    }

    /// Takes all clauses away. Their room stays.
    pub fn clear(&mut self)
        ensures clauses { self.new.clauses ≡ replicate (length self.old.clauses) [] }
        ensures total { self.new.total ≡ 0 }
        ensures room { self.old.room ≤ self.new.room }
    {
        self.spans.fill(Span { start: 0, len: 0 });
        self.lits.clear();
    }
}

/// The part of the literals that belongs to place `p`; no literals where there is no such place.
pub(crate) fn part<'a>(spans: &[Span], lits: &'a [Lit], p: u32) -> &'a [Lit]
    requires { EachEndsBy (length lits.now) spans.now }
    ensures { result.now ≡ get_or (parts_of lits.now spans.now) p [] }
{
    match spans.get(p as usize) {
        Some(span) => {
            let start = span.start as usize;
            &lits[start..start + span.len as usize]
        }
        None => &[],
    }
}
