//! Clauses with their index.
ghost use Rattle.std.specs.Prelude.{◌≡◌, ◌≢◌, ℕ, ◌+◌, ◌^◌, ◌<◌, ◌≤◌, ◌++◌, [], ◌∷◌, length, slice_get, Some, IfSome, IfNone, IfOk, vec_capacity};
ghost use Rattle.flat_lists.specs.Flat.{total};
ghost use Rattle.clause_index.specs.Runs.{AreKeys};
ghost use Rattle.clause_index.specs.Index.{IsIndex};

use crate::runs::Runs;
use crate::slots::{Slots, key};
use flat_lists::FlatLists;
use pch_base::{Lit, NoMemory};
use std::alloc::Global;
use std::marker::Model;

/// A list of clauses that can be looked up by their literals. Clauses are numbered from 0.
///
/// Contracts see the clauses, how many of them fit in all, and how many literals they may have together.
/// The literals of a clause stand in an order of the caller's, who looks them up in the same order.
#[derive(Debug, Drop)]
pub struct ClauseIndex {
    clauses: FlatLists<Lit>,
    // The tags of the clauses, by which they stand in runs.
    keys: Vec<u32>,
    slots: Slots,
    runs: Runs,
    room: u32,
}

impl Model for ClauseIndex {
    ghost use Rattle.std.specs.Prelude.{length, vec_capacity};
    ghost use Rattle.clause_index.specs.Index.{Indexed, IsIndexed};

    ghost Value = { Indexed };

    ghost view = { λ x. record {
      clauses = x.clauses.lists;
      clause_room = x.room;
      literal_room = x.clauses.item_room;
    } };

    ghost invariant = { λ x. IsIndexed x.clauses x.keys.items (vec_capacity x.keys)
        x.slots.groups x.slots.tags.items x.slots.numbers.items
        x.runs.runs (vec_capacity x.runs.run) (vec_capacity x.runs.merged) x.room };
}

impl ClauseIndex {
    /// No clauses, with room for so many and for so many literals. Takes all memory that the index will
    /// ever have.
    pub fn with_room(alloc: Global, clauses: u32, literals: u32) -> Result<ClauseIndex, NoMemory>
        ensures empty { IfOk result (λ x. x.clauses ≡ []) }
        ensures clause_room { IfOk result (λ x. x.clause_room ≡ clauses) }
        ensures literal_room { IfOk result (λ x. literals ≤ x.literal_room) }
    {
        Ok(ClauseIndex {
            clauses: FlatLists::with_capacity(alloc, clauses as usize, literals as usize)?,
            keys: Vec::with_capacity(alloc, clauses as usize)?,
            slots: Slots::with_room(alloc, clauses)?,
            runs: Runs::with_room(alloc, clauses)?,
            room: clauses,
        })
    }

    /// The index of all clauses of a list, which has no room for more.
    pub fn of(alloc: Global, clauses: FlatLists<Lit>) -> Result<ClauseIndex, NoMemory>
        ensures { IfOk result (λ x. x.clauses ≡ clauses.lists) }
    {
        let len = clauses.len();
        let keys = keys_of(alloc, &clauses)?;
        let mut slots = Slots::with_room(alloc, len)?;
        let mut runs = Runs::with_room(alloc, len)?;
        for k in 0..len {
            add(&clauses, &keys, &mut slots, &mut runs, len, k);
        }
        runs.settle(&clauses, &keys);
        Ok(ClauseIndex {
            clauses,
            keys,
            slots,
            runs,
            room: len,
        })
    }

    /// How many clauses there are.
    pub fn len(&self) -> u32
        ensures len { result ≡ length self.now.clauses }
        ensures room { result ≤ self.now.clause_room }
    {
        self.clauses.len()
    }

    /// How many literals the clauses have together.
    pub fn total(&self) -> u32
        ensures { result ≡ total self.now.clauses }
    {
        self.clauses.total()
    }

    /// The literals of clause `k`, counted from 0.
    pub fn clause(&self, k: u32) -> &[Lit]
        requires { k < length self.now.clauses }
        ensures { slice_get self.now.clauses k ≡ Some result.now }
    {
        self.clauses.get(k)
    }

    /// The number of a clause that is this list of literals.
    pub fn find(&self, lits: &[Lit]) -> Option<u32>
        ensures some { IfSome result (λ k. slice_get self.now.clauses k ≡ Some lits.now) }
        ensures none { IfNone result ((k : ℕ) → slice_get self.now.clauses k ≢ Some lits.now) }
    {
        if let Some(k) = self.slots.find(&self.clauses, lits) {
            return Some(k);
        }
        self.runs.find(&self.clauses, &self.keys, lits)
    }

    /// Appends a clause, which may be there already. Takes no memory.
    pub fn insert(&mut self, lits: &[Lit])
        requires clauses { length self.old.clauses < self.old.clause_room }
        requires literals { total self.old.clauses + length lits.now ≤ self.old.literal_room }
        requires few { total self.old.clauses + length lits.now < 2 ^ 32 }
        ensures clauses { self.new.clauses ≡ self.old.clauses ++ lits.now ∷ [] }
        ensures clause_room { self.new.clause_room ≡ self.old.clause_room }
        ensures literal_room { self.old.literal_room ≤ self.new.literal_room }
    {
        let k = self.clauses.len();
        self.clauses.push_reserved(lits);
        self.keys.push_reserved(key(lits));
        add(
            &self.clauses,
            &self.keys,
            &mut self.slots,
            &mut self.runs,
            self.room,
            k,
        );
    }
}

// The keys of all clauses.
fn keys_of(alloc: Global, clauses: &FlatLists<Lit>) -> Result<Vec<u32>, NoMemory>
    ensures { IfOk result (λ keys. AreKeys clauses.now.lists keys.items) }
{
    let mut keys = Vec::with_capacity(alloc, clauses.len() as usize)?;
    for k in 0..clauses.len() {
        keys.push(key(clauses.get(k)))?;
    }
    Ok(keys)
}

// Puts clause `k` into the index of those before it.
fn add(
    clauses: &FlatLists<Lit>,
    keys: &[u32],
    slots: &mut Slots,
    runs: &mut Runs,
    room: u32,
    k: u32,
)
    requires keys { AreKeys clauses.now.lists keys.now }
    requires within { k < length clauses.now.lists }
    requires room { k < room }
    requires index { IsIndex clauses.now.lists
        slots.old.groups slots.old.tags.items slots.old.numbers.items
        runs.old.runs (vec_capacity runs.old.run) (vec_capacity runs.old.merged) room k }
    ensures index { IsIndex clauses.now.lists
        slots.new.groups slots.new.tags.items slots.new.numbers.items
        runs.new.runs (vec_capacity runs.new.run) (vec_capacity runs.new.merged) room (k + 1) }
{
    if !slots.add(clauses.get(k), k) {
        runs.add(clauses, keys, k);
    }
}
