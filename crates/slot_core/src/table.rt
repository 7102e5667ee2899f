//! The table: a journal of room that was taken at once, and the slots after it.

ghost use Rattle.std.specs.Prelude.{◌≡◌, ℕ, ◌+◌, ◌-◌, ◌<◌, ◌≤◌, [], ◌∷◌, ◌++◌, ◌==◌, length, slice_get, All, IfOk, Some};
ghost use Rattle.journal_defs.specs.Journals.{agreement_at};
ghost use Rattle.journal_defs.specs.Legality.{CanFollow, Legal};
ghost use Rattle.slot_core.specs.Entries.{entry_value};
ghost use Rattle.slot_core.specs.Slots.{IsSlotAfter, no_place};
ghost use Rattle.slot_core.specs.Tables.{IsLegal};

use crate::entry::Entry;
use crate::place::Place;
use crate::ready::Ready;
use crate::slot::Slot;
use fabric::Geometry;
use pch_base::NoMemory;
use std::alloc::Global;
use std::marker::Model;

/// A journal, and the slots after it. Contracts see the geometry of the fabric, the number of slots,
/// the limit of the journal, and the journal with the plain values of its entries. The journal is
/// always legal.
#[derive(Drop)]
pub struct Table {
    /// The fabric of each slot.
    geometry: Geometry,
    /// The most entries that the journal may have.
    limit: u32,
    /// The journal. There is room for as many entries as the limit.
    entries: Vec<Entry>,
    /// The slots by their numbers.
    places: Vec<Place>,
}

impl Model for Table {
    ghost use Rattle.std.specs.Prelude.{length, map, vec_capacity};
    ghost use Rattle.slot_core.specs.Values.{TableValue};
    ghost use Rattle.slot_core.specs.Entries.{entry_value};
    ghost use Rattle.slot_core.specs.Tables.{IsKept};

    ghost Value = { TableValue };

    ghost view = { λ t. record {
      geometry = t.geometry;
      slots = length t.places.items;
      limit = t.limit;
      journal = map entry_value t.entries.items;
    } };

    ghost invariant = { λ t.
        IsKept t.geometry t.limit (vec_capacity t.entries) t.entries.items t.places.items };
}

/// So many slots before the first entry.
fn vacant_places(alloc: Global, count: u32) -> Result<Vec<Place>, NoMemory>
    ensures count { IfOk result (λ places. length places.items ≡ count) }
    ensures vacant { IfOk result (λ places. All (λ p. p ≡ no_place) places.items) }
{
    let mut places = Vec::with_capacity(alloc, count as usize)?;
    for slot in 0..count {
        places.push(Place::vacant())?;
    }
    Ok(places)
}

impl Table {
    /// A table of so many slots without entries. The room for `limit` entries is taken here.
    pub fn new(alloc: Global, g: Geometry, slots: u32, limit: u32) -> Result<Table, NoMemory>
        ensures { IfOk result (λ t. t
            ≡ record { geometry = g; slots = slots; limit = limit; journal = [] }) }
    {
        let places = vacant_places(alloc, slots)?;
        Ok(Table {
            geometry: g,
            limit,
            entries: Vec::with_capacity(alloc, limit as usize)?,
            places,
        })
    }

    /// Appends the entry, and changes its slot and nothing else. Takes no memory.
    ///
    /// There is to be room in the journal, and the slot in range. Where a configuration is installed,
    /// its net is to be the agreed one of the slot, and the configuration one of the table's fabric
    /// that is equal to it.
    pub fn apply(&mut self, e: Ready)
        requires room { length self.old.journal < self.old.limit }
        requires slot { e.slot < self.old.slots }
        requires follows { CanFollow self.old.geometry self.old.journal e }
        ensures { self.new ≡ record self.old { journal = self.old.journal ++ e ∷ [] } }
    {
        let number = self.entries.len() as u32 + 1;
        let at = e.slot() as usize;
        let Ready { entry, share } = e;
        self.places[at].take(share, number);
        self.entries.push_reserved(entry);
    }

    /// The fabric of each slot.
    pub fn geometry(&self) -> Geometry
        ensures { result ≡ self.now.geometry }
    {
        self.geometry
    }

    /// How many slots there are.
    pub fn slots(&self) -> usize
        ensures { result ≡ self.now.slots }
    {
        self.places.len()
    }

    /// The most entries that the journal may have.
    pub fn limit(&self) -> u32
        ensures { result ≡ self.now.limit }
    {
        self.limit
    }

    /// How many entries the journal has.
    pub fn len(&self) -> u32
        ensures len { result ≡ length self.now.journal }
        ensures legal { IsLegal self.now }
    {
        self.entries.len() as u32
    }

    /// Whether the journal has no entry.
    pub fn is_empty(&self) -> bool
        ensures { result ≡ (length self.now.journal == 0) }
    {
        self.entries.is_empty()
    }

    /// Entry `i` of the journal, counted from 1.
    pub fn entry(&self, i: u32) -> &Entry
        requires some { 1 ≤ i }
        requires within { i ≤ length self.now.journal }
        ensures { slice_get self.now.journal (i - 1) ≡ Some (entry_value result.now) }
    {
        &self.entries[i as usize - 1]
    }

    /// What the slot has.
    pub fn look(&self, slot: u32) -> &Slot
        requires { slot < self.now.slots }
        ensures contents { IsSlotAfter self.now.journal slot result.now }
        ensures legal { IsLegal self.now }
    {
        let place = &self.places[slot as usize];
        &place.slot
    }

    /// The number of the slot's last agreement in the journal, 0 where there is none. Takes no memory.
    pub fn agreed(&self, slot: u32) -> u32
        requires { slot < self.now.slots }
        ensures { result ≡ agreement_at self.now.journal slot }
    {
        let last = &self.places[slot as usize];
        last.agreed
    }
}
