ghost use Rattle.std.specs.Prelude.{◌≡◌, ◌==◌, ℕ, vec_len, slice_index, if◌then◌else◌, ◌+◌, ◌<◌, ◌^◌, ◌∷◌, ◌++◌, true, [], length, IfOk, OnOk, OnErr, Ok, Err, Some, None, MatchOption};
ghost use Rattle.sat_text_defs.specs.TraceReading.{places_from};
ghost use Rattle.clause_defs.specs.Traces.{place_of};
ghost use Rattle.trace_places.specs.Groups.{AreSlots, AreWithin};
ghost use Rattle.trace_places.specs.Others.{place_in};
ghost use Rattle.trace_places.specs.Places.{AreDistinct, MapsRight, HasAll, AreKept, AreAllKept, IsMoved};

use crate::groups::Groups;
use crate::others::Others;
use pch_base::NoMemory;
use std::alloc::Global;
use std::marker::Model;

/// So many groups there are at first.
const FIRST_GROUPS: usize = 128;

/// So many indices there may be for each group before there are twice as many groups. With 4 of them a
/// text of 2,600,000 scattered indices took a quarter more time to check, and a tenth more memory.
const MOST_IN_GROUP: usize = 6;

/// The indices of a trace's clauses by place, all distinct. Contracts see the list.
#[derive(Drop)]
pub struct Places {
    /// The indices by place.
    indices: Vec<u32>,
    /// One more than the place of a small index, and 0 where it has none.
    table: Vec<u32>,
    /// The table gets no longer than this.
    table_limit: usize,
    /// How many indices stand in the table.
    in_table: usize,
    /// Indices that don't stand in the table.
    groups: Groups,
    /// How many indices stand in the groups.
    in_groups: usize,
    /// Indices whose group was full.
    others: Others,
    alloc: Global,
}

impl Model for Places {
    ghost use Rattle.std.specs.Prelude.{ℕ, List};
    ghost use Rattle.trace_places.specs.Others.{place_in};
    ghost use Rattle.trace_places.specs.Places.{ArePlaces};

    ghost Value = { List ℕ };

    ghost view = { λ p. p.indices.items };

    ghost invariant = { λ p. ArePlaces p.indices.items p.table.items p.groups.count
        p.groups.tags.items p.groups.numbers.items (place_in p.others) };
}

impl Places {
    /// No indices. The table has indices below `table_limit`.
    pub fn new(alloc: Global, table_limit: usize) -> Places
        ensures { result ≡ [] }
    {
        let mut table = Vec::new(alloc);
        let mut indices = Vec::new(alloc);
        // So they needn't be moved as they grow; what isn't used of the room isn't touched.
        let _ = table.reserve(table_limit);
        let _ = indices.reserve(table_limit / 4);
        Places {
            indices,
            table,
            table_limit,
            in_table: 0,
            groups: Groups::none(alloc),
            in_groups: 0,
            others: Others::none(alloc),
            alloc,
        }
    }

    /// The place where the index stands.
    #[inline]
    pub fn place(&self, index: u32) -> Option<u32>
        ensures { result ≡ place_of self.now index }
    {
        let at = index as usize;
        if at < self.table.len() && self.table[at] != 0 {
            return Some(self.table[at] - 1);
        }
        if let Some(place) = self.groups.find(&self.indices, index) {
            return Some(place);
        }
        self.others.get(index)
    }

    /// The place where the index stands. An index that is too great for the table is looked for at the
    /// places `guess` and `last` first, whatever those are.
    #[inline]
    fn place_near(&self, index: u32, guess: u32, last: u32) -> Option<u32>
        ensures { result ≡ place_of self.now index }
    {
        if (index as usize) < self.table.len() {
            return self.place(index);
        }
        if self.stands_at(index, guess) {
            return Some(guess);
        }
        if self.stands_at(index, last) {
            return Some(last);
        }
        self.place(index)
    }

    // Whether the index stands at this place.
    #[inline]
    fn stands_at(&self, index: u32, place: u32) -> bool
        ensures { result ≡ true → place_of self.now index ≡ Some place }
    {
        let at = place as usize;
        at < self.indices.len() && self.indices[at] == index
    }

    /// Appends an index that doesn't stand there yet.
    pub fn push(&mut self, index: u32) -> Result<(), NoMemory>
        requires { place_of self.old index ≡ None }
        ensures appended { OnOk result (self.new ≡ self.old ++ index ∷ []) }
        ensures unchanged { OnErr result (self.new ≡ self.old) }
    {
        if self.indices.len() >= u32::MAX as usize {
            return Err(NoMemory);
        }
        let place = self.indices.len() as u32;
        self.indices.reserve(1)?;
        // At most four entries per index, and two where few are small: these mustn't make the table long.
        let limit = self
            .indices
            .len()
            .saturating_add(self.in_table)
            .saturating_mul(2)
            .saturating_add(65_536)
            .min(self.table_limit);
        if (index as usize) < limit {
            put(&mut self.table, limit, index, place + 1)?;
            self.indices.push_reserved(index);
            self.in_table = self.in_table.saturating_add(1);
            return Ok(());
        }
        make_room(
            self.alloc,
            &self.indices,
            self.in_groups,
            &mut self.groups,
            &mut self.others,
        )?;
        if self.groups.add(index, place) {
            self.indices.push_reserved(index);
            self.in_groups = self.in_groups.saturating_add(1);
            return Ok(());
        }
        self.others.insert(index, place)?;
        self.indices.push_reserved(index);
        Ok(())
    }

    /// The places of all these indices, appended to `found`, or the first index that doesn't stand there.
    ///
    /// Clauses are often named in their order, and the last one is named most: so an index that is too
    /// great for the table is looked for at the last place first, and behind the place that was found
    /// before, which is `guess` at the beginning. Any guess is right.
    pub fn find_all(
        &self,
        indices: &[u32],
        guess: u32,
        found: &mut Vec<u32>,
    ) -> Result<Option<u32>, NoMemory>
        ensures { IfOk result (λ unknown. MatchOption unknown
            (places_from self.now found.old.items indices.now ≡ Ok found.new.items)
            (λ x. places_from self.now found.old.items indices.now ≡ Err x)) }
    {
        let last = (self.indices.len().min(u32::MAX as usize) as u32).wrapping_sub(1);
        let mut next = guess;
        for index in indices {
            let Some(place) = self.place_near(*index, next, last) else {
                return Ok(Some(*index));
            };
            found.push(place)?;
            if place != last {
                next = place.wrapping_add(1);
            }
        }
        Ok(None)
    }
}

/// Makes twice as many groups where three quarters of all slots are taken: of indices that look random
/// one in twenty finds its group full then, and the map costs less for these than moving all
/// indices once more. What finds no slot in its new group goes into the map.
fn make_room(
    alloc: Global,
    indices: &[u32],
    in_groups: usize,
    groups: &mut Groups,
    others: &mut Others,
) -> Result<(), NoMemory>
    requires slots { AreSlots groups.old.count groups.old.tags.items groups.old.numbers.items }
    requires within { AreWithin indices.now groups.old.numbers.items }
    requires distinct { AreDistinct indices.now }
    requires mapped { MapsRight indices.now (place_in others.old) }
    ensures slots { AreSlots groups.new.count groups.new.tags.items groups.new.numbers.items }
    ensures within { AreWithin indices.now groups.new.numbers.items }
    ensures mapped { MapsRight indices.now (place_in others.new) }
    ensures all { HasAll (place_in others.old) (place_in others.new) }
    ensures kept { AreAllKept indices.now
        groups.old.count groups.old.tags.items groups.old.numbers.items
        groups.new.count groups.new.tags.items groups.new.numbers.items
        (place_in others.new) }
    ensures some { OnOk result (0 < groups.new.count) }
{
    if in_groups / MOST_IN_GROUP < groups.count {
        return Ok(());
    }
    let count = groups.count.saturating_mul(2).max(FIRST_GROUPS);
    if count >= 1_152_921_504_606_846_976 {
        return Err(NoMemory);
    }
    let mut more = Groups::empty(alloc, count)?;
    for slot in 0..groups.numbers.len() {
        move_slot(indices, groups, slot, &mut more, others)?;
    }
    *groups = more;
    Ok(())
}

/// Puts the place in a slot into other groups, or into the map.
fn move_slot(
    indices: &[u32],
    groups: &Groups,
    slot: usize,
    more: &mut Groups,
    others: &mut Others,
) -> Result<(), NoMemory>
    requires from { AreSlots groups.now.count groups.now.tags.items groups.now.numbers.items }
    requires slot { slot < length groups.now.numbers.items }
    requires from_within { AreWithin indices.now groups.now.numbers.items }
    requires slots { AreSlots more.old.count more.old.tags.items more.old.numbers.items }
    requires some { 0 < more.old.count }
    requires within { AreWithin indices.now more.old.numbers.items }
    requires distinct { AreDistinct indices.now }
    requires mapped { MapsRight indices.now (place_in others.old) }
    ensures slots { AreSlots more.new.count more.new.tags.items more.new.numbers.items }
    ensures count { more.new.count ≡ more.old.count }
    ensures within { AreWithin indices.now more.new.numbers.items }
    ensures mapped { MapsRight indices.now (place_in others.new) }
    ensures all { HasAll (place_in others.old) (place_in others.new) }
    ensures kept { AreKept
        more.old.count more.old.tags.items more.old.numbers.items
        more.new.count more.new.tags.items more.new.numbers.items (place_in others.old) }
    ensures moved { OnOk result (IsMoved
        indices.now groups.now.numbers.items
        more.new.count more.new.tags.items more.new.numbers.items
        (place_in others.new) slot) }
{
    let Some(place) = groups.place(slot) else {
        return Ok(());
    };
    let index = indices[place as usize];
    if more.add(index, place) {
        return Ok(());
    }
    others.insert(index, place)?;
    Ok(())
}

/// Makes the table longer, but not longer than `limit`, so that it has this place.
fn cover(table: &mut Vec<u32>, limit: usize, at: usize) -> Result<(), NoMemory>
    requires { at < limit }
    ensures covered { OnOk result (at < vec_len table.new) }
    ensures same { (x : ℕ) → slice_index table.new.items x ≡ slice_index table.old.items x }
{
    if at < table.len() {
        return Ok(());
    }
    // What is filled takes memory, so the table gets no more than an eighth too long.
    let longer = (table.len() as u64 + table.len() as u64 / 8).min(limit as u64) as usize;
    table.resize(longer.max(at + 1), 0)?;
    Ok(())
}

/// Puts a number into the table, which gets longer for it, but not longer than `limit`.
fn put(table: &mut Vec<u32>, limit: usize, index: u32, number: u32) -> Result<(), NoMemory>
    requires { index < limit }
    ensures set { OnOk result ((x : ℕ) → slice_index table.new.items x
        ≡ (if index == x then number else slice_index table.old.items x)) }
    ensures same { OnErr result
        ((x : ℕ) → slice_index table.new.items x ≡ slice_index table.old.items x) }
{
    let at = index as usize;
    cover(table, limit, at)?;
    table[at] = number;
    Ok(())
}
