//! Slots for places, by a hash of the index that stands there.
//!
//! An index may stand in the slots of one group alone, so that a look-up looks at no more than
//! [`GROUP`] slots; an index whose group is full stands elsewhere. Beside each slot stands a tag of its
//! index, a byte. There are so few of them that they are mostly near, and mostly they say already that
//! an index has no place.
ghost use Rattle.std.specs.Prelude.{◌≡◌, ℕ, ◌+◌, ◌*◌, ◌^◌, ◌<◌, ◌≤◌, ◌⊎◌, true, false, length, get_or, IfSome, IfNone, IfOk};
ghost use Rattle.trace_places.specs.Groups.{first_slot, tag_of, AreSlots, AreWithin, StandsInSlot, NoSlots};

use pch_base::NoMemory;
use std::alloc::Global;

/// By this number indices are multiplied: it is odd, and its bits look random.
pub const MULTIPLIER: u64 = 0x9e37_79b9_7f4a_7c15;

/// So many slots a group has: their tags are one word.
pub const GROUP: usize = 8;

/// Groups of slots, each with a place and its index's tag, or with the number 0 where it is empty.
#[derive(Drop)]
pub struct Groups {
    /// How many groups there are.
    pub count: usize,
    /// The tags of the indices, by slot.
    pub tags: Vec<u8>,
    /// One more than the places, by slot.
    pub numbers: Vec<u32>,
}

impl Groups {
    /// No groups. Takes no memory.
    pub fn none(alloc: Global) -> Groups
        ensures slots { AreSlots result.count result.tags.items result.numbers.items }
        ensures empty { NoSlots result.numbers.items }
    {
        Groups {
            count: 0,
            tags: Vec::new(alloc),
            numbers: Vec::new(alloc),
        }
    }

    /// So many groups of empty slots.
    pub fn empty(alloc: Global, count: usize) -> Result<Groups, NoMemory>
        requires { count < 2 ^ 60 }
        ensures slots { IfOk result (λ g. AreSlots g.count g.tags.items g.numbers.items) }
        ensures empty { IfOk result (λ g. NoSlots g.numbers.items) }
        ensures count { IfOk result (λ g. g.count ≡ count) }
    {
        Ok(Groups {
            count,
            tags: vec![in alloc; 0u8; GROUP * count]?,
            numbers: vec![in alloc; 0u32; GROUP * count]?,
        })
    }

    /// The place of the index among these, if it stands in its group.
    #[inline]
    pub fn find(&self, indices: &[u32], index: u32) -> Option<u32>
        requires slots { AreSlots self.now.count self.now.tags.items self.now.numbers.items }
        requires within { AreWithin indices.now self.now.numbers.items }
        ensures some { IfSome result (λ p. (p < length indices.now)
            × (get_or indices.now p 0 ≡ index)) }
        ensures none { IfNone result ((k : ℕ) → get_or indices.now k 0 ≡ index
            → StandsInSlot self.now.count self.now.tags.items self.now.numbers.items index k
            → ⊥) }
    {
        if self.count == 0 {
            return None;
        }
        let first = first(index, self.count);
        let tag = tag(index);
        for slot in first..first + GROUP {
            if self.has(slot, tag, indices, index) {
                return Some(self.numbers[slot] - 1);
            }
        }
        None
    }

    // Whether the slot has the place of this index, which has this tag.
    #[inline]
    fn has(&self, slot: usize, tag: u8, indices: &[u32], index: u32) -> bool
        requires tag { slot < length self.now.tags.items }
        requires number { slot < length self.now.numbers.items }
        requires within { AreWithin indices.now self.now.numbers.items }
        ensures same { result ≡ true → (k : ℕ) → get_or self.now.numbers.items slot 0 ≡ k + 1
            → get_or indices.now k 0 ≡ index }
        ensures some { result ≡ true → 0 < get_or self.now.numbers.items slot 0 }
        ensures other { result ≡ false → (k : ℕ) → get_or self.now.tags.items slot 0 ≡ tag
            → get_or self.now.numbers.items slot 0 ≡ k + 1 → get_or indices.now k 0 ≡ index → ⊥ }
    {
        if self.tags[slot] != tag {
            return false;
        }
        let Some(place) = self.place(slot) else {
            return false;
        };
        indices[place as usize] == index
    }

    /// The place in the slot, if it isn't empty.
    #[inline]
    pub fn place(&self, slot: usize) -> Option<u32>
        requires { slot < length self.now.numbers.items }
        ensures some { IfSome result (λ p. get_or self.now.numbers.items slot 0 ≡ p + 1) }
        ensures few { IfSome result (λ p. p + 1 < 4_294_967_296) }
        ensures none { IfNone result (get_or self.now.numbers.items slot 0 ≡ 0) }
    {
        let number = self.numbers[slot];
        if number == 0 {
            return None;
        }
        Some(number - 1)
    }

    /// Puts the place of an index into a slot of its group, if one is empty.
    pub fn add(&mut self, index: u32, place: u32) -> bool
        requires slots { AreSlots self.old.count self.old.tags.items self.old.numbers.items }
        requires some { 0 < self.old.count }
        requires few { place + 1 < 4_294_967_296 }
        ensures slots { AreSlots self.new.count self.new.tags.items self.new.numbers.items }
        ensures count { self.new.count ≡ self.old.count }
        ensures kept { (x p : ℕ)
            → StandsInSlot self.old.count self.old.tags.items self.old.numbers.items x p
            → StandsInSlot self.new.count self.new.tags.items self.new.numbers.items x p }
        ensures added { result ≡ true → StandsInSlot self.new.count
            self.new.tags.items self.new.numbers.items index place }
        ensures same { result ≡ false
            → (self.new.tags.items ≡ self.old.tags.items)
            × (self.new.numbers.items ≡ self.old.numbers.items) }
        ensures only { (s p : ℕ) → get_or self.new.numbers.items s 0 ≡ p + 1
            → (get_or self.old.numbers.items s 0 ≡ p + 1) ⊎ (p ≡ place) }
    {
        let first = first(index, self.count);
        let Some(slot) = untagged(&self.tags, first) else {
            return false;
        };
        self.tags[slot] = tag(index);
        self.numbers[slot] = place + 1;
        true
    }
}

// A slot without a tag in the group that begins with this slot: the last one, so that no branch depends
// on which one it is.
#[inline]
fn untagged(tags: &[u8], first: usize) -> Option<usize>
    requires { first + GROUP ≤ length tags.now }
    ensures { IfSome result (λ s. (first ≤ s) × (s < first + GROUP)
        × (get_or tags.now s 0 ≡ 0)) }
{
    let mut untagged = None;
    for slot in first..first + GROUP {
        if tags[slot] == 0 {
            untagged = Some(slot);
        }
    }
    untagged
}

// The tag of an index: other bits of its hash than those that say its group.
#[inline]
fn tag(index: u32) -> u8
    ensures { result ≡ tag_of index }
{
    (u64::from(index).wrapping_mul(MULTIPLIER) >> 57) as u8 + 1
}

// The first slot of an index's group, of so many groups.
#[inline]
fn first(index: u32, count: usize) -> usize
    requires some { 0 < count }
    requires few { count < 2 ^ 60 }
    ensures first { result ≡ first_slot count index }
    ensures within { result + GROUP ≤ GROUP * count }
{
    GROUP * ((u64::from(index).wrapping_mul(MULTIPLIER) >> 32) as usize & count - 1)
}
