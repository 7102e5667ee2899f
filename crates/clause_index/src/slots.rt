//! Slots for the numbers of clauses, by a hash of their literals.
//!
//! A clause may stand in the slots of one group alone, so that a look-up looks at no more than
//! [`GROUP`] slots; a clause whose group is full stands elsewhere.
ghost use Rattle.std.specs.Prelude.{◌≡◌, ◌≢◌, ℕ, ◌+◌, ◌*◌, ◌^◌, ◌<◌, ◌≤◌, true, length, get_or, IfSome, IfNone, IfOk};
ghost use Rattle.clause_defs.specs.Clauses.{Lits};
ghost use Rattle.clause_index.specs.Runs.{clause_at};
ghost use Rattle.clause_index.specs.Slots.{hash_from, tag_of, first_slot, MayStand, AreSlots, StandsInSlot};

use crate::order::same_literals;
use flat_lists::FlatLists;
use pch_base::{Lit, NoMemory};
use std::alloc::Global;

/// By this number hashes are multiplied: it is odd, and its bits look random.
pub const MULTIPLIER: u64 = 0x9e37_79b9_7f4a_7c15;

/// So many slots a group has. Their tags, and their numbers, are as long as a line of a cache.
pub const GROUP: usize = 8;

/// Groups of slots, each with a tag and with one more than the number of a clause, or 0 where it is
/// empty. The clauses themselves are kept by the caller.
#[derive(Debug, Drop)]
pub struct Slots {
    pub groups: usize,
    pub tags: Vec<u32>,
    pub numbers: Vec<u32>,
}

impl Slots {
    /// Empty slots, at least two for each of so many clauses.
    pub fn with_room(alloc: Global, clauses: u32) -> Result<Slots, NoMemory>
        ensures { IfOk result (λ s. AreSlots s.groups s.tags.items s.numbers.items 0) }
    {
        let groups = (clauses as usize / 4 + 1).next_power_of_two();
        Ok(Slots {
            groups,
            tags: vec![in alloc; 0u32; GROUP * groups]?,
            numbers: vec![in alloc; 0u32; GROUP * groups]?,
        })
    }

    /// Which clause in a slot has these literals.
    pub fn find(&self, clauses: &FlatLists<Lit>, lits: &[Lit]) -> Option<u32>
        requires { AreSlots self.now.groups self.now.tags.items self.now.numbers.items
            (length clauses.now.lists) }
        ensures some { IfSome result
            (λ k. (k < length clauses.now.lists) × (clause_at clauses.now.lists k ≡ lits.now)) }
        ensures none { IfNone result ((k : ℕ)
            → StandsInSlot self.now.groups self.now.tags.items self.now.numbers.items lits.now k
            → clause_at clauses.now.lists k ≢ lits.now) }
    {
        let hash = hash(lits);
        let first = first(hash, self.groups);
        let tag = tag(hash);
        for slot in first..first + GROUP {
            let number = self.numbers[slot];
            if number > 0
                && self.tags[slot] == tag
                && same_literals(clauses.get(number - 1), lits)
            {
                return Some(number - 1);
            }
        }
        None
    }

    /// Puts clause `k`, which has these literals, into a slot of its group, if one is empty.
    pub fn add(&mut self, lits: &[Lit], k: u32) -> bool
        requires slots { AreSlots self.old.groups self.old.tags.items self.old.numbers.items k }
        requires few { k + 1 < 4_294_967_296 }
        ensures slots { AreSlots self.new.groups self.new.tags.items self.new.numbers.items
            (k + 1) }
        ensures kept { (c : Lits) (j : ℕ)
            → StandsInSlot self.old.groups self.old.tags.items self.old.numbers.items c j
            → StandsInSlot self.new.groups self.new.tags.items self.new.numbers.items c j }
        ensures added { result ≡ true
            → StandsInSlot self.new.groups self.new.tags.items self.new.numbers.items lits.now k }
    {
        let hash = hash(lits);
        let first = first(hash, self.groups);
        let Some(slot) = empty(&self.numbers, first) else {
            return false;
        };
        self.tags[slot] = tag(hash);
        self.numbers[slot] = k + 1;
        true
    }
}

/// The tag of the literals.
pub fn key(lits: &[Lit]) -> u32
    ensures { result ≡ tag_of lits.now }
{
    tag(hash(lits))
}

// An empty slot of the group that begins with this slot.
fn empty(numbers: &[u32], first: usize) -> Option<usize>
    requires { first + GROUP ≤ length numbers.now }
    ensures { IfSome result (λ s. (first ≤ s) × (s < first + GROUP)
        × (get_or numbers.now s 0 ≡ 0)) }
{
    for slot in first..first + GROUP {
        if numbers[slot] == 0 {
            return Some(slot);
        }
    }
    None
}

// The first slot of the group of the literals with this hash.
fn first(hash: u64, groups: usize) -> usize
    requires some { 0 < groups }
    requires few { groups < 2 ^ 60 }
    ensures first { (c : Lits) → hash ≡ hash_from 0 c → result ≡ first_slot groups c }
    ensures within { result + GROUP ≤ GROUP * groups }
{
    GROUP * ((hash >> 32) as usize & groups - 1)
}

// The tag of the literals with this hash.
fn tag(hash: u64) -> u32
    ensures { (c : Lits) → hash ≡ hash_from 0 c → result ≡ tag_of c }
{
    (hash % 0x1_0000_0000) as u32
}

fn hash(lits: &[Lit]) -> u64
    ensures { result ≡ hash_from 0 lits.now }
{
    let mut hash: u64 = 0;
    for l in lits {
        hash = (hash ^ hash >> 32 ^ u64::from(l.code())).wrapping_mul(MULTIPLIER);
    }
    hash
}
