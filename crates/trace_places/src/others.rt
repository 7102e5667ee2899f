//! The indices whose group is full, with their places, in an ordered map.
ghost use Rattle.std.specs.Prelude.{◌≡◌, ◌==◌, ℕ, if◌then◌else◌, ◌<◌, ◌≤◌, vec_len, get_or, OnOk, OnErr, Some, []};
ghost use Rattle.trace_places.specs.Others.{mark_of, place_in};

use crate::groups::MULTIPLIER;
use pch_base::NoMemory;
use std::alloc::Global;
use std::collections::BTreeMap;
use std::marker::Model;

/// So many marks there are, once the map has an index.
const MARKS: usize = 262_144;

/// Indices and their places. Contracts see them in the order of the indices.
#[derive(Drop)]
pub struct Others {
    /// The places.
    map: BTreeMap<u32, u32>,
    /// Where the mark of an index is 0, the map doesn't have it.
    marks: Vec<u8>,
}

impl Model for Others {
    ghost use Rattle.std.specs.Prelude.{ℕ, List};
    ghost use Rattle.trace_places.specs.Others.{AreMarked, place_in};

    ghost Value = { List (ℕ × ℕ) };

    ghost view = { λ p. p.map.entries };

    ghost invariant = { λ p. AreMarked p.marks.items (place_in p.map.entries) };
}

impl Others {
    /// No indices. Takes no memory.
    pub fn none(alloc: Global) -> Others
        ensures { result ≡ [] }
    {
        Others {
            map: BTreeMap::new(alloc),
            marks: Vec::new(alloc),
        }
    }

    /// The place of the index.
    #[inline]
    pub fn get(&self, index: u32) -> Option<u32>
        ensures { result ≡ place_in self.now index }
    {
        let at = mark(index);
        if at >= self.marks.len() || self.marks[at] == 0 {
            return None;
        }
        self.map.get(&index).copied()
    }

    /// Puts the index with its place into the map.
    pub fn insert(&mut self, index: u32, place: u32) -> Result<(), NoMemory>
        ensures updates { OnOk result
            ((x : ℕ) → place_in self.new x
            ≡ (if index == x then Some place else place_in self.old x)) }
        ensures unchanged { OnErr result (self.new ≡ self.old) }
    {
        raise(&mut self.marks, index)?;
        self.map.insert(index, place)?;
        Ok(())
    }
}

// Sets the mark of an index.
fn raise(marks: &mut Vec<u8>, index: u32) -> Result<(), NoMemory>
    ensures kept { (i : ℕ) → 0 < get_or marks.old.items i 0 → 0 < get_or marks.new.items i 0 }
    ensures raised { OnOk result (0 < get_or marks.new.items (mark_of index) 0) }
{
    have_marks(marks)?;
    marks[mark(index)] = 1;
    Ok(())
}

// Takes the memory for the marks, if they aren't there yet.
fn have_marks(marks: &mut Vec<u8>) -> Result<(), NoMemory>
    ensures all { OnOk result (262_144 ≤ vec_len marks.new) }
    ensures same { (i : ℕ) → get_or marks.new.items i 0 ≡ get_or marks.old.items i 0 }
{
    if marks.len() >= MARKS {
        return Ok(());
    }
    marks.resize(MARKS, 0)?;
    Ok(())
}

// Where the mark of an index is.
#[inline]
fn mark(index: u32) -> usize
    ensures place { result ≡ mark_of index }
    ensures within { result < 262_144 }
{
    (u64::from(index).wrapping_mul(MULTIPLIER) >> 46) as usize
}
