ghost use Rattle.std.specs.Prelude.{◌≡◌, ◌≤◌, replicate, vec_capacity, None, IfOk};
ghost use Rattle.pch_region.specs.Blocks.{AreAllNames};

use crate::places::Place;
use pch_base::NoMemory;
use std::alloc::Global;

/// As many slots, for blocks none of which is live.
pub fn empty_slots(alloc: Global, blocks: u32) -> Result<Vec<Option<Place>>, NoMemory>
    ensures { IfOk result (λ s. s.items ≡ replicate blocks None) }
{
    let mut slots = Vec::with_capacity(alloc, blocks as usize)?;
    for _k in 0..blocks {
        slots.push_reserved(None);
    }
    Ok(slots)
}

/// The names below `blocks`, the least one last, with room for as many.
pub fn all_names(alloc: Global, blocks: u32) -> Result<Vec<u32>, NoMemory>
    ensures names { IfOk result (λ v. AreAllNames blocks v.items) }
    ensures room { IfOk result (λ v. blocks ≤ vec_capacity v) }
{
    let mut names = Vec::with_capacity(alloc, blocks as usize)?;
    for k in 0..blocks {
        names.push_reserved(blocks - 1 - k);
    }
    Ok(names)
}
