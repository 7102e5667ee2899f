//! Moving the live blocks together at the front of the run.
//!
//! The blocks are gone through in the order in which they lie, and each is moved down to the end of
//! those before it. So no move writes over words that are still to be moved. A region does this only
//! where a block would reach over the end of its run; while at most half of the room is live, at least
//! as many words as half of the room were put since the last time, and they pay for it.

ghost use Rattle.std.specs.Prelude.{◌≡◌, ◌+◌, ◌^◌, ◌<◌, ◌≤◌, length, vec_capacity};
ghost use Rattle.std.specs.List.{copy_within};
ghost use Rattle.pch_region.specs.Blocks.{words_of};
ghost use Rattle.pch_region.specs.Places.{blocks_in, EachEndsBy, IsInOrder};
ghost use Rattle.pch_region.specs.Kept.{IsClosing, AreLaid};

use crate::places::{Place, place_at};
use pch_base::Lit;

/// How far the blocks have been moved together: so many words and entries of the order are theirs.
#[derive(Clone, Copy, Debug)]
pub struct Front {
    to: u32,
    kept: u32,
}

// Moves `len` words down from `start` to `to`.
fn move_down(run: &mut Vec<Lit>, start: u32, len: u32, to: u32)
    requires ends { start + len ≤ length run.old.items }
    requires down { to ≤ start }
    ensures run { run.new.items ≡ copy_within run.old.items start (start + len) to }
    ensures capacity { vec_capacity run.new ≡ vec_capacity run.old }
{
    let start = start as usize;
    run.copy_within(start..start + len as usize, to as usize);
}

// Moves the block of entry `i`, if the entry is a block's own, to the front.
fn shift(
    run: &mut Vec<Lit>,
    order: &mut Vec<u32>,
    slots: &mut Vec<Option<Place>>,
    i: u32,
    front: Front,
) -> Front
    requires closing { IsClosing order.old.items slots.old.items (length run.old.items) i front.to front.kept }
    requires there { i < length order.old.items }
    requires few { length run.old.items < 2 ^ 32 }
    ensures closing { IsClosing order.new.items slots.new.items (length run.new.items)
        (i + 1) result.to result.kept }
    ensures blocks { blocks_in run.new.items slots.new.items ≡ blocks_in run.old.items slots.old.items }
    ensures run_len { length run.new.items ≡ length run.old.items }
    ensures order_len { length order.new.items ≡ length order.old.items }
    ensures slots_len { length slots.new.items ≡ length slots.old.items }
    ensures run_capacity { vec_capacity run.new ≡ vec_capacity run.old }
    ensures order_capacity { vec_capacity order.new ≡ vec_capacity order.old }
{
    let name = order[i as usize];
    match place_at(slots, name, i) {
        Some(p) => {
            move_down(run, p.start, p.len, front.to);
            slots[name as usize] = Some(Place {
                start: front.to,
                len: p.len,
                at: front.kept,
            });
            order[front.kept as usize] = name;
            Front {
                to: front.to + p.len,
                kept: front.kept + 1,
            }
        }
        None => front,
    }
}

/// Moves all blocks together, so that the run has their words and no others.
pub fn close(run: &mut Vec<Lit>, order: &mut Vec<u32>, slots: &mut Vec<Option<Place>>)
    requires ends { EachEndsBy (length run.old.items) slots.old.items }
    requires in_order { IsInOrder order.old.items slots.old.items }
    requires few { length run.old.items < 2 ^ 32 }
    requires few_names { length order.old.items ≤ length run.old.items }
    ensures ends { EachEndsBy (length run.new.items) slots.new.items }
    ensures in_order { IsInOrder order.new.items slots.new.items }
    ensures few_names { length order.new.items ≤ length run.new.items }
    ensures blocks { blocks_in run.new.items slots.new.items ≡ blocks_in run.old.items slots.old.items }
    ensures words { length run.new.items ≡ words_of (blocks_in run.old.items slots.old.items) }
    ensures slots_len { length slots.new.items ≡ length slots.old.items }
    ensures run_capacity { vec_capacity run.new ≡ vec_capacity run.old }
    ensures order_capacity { vec_capacity order.new ≡ vec_capacity order.old }
{
    let mut front = Front { to: 0, kept: 0 };
    for i in 0..order.len() as u32 {
        front = shift(run, order, slots, i, front);
    }
    run.truncate(front.to as usize);
    order.truncate(front.kept as usize);
}

/// Moves the blocks together if `more` words don't fit behind them. Live and new words fit.
pub fn make_room(
    run: &mut Vec<Lit>,
    order: &mut Vec<u32>,
    slots: &mut Vec<Option<Place>>,
    words: u32,
    more: usize,
)
    requires laid { AreLaid run.old.items order.old.items slots.old.items words }
    requires fits { words_of (blocks_in run.old.items slots.old.items) + more ≤ words }
    ensures laid { AreLaid run.new.items order.new.items slots.new.items words }
    ensures room { length run.new.items + more ≤ words }
    ensures blocks { blocks_in run.new.items slots.new.items ≡ blocks_in run.old.items slots.old.items }
    ensures slots_len { length slots.new.items ≡ length slots.old.items }
    ensures run_capacity { vec_capacity run.new ≡ vec_capacity run.old }
    ensures order_capacity { vec_capacity order.new ≡ vec_capacity order.old }
{
    if words as usize - run.len() < more {
        close(run, order, slots);
    }
}
