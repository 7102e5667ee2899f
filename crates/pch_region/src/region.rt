ghost use Rattle.std.specs.Prelude.{◌≡◌, ◌⊎◌, ◌↔◌, ◌+◌, ◌-◌, ◌<◌, ◌≤◌, ◌++◌, [], ◌∷◌, length, set, take, replicate, None, Some, IfOk, IfErr, IsTrue};
ghost use Rattle.pch_region.specs.Blocks.{held_at, IsLive, words_of, blocks_of, next_name, AreAllNames};

use crate::block::{Block, Full};
use crate::closing::make_room;
use crate::memory::{all_names, empty_slots};
use crate::places::{Place, append, is_taken, part};
use pch_base::{Lit, NoMemory};
use std::alloc::Global;
use std::marker::Model;

/// Blocks of literals with room for so many words and so many blocks.
#[derive(Debug, Drop)]
pub struct Region {
    // the words of the blocks, and of freed ones, in the order in which they were put
    run: Vec<Lit>,
    // where each live block lies, by name
    slots: Vec<Option<Place>>,
    // the names of the blocks in the order in which they lie; an entry counts only where the place of
    // its block says so, so freeing a block leaves it
    order: Vec<u32>,
    // the names of no live block
    unused: Vec<u32>,
    // how many words fit
    words: u32,
    // how many words the live blocks have together
    live: u32,
}

impl Model for Region {
    ghost use Rattle.std.specs.Prelude.{◌≤◌, length, vec_capacity};
    ghost use Rattle.pch_region.specs.Blocks.{Blocks};
    ghost use Rattle.pch_region.specs.Places.{blocks_in};
    ghost use Rattle.pch_region.specs.Kept.{AreNamed, AreLaid};

    ghost Value = { Blocks };

    ghost view = { λ r. record {
      held = blocks_in r.run.items r.slots.items;
      unused = r.unused.items;
      words = r.words;
    } };

    ghost invariant = { λ r.
        AreNamed (blocks_in r.run.items r.slots.items) r.unused.items r.words r.live
        × AreLaid r.run.items r.order.items r.slots.items r.words
        × (r.words ≤ vec_capacity r.run)
        × (r.words ≤ vec_capacity r.order)
        × (length r.slots.items ≤ vec_capacity r.unused) };
}

impl Region {
    /// A region without blocks, with room for so many words and blocks. Takes all its memory.
    pub fn new(alloc: Global, words: u32, blocks: u32) -> Result<Region, NoMemory>
        ensures held { IfOk result (λ r. r.held ≡ replicate blocks None) }
        ensures unused { IfOk result (λ r. AreAllNames blocks r.unused) }
        ensures words { IfOk result (λ r. r.words ≡ words) }
    {
        Ok(Region {
            run: Vec::with_capacity(alloc, words as usize)?,
            slots: empty_slots(alloc, blocks)?,
            order: Vec::with_capacity(alloc, words as usize)?,
            unused: all_names(alloc, blocks)?,
            words,
            live: 0,
        })
    }

    /// How many words the live blocks have together.
    pub fn live_words(&self) -> u32
        ensures live { result ≡ words_of self.now.held }
        ensures fits { result ≤ self.now.words }
    {
        self.live
    }

    /// How many blocks are live.
    pub fn live_blocks(&self) -> u32
        ensures live { result ≡ blocks_of self.now.held }
        ensures fits { result ≤ length self.now.held }
    {
        (self.slots.len() - self.unused.len()) as u32
    }

    /// Whether the block is live.
    pub fn is_live(&self, b: Block) -> bool
        ensures { IsTrue result ↔ IsLive self.now.held b.name }
    {
        is_taken(&self.slots, b.name())
    }

    /// The literals of a live block.
    pub fn get(&self, b: Block) -> &[Lit]
        requires { IsLive self.now.held b.name }
        ensures { held_at self.now.held b.name ≡ Some result.now }
    {
        part(&self.run, &self.slots, b.name())
    }

    /// Puts a list as a new block, if there is room: its words and those of the live blocks are
    /// together at most as many as fit, and so are the blocks. All other blocks stay as they are.
    pub fn put(&mut self, lits: &[Lit]) -> Result<Block, Full>
        ensures fresh { IfOk result (λ b. held_at self.old.held b.name ≡ None) }
        ensures name { IfOk result (λ b. b.name ≡ next_name self.old.unused) }
        ensures unused { IfOk result (λ _.
            self.new.unused ≡ take (length self.old.unused - 1) self.old.unused) }
        ensures in_range { IfOk result (λ b. b.name < length self.old.held) }
        ensures put { IfOk result (λ b. self.new.held ≡ set self.old.held b.name (Some lits.now)) }
        ensures words { self.new.words ≡ self.old.words }
        ensures fits { IfOk result (λ _. words_of self.old.held + length lits.now ≤ self.old.words) }
        ensures free { IfOk result (λ _. blocks_of self.old.held < length self.old.held) }
        ensures full { IfErr result (λ _.
            (self.old.words < words_of self.old.held + length lits.now)
            ⊎ (length self.old.held ≤ blocks_of self.old.held)) }
        ensures live_words { IfErr result (λ f. f.live_words ≡ words_of self.old.held) }
        ensures live_blocks { IfErr result (λ f. f.live_blocks ≡ blocks_of self.old.held) }
        ensures same { IfErr result (λ _. self.new ≡ self.old) }
    {
        if lits.len() > (self.words - self.live) as usize || self.unused.is_empty() {
            return Err(Full {
                live_words: self.live_words(),
                live_blocks: self.live_blocks(),
            });
        }
        let last = self.unused.len() - 1;
        let name = self.unused[last];
        self.unused.truncate(last);
        make_room(
            &mut self.run,
            &mut self.order,
            &mut self.slots,
            self.words,
            lits.len(),
        );
        let place = append(&mut self.run, &mut self.order, name, lits);
        self.slots[name as usize] = Some(place);
        self.live += place.len;
        Ok(Block::from_name(name))
    }

    /// Takes a live block away. All other blocks stay as they are.
    pub fn free(&mut self, b: Block)
        requires { IsLive self.old.held b.name }
        ensures held { self.new.held ≡ set self.old.held b.name None }
        ensures unused { self.new.unused ≡ self.old.unused ++ b.name ∷ [] }
        ensures words { self.new.words ≡ self.old.words }
    {
        let words = self.get(b).len() as u32;
        self.slots[b.name() as usize] = None;
        self.unused.push_reserved(b.name());
        self.live -= words;
    }
}
