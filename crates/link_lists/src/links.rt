ghost use Rattle.std.specs.Prelude.{◌≡◌, ℕ, ◌^◌, ◌<◌, List, [], ◌∷◌, length, set, replicate, IfOk, IfSome, IfNone};
ghost use Rattle.clause_defs.specs.Clauses.{Has};
ghost use Rattle.link_lists.specs.Linked.{list_at};

use pch_base::NoMemory;
use std::alloc::Global;
use std::marker::Model;

/// So many lists of the numbers below a size. Each number is in one list at most.
#[derive(Debug, Drop)]
pub struct Links {
    // for each number the one behind it in its list, raised by one; 0 at a list's end
    next: Vec<u32>,
    // for each list its first number, raised by one; 0 for an empty one
    heads: Vec<u32>,
}

impl Model for Links {
    ghost use Rattle.std.specs.Prelude.{◌^◌, ◌<◌, length};
    ghost use Rattle.link_lists.specs.Linked.{Linked};
    ghost use Rattle.link_lists.specs.Chains.{walks, IsLinkedBy};

    ghost Value = { Linked };

    ghost view = { λ l. record {
      size = length l.next.items;
      lists = walks l.next.items l.heads.items;
    } };

    ghost invariant = { λ l.
        IsLinkedBy l.next.items l.heads.items (walks l.next.items l.heads.items)
        × (length l.next.items < 2 ^ 32) };
}

impl Links {
    /// So many empty lists, for the numbers below `size`.
    pub fn new(alloc: Global, size: u32, lists: usize) -> Result<Links, NoMemory>
        ensures size { IfOk result (λ l. l.size ≡ size) }
        ensures lists { IfOk result (λ l. l.lists ≡ replicate lists []) }
    {
        let next = vec![in alloc; 0u32; size as usize]?;
        let heads = vec![in alloc; 0u32; lists]?;
        Ok(Links { next, heads })
    }

    /// How many lists there are.
    pub fn lists(&self) -> usize
        ensures { result ≡ length self.now.lists }
    {
        self.heads.len()
    }

    /// Takes the first number of a list, if it has one.
    pub fn pop(&mut self, list: u32) -> Option<u32>
        requires { list < length self.old.lists }
        ensures size { self.new.size ≡ self.old.size }
        ensures first { IfSome result (λ w.
            list_at self.old.lists list ≡ w ∷ list_at self.new.lists list) }
        ensures rest { IfSome result (λ _.
            self.new.lists ≡ set self.old.lists list (list_at self.new.lists list)) }
        ensures out { IfSome result (λ w. (k : ℕ) → Has (list_at self.new.lists k) w → ⊥) }
        ensures within { IfSome result (λ w. w < self.old.size) }
        ensures empty { IfNone result (list_at self.old.lists list ≡ []) }
        ensures same { IfNone result (self.new.lists ≡ self.old.lists) }
    {
        let head = self.heads[list as usize];
        if head == 0 {
            return None;
        }
        self.heads[list as usize] = self.next[(head - 1) as usize];
        Some(head - 1)
    }

    /// Puts a number that is in no list in front of a list.
    pub fn push(&mut self, list: u32, w: u32)
        requires list { list < length self.old.lists }
        requires within { w < self.old.size }
        requires out { (k : ℕ) → Has (list_at self.old.lists k) w → ⊥ }
        ensures size { self.new.size ≡ self.old.size }
        ensures lists { self.new.lists ≡ set self.old.lists list (w ∷ list_at self.old.lists list) }
    {
        self.next[w as usize] = self.heads[list as usize];
        self.heads[list as usize] = w + 1;
    }

    /// Moves all numbers of a list to an empty one.
    pub fn turn(&mut self, from: u32, to: u32)
        requires from { from < length self.old.lists }
        requires to { to < length self.old.lists }
        requires empty { list_at self.old.lists to ≡ [] }
        ensures size { self.new.size ≡ self.old.size }
        ensures lists { self.new.lists
            ≡ set (set self.old.lists to (list_at self.old.lists from)) from [] }
    {
        self.heads[to as usize] = self.heads[from as usize];
        self.heads[from as usize] = 0;
    }
}
