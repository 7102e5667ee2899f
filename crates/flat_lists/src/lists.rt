ghost use Rattle.std.specs.Prelude.{◌≡◌, ◌+◌, ◌-◌, ◌^◌, ◌<◌, ◌≤◌, ◌++◌, List, [], ◌∷◌, length, take, slice_get, vec_capacity, Some, IfOk, OnOk, OnErr};
ghost use Rattle.flat_lists.specs.Flat.{Flat, total};
ghost use Rattle.flat_lists.specs.Ends.{parts, begin_of, EndsInOrder};

use std::alloc::{AllocError, Global};
use std::marker::Model;

/// A list of lists, of which there are fewer than 2^32, with fewer than 2^32 items together.
#[derive(Debug, Drop)]
pub struct FlatLists<T> {
    items: Vec<T>,
    ends: Vec<u32>,
}

impl<T> Model for FlatLists<T> {
    ghost use Rattle.std.specs.Prelude.{length, vec_capacity};
    ghost use Rattle.flat_lists.specs.Flat.{Flat};
    ghost use Rattle.flat_lists.specs.Ends.{parts, IsFlat};

    ghost Value = { Flat T };

    ghost view = { λ f. record {
      lists = parts 0 f.ends.items f.items.items;
      list_room = vec_capacity f.ends;
      item_room = vec_capacity f.items;
    } };

    ghost invariant = { λ f. IsFlat f.ends.items (length f.items.items) };
}

impl<T: Copy> FlatLists<T> {
    /// No lists. Takes no memory.
    pub fn new(alloc: Global) -> FlatLists<T>
        ensures { result.lists ≡ [] }
    {
        FlatLists {
            items: Vec::new(alloc),
            ends: Vec::new(alloc),
        }
    }

    /// No lists, with room for so many lists and items.
    pub fn with_capacity(
        alloc: Global,
        lists: usize,
        items: usize,
    ) -> Result<FlatLists<T>, AllocError>
        ensures empty { IfOk result (λ f. f.lists ≡ []) }
        ensures list_room { IfOk result (λ f. lists ≤ f.list_room) }
        ensures item_room { IfOk result (λ f. items ≤ f.item_room) }
    {
        Ok(FlatLists {
            items: Vec::with_capacity(alloc, items)?,
            ends: Vec::with_capacity(alloc, lists)?,
        })
    }

    /// How many lists there are.
    pub fn len(&self) -> u32
        ensures { result ≡ length self.now.lists }
    {
        self.ends.len() as u32
    }

    /// How many items the lists have together.
    pub fn total(&self) -> u32
        ensures { result ≡ total self.now.lists }
    {
        self.items.len() as u32
    }

    /// List `k`, counted from 0.
    pub fn get(&self, k: u32) -> &[T]
        requires { k < length self.now.lists }
        ensures list { slice_get self.now.lists k ≡ Some result.now }
        ensures few { length result.now < 2 ^ 32 }
    {
        part(&self.items, &self.ends, k as usize)
    }

    /// Appends a list. After an error the lists are as before.
    pub fn push(&mut self, list: &[T]) -> Result<(), AllocError>
        requires few_items { total self.old.lists + length list.now < 2 ^ 32 }
        requires few_lists { length self.old.lists + 1 < 2 ^ 32 }
        ensures ok { OnOk result (self.new.lists ≡ self.old.lists ++ list.now ∷ []) }
        ensures err { OnErr result (self.new.lists ≡ self.old.lists) }
    {
        self.reserve(1, list.len())?;
        self.push_reserved(list);
        Ok(())
    }

    /// Makes room for so many lists and items more. The lists stay, whatever the result.
    pub fn reserve(&mut self, lists: usize, items: usize) -> Result<(), AllocError>
        ensures same { self.new.lists ≡ self.old.lists }
        ensures list_room { OnOk result (length self.old.lists + lists ≤ self.new.list_room) }
        ensures item_room { OnOk result (total self.old.lists + items ≤ self.new.item_room) }
    {
        self.ends.reserve(lists)?;
        self.items.reserve(items)?;
        Ok(())
    }

    /// Appends a list for which there is room. Takes no memory.
    pub fn push_reserved(&mut self, list: &[T])
        requires few_items { total self.old.lists + length list.now < 2 ^ 32 }
        requires few_lists { length self.old.lists + 1 < 2 ^ 32 }
        requires list_room { length self.old.lists < self.old.list_room }
        requires item_room { total self.old.lists + length list.now ≤ self.old.item_room }
        ensures lists { self.new.lists ≡ self.old.lists ++ list.now ∷ [] }
        ensures list_room { self.new.list_room ≡ self.old.list_room }
        ensures item_room { self.old.item_room ≤ self.new.item_room }
    {
        append(&mut self.items, list);
        self.ends.push_reserved(self.items.len() as u32);
    }

    /// Takes the last list away. Its room stays.
    pub fn pop(&mut self)
        requires { 0 < length self.old.lists }
        ensures lists { self.new.lists ≡ take (length self.old.lists - 1) self.old.lists }
        ensures list_room { self.new.list_room ≡ self.old.list_room }
        ensures item_room { self.new.item_room ≡ self.old.item_room }
    {
        let last = self.ends.len() - 1;
        let end = begin(&self.ends, last);
        self.ends.truncate(last);
        self.items.truncate(end);
    }
}

// Appends items for which there is room. Most lists are short, and copying one by a call takes longer.
#[inline]
fn append<T: Copy>(items: &mut Vec<T>, list: &[T])
    requires { length items.old.items + length list.now ≤ vec_capacity items.old }
    ensures items { items.new.items ≡ items.old.items ++ list.now }
    ensures room { vec_capacity items.new ≡ vec_capacity items.old }
{
    for &item in list {
        items.push_reserved(item);
    }
}

// Where part `k` begins, or the parts end if there is none.
fn begin(ends: &[u32], k: usize) -> usize
    requires { k ≤ length ends.now }
    ensures { result ≡ begin_of 0 ends.now k }
{
    if k == 0 { 0 } else { ends[k - 1] as usize }
}

fn part<'a, T>(items: &'a [T], ends: &[u32], k: usize) -> &'a [T]
    requires within { k < length ends.now }
    requires ordered { EndsInOrder 0 ends.now (length items.now) }
    ensures part { slice_get (parts 0 ends.now items.now) k ≡ Some result.now }
    ensures shorter { length result.now ≤ length items.now }
{
    let (front, _) = items.split_at(ends[k] as usize);
    let (_, list) = front.split_at(begin(ends, k));
    list
}
