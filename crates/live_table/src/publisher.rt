//! The one who publishes: makes entries, each at one step.

ghost use Rattle.std.specs.Prelude.{◌≡◌, ◌≤◌, ◌<◌, ◌+◌, ◌↔◌, [], ◌∷◌, ◌++◌, length, drop, OnOk, All, Some, IfSome, IsNone, IfOk, MatchResult, true, false};
ghost use Rattle.left_right.specs.Sides.{view};
ghost use Rattle.journal_defs.specs.Legality.{CanFollow};
ghost use Rattle.slot_core.specs.Entries.{entry_value};
ghost use Rattle.live_table.specs.Values.{shape_of, with_entry};
ghost use Rattle.live_table.specs.Places.{IsNewAt};
ghost use Rattle.live_table.specs.Publishing.{IsPublished};
ghost use Rattle.live_table.specs.Rule.{IsPending, Applies};

use crate::evaluator::EvaluatorOver;
use crate::front::{Front, Head};
use crate::live::{Evaluator, LivePlace};
use crate::published::{Change, Published};
use crate::receipt::Receipt;
use crate::rule::{Meet, TableReader, TableWriter, Whole};
use core::mem::replace_with;
use fabric::Geometry;
use left_right::writer::Writer;
use pch_base::NoMemory;
use slot_core::{Entry, Ready, Table};
use std::alloc::{AllocError, Global};
use std::marker::Model;
use std::sync::Wait;

/// Publishes the entries of one device, each at one step, as long as memory isn't wanting. Contracts
/// see the history, the table, whose journal is the published one, and whether memory was wanting in
/// a call before.
///
/// It is ended by `close` alone.
pub struct Publisher {
    writer: TableWriter,
    /// The word with the length of the history.
    head: Head,
    /// Stands for the journal of the table.
    front: Front,
    /// A table of its own, like the published one.
    table: Table,
    /// Whether memory was wanting in a call before, so that an entry may be pending.
    broken: bool,
}

impl Model for Publisher {
    ghost use Rattle.std.specs.Prelude.{◌≡◌, false, [], Some, drop};
    ghost use Rattle.left_right.specs.Sides.{view as view_of};
    ghost use Rattle.live_table.specs.Values.{ControlValue};
    ghost use Rattle.live_table.specs.Histories.{head_of};

    ghost Value = { ControlValue };

    ghost view = { λ c. record { book = c.front.book; table = c.table; broken = c.broken } };

    ghost invariant = { λ c. (c.head ≡ head_of c.front.book)
        × (c.front.journal ≡ c.table.journal)
        × (c.writer.desk.shown.value ≡ record { table = c.table; front = c.front })
        × (view_of c.writer.desk.place ≡ Some c.writer.desk.shown.value)
        × (c.broken ≡ false → drop c.writer.behind c.writer.log.items ≡ []) };
}

/// A new reader. Where it is refused, it is asked for again.
fn newcomer<R: Wait>(rt: &R, writer: &TableWriter) -> TableReader
    ensures { result.place.table_id ≡ writer.now.desk.place.table_id }
{
    for _ in rt.forever() {
        if let Ok(reader) = writer.factory().reader() {
            return reader;
        }
    }
    unreachable!()
}

/// Makes the change pending.
fn append(writer: &mut TableWriter, change: Change) -> Result<(), NoMemory>
    ensures desk { writer.new.desk ≡ writer.old.desk }
    ensures pending { OnOk result (drop writer.new.behind writer.new.log.items
        ≡ drop writer.old.behind writer.old.log.items ++ change ∷ []) }
{
    match writer.append(change) {
        Ok(()) => Ok(()),
        Err(_change) => Err(NoMemory),
    }
}

/// Publishes the one change that is pending.
fn show<R: Wait>(rt: &R, writer: TableWriter) -> (TableWriter, Result<(), AllocError>)
    requires { IsPending writer.desk.shown.value (drop writer.behind writer.log.items) }
    ensures { MatchResult result.1
        (λ _. Applies writer.desk.shown.value (drop writer.behind writer.log.items)
        result.0.desk.shown.value × (drop result.0.behind result.0.log.items ≡ [])
        × (view result.0.desk.place ≡ Some result.0.desk.shown.value))
        (λ _. (result.0.desk.shown.value ≡ writer.desk.shown.value)
        × (view result.0.desk.place ≡ view writer.desk.place)) }
{
    writer.publish_as::<Meet, R>(rt)
}

impl Publisher {
    /// A publisher of a device without entries, with room for so many readers.
    pub fn open<R: Wait>(
        rt: &R,
        alloc: Global,
        g: Geometry,
        slots: u32,
        limit: u32,
        readers: u32,
    ) -> Result<Publisher, NoMemory>
        requires readers { 1 ≤ readers }
        ensures table { IfOk result (λ c. c.table
            ≡ record { geometry = g; slots = slots; limit = limit; journal = [] }) }
        ensures sound { IfOk result (λ c. c.broken ≡ false) }
    {
        let (head, front) = Front::opened();
        let table = Table::new(alloc, g, slots, limit)?;
        let first = Published {
            table: Table::new(alloc, g, slots, limit)?,
            front: front.again(),
        };
        let second = Published {
            table: Table::new(alloc, g, slots, limit)?,
            front: front.again(),
        };
        let writer: TableWriter = Writer::new(alloc, first, second, readers as usize)?;
        // The writer has seen no copy yet. To publish nothing shows it one.
        let (writer, shown) = writer.publish_as::<Meet, R>(rt);
        if shown.is_err() {
            writer.take(rt);
            return Err(NoMemory);
        }
        Ok(Publisher {
            writer,
            head,
            front,
            table,
            broken: false,
        })
    }

    /// A place of a new reader, which has seen what the publisher has.
    fn seat<R: Wait>(&mut self, rt: &R) -> LivePlace
        ensures same { self.new ≡ self.old }
        ensures place { result ≡ record {
          book = Some self.old.book;
          shape = shape_of self.old.table;
          seen = self.old.table.journal;
          refusals = 0;
        } }
    {
        let mut reader = newcomer(rt, &self.writer);
        reader.learn::<Whole>(self.writer.tell::<Whole>());
        LivePlace::new(reader, self.front.again())
    }

    /// So many evaluators, each at a place of its own.
    pub fn evaluators<R: Wait>(
        &mut self,
        rt: &R,
        alloc: Global,
        count: u32,
    ) -> Result<Vec<Evaluator>, NoMemory>
        requires { self.old.table.journal ≡ [] }
        ensures same { self.new ≡ self.old }
        ensures count { IfOk result (λ es. length es.items ≡ count) }
        ensures new { IfOk result (λ es. All (IsNewAt self.old) es.items) }
    {
        let g = self.table.geometry();
        let mut evaluators = Vec::with_capacity(alloc, count as usize)?;
        for _seat in 0..count {
            let place = self.seat(rt);
            evaluators.push(EvaluatorOver::new(alloc, place, g)?)?;
        }
        Ok(evaluators)
    }

    /// Publishes an entry, which may come next. Its number is answered, with a front that stands for
    /// the journal then.
    pub fn publish<R: Wait>(&mut self, rt: &R, entry: Entry) -> Result<Receipt, NoMemory>
        requires sound { self.old.broken ≡ false }
        requires room { length self.old.table.journal < self.old.table.limit }
        requires slot { (entry_value entry).slot < self.old.table.slots }
        requires follows { CanFollow self.old.table.geometry self.old.table.journal
            (entry_value entry) }
        ensures { MatchResult result (IsPublished self.old self.new (entry_value entry))
            (λ _. self.new ≡ record self.old { broken = true }) }
    {
        // Until the entry is published it may be pending, which only the end of this call mends.
        self.broken = true;
        let ready = Ready::of(&entry)?;
        let Some(front) = self.front.with(&self.head, &ready) else {
            return Err(NoMemory);
        };
        let change = Change::new(entry, front.again());
        append(&mut self.writer, change)?;
        replace_with(
            &mut self.writer,
            rt,
            |writer: TableWriter, rt: &R| -> (TableWriter, Result<(), AllocError>)
                requires { IsPending writer.desk.shown.value (drop writer.behind writer.log.items) }
                ensures { MatchResult result.1
                    (λ _. Applies writer.desk.shown.value (drop writer.behind writer.log.items)
                    result.0.desk.shown.value × (drop result.0.behind result.0.log.items ≡ [])
                    × (view result.0.desk.place ≡ Some result.0.desk.shown.value))
                    (λ _. (result.0.desk.shown.value ≡ writer.desk.shown.value)
                    × (view result.0.desk.place ≡ view writer.desk.place)) }
            { show(rt, writer) },
        )?;
        self.table.apply(ready);
        self.front = front;
        self.broken = false;
        Ok(Receipt {
            at: self.table.len(),
            front: self.front.again(),
        })
    }

    /// Whether memory was wanting in a call before. Then no further entry is made.
    pub fn broken(&self) -> bool
        ensures { result ≡ self.now.broken }
    {
        self.broken
    }

    /// The table, whose journal is the published one.
    pub fn table(&self) -> &Table
        ensures { result.now ≡ self.now.table }
    {
        &self.table
    }

    /// A front that stands for the whole journal of the table, where it has an entry.
    pub fn front(&self) -> Option<&Front>
        ensures some { IfSome result (λ f. f.now
            ≡ record { book = self.now.book; journal = self.now.table.journal }) }
        ensures none { IsNone result ↔ (self.now.table.journal ≡ []) }
    {
        if self.table.is_empty() {
            None
        } else {
            Some(&self.front)
        }
    }

    /// Ends the publishing, once nobody reads the copy that was published before. Evaluators are refused
    /// from then on.
    pub fn close<R: Wait>(self, rt: &R) {
        let Publisher {
            writer,
            head: _head,
            front: _front,
            table: _table,
            broken: _,
        } = self;
        let _published = writer.take(rt);
    }
}
