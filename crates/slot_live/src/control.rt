//! The control: who makes entries.

ghost use Rattle.std.specs.Prelude.{◌≡◌, ◌≤◌, ◌<◌, ◌↔◌, [], length, All, Some, IfSome, IsNone, IfOk, MatchResult, false};
ghost use Rattle.std.specs.Arc.{arc_value};
ghost use Rattle.miter_defs.specs.Equality.{FitsPads};
ghost use Rattle.journal_defs.specs.Legality.{CanFollow};
ghost use Rattle.slot_core.specs.Entries.{entry_value};
ghost use Rattle.live_table.specs.Values.{shape_of};
ghost use Rattle.live_table.specs.Places.{IsNewAt};
ghost use Rattle.slot_live.specs.Calls.{agreement, installation, eviction, IsCurrent, IsMade, Refuses};

use crate::errors::ControlError;
use fabric::Geometry;
use live_table::{Evaluator, Front, Publisher, Receipt, Standing, standing_of};
use netlist::Net;
use pch_base::NoMemory;
use slot_core::{Entry, Table};
use std::alloc::Global;
use std::marker::Model;
use std::sync::{Arc, Wait};
use verify::Verified;

/// Makes the entries of one device, and publishes each at one step. Contracts see the history, the
/// table, whose journal is the published one, and whether memory was wanting in a call before.
///
/// It is ended by `close` alone.
pub struct Control {
    publisher: Publisher,
}

impl Model for Control {
    ghost use Rattle.live_table.specs.Values.{ControlValue};

    ghost Value = { ControlValue };

    ghost view = { λ c. c.publisher };
}

impl Control {
    /// A control of a device without entries, with room for so many evaluators.
    pub(crate) fn open<R: Wait>(
        rt: &R,
        alloc: Global,
        g: Geometry,
        slots: u32,
        limit: u32,
        evaluators: u32,
    ) -> Result<Control, NoMemory>
        requires { 1 ≤ evaluators }
        ensures table { IfOk result (λ c. c.table
            ≡ record { geometry = g; slots = slots; limit = limit; journal = [] }) }
        ensures sound { IfOk result (λ c. c.broken ≡ false) }
    {
        Ok(Control {
            publisher: Publisher::open(rt, alloc, g, slots, limit, evaluators)?,
        })
    }

    /// So many evaluators, each at a place of its own.
    pub(crate) fn evaluators<R: Wait>(
        &mut self,
        rt: &R,
        alloc: Global,
        count: u32,
    ) -> Result<Vec<Evaluator>, NoMemory>
        requires { self.old.table.journal ≡ [] }
        ensures same { self.new ≡ self.old }
        ensures count { IfOk result (λ es. length es.items ≡ count) }
        ensures new { IfOk result (λ es. All (IsNewAt self.old) es.items) }
    {
        self.publisher.evaluators(rt, alloc, count)
    }

    /// Makes an entry, which may come next where there is room.
    fn make<R: Wait>(&mut self, rt: &R, entry: Entry) -> Result<Receipt, ControlError>
        requires slot { (entry_value entry).slot < self.old.table.slots }
        requires follows { CanFollow self.old.table.geometry self.old.table.journal
            (entry_value entry) }
        ensures { MatchResult result (IsMade self.old self.new (entry_value entry))
            (Refuses self.old self.new (entry_value entry)) }
    {
        let table = self.publisher.table();
        let limit = table.limit();
        if table.len() == limit {
            return Err(ControlError::Full { limit });
        }
        if self.publisher.broken() {
            return Err(ControlError::Broken);
        }
        Ok(self.publisher.publish(rt, entry)?)
    }

    /// Agrees the net for the slot: nothing runs there until a configuration is installed.
    pub fn agree<R: Wait>(
        &mut self,
        rt: &R,
        lane: u32,
        turn: u32,
        slot: u32,
        net: Arc<Net>,
    ) -> Result<Receipt, ControlError>
        requires { slot < self.old.table.slots }
        ensures { MatchResult result
            (IsMade self.old self.new (agreement lane turn slot (arc_value net)))
            (Refuses self.old self.new (agreement lane turn slot (arc_value net))) }
    {
        self.make(
            rt,
            Entry::Agreed {
                lane,
                turn,
                slot,
                net,
            },
        )
    }

    /// Installs in the slot the configuration, which was found equal to its net. This net is to be
    /// the agreed one of the slot.
    pub fn install<R: Wait>(
        &mut self,
        rt: &R,
        lane: u32,
        turn: u32,
        slot: u32,
        v: Verified,
    ) -> Result<Receipt, ControlError>
        requires slot { slot < self.old.table.slots }
        requires geometry { v.config.geometry ≡ self.old.table.geometry }
        requires pads { FitsPads v.net v.config.geometry }
        ensures { MatchResult result
            (IsMade self.old self.new (installation lane turn slot v.net v.config))
            (Refuses self.old self.new (installation lane turn slot v.net v.config)) }
    {
        let table = self.publisher.table();
        let at = table.len();
        match standing_of(table, slot, v.net()) {
            Standing::Unagreed => return Err(ControlError::Unagreed { at }),
            Standing::Stale => return Err(ControlError::Stale { at }),
            Standing::Agreed => {}
        }
        let (net, config) = v.into_parts();
        self.make(
            rt,
            Entry::Installed {
                lane,
                turn,
                slot,
                net,
                config,
            },
        )
    }

    /// Takes what runs out of the slot.
    pub fn evict<R: Wait>(
        &mut self,
        rt: &R,
        lane: u32,
        turn: u32,
        slot: u32,
    ) -> Result<Receipt, ControlError>
        requires { slot < self.old.table.slots }
        ensures { MatchResult result (IsMade self.old self.new (eviction lane turn slot))
            (Refuses self.old self.new (eviction lane turn slot)) }
    {
        self.make(rt, Entry::Evicted { lane, turn, slot })
    }

    /// Whether memory was wanting in a call before. Then no further entry is made.
    pub fn broken(&self) -> bool
        ensures { result ≡ self.now.broken }
    {
        self.publisher.broken()
    }

    /// The table, whose journal is the published one.
    pub fn table(&self) -> &Table
        ensures { result.now ≡ self.now.table }
    {
        self.publisher.table()
    }

    /// A front that stands for the whole journal of the table, where it has an entry.
    pub fn front(&self) -> Option<&Front>
        ensures some { IfSome result (λ f. f.now
            ≡ record { book = self.now.book; journal = self.now.table.journal }) }
        ensures none { IsNone result ↔ (self.now.table.journal ≡ []) }
    {
        self.publisher.front()
    }

    /// Ends the control, once nobody reads the copy that was published before. Evaluators are refused
    /// from then on.
    pub fn close<R: Wait>(self, rt: &R) {
        let Control { publisher } = self;
        publisher.close(rt);
    }
}
