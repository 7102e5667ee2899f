//! The device of a session: its slots with their journal, and the room for their answers.

ghost use Rattle.std.specs.Prelude.{◌≡◌, ◌+◌, ◌<◌, ◌≤◌, [], length, IfOk, OnOk, Decides};
ghost use Rattle.journal_defs.specs.Legality.{CanFollow};
ghost use Rattle.slot_core.specs.Entries.{entry_value};
ghost use Rattle.run_actors.specs.Steps.{with_entry};

use eval_lanes::LaneWires;
use fabric::{Geometry, Wires};
use pch_base::NoMemory;
use slot_core::{Entry, Ready, Table};
use std::alloc::Global;
use std::marker::Model;

/// The slots of a device and its journal, with room for their answers. Contracts see the table of
/// the slots alone.
#[derive(Drop)]
pub(crate) struct Device {
    pub(crate) table: Table,
    /// Room for one cycle.
    pub(crate) wires: Wires,
    /// Room for a sweep.
    pub(crate) lane_wires: LaneWires,
}

impl Model for Device {
    ghost use Rattle.std.specs.Prelude.{◌≡◌};
    ghost use Rattle.slot_core.specs.Values.{TableValue};

    ghost Value = { TableValue };

    ghost view = { λ d. d.table };

    ghost invariant = { λ d. (d.wires.geometry ≡ d.table.geometry)
        × (d.lane_wires ≡ d.table.geometry) };
}

impl Device {
    /// A device without entries.
    pub(crate) fn new(
        alloc: Global,
        g: Geometry,
        slots: u32,
        limit: u32,
    ) -> Result<Device, NoMemory>
        ensures { IfOk result (λ d. d
            ≡ record { geometry = g; slots = slots; limit = limit; journal = [] }) }
    {
        Ok(Device {
            table: Table::new(alloc, g, slots, limit)?,
            wires: Wires::new(alloc, g)?,
            lane_wires: LaneWires::new(alloc, g)?,
        })
    }

    /// The fabric of each slot.
    pub(crate) fn geometry(&self) -> Geometry
        ensures { result ≡ self.now.geometry }
    {
        self.table.geometry()
    }

    /// How many entries the journal has.
    pub(crate) fn entries(&self) -> u32
        ensures { result ≡ length self.now.journal }
    {
        self.table.len()
    }

    /// Whether the journal has as many entries as it may.
    pub(crate) fn is_full(&self) -> bool
        ensures full { Decides result (length self.now.journal ≡ self.now.limit) }
        ensures short { length self.now.journal ≤ self.now.limit }
    {
        self.table.len() == self.table.limit()
    }

    /// Appends the entry, which may follow, and answers its number.
    pub(crate) fn append(&mut self, e: &Entry) -> Result<u32, NoMemory>
        requires room { length self.old.journal < self.old.limit }
        requires slot { (entry_value e.now).slot < self.old.slots }
        requires follows { CanFollow self.old.geometry self.old.journal (entry_value e.now) }
        ensures number { IfOk result (λ n. n ≡ length self.old.journal + 1) }
        ensures entry { OnOk result (self.new ≡ with_entry self.old (entry_value e.now)) }
    {
        let ready = Ready::of(e)?;
        self.table.apply(ready);
        Ok(self.table.len())
    }
}
