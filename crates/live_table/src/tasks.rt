//! What evaluators do with the table that they enter. Each task has its room, is set before a place is
//! entered, and has its answer afterwards; none takes memory but `Ticketing`, which copies a net.

ghost use Rattle.std.specs.Prelude.{◌≡◌, ℕ, ◌<◌, length, IfOk, Ok, None};
ghost use Rattle.std.specs.Arc.{arc_value};
ghost use Rattle.std.specs.Option.{option_map};
ghost use Rattle.miter_defs.specs.Equality.{FitsPads};
ghost use Rattle.fabric_defs.specs.Geometries.{cell_count};
ghost use Rattle.journal_defs.specs.Journals.{spec_at, agreement_at};
ghost use Rattle.journal_defs.specs.Replies.{Runs};
ghost use Rattle.slot_core.specs.Values.{TableValue};
ghost use Rattle.live_table.specs.Answers.{IsCycle, IsSweep};

use crate::answers::Sweep;
use crate::place::Task;
use eval_lanes::{LaneWires, count_ones};
use fabric::{Config, Wires};
use netlist::Net;
use pch_base::{Bits, NoMemory};
use slot_core::{Cycle, Table, answer};
use std::mem;
use std::sync::Arc;

/// A cycle of a slot.
#[derive(Drop)]
pub(crate) struct Cycling {
    /// Room for one evaluation.
    pub(crate) wires: Wires,
    pub(crate) slot: u32,
    /// The bits of the inputs.
    pub(crate) x: Bits,
    /// The cell whose bit is asked for.
    pub(crate) probe: u32,
    /// The answer, once the task ran.
    pub(crate) cycle: Cycle,
    /// The number of entries after which it is the answer.
    pub(crate) at: u32,
}

impl Task for Cycling {
    ghost can = { λ c t. (c.slot < t.slots) × (c.probe < cell_count t.geometry)
        × (c.wires.geometry ≡ t.geometry) };

    ghost does = { λ c t d. IsCycle t.journal c.slot c.x c.probe d.cycle × (d.at ≡ length t.journal)
        × (d.wires.geometry ≡ c.wires.geometry) };

    fn on(&mut self, t: &Table) {
        self.cycle = answer(t, self.slot, self.x, self.probe, &mut self.wires);
        self.at = t.len();
    }
}

/// A sweep of a slot.
#[derive(Drop)]
pub(crate) struct Sweeping {
    /// Room for the evaluations.
    pub(crate) wires: LaneWires,
    pub(crate) slot: u32,
    /// The first value.
    pub(crate) first: u64,
    /// How many values there are.
    pub(crate) count: u32,
    /// The answer, once the task ran.
    pub(crate) sweep: Sweep,
    /// The number of entries after which it is the answer.
    pub(crate) at: u32,
}

/// The counts of a configuration that runs for this net, where the journal has `at` entries.
fn ones_of(net: &Net, config: &Config, first: u64, count: u32, at: u32, w: &mut LaneWires) -> Sweep
    requires fits { FitsPads net.now config.now.geometry }
    requires wires { w.old ≡ config.now.geometry }
    ensures wires { w.new ≡ w.old }
    ensures sweep { (t : TableValue) (slot : ℕ) → Runs t.journal slot net.now config.now
        → at ≡ length t.journal → IsSweep t.journal slot first count result }
{
    let counts = count_ones(config, net.inputs(), first, count, w);
    Sweep::Ones {
        counts,
        outputs: net.outputs(),
        at,
    }
}

/// How many of the `count` values from `first` on make each output of the slot one. Takes no
/// memory; the wires are to be of the table's fabric.
fn sweep(t: &Table, slot: u32, first: u64, count: u32, w: &mut LaneWires) -> Sweep
    requires slot { slot < t.now.slots }
    requires wires { w.old ≡ t.now.geometry }
    ensures wires { w.new ≡ w.old }
    ensures sweep { IsSweep t.now.journal slot first count result }
{
    let at = t.len();
    let contents = t.look(slot);
    let Some(config) = &contents.config else {
        return Sweep::Vacant { at };
    };
    // A configuration runs only where a net is agreed.
    let Some(net) = &contents.net else {
        return Sweep::Vacant { at };
    };
    ones_of(net, config, first, count, at, w)
}

impl Task for Sweeping {
    ghost can = { λ s t. (s.slot < t.slots) × (s.wires ≡ t.geometry) };

    ghost does = { λ s t d. IsSweep t.journal s.slot s.first s.count d.sweep
        × (d.at ≡ length t.journal) × (d.wires ≡ s.wires) };

    fn on(&mut self, t: &Table) {
        self.sweep = sweep(t, self.slot, self.first, self.count, &mut self.wires);
        self.at = t.len();
    }
}

/// A look at what is agreed for a slot.
#[derive(Drop)]
pub(crate) struct Ticketing {
    pub(crate) slot: u32,
    /// The agreed net, where there is one and memory isn't wanting, once the task ran.
    pub(crate) net: Result<Option<Arc<Net>>, NoMemory>,
    /// The number of the last agreement, once the task ran.
    pub(crate) agreed: u32,
    /// The number of entries after which this holds.
    pub(crate) at: u32,
}

impl Ticketing {
    /// The net, which isn't kept here.
    pub(crate) fn take_net(&mut self) -> Result<Option<Arc<Net>>, NoMemory>
        ensures net { result ≡ self.old.net }
        ensures left { self.new ≡ record self.old { net = Ok None } }
    {
        mem::replace(&mut self.net, Ok(None))
    }
}

/// The agreed net of the slot, where there is one.
fn agreed_net(t: &Table, slot: u32) -> Result<Option<Arc<Net>>, NoMemory>
    requires { slot < t.now.slots }
    ensures { IfOk result (λ net. option_map arc_value net ≡ spec_at t.now.journal slot) }
{
    match &t.look(slot).net {
        Some(net) => Ok(Some(net.clone()?)),
        None => Ok(None),
    }
}

impl Task for Ticketing {
    ghost can = { λ c t. c.slot < t.slots };

    ghost does = { λ c t d. IfOk d.net (λ net. option_map arc_value net ≡ spec_at t.journal c.slot)
        × (d.agreed ≡ agreement_at t.journal c.slot) × (d.at ≡ length t.journal) };

    fn on(&mut self, t: &Table) {
        self.net = agreed_net(t, self.slot);
        self.agreed = t.agreed(self.slot);
        self.at = t.len();
    }
}

/// A cycle of a slot, and a look at what is agreed for it, at one point.
#[derive(Drop)]
pub(crate) struct Desk {
    pub(crate) cycling: Cycling,
    pub(crate) ticketing: Ticketing,
}

impl Task for Desk {
    ghost can = { λ d t. ⟦<Cycling as Task>⟧.can d.cycling t × ⟦<Ticketing as Task>⟧.can d.ticketing t };

    ghost does = { λ d t e. ⟦<Cycling as Task>⟧.does d.cycling t e.cycling
        × ⟦<Ticketing as Task>⟧.does d.ticketing t e.ticketing };

    fn on(&mut self, t: &Table) {
        self.cycling.on(t);
        self.ticketing.on(t);
    }
}
