//! Evaluators: each asks the slots from a place of its own.

ghost use Rattle.std.specs.Prelude.{◌≡◌, ◌⊎◌, ◌<◌, [], length, IfOk, MatchResult};
ghost use Rattle.fabric_defs.specs.Geometries.{cell_count};
ghost use Rattle.live_table.specs.Places.{Sees, Misses, Ends};
ghost use Rattle.live_table.specs.Answers.{IsCycle, IsSweep, IsLook, IsSince};

use crate::answers::{Look, Since, Sweep};
use crate::place::{Gone, Place};
use crate::read_end::ReadEnd;
use crate::tasks::{Cycling, Desk, Sweeping, Ticketing};
use eval_lanes::LaneWires;
use fabric::{Geometry, Wires};
use pch_base::{Bits, NoMemory};
use slot_core::Cycle;
use std::alloc::Global;
use std::marker::Model;

/// Who asks the slots of a device, from one place. Contracts see the place: what it has seen is a
/// journal, and each answer is this journal's.
#[derive(Drop)]
pub struct EvaluatorOver<P: Place + Drop> {
    pub(crate) place: P,
    /// Asks for cycles, and for what is agreed.
    pub(crate) desk: Desk,
    /// Asks for sweeps.
    pub(crate) sweeping: Sweeping,
    /// How many entries were seen.
    pub(crate) entries: u32,
}

impl<P: Place + Drop> Model for EvaluatorOver<P> {
    ghost use Rattle.std.specs.Prelude.{◌≡◌, length};

    ghost Value = { P };

    ghost view = { λ e. e.place };

    ghost invariant = { λ e. (e.desk.cycling.wires.geometry ≡ (P.value e.place).shape.geometry)
        × (e.sweeping.wires ≡ (P.value e.place).shape.geometry)
        × (e.entries ≡ length (P.value e.place).seen) };
}

impl<P: Place + Drop> EvaluatorOver<P> {
    /// An evaluator at the place, which has seen nothing yet and has tables of this fabric.
    pub fn new(alloc: Global, p: P, g: Geometry) -> Result<EvaluatorOver<P>, NoMemory>
        requires geometry { (P.value p).shape.geometry ≡ g }
        requires nothing { (P.value p).seen ≡ [] }
        ensures { IfOk result (λ e. e ≡ p) }
    {
        let cycling = Cycling {
            wires: Wires::new(alloc, g)?,
            slot: 0,
            x: Bits::new(0, 0),
            probe: 0,
            cycle: Cycle::Vacant { at: 0 },
            at: 0,
        };
        let ticketing = Ticketing {
            slot: 0,
            net: Ok(None),
            agreed: 0,
            at: 0,
        };
        let sweeping = Sweeping {
            wires: LaneWires::new(alloc, g)?,
            slot: 0,
            first: 0,
            count: 0,
            sweep: Sweep::Vacant { at: 0 },
            at: 0,
        };
        Ok(EvaluatorOver {
            place: p,
            desk: Desk { cycling, ticketing },
            sweeping,
            entries: 0,
        })
    }

    /// How many entries this evaluator has seen or learned.
    pub fn seen(&self) -> u32
        ensures { result ≡ length (P.value self.now).seen }
    {
        self.entries
    }

    /// What the slot answers to one cycle with the input bits `x`, where cell `probe` is probed. Waits
    /// for nobody and takes no memory.
    pub fn cycle(&mut self, slot: u32, x: Bits, probe: u32) -> Result<Cycle, Gone>
        requires slot { slot < (P.value self.old).shape.slots }
        requires probe { probe < cell_count (P.value self.old).shape.geometry }
        ensures { MatchResult result
            (λ c. Sees (P.value self.old) (P.value self.new)
            × IsCycle (P.value self.new).seen slot x probe c)
            (λ _. Misses (P.value self.old) (P.value self.new)) }
    {
        let cycling = &mut self.desk.cycling;
        cycling.slot = slot;
        cycling.x = x;
        cycling.probe = probe;
        self.place.enter(&mut self.desk.cycling)?;
        self.entries = self.desk.cycling.at;
        Ok(self.desk.cycling.cycle)
    }

    /// How many of the `count` values from `first` on make each output of the slot one. After 2^64 - 1
    /// the values go on with 0. Waits for nobody and takes no memory.
    pub fn sweep(&mut self, slot: u32, first: u64, count: u32) -> Result<Sweep, Gone>
        requires { slot < (P.value self.old).shape.slots }
        ensures { MatchResult result
            (λ s. Sees (P.value self.old) (P.value self.new)
            × IsSweep (P.value self.new).seen slot first count s)
            (λ _. Misses (P.value self.old) (P.value self.new)) }
    {
        self.sweeping.slot = slot;
        self.sweeping.first = first;
        self.sweeping.count = count;
        self.place.enter(&mut self.sweeping)?;
        self.entries = self.sweeping.at;
        Ok(self.sweeping.sweep)
    }

    /// The agreed net of the slot. Waits for nobody.
    pub fn ticket(&mut self, slot: u32) -> Result<Look, ReadEnd>
        requires { slot < (P.value self.old).shape.slots }
        ensures { MatchResult result
            (λ look. Sees (P.value self.old) (P.value self.new)
            × IsLook (P.value self.new).seen slot look)
            (Ends (P.value self.old) (P.value self.new)) }
    {
        self.desk.ticketing.slot = slot;
        self.place.enter(&mut self.desk.ticketing)?;
        let at = self.desk.ticketing.at;
        self.entries = at;
        match self.desk.ticketing.take_net()? {
            Some(net) => Ok(Look::Agreed { net, at }),
            None => Ok(Look::Unagreed { at }),
        }
    }

    /// The answer of `cycle`, with what is agreed for the slot at the same point. Waits for nobody.
    pub fn cycle_since(&mut self, slot: u32, x: Bits, probe: u32) -> Result<Since, ReadEnd>
        requires slot { slot < (P.value self.old).shape.slots }
        requires probe { probe < cell_count (P.value self.old).shape.geometry }
        ensures { MatchResult result
            (λ since. Sees (P.value self.old) (P.value self.new)
            × IsSince (P.value self.new).seen slot x probe since)
            (Ends (P.value self.old) (P.value self.new)) }
    {
        let cycling = &mut self.desk.cycling;
        cycling.slot = slot;
        cycling.x = x;
        cycling.probe = probe;
        self.desk.ticketing.slot = slot;
        self.place.enter(&mut self.desk)?;
        self.entries = self.desk.cycling.at;
        Ok(Since {
            cycle: self.desk.cycling.cycle,
            net: self.desk.ticketing.take_net()?,
            agreed: self.desk.ticketing.agreed,
        })
    }
}
