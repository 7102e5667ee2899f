//! The commands that ask a slot: cycles and sweeps.

ghost use Rattle.std.specs.Prelude.{◌≡◌, ℕ, ◌<◌, List, length};
ghost use Rattle.miter_defs.specs.Equality.{FitsPads};
ghost use Rattle.fabric_defs.specs.Geometries.{cell_count};
ghost use Rattle.journal_defs.specs.Journals.{EntryValue};
ghost use Rattle.journal_defs.specs.Replies.{Runs, cycle as cycle_query};
ghost use Rattle.script_defs.specs.declared.command.Command.TheVariants.{Cycle as CycleCommand, Sweep};
ghost use Rattle.slot_core.specs.Cycles.{IsReplyTo};
ghost use Rattle.slot_core.specs.Values.{TableValue};
ghost use Rattle.session_defs.specs.Files.{Contents};
ghost use Rattle.run_script.specs.Replies.{reply_of};
ghost use Rattle.run_actors.specs.Steps.{AnswersAlone};

use crate::device::Device;
use eval_lanes::{LaneWires, count_ones};
use fabric::Config;
use netlist::Net;
use pch_base::Bits;
use run_script::Reply;
use slot_core::{Cycle, Table, answer};

/// The reply of an answer to a cycle.
fn cycle_reply(cycle: Cycle) -> Reply
    ensures { (files : List Contents) (t : TableValue) (slot probe : ℕ) (x : List ℕ)
        → IsReplyTo t.journal (cycle_query slot x probe) cycle
        → AnswersAlone files (length t.journal) (CycleCommand slot x probe) (reply_of result) t }
{
    match cycle {
        Cycle::Out { outputs, probe, at } => Reply::Out { outputs, probe, at },
        Cycle::Vacant { at } => Reply::Vacant { at },
        Cycle::Width { want, at } => Reply::Width { want, at },
    }
}

/// The counts of a configuration that runs for this net, where the journal has `at` entries.
fn ones_of(net: &Net, config: &Config, first: u64, count: u32, at: u32, w: &mut LaneWires) -> Reply
    requires fits { FitsPads net.now config.now.geometry }
    requires wires { w.old ≡ config.now.geometry }
    ensures wires { w.new ≡ w.old }
    ensures reply { (files : List Contents) (t : TableValue) (slot : ℕ)
        → Runs t.journal slot net.now config.now → at ≡ length t.journal
        → AnswersAlone files (length t.journal) (Sweep slot first count) (reply_of result) t }
{
    let counts = count_ones(config, net.inputs(), first, count, w);
    Reply::Ones {
        counts,
        outputs: net.outputs(),
        at,
    }
}

/// How many of the `count` values from `first` on make each output of the slot one. Takes no
/// memory; the wires are to be of the table's fabric.
fn sweep(t: &Table, slot: u32, first: u64, count: u32, w: &mut LaneWires) -> Reply
    requires slot { slot < t.now.slots }
    requires wires { w.old ≡ t.now.geometry }
    ensures wires { w.new ≡ w.old }
    ensures reply { (files : List Contents)
        → AnswersAlone files (length t.now.journal) (Sweep slot first count)
        (reply_of result) t.now }
{
    let at = t.len();
    let contents = t.look(slot);
    let Some(config) = &contents.config else {
        return Reply::Vacant { at };
    };
    // A configuration runs only where a net is agreed.
    let Some(net) = &contents.net else {
        return Reply::Vacant { at };
    };
    ones_of(net, config, first, count, at, w)
}

impl Device {
    /// The outputs of the slot for these input bits, and the bit of cell `probe`. Takes no memory.
    pub(crate) fn cycle(&mut self, slot: u32, bits: Bits, probe: u32) -> Reply
        requires slot { slot < self.old.slots }
        requires probe { probe < cell_count self.old.geometry }
        ensures same { self.new ≡ self.old }
        ensures reply { (files : List Contents)
            → AnswersAlone files (length self.old.journal) (CycleCommand slot bits probe)
            (reply_of result) self.old }
    {
        cycle_reply(answer(&self.table, slot, bits, probe, &mut self.wires))
    }

    /// How many of the `count` values from `first` on make each output of the slot one. Takes no
    /// memory.
    pub(crate) fn sweep(&mut self, slot: u32, first: u64, count: u32) -> Reply
        requires { slot < self.old.slots }
        ensures same { self.new ≡ self.old }
        ensures reply { (files : List Contents)
            → AnswersAlone files (length self.old.journal) (Sweep slot first count)
            (reply_of result) self.old }
    {
        sweep(&self.table, slot, first, count, &mut self.lane_wires)
    }
}
