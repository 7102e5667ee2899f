//! What a slot answers to a cycle: what comes in are the input bits and the number of a cell, what goes
//! out are the outputs and the bit of that cell, both of the configuration that runs.

ghost use Rattle.std.specs.Prelude.{◌≡◌, ◌%◌, ◌^◌, ◌<◌, ◌≤◌, length, take};
ghost use Rattle.fabric_defs.specs.Geometries.{cell_count};
ghost use Rattle.miter_defs.specs.Equality.{FitsPads};
ghost use Rattle.journal_defs.specs.Replies.{cycle};
ghost use Rattle.slot_core.specs.Cycles.{IsReplyTo, IsGivenBy};

use crate::table::Table;
use fabric::{Config, Wires, cell, eval};
use netlist::Net;
use pch_base::Bits;

/// The answer to a cycle, with the number of entries of the journal that it is of.
#[derive(Clone, Copy, Debug)]
pub enum Cycle {
    /// The outputs, as many as the agreed net has, and the bit of the probed cell.
    Out { outputs: Bits, probe: bool, at: u32 },
    /// Nothing runs in the slot.
    Vacant { at: u32 },
    /// The agreed net has `want` inputs, and another number of bits was given.
    Width { want: u32, at: u32 },
}

/// The lowest `count` bits of the word.
fn low_bits(word: u64, count: u32) -> u64
    requires { count ≤ 64 }
    ensures { result ≡ word % 2 ^ count }
{
    if count == 64 {
        word
    } else {
        word & ((1 << count) - 1)
    }
}

/// The first `count` bits.
fn first_bits(bits: Bits, count: u32) -> Bits
    requires short { count ≤ 64 }
    requires within { count ≤ length bits }
    ensures { result ≡ take count bits }
{
    Bits::new(low_bits(bits.word(), count), count)
}

/// What a configuration that runs answers where the journal has `at` entries.
fn cycle_of(net: &Net, config: &Config, x: Bits, probe: u32, at: u32, w: &mut Wires) -> Cycle
    requires fits { FitsPads net.now config.now.geometry }
    requires probe { probe < cell_count config.now.geometry }
    requires wires { w.old.geometry ≡ config.now.geometry }
    ensures wires { w.new.geometry ≡ w.old.geometry }
    ensures given { IsGivenBy net.now config.now x probe at result }
{
    let want = net.inputs();
    if x.len() != want {
        return Cycle::Width { want, at };
    }
    let pads = eval(config, x, w);
    Cycle::Out {
        outputs: first_bits(pads, net.outputs()),
        probe: cell(w, probe),
        at,
    }
}

/// What the slot answers to one cycle with the input bits `x`, where cell `probe` is probed. Takes no
/// memory; the wires are to be of the table's fabric.
pub fn answer(t: &Table, slot: u32, x: Bits, probe: u32, w: &mut Wires) -> Cycle
    requires slot { slot < t.now.slots }
    requires probe { probe < cell_count t.now.geometry }
    requires wires { w.old.geometry ≡ t.now.geometry }
    ensures reply { IsReplyTo t.now.journal (cycle slot x probe) result }
    ensures wires { w.new.geometry ≡ w.old.geometry }
{
    let at = t.len();
    let contents = t.look(slot);
    let Some(config) = &contents.config else {
        return Cycle::Vacant { at };
    };
    // A configuration runs only where a net is agreed.
    let Some(net) = &contents.net else {
        return Cycle::Vacant { at };
    };
    cycle_of(net, config, x, probe, at, w)
}
