ghost use Rattle.std.specs.Prelude.{◌≡◌, ℕ, ◌<◌, List, length, slice_index, slice_set, if◌then◌else◌};

use crate::net::Net;
use pch_base::NoMemory;
use std::alloc::Global;
use std::marker::Model;

/// Places for the bits of the signals of a net, which `Net::eval` fills. Contracts see the list of
/// these bits, each the number 0 or 1.
#[derive(Debug, Drop)]
pub struct Scratch {
    bits: Vec<bool>,
}

impl Model for Scratch {
    ghost use Rattle.std.specs.Prelude.{ℕ, List, map};
    ghost use Rattle.netlist.specs.Places.{bit_of};

    ghost Value = { List ℕ };

    ghost view = { λ s. map bit_of s.bits.items };
}

impl Scratch {
    ghost use Rattle.std.specs.Prelude.{IfOk};
    ghost use Rattle.net_defs.specs.Networks.{signals};

    /// A place for each signal of the net.
    pub fn new(alloc: Global, n: &Net) -> Result<Scratch, NoMemory>
        ensures { IfOk result (λ s. length s ≡ signals n.now) }
    {
        let count = n.inputs() as usize + n.nodes() as usize;
        Ok(Scratch {
            bits: vec![in alloc; false; count]?,
        })
    }

    /// Whether the signal's bit is 1.
    pub(crate) fn get(&self, signal: usize) -> bool
        requires { signal < length self.now }
        ensures { slice_index self.now signal ≡ (if result then 1 else 0) }
    {
        self.bits[signal]
    }

    /// Makes `bit` the signal's bit.
    pub(crate) fn set(&mut self, signal: usize, bit: bool)
        requires { signal < length self.old }
        ensures { self.new ≡ slice_set self.old signal (if bit then 1 else 0) }
    {
        self.bits[signal] = bit;
    }
}
