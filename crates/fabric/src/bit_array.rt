//! Bits that are written and read by their places, a byte for each: an evaluation does nothing else.

ghost use Rattle.std.specs.Prelude.{◌≡◌, ◌<◌, length, slice_index, slice_set, IfOk};
ghost use Rattle.fabric.specs.BitArrays.{bit_of};

use std::alloc::{AllocError, Global};
use std::marker::Model;

/// Bits by their places. Contracts see the list of these, each the number 0 or 1.
#[derive(Debug, Drop)]
pub(crate) struct BitArray {
    bits: Vec<bool>,
}

impl Model for BitArray {
    ghost use Rattle.std.specs.Prelude.{ℕ, List, map};
    ghost use Rattle.fabric.specs.BitArrays.{bit_of};

    ghost Value = { List ℕ };

    ghost view = { λ a. map bit_of a.bits.items };
}

impl BitArray {
    /// So many bits.
    pub(crate) fn new(alloc: Global, count: usize) -> Result<BitArray, AllocError>
        ensures { IfOk result (λ a. length a ≡ count) }
    {
        Ok(BitArray {
            bits: vec![in alloc; false; count]?,
        })
    }

    /// The bit at a place.
    pub(crate) fn get(&self, place: usize) -> bool
        requires { place < length self.now }
        ensures { slice_index self.now place ≡ bit_of result }
    {
        self.bits[place]
    }

    /// Makes `bit` the bit at a place.
    pub(crate) fn set(&mut self, place: usize, bit: bool)
        requires { place < length self.old }
        ensures { self.new ≡ slice_set self.old place (bit_of bit) }
    {
        self.bits[place] = bit;
    }
}
