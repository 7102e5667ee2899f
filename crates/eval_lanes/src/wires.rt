//! Room for evaluations, which is taken once.

ghost use Rattle.std.specs.Prelude.{◌≡◌, IfOk};

use crate::words::Words;
use fabric::Geometry;
use pch_base::NoMemory;
use std::alloc::Global;
use std::marker::Model;
use std::simd::prelude::*;

/// Places for the words of a fabric, which `eval64` and `count_ones` fill. Contracts see the
/// geometry of the fabric alone.
#[derive(Drop)]
pub struct LaneWires {
    /// The fabric that has as many tracks, cells and input pads.
    geometry: Geometry,
    /// The place of what each track of one channel carries: track t at t + 1, and off at 0.
    pub(crate) tracks: Words<u32>,
    /// The words of `eval64`: off, the input pads, and the cells by their numbers.
    pub(crate) words: Words<u64>,
    /// The blocks of `count_ones`, in the same places.
    pub(crate) blocks: Words<u64x8>,
}

impl Model for LaneWires {
    ghost use Rattle.std.specs.Prelude.{◌≡◌, ◌+◌, length};
    ghost use Rattle.fabric_defs.specs.Geometries.{GeometryValue};
    ghost use Rattle.eval_lanes.specs.Places.{place_count};

    ghost Value = { GeometryValue };

    ghost view = { λ w. w.geometry };

    ghost invariant = { λ w. (length w.tracks ≡ w.geometry.tracks + 1)
        × (place_count w.geometry ≡ length w.words)
        × (place_count w.geometry ≡ length w.blocks) };
}

impl LaneWires {
    /// Places for the words of a fabric of this geometry.
    pub fn new(alloc: Global, g: Geometry) -> Result<LaneWires, NoMemory>
        ensures { IfOk result (λ w. w ≡ g) }
    {
        let places = 1 + g.i() as usize + g.cells() as usize;
        Ok(LaneWires {
            geometry: g,
            tracks: Words::new(alloc, 0, g.t() as usize + 1)?,
            words: Words::new(alloc, 0, places)?,
            blocks: Words::new(alloc, u64x8::splat(0), places)?,
        })
    }
}
