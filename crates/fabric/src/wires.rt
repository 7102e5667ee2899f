//! Room for one evaluation, which is taken once: `eval` fills it, and leaves the bits of the cells behind.

ghost use Rattle.std.specs.Prelude.{◌≡◌, ◌<◌, slice_index, if◌then◌else◌, IfOk};
ghost use Rattle.fabric_defs.specs.Geometries.{cell_count};

use crate::bit_array::BitArray;
use crate::geometry::Geometry;
use pch_base::NoMemory;
use std::alloc::Global;
use std::marker::Model;

/// Places for the bits of a fabric, which `eval` fills. Contracts see the geometry and the bits of
/// the cells, each the number 0 or 1.
#[derive(Debug, Drop)]
pub struct Wires {
    /// The fabric that has as many tracks and cells.
    geometry: Geometry,
    /// Place 0 stands for off, and place t + 1 has track t of one channel.
    pub(crate) tracks: BitArray,
    /// The cells by their numbers.
    pub(crate) cells: BitArray,
}

impl Model for Wires {
    ghost use Rattle.std.specs.Prelude.{◌≡◌, ◌+◌, length};
    ghost use Rattle.fabric_defs.specs.Geometries.{cell_count};
    ghost use Rattle.fabric.specs.Wires.{WiresValue};

    ghost Value = { WiresValue };

    ghost view = { λ w. record { geometry = w.geometry; cells = w.cells } };

    ghost invariant = { λ w. (length w.tracks ≡ w.geometry.tracks + 1)
        × (length w.cells ≡ cell_count w.geometry) };
}

impl Wires {
    /// Places for the bits of a fabric of this geometry.
    pub fn new(alloc: Global, g: Geometry) -> Result<Wires, NoMemory>
        ensures { IfOk result (λ w. w.geometry ≡ g) }
    {
        Ok(Wires {
            geometry: g,
            tracks: BitArray::new(alloc, g.t() as usize + 1)?,
            cells: BitArray::new(alloc, g.cells() as usize)?,
        })
    }
}

/// The bit of cell `k` after the last `eval`. Cell r of column c has the number c * R + r.
pub fn cell(w: &Wires, k: u32) -> bool
    requires { k < cell_count w.now.geometry }
    ensures { (if result then 1 else 0) ≡ slice_index w.now.cells k }
{
    w.cells.get(k as usize)
}
