//! The cells of a fabric with the sources of its output pads and the cone, and the questions that
//! are asked of them.

ghost use Rattle.std.specs.Prelude.{◌≡◌, ◌<◌, slice_get, Some};
ghost use Rattle.fabric_defs.specs.Geometries.{cell_count, pin_count};
ghost use Rattle.cell_defs.specs.Cells.{cell_at};
ghost use Rattle.cell_defs.specs.Cones.{in_cone};
ghost use Rattle.extract.specs.Kept.{AreCellsWithCone};

use crate::cell_list::{Cell, CellList};
use cell_defs::Source;
use fabric::Geometry;
use std::marker::Model;

/// The cells of a configured fabric by number, with the sources of their pins and with those of the
/// output pads. Contracts see the record of these.
///
/// Cells are numbered down each column, the first column first. A cell listens to cells with lower
/// numbers only.
#[derive(Debug, Drop)]
pub struct Cells {
    /// The fabric.
    pub(crate) geometry: Geometry,
    /// The cells by number.
    pub(crate) cells: CellList,
    /// Where each output pad listens.
    pub(crate) outputs: Vec<Source>,
    /// For each cell whether it is in the cone.
    pub(crate) cone: Vec<bool>,
}

impl Model for Cells {
    ghost use Rattle.cell_defs.specs.Cells.{CellsValue};
    ghost use Rattle.extract.specs.Kept.{cells_with, AreCellsWithCone};

    ghost Value = { CellsValue };

    ghost view = { λ c. cells_with c.geometry c.cells c.outputs.items c.cone.items };

    ghost invariant = { λ c. AreCellsWithCone
        (cells_with c.geometry c.cells c.outputs.items c.cone.items) };
}

impl Cells {
    /// The fabric.
    pub fn geometry(&self) -> Geometry
        ensures value { result ≡ self.now.geometry }
        ensures known { AreCellsWithCone self.now }
    {
        self.geometry
    }

    /// A cell: where its pins listen, and its table.
    pub fn cell(&self, cell: u32) -> Cell<'_>
        requires { cell < cell_count self.now.geometry }
        ensures pins { result.pins.now ≡ (cell_at self.now cell).pins }
        ensures table { result.table ≡ (cell_at self.now cell).table }
        ensures known { AreCellsWithCone self.now }
    {
        self.cells.get(cell)
    }

    /// Where pin `j` of a cell listens.
    pub fn pin(&self, cell: u32, j: u32) -> Source
        requires cell { cell < cell_count self.now.geometry }
        requires pin { j < pin_count self.now.geometry }
        ensures value { slice_get (cell_at self.now cell).pins j ≡ Some result }
        ensures known { AreCellsWithCone self.now }
    {
        self.cell(cell).pins[j as usize]
    }

    /// The table of a cell: bit k of it, the least bit being bit 0, is the output of the cell where
    /// bit j of the number k is the bit of pin j.
    pub fn table(&self, cell: u32) -> u64
        requires { cell < cell_count self.now.geometry }
        ensures value { result ≡ (cell_at self.now cell).table }
        ensures known { AreCellsWithCone self.now }
    {
        self.cell(cell).table
    }

    /// Where an output pad listens.
    pub fn output(&self, pad: u32) -> Source
        requires { pad < self.now.geometry.output_pads }
        ensures value { slice_get self.now.outputs pad ≡ Some result }
        ensures known { AreCellsWithCone self.now }
    {
        self.outputs[pad as usize]
    }

    /// Whether a cell is in the cone: the least set of cells that has the cells to which output
    /// pads listen, and the cells to which pins of its members listen.
    pub fn in_cone(&self, cell: u32) -> bool
        requires { cell < cell_count self.now.geometry }
        ensures value { result ≡ in_cone self.now cell }
        ensures known { AreCellsWithCone self.now }
    {
        self.cone[cell as usize]
    }

    /// For each cell whether it is in the cone.
    pub fn cone(&self) -> &[bool]
        ensures value { result.now ≡ self.now.cone }
        ensures known { AreCellsWithCone self.now }
    {
        &self.cone
    }
}
