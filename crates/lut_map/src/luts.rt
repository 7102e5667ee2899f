//! Mapped cells, and the questions that are asked of them.

ghost use Rattle.std.specs.Prelude.{◌≡◌, ℕ, ◌<◌, List, length, map, slice_get, slice_index, All, Some, IfOk};
ghost use Rattle.map_defs.specs.Mapped.{mapped_cell};
ghost use Rattle.map_defs.specs.Columns.{AreColumns};
ghost use Rattle.lut_map.specs.Kept.{luts_of, AreLuts};
ghost use Rattle.lut_map.specs.LutCells.{lut_cell};

use crate::columns::columns_of;
use crate::lut_cell::LutCell;
use crate::made::Made;
use extract::{CellList, Source};
use pch_base::NoMemory;
use std::alloc::Global;
use std::marker::Model;

/// Cells of lookup tables by number, with the sources of the outputs. Contracts see the record of these.
///
/// `Source::Pad(i)` is input i, and `Source::Cell(k)` the k-th cell. A cell has at most six pins and may
/// listen to later cells, but never, by way of others, to itself. The table of a cell has 64 bits: bit k
/// of it is the output where bit j of the number k is the bit of pin j, whatever the bits of k past the
/// pins are.
#[derive(Debug, Drop)]
pub struct Luts {
    /// How many inputs there are.
    inputs: u32,
    /// The cells by number.
    cells: CellList,
    /// Where each output listens.
    outputs: Vec<Source>,
    /// The column of each cell.
    columns: Vec<u32>,
}

impl Model for Luts {
    ghost use Rattle.map_defs.specs.Mapped.{MappedValue};
    ghost use Rattle.lut_map.specs.Kept.{luts_of, AreKept};

    ghost Value = { MappedValue };

    ghost view = { λ l. luts_of l.inputs l.cells l.outputs.items };

    ghost invariant = { λ l.
        AreKept (luts_of l.inputs l.cells l.outputs.items) l.columns.items };
}

impl Luts {
    /// The cells of a list, each of which has at most six pins, listens to inputs and cells of the list
    /// alone, and is settled; its table is repeated over the pins that it hasn't. The outputs listen to
    /// inputs and to cells too. Inputs, cells and outputs are each fewer than 2^31.
    pub fn new(
        alloc: Global,
        inputs: u32,
        cells: Vec<LutCell>,
        outputs: Vec<Source>,
    ) -> Result<Luts, NoMemory>
        requires { AreLuts (luts_of inputs (map lut_cell cells.items) outputs.items) }
        ensures { IfOk result (λ l.
            l ≡ luts_of inputs (map lut_cell cells.items) outputs.items) }
    {
        let mut made = Made::with_capacity(alloc, cells.len() as u32)?;
        made.push_all(&cells)?;
        Luts::from_cells(alloc, inputs, made.into_cells(), outputs)
    }

    /// The cells of a list with their columns.
    pub(crate) fn from_cells(
        alloc: Global,
        inputs: u32,
        cells: CellList,
        outputs: Vec<Source>,
    ) -> Result<Luts, NoMemory>
        requires { AreLuts (luts_of inputs cells outputs.items) }
        ensures { IfOk result (λ l. l ≡ luts_of inputs cells outputs.items) }
    {
        let columns = columns_of(alloc, &cells)?;
        Ok(Luts {
            inputs,
            cells,
            outputs,
            columns,
        })
    }

    /// How many cells there are.
    pub fn len(&self) -> u32
        ensures count { result ≡ length self.now.cells }
        ensures known { AreLuts self.now }
    {
        self.cells.len()
    }

    /// Where the pins of cell `k` listen, pin 0 first.
    pub fn pins(&self, k: u32) -> &[Source]
        requires { k < length self.now.cells }
        ensures pins { result.now ≡ (mapped_cell self.now k).pins }
        ensures known { AreLuts self.now }
    {
        self.cells.get(k).pins
    }

    /// The table of cell `k`.
    pub fn table(&self, k: u32) -> u64
        requires { k < length self.now.cells }
        ensures table { result ≡ (mapped_cell self.now k).table }
        ensures known { AreLuts self.now }
    {
        self.cells.get(k).table
    }

    /// The column of cell `k`: 0 where none of its pins is a cell, else one more than the greatest column
    /// of these cells.
    pub fn column(&self, k: u32) -> u32
        requires { k < length self.now.cells }
        ensures column { (columns : List ℕ) → AreColumns self.now columns
            → result ≡ slice_index columns k }
        ensures small { result < length self.now.cells }
        ensures known { AreLuts self.now }
    {
        self.columns[k as usize]
    }

    /// The columns of all cells.
    pub fn columns(&self) -> &[u32]
        ensures columns { AreColumns self.now result.now }
        ensures small { All (λ column. column < length self.now.cells) result.now }
        ensures known { AreLuts self.now }
    {
        &self.columns
    }

    /// Where output `o` listens.
    pub fn output(&self, o: u32) -> Source
        requires { o < length self.now.outputs }
        ensures source { slice_get self.now.outputs o ≡ Some result }
        ensures known { AreLuts self.now }
    {
        self.outputs[o as usize]
    }

    /// How many inputs there are.
    pub fn inputs(&self) -> u32
        ensures count { result ≡ self.now.inputs }
        ensures known { AreLuts self.now }
    {
        self.inputs
    }

    /// How many outputs there are.
    pub fn outputs(&self) -> u32
        ensures count { result ≡ length self.now.outputs }
        ensures known { AreLuts self.now }
    {
        self.outputs.len() as u32
    }
}
