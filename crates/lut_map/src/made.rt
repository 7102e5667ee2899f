//! Cells while they are made, one after another.

ghost use Rattle.std.specs.Prelude.{◌≡◌, ◌+◌, ◌<◌, ◌≤◌, ◌++◌, [], ◌∷◌, length, map, All, OnOk, IfOk};
ghost use Rattle.fabric_defs.specs.declared.limits.TheConstants.{MAX_PINS};
ghost use Rattle.extract.specs.CellLists.{listed_cell};
ghost use Rattle.map_defs.specs.declared.term.Term.{Term};
ghost use Rattle.map_defs.specs.Gates.{gate_cell};
ghost use Rattle.lut_map.specs.declared.made.TheConstants.{MAX_CELLS};
ghost use Rattle.lut_map.specs.declared.lut_cell.LutCell.{LutCell};
ghost use Rattle.lut_map.specs.LutCells.{lut_cell};

use crate::lut_cell::LutCell;
use crate::tables::gate_table;
use extract::{Cell, CellList, Source};
use map_defs::{GROUP, Gate, Term};
use pch_base::NoMemory;
use std::alloc::Global;
use std::marker::Model;

/// How many cells are made at most. No net needs so many: where they would be more, memory is taken to
/// be wanting.
pub(crate) const MAX_CELLS: u32 = 500_000_000;

/// Cells by number, with room for the pins of the next one. Contracts see the list of the cells.
#[derive(Debug, Drop)]
pub(crate) struct Made {
    cells: CellList,
    pins: Vec<Source>,
}

impl Model for Made {
    ghost use Rattle.std.specs.Prelude.{◌≤◌, ◌*◌, List, length};
    ghost use Rattle.fabric_defs.specs.declared.limits.TheConstants.{MAX_PINS};
    ghost use Rattle.cell_defs.specs.Cells.{CellValue};
    ghost use Rattle.extract.specs.CellLists.{pins_in};
    ghost use Rattle.lut_map.specs.Rooms.{IsRoomy};

    ghost Value = { List CellValue };

    ghost view = { λ m. m.cells };

    ghost invariant = { λ m. IsRoomy m.cells };
}

impl Made {
    /// No cells, with room for so many.
    pub(crate) fn with_capacity(alloc: Global, cells: u32) -> Result<Made, NoMemory>
        ensures { IfOk result (λ m. m ≡ []) }
    {
        let cells = cells as usize;
        Ok(Made {
            cells: CellList::with_capacity(alloc, cells, GROUP as usize * cells)?,
            pins: Vec::new(alloc),
        })
    }

    /// How many cells there are.
    pub(crate) fn len(&self) -> u32
        ensures count { result ≡ length self.now }
        ensures few { result ≤ MAX_CELLS }
    {
        self.cells.len() as u32
    }

    /// Cell `k`.
    pub(crate) fn get(&self, k: u32) -> Cell<'_>
        requires { k < length self.now }
        ensures pins { result.pins.now ≡ (listed_cell self.now k).pins }
        ensures table { result.table ≡ (listed_cell self.now k).table }
    {
        self.cells.get(k)
    }

    /// Appends a cell.
    pub(crate) fn push(&mut self, pins: &[Source], table: u64) -> Result<(), NoMemory>
        requires { length pins.now ≤ MAX_PINS }
        ensures { OnOk result
            (self.new ≡ self.old ++ record { pins = pins.now; table = table } ∷ []) }
    {
        if self.len() >= MAX_CELLS {
            return Err(NoMemory);
        }
        self.cells.push(pins, table)?;
        Ok(())
    }

    /// Appends these cells.
    pub(crate) fn push_all(&mut self, cells: &[LutCell]) -> Result<(), NoMemory>
        requires { All (λ (cell : LutCell). length cell.pins.items ≤ MAX_PINS) cells.now }
        ensures { OnOk result (self.new ≡ self.old ++ map lut_cell cells.now) }
    {
        for cell in cells {
            self.push(&cell.pins, cell.table)?;
        }
        Ok(())
    }

    /// Appends the cell that joins these terms, negated or not.
    pub(crate) fn push_gate(
        &mut self,
        gate: Gate,
        negated: bool,
        terms: &[Term],
    ) -> Result<(), NoMemory>
        requires { length terms.now ≤ MAX_PINS }
        ensures cells { OnOk result (self.new ≡ self.old ++ gate_cell gate negated terms.now ∷ []) }
        ensures few { OnOk result (length self.new ≤ MAX_CELLS) }
    {
        if self.len() >= MAX_CELLS {
            return Err(NoMemory);
        }
        put_pins(&mut self.pins, terms)?;
        self.cells
            .push(&self.pins, gate_table(gate, negated, terms))?;
        Ok(())
    }

    /// The cells.
    pub(crate) fn into_cells(self) -> CellList
        ensures cells { result ≡ self }
        ensures few { length self ≤ MAX_CELLS }
    {
        let Made { cells, pins: _pins } = self;
        cells
    }
}

/// Makes `pins` the sources of the terms.
fn put_pins(pins: &mut Vec<Source>, terms: &[Term]) -> Result<(), NoMemory>
    ensures { OnOk result (pins.new.items ≡ map (λ (term : Term). term.source) terms.now) }
{
    pins.clear();
    for term in terms {
        pins.push(term.source)?;
    }
    Ok(())
}
