//! Cells in a list: the sources of the pins of all of them stand one after another in one array, so
//! that no cell has memory of its own. A cell may have any number of pins and listen to any cells.

ghost use Rattle.std.specs.Prelude.{◌≡◌, ◌+◌, ◌^◌, ◌<◌, ◌++◌, [], ◌∷◌, length, IfOk, OnOk, OnErr};
ghost use Rattle.extract.specs.CellLists.{listed_cell, pins_in};

use cell_defs::Source;
use flat_lists::FlatLists;
use std::alloc::{AllocError, Global};
use std::marker::Model;

/// A cell: where its pins listen, and its table.
#[derive(Clone, Copy, Debug)]
pub struct Cell<'a> {
    /// The source of each pin, pin 0 first.
    pub pins: &'a [Source],
    /// Bit k of it, the least bit being bit 0, is the output where bit j of the number k is the bit
    /// of pin j.
    pub table: u64,
}

/// Cells by number. Contracts see the list of their pins and tables.
#[derive(Debug, Drop)]
pub struct CellList {
    /// The sources of the pins of each cell.
    pins: FlatLists<Source>,
    /// The table of each cell.
    tables: Vec<u64>,
}

impl Model for CellList {
    ghost use Rattle.std.specs.Prelude.{◌≡◌, List, length};
    ghost use Rattle.cell_defs.specs.Cells.{CellValue};
    ghost use Rattle.extract.specs.CellLists.{cells_of};

    ghost Value = { List CellValue };

    ghost view = { λ l. cells_of l.pins.lists l.tables.items };

    ghost invariant = { λ l. length l.pins.lists ≡ length l.tables.items };
}

impl CellList {
    /// No cells, with room for so many cells and pins.
    pub fn with_capacity(alloc: Global, cells: usize, pins: usize) -> Result<CellList, AllocError>
        ensures { IfOk result (λ list. list ≡ []) }
    {
        Ok(CellList {
            pins: FlatLists::with_capacity(alloc, cells, pins)?,
            tables: Vec::with_capacity(alloc, cells)?,
        })
    }

    /// How many cells there are.
    pub fn len(&self) -> u32
        ensures { result ≡ length self.now }
    {
        self.pins.len()
    }

    /// Cell `k`, counted from 0.
    pub fn get(&self, k: u32) -> Cell<'_>
        requires { k < length self.now }
        ensures pins { result.pins.now ≡ (listed_cell self.now k).pins }
        ensures table { result.table ≡ (listed_cell self.now k).table }
    {
        Cell {
            pins: self.pins.get(k),
            table: self.tables[k as usize],
        }
    }

    /// Appends a cell. After an error the cells are as before.
    pub fn push(&mut self, pins: &[Source], table: u64) -> Result<(), AllocError>
        requires few_pins { pins_in self.old + length pins.now < 2 ^ 32 }
        requires few_cells { length self.old + 1 < 2 ^ 32 }
        ensures ok { OnOk result
            (self.new ≡ self.old ++ record { pins = pins.now; table = table } ∷ []) }
        ensures err { OnErr result (self.new ≡ self.old) }
    {
        self.tables.reserve(1)?;
        self.pins.push(pins)?;
        self.tables.push_reserved(table);
        Ok(())
    }
}
