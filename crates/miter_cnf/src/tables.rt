//! The clauses of the cells of the cone: one for each bit of each table.

ghost use Rattle.std.specs.Prelude.{◌≡◌, ◌<◌, ◌≤◌, ◌^◌, [], ◌∷◌, length, All, IfOk, OnOk};
ghost use Rattle.fabric_defs.specs.Numbered.{list_of, joined};
ghost use Rattle.fabric_defs.specs.Geometries.{cell_count, table_bits};
ghost use Rattle.fabric_defs.specs.declared.limits.TheConstants.{MAX_PINS};
ghost use Rattle.cell_defs.specs.Cells.{IsSourceBelow};
ghost use Rattle.miter_defs.specs.Miters.{table_clause, cell_clauses};
ghost use Rattle.miter_cnf.specs.Tables.{source_literals, bit_clause};
ghost use Rattle.miter_cnf.specs.Writing.{Adds};

use crate::circuits::{Circuits, signed};
use crate::writer::Writer;
use cell_defs::Source;
use fabric::Geometry;
use pch_base::{Lit, NoMemory};
use std::alloc::Global;

/// How many bits a table has.
fn table_bits(g: Geometry) -> u32
    ensures { result ≡ table_bits g }
{
    1 << g.pins()
}

/// Writes that the cell has bit `n` of its table where bit `j` of `n` is the bit of pin `j`, for each
/// pin.
fn write_bit(cell: Lit, table: u64, pins: &[Lit], n: u32, w: &mut Writer) -> Result<(), NoMemory>
    requires pins { length pins.now ≤ MAX_PINS }
    requires bit { n < 2 ^ length pins.now }
    ensures { OnOk result (Adds w.old.clauses
        (bit_clause pins.now cell table n ∷ [])
        w.new.clauses) }
{
    w.begin();
    for (j, pin) in pins.iter().enumerate() {
        w.add(signed(*pin, n >> j & 1 == 0))?;
    }
    w.add(signed(cell, table >> n & 1 == 1))?;
    w.end()
}

impl<'a> Circuits<'a> {
    /// Makes `pins` the literals of the sources of pins.
    fn put_pins(&self, sources: &[Source], pins: &mut Vec<Lit>) -> Result<(), NoMemory>
        requires { All (IsSourceBelow
            self.now.cells.geometry.input_pads
            (cell_count self.now.cells.geometry)) sources.now }
        ensures { OnOk result
            (pins.new.items ≡ source_literals self.now.net self.now.cells sources.now) }
    {
        pins.clear();
        for source in sources {
            pins.push(self.source(*source))?;
        }
        Ok(())
    }

    /// Writes the bits of the table of cell `k`. `pins` is room for the literals of its pins.
    fn write_table(&self, k: u32, pins: &mut Vec<Lit>, w: &mut Writer) -> Result<(), NoMemory>
        requires { k < cell_count self.now.cells.geometry }
        ensures { OnOk result (Adds w.old.clauses
            (list_of (table_bits self.now.cells.geometry)
            (table_clause self.now.net self.now.cells k))
            w.new.clauses) }
    {
        let cells = self.cells;
        let cell = cells.cell(k);
        self.put_pins(cell.pins, pins)?;
        let literal = self.cell(k);
        for n in 0..table_bits(cells.geometry()) {
            write_bit(literal, cell.table, pins, n, w)?;
        }
        Ok(())
    }

    /// Writes cell `k`, if it is in the cone.
    fn write_cell(&self, k: u32, pins: &mut Vec<Lit>, w: &mut Writer) -> Result<(), NoMemory>
        requires { k < cell_count self.now.cells.geometry }
        ensures { OnOk result (Adds w.old.clauses
            (cell_clauses self.now.net self.now.cells k)
            w.new.clauses) }
    {
        let cells = self.cells;
        if cells.in_cone(k) {
            self.write_table(k, pins, w)
        } else {
            Ok(())
        }
    }

    /// Writes the cells of the cone.
    pub(crate) fn write_cells(&self, alloc: Global, w: &mut Writer) -> Result<(), NoMemory>
        ensures { OnOk result (Adds w.old.clauses
            (joined (length self.now.cells.cells) (cell_clauses self.now.net self.now.cells))
            w.new.clauses) }
    {
        let mut pins = Vec::new(alloc);
        for k in 0..self.cells.geometry().cells() {
            self.write_cell(k, &mut pins, w)?;
        }
        Ok(())
    }
}
