//! The values of the cells of the cone.

ghost use Rattle.std.specs.Prelude.{◌≡◌, ℕ, ◌+◌, ◌^◌, ◌<◌, ◌≤◌, ◌==◌, length, map, true};
ghost use Rattle.std.specs.Int.{bit_at};
ghost use Rattle.pch_base.specs.BitLists.{word_of};
ghost use Rattle.clause_defs.specs.Clauses.{Has};
ghost use Rattle.net_defs.specs.Networks.{signals};
ghost use Rattle.net_defs.specs.Nets.{row_count};
ghost use Rattle.fabric_defs.specs.Geometries.{cell_count, table_bits};
ghost use Rattle.fabric_defs.specs.declared.limits.TheConstants.{MAX_PINS};
ghost use Rattle.cell_defs.specs.declared.source.Source.TheVariants.{Cell as CellSource};
ghost use Rattle.cell_defs.specs.Cells.{IsSourceBelow, cell_at};
ghost use Rattle.cell_defs.specs.Cones.{in_cone};
ghost use Rattle.miter_defs.specs.Numberings.{zero_variable, signal_variable, source_variable, cell_variable, variable_count};
ghost use Rattle.miter_places.specs.Places.{first_of_cell};
ghost use Rattle.miter_values.specs.Growing.{Grows};
ghost use Rattle.miter_values.specs.Parts.{circuits_of, IsValued, IsOfCells, HaveValues, AreInside, source_value};

use crate::values::MiterValues;
use cell_defs::Source;
use fabric::Geometry;
use leaf_chain::Evaluation;

/// The variable that is false.
pub(crate) const ZERO_VARIABLE: u32 = 1;

/// Bit `word` of a table.
fn table_bit(table: u64, word: u32) -> bool
    requires { word < 64 }
    ensures { result ≡ (bit_at table word == 1) }
{
    table >> word & 1 == 1
}

/// How many bits a cell's table has.
fn table_bits(g: Geometry) -> u32
    ensures bits { result ≡ table_bits g }
    ensures few { result ≤ 64 }
{
    1 << g.pins()
}

impl<'a> MiterValues<'a> {
    /// The variable of what a pin or an output pad listens to.
    pub(crate) fn source(&self, source: Source) -> u32
        requires below { IsSourceBelow
            self.now.cells.geometry.input_pads
            (cell_count self.now.cells.geometry) source }
        requires inside { (k : ℕ) → source ≡ CellSource k → in_cone self.now.cells k ≡ true }
        ensures { result ≡ source_variable self.now.net self.now.cells source }
    {
        let numbering = &self.numbering;
        match source {
            Source::Pad(p) if p < self.net.inputs() => numbering.input(p),
            Source::Cell(k) => numbering.cell(k),
            _ => ZERO_VARIABLE,
        }
    }

    /// The word whose bit `j` is the bit of pin `j`.
    fn word(&self, pins: &[Source], e: &Evaluation) -> u32
        requires few { length pins.now ≤ MAX_PINS }
        requires inside { AreInside self.now pins.now }
        requires places { length e.now.values ≡ variable_count self.now.net self.now.cells + 1 }
        ensures word { result ≡ word_of (map (source_value self.now.net self.now.cells e.now) pins.now) }
        ensures below { result < 2 ^ length pins.now }
    {
        let _net = &self.net;
        let mut word = 0;
        for pin in (0..pins.len()).rev() {
            let bit = e.value(self.source(pins[pin]));
            word = 2 * word + u32::from(bit);
        }
        word
    }

    /// Gives cell `k` of the cone, whose first clause has this number, its value.
    fn evaluate_cell(&self, k: u32, number: u32, e: &mut Evaluation)
        requires cell { k < cell_count self.now.cells.geometry }
        requires inside { in_cone self.now.cells k ≡ true }
        requires number { number ≡ first_of_cell self.now.net self.now.cells k }
        requires valued { IsValued self.now e.old }
        requires known { HaveValues self.now e.old (cell_at self.now.cells k).pins }
        requires fresh { Has e.old.order (cell_variable self.now.net self.now.cells k) → ⊥ }
        ensures { Grows (circuits_of self.now.net self.now.cells) e.old e.new
            (λ u. u ≡ cell_variable self.now.net self.now.cells k) }
    {
        let numbering = &self.numbering;
        let cell = self.cells.cell(k);
        let word = self.word(cell.pins, e);
        e.imply(
            numbering.cell(k),
            table_bit(cell.table, word),
            number + word,
        );
    }

    /// Gives the cells of the cone their values, by number.
    pub(crate) fn evaluate_cells(&self, e: &mut Evaluation)
        requires valued { IsValued self.now e.old }
        requires inputs { (i : ℕ) → i < length self.now.net.inputs → Has e.old.order (signal_variable i) }
        requires zero { Has e.old.order zero_variable }
        requires fresh { (u : ℕ) → Has e.old.order u → u < 2 + signals self.now.net + row_count self.now.net }
        ensures { Grows (circuits_of self.now.net self.now.cells) e.old e.new
            (IsOfCells self.now.net self.now.cells (cell_count self.now.cells.geometry)) }
    {
        let size = table_bits(self.cells.geometry());
        let mut number = self.places.cells();
        for k in 0..self.cells.geometry().cells() {
            if !self.cells.in_cone(k) {
                continue;
            }
            self.evaluate_cell(k, number, e);
            number += size;
        }
    }
}
