//! The numbers of a fabric and the kind of its cells. How many pins a cell has and how many words
//! its table follows from the kind alone. The places of words are counted here and nowhere else.

ghost use Rattle.std.specs.Prelude.{◌≡◌, ◌≤◌, ◌<◌, ◌+◌, ◌*◌, ◌^◌, ◌↔◌, IsTrue, IsSome, IfSome};
ghost use Rattle.fabric_defs.specs.Kinds.{kind_number};
ghost use Rattle.fabric_defs.specs.Geometries.{IsGeometry, pin_count, cell_count};
ghost use Rattle.fabric_defs.specs.Layout.{table_words, cell_words, column_words, word_count, column_place, cell_place, table_place, channel_place, output_place};
ghost use Rattle.fabric_defs.specs.declared.limits.TheConstants.{MAX_PINS, MAX_CELL_WORDS};
ghost use Rattle.fabric_defs.specs.declared.kind.CellKind.TheVariants.{FourInputs, SixInputs};
ghost use Rattle.fabric.specs.Geometry.{geometry_of, of_kind};

use fabric_defs::{CellKind, MAX_SIDE, MAX_TRACKS};
use std::marker::Model;

/// The numbers of a fabric, each within its limits: 1 to 64 columns, rows, input pads and output
/// pads, and 1 to 256 tracks; and the kind of its cells. Two are equal where their kinds are, too.
#[derive(Clone, Copy, Debug, PartialEq, Eq)]
pub struct Geometry {
    /// How many inputs the cells have.
    kind: CellKind,
    /// Columns of cells, 1 to 64.
    columns: u32,
    /// Cells of a column, 1 to 64.
    rows: u32,
    /// Tracks of a channel, 1 to 256.
    tracks: u32,
    /// Input pads, 1 to 64.
    input_pads: u32,
    /// Output pads, 1 to 64.
    output_pads: u32,
}

impl Model for Geometry {
    ghost use Rattle.fabric_defs.specs.Geometries.{GeometryValue, IsGeometry};
    ghost use Rattle.fabric.specs.Geometry.{geometry_of};

    ghost Value = { GeometryValue };

    ghost view = { λ g. geometry_of g.kind g.columns g.rows g.tracks g.input_pads g.output_pads };

    ghost invariant = { λ g. IsGeometry
        (geometry_of g.kind g.columns g.rows g.tracks g.input_pads g.output_pads) };

    ghost inverse = { λ g. record {
      kind = g.kind;
      columns = g.columns;
      rows = g.rows;
      tracks = g.tracks;
      input_pads = g.input_pads;
      output_pads = g.output_pads;
    } };
}

/// Whether there may be so many columns, rows or pads.
fn is_side(count: u32) -> bool
    ensures { IsTrue result ↔ ((1 ≤ count) × (count ≤ MAX_SIDE)) }
{
    1 <= count && count <= MAX_SIDE
}

impl Geometry {
    /// The fabric of `c` columns of `r` rows, `t` tracks in each channel, `i` input pads and `o`
    /// output pads, with cells of kind 1. None exactly where one of these isn't within its limits.
    pub fn new(c: u32, r: u32, t: u32, i: u32, o: u32) -> Option<Geometry>
        ensures some { IsSome result ↔ IsGeometry (geometry_of FourInputs c r t i o) }
        ensures value { IfSome result (λ g. g ≡ geometry_of FourInputs c r t i o) }
    {
        let has_tracks = 1 <= t && t <= MAX_TRACKS;
        if is_side(c) && is_side(r) && has_tracks && is_side(i) && is_side(o) {
            Some(Geometry {
                kind: CellKind::FourInputs,
                columns: c,
                rows: r,
                tracks: t,
                input_pads: i,
                output_pads: o,
            })
        } else {
            None
        }
    }

    /// The same numbers with cells of kind 2.
    pub fn six(self) -> Geometry
        ensures { result ≡ of_kind SixInputs self }
    {
        self.with_kind(CellKind::SixInputs)
    }

    /// The same numbers with cells of this kind.
    pub(crate) fn with_kind(self, kind: CellKind) -> Geometry
        ensures { result ≡ of_kind kind self }
    {
        Geometry {
            kind,
            columns: self.columns,
            rows: self.rows,
            tracks: self.tracks,
            input_pads: self.input_pads,
            output_pads: self.output_pads,
        }
    }

    /// The number of the kind: 1 for cells of four inputs, 2 for cells of six.
    pub fn kind(self) -> u32
        ensures { result ≡ kind_number self.kind }
    {
        self.kind.number()
    }

    /// The kind.
    pub fn cell_kind(self) -> CellKind
        ensures { result ≡ self.kind }
    {
        self.kind
    }

    /// How many columns there are.
    pub fn c(self) -> u32
        ensures value { result ≡ self.columns }
        ensures known { IsGeometry self }
    {
        self.columns
    }

    /// How many rows of cells each column has.
    pub fn r(self) -> u32
        ensures value { result ≡ self.rows }
        ensures known { IsGeometry self }
    {
        self.rows
    }

    /// How many tracks each channel has.
    pub fn t(self) -> u32
        ensures value { result ≡ self.tracks }
        ensures known { IsGeometry self }
    {
        self.tracks
    }

    /// How many input pads there are.
    pub fn i(self) -> u32
        ensures value { result ≡ self.input_pads }
        ensures known { IsGeometry self }
    {
        self.input_pads
    }

    /// How many output pads there are.
    pub fn o(self) -> u32
        ensures value { result ≡ self.output_pads }
        ensures known { IsGeometry self }
    {
        self.output_pads
    }

    /// How many pins a cell has.
    pub fn pins(self) -> u32
        ensures count { result ≡ pin_count self }
        ensures small { result ≤ MAX_PINS }
    {
        self.kind.pins()
    }

    /// How many words the table of a cell has.
    pub(crate) fn table_words(self) -> u32
        ensures count { result ≡ table_words self }
        ensures small { pin_count self + result ≤ MAX_CELL_WORDS }
    {
        self.kind.table_words()
    }

    /// How many cells there are, at most 4,096.
    pub fn cells(self) -> u32
        ensures count { result ≡ cell_count self }
        ensures small { result < 2 ^ 16 }
    {
        self.columns * self.rows
    }

    /// How many words a configuration has.
    pub fn words(self) -> u32
        ensures count { result ≡ word_count self }
        ensures small { result < 2 ^ 16 }
        ensures known { IsGeometry self }
    {
        self.tracks + self.columns * self.column_words() + self.output_pads
    }

    /// How many words a cell has: its pins and its table.
    fn cell_words(self) -> u32
        ensures count { result ≡ cell_words self }
        ensures small { result ≤ MAX_CELL_WORDS }
    {
        self.pins() + self.table_words()
    }

    /// How many words a column has, with those of the channel after it.
    fn column_words(self) -> u32
        ensures { result ≡ column_words self }
    {
        self.rows * self.cell_words() + self.tracks
    }

    /// The place of the first word of a column.
    fn column_place(self, column: u32) -> usize
        requires { column ≤ self.columns }
        ensures { result ≡ column_place self column }
    {
        (self.tracks + column * self.column_words()) as usize
    }

    /// The place of the first word of the cell at a column and a row.
    pub(crate) fn cell_place(self, column: u32, row: u32) -> usize
        requires column { column < self.columns }
        requires row { row < self.rows }
        ensures { result ≡ cell_place self column row }
    {
        self.column_place(column) + (row * self.cell_words()) as usize
    }

    /// The place of the first word of the table of the cell at a column and a row.
    pub(crate) fn table_place(self, column: u32, row: u32) -> usize
        requires column { column < self.columns }
        requires row { row < self.rows }
        ensures { result ≡ table_place self column row }
    {
        self.cell_place(column, row) + self.pins() as usize
    }

    /// The place of the first word of the channel after a column.
    pub(crate) fn channel_place(self, column: u32) -> usize
        requires { column < self.columns }
        ensures { result ≡ channel_place self column }
    {
        self.column_place(column) + (self.rows * self.cell_words()) as usize
    }

    /// The place of the first word of the output pads.
    pub(crate) fn output_place(self) -> usize
        ensures { result ≡ output_place self }
    {
        let columns = self.columns;
        self.column_place(columns)
    }
}
