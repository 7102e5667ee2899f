//! The bits that a configured fabric computes. The columns are passed from the first to the last;
//! what is kept between them are the bits of one channel, and the bits of all cells so far.
//!
//! Cells are computed by a pass of their own for each kind, which is written once and gets the kind
//! as a fixed value: so the loop over the pins of a cell has a fixed end.

ghost use Rattle.std.specs.Prelude.{◌≡◌, ℕ, ◌+◌, ◌-◌, ◌*◌, ◌^◌, ◌<◌, ◌≤◌, List, length, map, All, slice_index};
ghost use Rattle.pch_base.specs.BitLists.{word_of};
ghost use Rattle.fabric_defs.specs.Geometries.{cell_count};
ghost use Rattle.fabric_defs.specs.Configurations.{IsConfig, pin_words, table};
ghost use Rattle.fabric_defs.specs.Wirings.{Wiring, Wired, FabOut, CellBit, pad_bit, switched_bit, table_bit, pad_bits};
ghost use Rattle.fabric.specs.BitArrays.{bit_of};
ghost use Rattle.fabric.specs.Evaluation.{HasChannel, HasCells};

use crate::bit_array::BitArray;
use crate::config::Config;
use crate::geometry::Geometry;
use crate::wires::Wires;
use fabric_defs::CellKind;
use pch_base::Bits;

/// The bit that a track of channel 0 takes.
fn pad_bit(x: Bits, word: u16) -> bool
    ensures { bit_of result ≡ pad_bit x word }
{
    let pad = u32::from(word);
    0 < pad && pad <= x.len() && x.get(pad - 1)
}

/// Gives the tracks the bits of channel 0.
fn put_first_channel(config: &Config, x: Bits, tracks: &mut BitArray)
    requires { length tracks.old ≡ config.now.geometry.tracks + 1 }
    ensures places { length tracks.new ≡ length tracks.old }
    ensures channel { HasChannel config.now x 0 tracks.new }
{
    let words = config.first_channel();
    tracks.set(0, false);
    for t in 0..words.len() {
        tracks.set(t + 1, pad_bit(x, words[t]));
    }
}

/// The number that the bits of the pins spell, pin 0 being the least bit.
#[inline(always)]
fn pins_number(pins: &[u16], tracks: &BitArray) -> u32
    requires few { length pins.now < 32 }
    requires within { All (λ word. word < length tracks.now) pins.now }
    ensures number { result ≡ word_of (map (slice_index tracks.now) pins.now) }
    ensures below { result < 2 ^ length pins.now }
{
    let mut number = 0;
    for pin in (0..pins.len()).rev() {
        let bit = tracks.get(usize::from(pins[pin]));
        number = 2 * number + u32::from(bit);
    }
    number
}

/// The bit of the cell at a column and a row, where the tracks have the bits of the channel before
/// the column.
#[inline(always)]
fn cell_bit(config: &Config, g: Geometry, column: u32, row: u32, tracks: &BitArray) -> bool
    requires geometry { g ≡ config.now.geometry }
    requires column { column < config.now.geometry.columns }
    requires row { row < config.now.geometry.rows }
    requires places { length tracks.now ≡ config.now.geometry.tracks + 1 }
    ensures { let pins = map (slice_index tracks.now) (pin_words config.now column row) in
        bit_of result ≡ table_bit (table config.now column row) pins }
{
    let number = pins_number(config.pins_in(g, column, row), tracks);
    config.table_in(g, column, row) >> number & 1 == 1
}

/// Gives the cells of a column their bits.
#[inline(always)]
fn put_cells_in(config: &Config, g: Geometry, column: u32, tracks: &BitArray, cells: &mut BitArray)
    requires geometry { g ≡ config.now.geometry }
    requires column { column < config.now.geometry.columns }
    requires tracks { length tracks.now ≡ config.now.geometry.tracks + 1 }
    requires cells { length cells.old ≡ cell_count config.now.geometry }
    ensures places { length cells.new ≡ length cells.old }
    ensures cells { (x : List ℕ) → HasChannel config.now x column tracks.now
        → HasCells config.now x (column * config.now.geometry.rows) cells.old
        → HasCells config.now x ((column + 1) * config.now.geometry.rows) cells.new }
{
    let first = column * g.r();
    for row in 0..g.r() {
        cells.set(
            (first + row) as usize,
            cell_bit(config, g, column, row, tracks),
        );
    }
}

/// Gives the cells of a column their bits, by the pass of their kind.
fn put_cells(config: &Config, column: u32, tracks: &BitArray, cells: &mut BitArray)
    requires column { column < config.now.geometry.columns }
    requires tracks { length tracks.now ≡ config.now.geometry.tracks + 1 }
    requires cells { length cells.old ≡ cell_count config.now.geometry }
    ensures places { length cells.new ≡ length cells.old }
    ensures cells { (x : List ℕ) → HasChannel config.now x column tracks.now
        → HasCells config.now x (column * config.now.geometry.rows) cells.old
        → HasCells config.now x ((column + 1) * config.now.geometry.rows) cells.new }
{
    let g = config.geometry();
    match g.cell_kind() {
        CellKind::FourInputs => {
            let four = g.with_kind(CellKind::FourInputs);
            put_cells_in(config, four, column, tracks, cells);
        }
        CellKind::SixInputs => {
            let six = g.with_kind(CellKind::SixInputs);
            put_cells_in(config, six, column, tracks, cells);
        }
    }
}

/// The bit that a track takes after a column whose first cell has the number `first`.
fn switched_bit(word: u16, before: bool, first: u32, cells: &BitArray) -> bool
    requires { first + (word - 2) < length cells.now }
    ensures { bit_of result
        ≡ switched_bit (bit_of before) (λ row. slice_index cells.now (first + row)) word }
{
    // A cell is read whatever the word is, so that no branch has to guess the word.
    let cell = cells.get(first as usize + usize::from(word.saturating_sub(2)));
    if word >= 2 { cell } else { word == 1 && before }
}

/// Gives the tracks the bits of the channel after a column in place of the one before it.
fn switch_tracks(config: &Config, column: u32, cells: &BitArray, tracks: &mut BitArray)
    requires column { column < config.now.geometry.columns }
    requires tracks { length tracks.old ≡ config.now.geometry.tracks + 1 }
    requires cells { length cells.now ≡ cell_count config.now.geometry }
    ensures places { length tracks.new ≡ length tracks.old }
    ensures channel { (x : List ℕ) → HasChannel config.now x column tracks.old
        → HasCells config.now x ((column + 1) * config.now.geometry.rows) cells.now
        → HasChannel config.now x (column + 1) tracks.new }
{
    let first = column * config.geometry().r();
    let words = config.channel_after(column);
    for t in 0..words.len() {
        let bit = switched_bit(words[t], tracks.get(t + 1), first, cells);
        tracks.set(t + 1, bit);
    }
}

/// The bits of the output pads, where the tracks have the bits of the last channel.
fn output_bits(config: &Config, tracks: &BitArray) -> Bits
    requires { length tracks.now ≡ config.now.geometry.tracks + 1 }
    ensures { (x : List ℕ) (w : Wiring)
        → HasChannel config.now x config.now.geometry.columns tracks.now → Wired config.now x w
        → result ≡ pad_bits config.now w }
{
    let words = config.output_pads();
    let count = config.geometry().o();
    let mut bits = Bits::new(0, count);
    for pad in 0..count {
        let word = words[pad as usize];
        bits = bits.with(pad, tracks.get(usize::from(word)));
    }
    bits
}

/// The bits of the output pads; the cells get their bits.
fn sweep(config: &Config, x: Bits, tracks: &mut BitArray, cells: &mut BitArray) -> Bits
    requires tracks { length tracks.old ≡ config.now.geometry.tracks + 1 }
    requires cells { length cells.old ≡ cell_count config.now.geometry }
    ensures known { IsConfig config.now }
    ensures tracks { length tracks.new ≡ length tracks.old }
    ensures places { length cells.new ≡ length cells.old }
    ensures outputs { (w : Wiring) → Wired config.now x w → result ≡ pad_bits config.now w }
    ensures cells { HasCells config.now x (cell_count config.now.geometry) cells.new }
{
    put_first_channel(config, x, tracks);
    for column in 0..config.geometry().c() {
        put_cells(config, column, tracks, cells);
        switch_tracks(config, column, cells, tracks);
    }
    output_bits(config, tracks)
}

/// The bits of the output pads where the input pads have the bits `x`, and 0 past them. Takes no
/// memory. After it, `cell` gives the bits of the cells.
pub fn eval(config: &Config, x: Bits, w: &mut Wires) -> Bits
    requires width { length x ≤ config.now.geometry.input_pads }
    requires wires { w.old.geometry ≡ config.now.geometry }
    ensures outputs { FabOut config.now x result }
    ensures geometry { w.new.geometry ≡ w.old.geometry }
    ensures cells { (n : ℕ) → n < cell_count config.now.geometry
        → CellBit config.now x n (slice_index w.new.cells n) }
{
    sweep(config, x, &mut w.tracks, &mut w.cells)
}
