ghost use Rattle.std.specs.Prelude.{◌≡◌, ◌+◌, ◌-◌, ◌*◌, ◌/◌, ◌%◌, ◌^◌, ◌<◌, ◌≤◌, ◌++◌, ℕ, length, slice_index_or, All, OnOk};
ghost use Rattle.fabric_defs.specs.Numbered.{list_of};
ghost use Rattle.fabric_defs.specs.Geometries.{pin_count};
ghost use Rattle.fabric_defs.specs.Layout.{table_words};
ghost use Rattle.fabric_defs.specs.declared.limits.TheConstants.{MAX_TRACKS, WORD_BITS};
ghost use Rattle.fabric_laws.specs.TableWords.{words_of};
ghost use Rattle.cell_defs.specs.declared.source.Source.TheVariants.{Zero};
ghost use Rattle.route_laws.specs.Listing.{tapped_word as tapped, IsTapped, listed_cell};

use cell_defs::Source;
use fabric::Geometry;
use fabric_defs::WORD_BITS;
use std::alloc::AllocError;

/// The word of a pin or an output pad that listens to this source: off, or the track of the signal.
pub fn tapped_word(inputs: usize, tracks: &[usize], source: Source) -> u16
    requires { IsTapped inputs MAX_TRACKS tracks.now source }
    ensures { result ≡ tapped inputs tracks.now source }
{
    match source {
        Source::Zero => 0,
        Source::Pad(i) => tracks[i as usize] as u16 + 1,
        Source::Cell(k) => tracks[inputs + k as usize] as u16 + 1,
    }
}

/// Where pin `j` listens; nowhere past the last one.
fn source_at(pins: &[Source], j: usize) -> Source
    ensures { result ≡ slice_index_or pins.now j Zero }
{
    pins.get(j).copied().unwrap_or(Source::Zero)
}

/// Appends the words of all pins of a cell. The pins that it hasn't are off.
fn push_pins(
    words: &mut Vec<u16>,
    inputs: usize,
    g: Geometry,
    tracks: &[usize],
    pins: &[Source],
) -> Result<(), AllocError>
    requires { All (IsTapped inputs MAX_TRACKS tracks.now) pins.now }
    ensures { OnOk result (words.new.items ≡ words.old.items
        ++ list_of (pin_count g) (λ j. tapped inputs tracks.now (slice_index_or pins.now j Zero))) }
{
    for j in 0..g.pins() as usize {
        words.push(tapped_word(inputs, tracks, source_at(pins, j)))?;
    }
    Ok(())
}

/// Word `j` of the `count` words of a table, the most significant word first.
fn table_word(table: u64, count: u32, j: u32) -> u16
    requires there { j < count }
    requires few { WORD_BITS * count ≤ 64 }
    ensures { result ≡ table / 2 ^ (WORD_BITS * (count - 1 - j)) % 2 ^ WORD_BITS }
{
    ((table >> (WORD_BITS * (count - 1 - j))) % (1 << WORD_BITS)) as u16
}

/// Appends the words of a table.
fn push_table(words: &mut Vec<u16>, g: Geometry, table: u64) -> Result<(), AllocError>
    ensures { OnOk result (words.new.items ≡ words.old.items ++ words_of (table_words g) table) }
{
    let count = g.cell_kind().table_words();
    for j in 0..count {
        words.push(table_word(table, count, j))?;
    }
    Ok(())
}

/// Appends the words of a cell: its pins, and its table.
pub fn push_cell(
    words: &mut Vec<u16>,
    inputs: usize,
    g: Geometry,
    tracks: &[usize],
    pins: &[Source],
    table: u64,
) -> Result<(), AllocError>
    requires { All (IsTapped inputs MAX_TRACKS tracks.now) pins.now }
    ensures { OnOk result (words.new.items ≡ words.old.items
        ++ listed_cell inputs g tracks.now (record { pins = pins.now; table = table })) }
{
    push_pins(words, inputs, g, tracks, pins)?;
    push_table(words, g, table)
}

/// Appends so many words that are off.
pub fn push_off(words: &mut Vec<u16>, count: usize) -> Result<(), AllocError>
    ensures { OnOk result (words.new.items ≡ words.old.items ++ list_of count (λ i. 0)) }
{
    for _i in 0..count {
        words.push(0)?;
    }
    Ok(())
}
