//! The sources of pins and output pads. The columns are passed from the first to the last; what is
//! kept between them are the sources of the tracks of one channel, and the cells so far.

ghost use Rattle.std.specs.Prelude.{◌≡◌, ◌+◌, ◌<◌, ◌≤◌, Bool, List, [], length, All, slice_index_or, IfOk, OnOk};
ghost use Rattle.cell_defs.specs.declared.source.Source.TheVariants.{Zero};
ghost use Rattle.cell_defs.specs.Sources.{pad_source, tapped_source, switched_source, AreSourcesOf};
ghost use Rattle.extract.specs.Kept.{cells_with};
ghost use Rattle.extract.specs.Walks.{IsChannel, tapped_sources, cells_before};

use crate::cell_list::CellList;
use cell_defs::Source;
use fabric::{Config, Geometry};
use std::alloc::{AllocError, Global};

/// The cells of a configuration, and where its output pads listen.
#[derive(Drop)]
pub(crate) struct Sources {
    pub(crate) cells: CellList,
    pub(crate) outputs: Vec<Source>,
}

/// Nowhere, or an input pad.
fn pad_source(word: u16) -> Source
    ensures { result ≡ pad_source word }
{
    if word == 0 {
        Source::Zero
    } else {
        Source::Pad(u32::from(word) - 1)
    }
}

/// Nowhere, or the source of a track.
fn tapped_source(tracks: &[Source], word: u16) -> Source
    requires { word ≤ length tracks.now }
    ensures { result ≡ tapped_source (λ t. slice_index_or tracks.now t Zero) word }
{
    if word == 0 {
        Source::Zero
    } else {
        tracks[word as usize - 1]
    }
}

/// Nowhere, the source before, or a cell of the column.
fn switched_source(g: Geometry, column: u32, before: Source, word: u16) -> Source
    requires column { column < g.columns }
    requires row { word ≤ g.rows + 1 }
    ensures { result ≡ switched_source g column before word }
{
    let first = column * g.r();
    match word {
        0 => Source::Zero,
        1 => before,
        _ => Source::Cell(first + (u32::from(word) - 2)),
    }
}

/// Makes `sources` those to which the words listen among the tracks.
fn tap(sources: &mut Vec<Source>, tracks: &[Source], words: &[u16]) -> Result<(), AllocError>
    requires { All (λ word. word ≤ length tracks.now) words.now }
    ensures { OnOk result (sources.new.items ≡ tapped_sources tracks.now words.now) }
{
    sources.clear();
    for word in words {
        sources.push(tapped_source(tracks, *word))?;
    }
    Ok(())
}

/// The sources of the tracks of channel 0.
fn first_channel(alloc: Global, config: &Config) -> Result<Vec<Source>, AllocError>
    ensures { IfOk result (λ tracks. IsChannel config.now 0 tracks.items) }
{
    let words = config.first_channel();
    let mut tracks = Vec::with_capacity(alloc, words.len())?;
    for word in words {
        tracks.push(pad_source(*word))?;
    }
    Ok(tracks)
}

/// Makes the sources of the tracks before a column those of the tracks after it.
fn pass_switches(tracks: &mut Vec<Source>, config: &Config, column: u32)
    requires column { column < config.now.geometry.columns }
    requires before { IsChannel config.now column tracks.old.items }
    ensures { IsChannel config.now (column + 1) tracks.new.items }
{
    let g = config.geometry();
    let words = config.channel_after(column);
    for t in 0..words.len() {
        tracks[t] = switched_source(g, column, tracks[t], words[t]);
    }
}

/// Adds the cells of a column. `pins` is room for the pins of one cell.
fn push_column(
    cells: &mut CellList,
    pins: &mut Vec<Source>,
    config: &Config,
    column: u32,
    tracks: &[Source],
) -> Result<(), AllocError>
    requires column { column < config.now.geometry.columns }
    requires channel { IsChannel config.now column tracks.now }
    requires before { cells.old ≡ cells_before config.now column 0 }
    ensures { OnOk result (cells.new ≡ cells_before config.now (column + 1) 0) }
{
    for row in 0..config.geometry().r() {
        tap(pins, tracks, config.pins(column, row))?;
        cells.push(pins, config.table(column, row))?;
    }
    Ok(())
}

/// The sources and tables of all cells, and the sources of the output pads.
pub(crate) fn sources_of(alloc: Global, config: &Config) -> Result<Sources, AllocError>
    ensures { IfOk result (λ s. (cone : List Bool)
        → AreSourcesOf config.now (cells_with config.now.geometry s.cells s.outputs.items cone)) }
{
    let g = config.geometry();
    let count = g.cells() as usize;
    let mut tracks = first_channel(alloc, config)?;
    let mut cells = CellList::with_capacity(alloc, count, count * g.pins() as usize)?;
    let mut pins = Vec::with_capacity(alloc, g.pins() as usize)?;
    for column in 0..g.c() {
        push_column(&mut cells, &mut pins, config, column, &tracks)?;
        pass_switches(&mut tracks, config, column);
    }
    let mut outputs = Vec::with_capacity(alloc, g.o() as usize)?;
    tap(&mut outputs, &tracks, config.output_pads())?;
    Ok(Sources { cells, outputs })
}
