//! The words of a configuration, written one after another: those of channel 0, then for each column
//! those of its cells and of the channel after it, and those of the output pads.

ghost use Rattle.std.specs.Prelude.{◌≡◌, ◌+◌, ◌<◌, ◌≤◌, ◌++◌, ℕ, None, length, slice_index_or, IfOk, OnOk};
ghost use Rattle.fabric_defs.specs.Numbered.{list_of, joined};
ghost use Rattle.route_defs.specs.Placed.{output_of};
ghost use Rattle.route_laws.specs.Seats.{seats_until};
ghost use Rattle.route_laws.specs.Listing.{AreHolders, listed_channel, listed_seat, listed_row, listed_column, listed_words, tapped_word as tapped};
ghost use Rattle.place_route.specs.Routings.{IsRouting};

use extract::Source;
use fabric::Geometry;
use lut_map::Luts;
use placing_words::{hold, push_cell, push_channel, push_off, tapped_word};
use route_defs::Span;
use std::alloc::{AllocError, Global};

/// The seats of signals, with the tracks that they have.
#[derive(Debug, Drop)]
pub(crate) struct Routing {
    /// The span of each seat's signal.
    pub(crate) spans: Vec<Span>,
    /// The number of each seat's signal.
    pub(crate) signals: Vec<Option<usize>>,
    /// The track of each seat's signal.
    pub(crate) chosen: Vec<usize>,
    /// The track of each signal, by its number.
    pub(crate) tracks: Vec<usize>,
}

impl Routing {
    /// Appends the words of the cell of this seat; all are off where it is empty.
    fn push_seat(
        &self,
        words: &mut Vec<u16>,
        l: &Luts,
        g: Geometry,
        seat: usize,
    ) -> Result<(), AllocError>
        requires routing { IsRouting l.now g self.now.spans.items self.now.signals.items
            self.now.chosen.items self.now.tracks.items }
        requires cell { l.now.inputs ≤ seat }
        requires there { seat < length self.now.signals.items }
        ensures { OnOk result (words.new.items ≡ words.old.items
            ++ listed_seat l.now g self.now.tracks.items
            (slice_index_or self.now.signals.items seat None)) }
    {
        let inputs = l.inputs() as usize;
        let Some(number) = self.signals[seat] else {
            let count = g.pins() + g.cell_kind().table_words();
            return push_off(words, count as usize);
        };
        let cell = (number - inputs) as u32;
        push_cell(words, inputs, g, &self.tracks, l.pins(cell), l.table(cell))
    }

    /// Appends the words of the cells of a column.
    fn push_cells(
        &self,
        words: &mut Vec<u16>,
        l: &Luts,
        g: Geometry,
        column: u32,
    ) -> Result<(), AllocError>
        requires routing { IsRouting l.now g self.now.spans.items self.now.signals.items
            self.now.chosen.items self.now.tracks.items }
        requires column { column < g.columns }
        ensures { OnOk result (words.new.items ≡ words.old.items
            ++ joined g.rows (listed_row l.now g self.now.tracks.items
            self.now.signals.items column)) }
    {
        let first = column * g.r();
        for row in 0..g.r() {
            self.push_seat(words, l, g, (l.inputs() + (first + row)) as usize)?;
        }
        Ok(())
    }

    /// Appends the words of a column and of the channel after it. The signals of its cells take
    /// their tracks there.
    fn push_column(
        &self,
        words: &mut Vec<u16>,
        holders: &mut Vec<Option<usize>>,
        l: &Luts,
        g: Geometry,
        column: u32,
    ) -> Result<(), AllocError>
        requires routing { IsRouting l.now g self.now.spans.items self.now.signals.items
            self.now.chosen.items self.now.tracks.items }
        requires column { column < g.columns }
        requires tracks { length holders.old.items ≡ g.tracks }
        requires before { AreHolders self.now.spans.items self.now.chosen.items
            (seats_until l.now.inputs g column) holders.old.items }
        ensures words { OnOk result (words.new.items ≡ words.old.items
            ++ listed_column l.now g self.now.spans.items self.now.chosen.items
            self.now.tracks.items self.now.signals.items column) }
        ensures tracks { length holders.new.items ≡ g.tracks }
        ensures holders { OnOk result (AreHolders self.now.spans.items self.now.chosen.items
            (seats_until l.now.inputs g (column + 1)) holders.new.items) }
    {
        self.push_cells(words, l, g, column)?;
        let inputs = l.inputs() as usize;
        let from = inputs + (column * g.r()) as usize;
        hold(
            holders,
            &self.spans,
            &self.chosen,
            from,
            from + g.r() as usize,
        );
        push_channel(words, inputs, g, &self.spans, holders, column + 1)
    }

    /// Where output `o` listens; nowhere past the last one.
    fn output(l: &Luts, o: u32) -> Source
        ensures { result ≡ output_of l.now o }
    {
        if o < l.outputs() {
            l.output(o)
        } else {
            Source::Zero
        }
    }

    /// Appends the words of the output pads.
    fn push_pads(&self, words: &mut Vec<u16>, l: &Luts, g: Geometry) -> Result<(), AllocError>
        requires { IsRouting l.now g self.now.spans.items self.now.signals.items
            self.now.chosen.items self.now.tracks.items }
        ensures { OnOk result (words.new.items ≡ words.old.items
            ++ list_of g.output_pads
            (λ o. tapped l.now.inputs self.now.tracks.items (output_of l.now o))) }
    {
        let inputs = l.inputs() as usize;
        for o in 0..g.o() {
            words.push(tapped_word(inputs, &self.tracks, Routing::output(l, o)))?;
        }
        Ok(())
    }

    /// All words of the configuration.
    pub(crate) fn words(&self, alloc: Global, l: &Luts, g: Geometry) -> Result<Vec<u16>, AllocError>
        requires { IsRouting l.now g self.now.spans.items self.now.signals.items
            self.now.chosen.items self.now.tracks.items }
        ensures { IfOk result (λ words. words.items ≡ listed_words l.now g self.now.spans.items
            self.now.chosen.items self.now.tracks.items self.now.signals.items) }
    {
        let inputs = l.inputs() as usize;
        let mut words = Vec::with_capacity(alloc, g.words() as usize)?;
        let mut holders = vec![in alloc; None; g.t() as usize]?;
        hold(&mut holders, &self.spans, &self.chosen, 0, inputs);
        push_channel(&mut words, inputs, g, &self.spans, &holders, 0)?;
        for column in 0..g.c() {
            self.push_column(&mut words, &mut holders, l, g, column)?;
        }
        self.push_pads(&mut words, l, g)?;
        Ok(words)
    }
}
