//! Configurations. What comes in are words; what goes out are those of each part of the fabric, so
//! that nobody else counts their places.

ghost use Rattle.std.specs.Prelude.{◌≡◌, ◌+◌, ◌*◌, ◌<◌, ◌≤◌, vec_len, length, All};
ghost use Rattle.fabric_defs.specs.Geometries.{pin_count};
ghost use Rattle.fabric_defs.specs.Configurations.{ConfigOf, IsConfig, first_words, pin_words, table, track_words, output_words, number_behind};

use crate::geometry::Geometry;
use crate::ranges::judge;
use fabric_defs::{ConfigError, WORD_BITS};
use std::marker::Model;

/// A geometry with the words of a configuration, each of 16 bits and in its range. Contracts see it
/// as the record of these.
///
/// The words stand in this order: for each track of channel 0, off (0) or an input pad (its number
/// plus 1); then for each column its cells, and after them the tracks of the next channel; then for
/// each output pad, off or a track of the last channel. A cell has a word for each pin, pin 0
/// first: off, or a track of the channel before the column; and after them the words of its table,
/// the most significant one first: bit k of the table is the output where the pins, pin 0 being the
/// least bit, spell the number k. A track after a column is off (0), keeps the same track of the
/// channel before (1), or takes the cell of a row (the row plus 2).
#[derive(Debug, Drop)]
pub struct Config {
    geometry: Geometry,
    words: Vec<u16>,
}

impl Model for Config {
    ghost use Rattle.fabric_defs.specs.Configurations.{ConfigValue, IsConfig};

    ghost Value = { ConfigValue };

    ghost view = { λ k. record { geometry = k.geometry; words = k.words.items } };

    ghost invariant = { λ k. IsConfig (record { geometry = k.geometry; words = k.words.items }) };
}

/// The number that words spell, the most significant word first.
#[inline(always)]
fn number_of(words: &[u16]) -> u64
    requires { WORD_BITS * length words.now ≤ 64 }
    ensures { result ≡ number_behind 0 words.now }
{
    let mut number = 0;
    for word in words {
        number = (number << WORD_BITS) + u64::from(*word);
    }
    number
}

impl Config {
    /// The configuration of these words, or their first fault: `Length`, counted in bytes, where
    /// there aren't as many words as the geometry wants; else `Selector` with the first byte of the
    /// first word that is out of its range. Takes no memory, and never answers `NoMemory`.
    pub fn new(g: Geometry, words: Vec<u16>) -> Result<Config, ConfigError>
        ensures { ConfigOf g (2 * vec_len words) words.items result }
    {
        let want = 2 * u64::from(g.words());
        let found = 2 * words.len() as u64;
        if found != want {
            return Err(ConfigError::Length { want, found });
        }
        judge(g, &words)?;
        Ok(Config { geometry: g, words })
    }

    /// The fabric that this configures.
    pub fn geometry(&self) -> Geometry
        ensures value { result ≡ self.now.geometry }
        ensures known { IsConfig self.now }
    {
        self.geometry
    }

    /// All words, in their order.
    pub fn words(&self) -> &[u16]
        ensures value { result.now ≡ self.now.words }
        ensures known { IsConfig self.now }
    {
        &self.words
    }

    /// The words of the tracks of channel 0: off (0), or an input pad (its number plus 1).
    pub fn first_channel(&self) -> &[u16]
        ensures value { result.now ≡ first_words self.now }
        ensures count { length result.now ≡ self.now.geometry.tracks }
        ensures within { All (λ word. word ≤ self.now.geometry.input_pads) result.now }
    {
        let count = self.geometry().t() as usize;
        let words = self.words();
        &words[..count]
    }

    /// The words of the pins of the cell at a column and a row, pin 0 first: off (0), or a track of
    /// the channel before the column (its number plus 1).
    pub fn pins(&self, column: u32, row: u32) -> &[u16]
        requires column { column < self.now.geometry.columns }
        requires row { row < self.now.geometry.rows }
        ensures value { result.now ≡ pin_words self.now column row }
        ensures count { length result.now ≡ pin_count self.now.geometry }
        ensures within { All (λ word. word ≤ self.now.geometry.tracks) result.now }
    {
        self.pins_in(self.geometry(), column, row)
    }

    /// The table of the cell at a column and a row: bit k of it, the least bit being bit 0, is the
    /// output where bit j of the number k is the bit of pin j.
    pub fn table(&self, column: u32, row: u32) -> u64
        requires column { column < self.now.geometry.columns }
        requires row { row < self.now.geometry.rows }
        ensures { result ≡ table self.now column row }
    {
        self.table_in(self.geometry(), column, row)
    }

    /// The words of the tracks of the channel after a column: off (0), kept (1), or the cell of a
    /// row of the column (the row plus 2).
    pub fn channel_after(&self, column: u32) -> &[u16]
        requires { column < self.now.geometry.columns }
        ensures value { result.now ≡ track_words self.now column }
        ensures count { length result.now ≡ self.now.geometry.tracks }
        ensures within { All (λ word. word ≤ self.now.geometry.rows + 1) result.now }
    {
        let g = self.geometry();
        let words = self.words();
        let place = g.channel_place(column);
        &words[place..place + g.t() as usize]
    }

    /// The words of the output pads: off (0), or a track of the last channel (its number plus 1).
    pub fn output_pads(&self) -> &[u16]
        ensures value { result.now ≡ output_words self.now }
        ensures count { length result.now ≡ self.now.geometry.output_pads }
        ensures within { All (λ word. word ≤ self.now.geometry.tracks) result.now }
    {
        let g = self.geometry();
        let words = self.words();
        let place = g.output_place();
        &words[place..place + g.o() as usize]
    }

    /// As `pins`, for a caller that knows the geometry: where it is made with a fixed kind, places
    /// are counted by fixed numbers.
    #[inline(always)]
    pub(crate) fn pins_in(&self, g: Geometry, column: u32, row: u32) -> &[u16]
        requires geometry { g ≡ self.now.geometry }
        requires column { column < self.now.geometry.columns }
        requires row { row < self.now.geometry.rows }
        ensures value { result.now ≡ pin_words self.now column row }
        ensures count { length result.now ≡ pin_count self.now.geometry }
        ensures within { All (λ word. word ≤ self.now.geometry.tracks) result.now }
    {
        let words = self.words();
        let place = g.cell_place(column, row);
        &words[place..place + g.pins() as usize]
    }

    /// As `table`, for a caller that knows the geometry.
    #[inline(always)]
    pub(crate) fn table_in(&self, g: Geometry, column: u32, row: u32) -> u64
        requires geometry { g ≡ self.now.geometry }
        requires column { column < self.now.geometry.columns }
        requires row { row < self.now.geometry.rows }
        ensures { result ≡ table self.now column row }
    {
        let words = self.words();
        let place = g.table_place(column, row);
        number_of(&words[place..place + g.table_words() as usize])
    }
}
