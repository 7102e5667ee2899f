//! Where the bits of tracks come from. What a track carries has a place: off has place 0, the input
//! pads have the places behind it, and the cells those behind the pads. From one channel to the next
//! nothing is copied but these places.

ghost use Rattle.std.specs.Prelude.{◌≡◌, ◌+◌, ◌-◌, ◌<◌, ◌^◌, length};
ghost use Rattle.fabric_defs.specs.Wirings.{switched_bit};
ghost use Rattle.eval_lanes.specs.Places.{NamesChannel};

use crate::words::Words;
use fabric::Config;

/// Gives the tracks the places of what channel 0 carries.
pub(crate) fn name_first_channel(config: &Config, tracks: &mut Words<u32>)
    requires { length tracks.old ≡ config.now.geometry.tracks + 1 }
    ensures { NamesChannel config.now 0 tracks.new }
{
    let words = config.first_channel();
    tracks.set(0, 0);
    for t in 0..words.len() {
        tracks.set(t + 1, u32::from(words[t]));
    }
}

/// The place of what a track carries after a column whose first cell has the place `first`.
#[inline(always)]
fn switched_place(word: u16, before: u32, first: u32) -> u32
    requires { first + word < 2 ^ 32 }
    ensures { result ≡ switched_bit before (λ row. first + row) word }
{
    // Each place is at hand whatever the word is, so that no branch has to guess the word.
    let cell = first + u32::from(word.saturating_sub(2));
    let kept = if word == 1 { before } else { 0 };
    if word >= 2 { cell } else { kept }
}

/// Gives the tracks the places of what the channel after a column carries, in place of those for
/// the channel before it.
pub(crate) fn switch_tracks(config: &Config, column: u32, tracks: &mut Words<u32>)
    requires column { column < config.now.geometry.columns }
    requires before { NamesChannel config.now column tracks.old }
    ensures { NamesChannel config.now (column + 1) tracks.new }
{
    let g = config.geometry();
    let first = g.i() + 1 + column * g.r();
    let words = config.channel_after(column);
    for t in 0..words.len() {
        let place = switched_place(words[t], tracks.get(t + 1), first);
        tracks.set(t + 1, place);
    }
}
