//! Cells as multiplexers over words. A cell chooses one bit of its table: the pins halve the bits
//! that are left to choose from, pin 0 first, in every lane by its own bit of the pin. What pin 0
//! leaves of two bits is one of four words, and is looked up.

ghost use Rattle.std.specs.Prelude.{◌≡◌, ℕ, ◌*◌, ◌+◌, ◌<◌, ◌≤◌, length, map, All, slice_index};
ghost use Rattle.std.specs.Int.{bit_at};
ghost use Rattle.fabric_defs.specs.Wirings.{table_bit};
ghost use Rattle.fabric_defs.specs.declared.limits.TheConstants.{MAX_PINS};
ghost use Rattle.lanes_defs.specs.Lanes.{lane};
ghost use Rattle.lanes_defs.specs.declared.TheConstants.{LANES};
ghost use Rattle.eval_lanes.specs.Blocks.{words_of};
ghost use Rattle.eval_lanes.specs.Levels.{mux};
ghost use Rattle.eval_lanes.specs.Places.{seen_bit};

use crate::blocks::Block;
use crate::words::Words;

/// How many pairs of bits the largest table has.
pub(crate) const PAIRS: usize = 32;

/// What a pin makes of each pair of bits: block `q` has in each lane bit 0 of the number q where the
/// pin has a zero, and bit 1 of it where the pin has a one.
#[inline(always)]
fn choices<W: Block>(pin: W) -> [W; 4]
    ensures count { length result ≡ 4 }
    ensures bits { (q i j : ℕ) → q < 4 → i < W.width → j < LANES
        → bit_at (slice_index (words_of W.word result i) q) j ≡ bit_at q (bit_at (W.word pin i) j) }
{
    let off = W::splat(0);
    let on = W::splat(u64::MAX);
    [off, W::mux(off, on, pin), pin, on]
}

/// Makes the first `count` blocks what pin 0 leaves of the pairs of bits of the table.
#[inline(always)]
fn first_level<W: Block>(table: u64, count: usize, pin: W, level: &mut [W; PAIRS])
    requires { count ≤ 32 }
    ensures count { length level.new ≡ 32 }
    ensures bits { (k i j : ℕ) → k < count → i < W.width → j < LANES
        → bit_at (slice_index (words_of W.word level.new i) k) j
        ≡ bit_at table (2 * k + bit_at (W.word pin i) j) }
{
    let pairs = choices(pin);
    for k in 0..count {
        level[k] = pairs[(table >> (2 * k as u64) & 3) as usize];
    }
}

/// Makes the first `half` blocks those of the next level: each chooses between two blocks that
/// stand side by side.
#[inline(always)]
fn next_level<W: Block>(level: &mut [W; PAIRS], half: usize, pin: W)
    requires { half ≤ 16 }
    ensures count { length level.new ≡ 32 }
    ensures words { (k i : ℕ) → k < half → i < W.width → slice_index (words_of W.word level.new i) k
        ≡ mux (slice_index (words_of W.word level.old i) (2 * k + 1))
        (slice_index (words_of W.word level.old i) (2 * k)) (W.word pin i) }
{
    for k in 0..half {
        level[k] = W::mux(level[2 * k + 1], level[2 * k], pin);
    }
}

/// The block of a cell with this table, where its pins listen to these tracks, of which each has the
/// place of its value. The levels are put into `level`.
#[inline(always)]
pub(crate) fn table_word<W: Block>(
    table: u64,
    pins: &[u16],
    tracks: &Words<u32>,
    values: &Words<W>,
    level: &mut [W; PAIRS],
) -> W
    requires some { 1 ≤ length pins.now }
    requires few { length pins.now ≤ MAX_PINS }
    requires pins { All (λ word. word < length tracks.now) pins.now }
    requires tracks { All (λ place. place < length values.now) tracks.now }
    ensures { (i j : ℕ) → i < W.width → j < LANES
        → let bits = lane (words_of W.word values.now i) j in
        bit_at (W.word result i) j ≡ table_bit table (map (seen_bit bits tracks.now) pins.now) }
{
    let mut half = (1 << pins.len()) / 2;
    let first = tracks.get(usize::from(pins[0]));
    first_level(table, half, values.get(first as usize), level);
    for m in 1..pins.len() {
        half /= 2;
        let place = tracks.get(usize::from(pins[m]));
        next_level(level, half, values.get(place as usize));
    }
    level[0]
}
