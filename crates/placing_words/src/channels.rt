//! Channels are passed from the first to the last. What is kept between them is, for each track, the
//! last seat whose signal took it.

ghost use Rattle.std.specs.Prelude.{◌≡◌, ◌+◌, ◌<◌, ◌≤◌, ◌^◌, ◌++◌, ℕ, None, length, map, slice_index, slice_index_or, IfSome, All, OnOk};
ghost use Rattle.fabric_defs.specs.declared.limits.TheConstants.{MAX_SIDE};
ghost use Rattle.route_defs.specs.Spans.{span_at};
ghost use Rattle.route_laws.specs.Seats.{seat_count, entry_of as entry_word};
ghost use Rattle.route_laws.specs.Listing.{AreHolders, carried_word as carried};

use fabric::Geometry;
use route_defs::Span;
use std::alloc::AllocError;

/// Lets the signals of the seats from `from` on and before `until` take their tracks.
pub fn hold(
    holders: &mut Vec<Option<usize>>,
    spans: &[Span],
    chosen: &[usize],
    from: usize,
    until: usize,
)
    requires order { from ≤ until }
    requires within { until ≤ length spans.now }
    requires count { length chosen.now ≡ length spans.now }
    requires tracks { (seat : ℕ) → seat < length spans.now
        → (span_at spans.now seat).first < (span_at spans.now seat).end
        → slice_index chosen.now seat < length holders.old.items }
    requires before { AreHolders spans.now chosen.now from holders.old.items }
    ensures count { length holders.new.items ≡ length holders.old.items }
    ensures holders { AreHolders spans.now chosen.now until holders.new.items }
{
    for seat in from..until {
        let span = spans[seat];
        if span.first < span.end {
            holders[chosen[seat]] = Some(seat);
        }
    }
}

/// The word of a track that takes the signal of this seat: an input, or a cell of the column
/// before.
fn entry_of(inputs: usize, g: Geometry, seat: usize) -> u16
    requires few { inputs ≤ MAX_SIDE }
    requires there { seat < seat_count inputs g }
    ensures { result ≡ entry_word inputs g seat }
{
    if seat < inputs {
        return seat as u16 + 1;
    }
    ((seat - inputs) as u32 % g.r() + 2) as u16
}

/// The word of a track of a channel that this seat holds.
fn carried_word(
    inputs: usize,
    g: Geometry,
    spans: &[Span],
    channel: u32,
    holder: Option<usize>,
) -> u16
    requires few { inputs ≤ MAX_SIDE }
    requires count { length spans.now ≡ seat_count inputs g }
    requires there { IfSome holder (λ seat. seat < length spans.now) }
    ensures { result ≡ carried inputs g spans.now channel holder }
{
    let Some(seat) = holder else {
        return 0;
    };
    let span = spans[seat];
    if span.first > channel || span.end <= channel {
        return 0;
    }
    if span.first == channel {
        entry_of(inputs, g, seat)
    } else {
        1
    }
}

/// Appends the words of the tracks of a channel, which these seats hold.
pub fn push_channel(
    words: &mut Vec<u16>,
    inputs: usize,
    g: Geometry,
    spans: &[Span],
    holders: &[Option<usize>],
    channel: u32,
) -> Result<(), AllocError>
    requires few { inputs ≤ MAX_SIDE }
    requires count { length spans.now ≡ seat_count inputs g }
    requires there { (t : ℕ) → IfSome (slice_index_or holders.now t None)
        (λ seat. seat < length spans.now) }
    ensures { OnOk result (words.new.items
        ≡ words.old.items ++ map (carried inputs g spans.now channel) holders.now) }
{
    for holder in holders {
        words.push(carried_word(inputs, g, spans, channel, *holder))?;
    }
    Ok(())
}
