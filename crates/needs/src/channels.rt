ghost use Rattle.std.specs.Prelude.{◌≡◌, ◌+◌, ◌<◌, ◌≤◌, ◌^◌, ℕ, length, slice_index, slice_set, IfOk};
ghost use Rattle.route_defs.specs.Spans.{need};
ghost use Rattle.needs.specs.Counts.{begun, ended, EndWithin};

use route_defs::Span;
use std::alloc::{AllocError, Global};

/// How many signals begin at each channel, and how many end before it.
#[derive(Drop)]
struct Turns {
    begins: Vec<u32>,
    ends: Vec<u32>,
}

/// Counts, for each channel, the signals that begin at it and those that end before it.
fn count_turns(alloc: Global, spans: &[Span], channels: usize) -> Result<Turns, AllocError>
    requires few { length spans.now < 2 ^ 32 }
    requires within { EndWithin spans.now channels }
    ensures begins { IfOk result (λ t. length t.begins.items ≡ channels) }
    ensures ends { IfOk result (λ t. length t.ends.items ≡ channels + 1) }
    ensures begun { IfOk result (λ t. (c : ℕ) → slice_index t.begins.items c ≡ begun spans.now c) }
    ensures ended { IfOk result (λ t. (c : ℕ) → slice_index t.ends.items c ≡ ended spans.now c) }
{
    let mut begins = vec![in alloc; 0u32; channels]?;
    let mut ends = vec![in alloc; 0u32; channels + 1]?;
    for span in spans {
        if span.first < span.end {
            begins[span.first as usize] += 1;
            ends[span.end as usize] += 1;
        }
    }
    Ok(Turns { begins, ends })
}

/// How many signals are live on each of so many channels. Fails for want of memory only.
pub fn needs_of(alloc: Global, spans: &[Span], channels: usize) -> Result<Vec<u32>, AllocError>
    requires few { length spans.now < 2 ^ 32 }
    requires channels { channels < 2 ^ 32 }
    requires within { EndWithin spans.now channels }
    ensures count { IfOk result (λ needs. length needs.items ≡ channels) }
    ensures needs { IfOk result (λ needs. (c : ℕ) → c < channels
        → slice_index needs.items c ≡ need spans.now c) }
{
    let turns = count_turns(alloc, spans, channels)?;
    let mut needs = Vec::with_capacity(alloc, channels)?;
    let mut live = 0u32;
    for c in 0..channels {
        live = live - turns.ends[c] + turns.begins[c];
        needs.push(live)?;
    }
    Ok(needs)
}
