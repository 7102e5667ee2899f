ghost use Rattle.std.specs.Prelude.{◌≡◌, ◌+◌, ◌<◌, ◌≤◌, ◌^◌, ℕ, length, slice_index, slice_set, IfOk};
ghost use Rattle.route_defs.specs.Spans.{need};
ghost use Rattle.route_defs.specs.Tracks.{AreTracks, BeginInOrder};
ghost use Rattle.tracks.specs.Ends.{taken, AreTaken};

use route_defs::Span;
use std::alloc::{AllocError, Global};

/// The end of the last signal on each track, 0 where there is none; and all tracks below `from` are
/// taken on channel `channel`.
#[derive(Drop)]
struct Ends {
    ends: Vec<u32>,
    channel: u32,
    from: usize,
}

/// The first track from `from` on that is free on this channel; as many as there are, where none is.
fn free_from(ends: &[u32], from: usize, channel: u32) -> usize
    requires { from ≤ length ends.now }
    ensures within { result ≤ length ends.now }
    ensures before { (j : ℕ) → from ≤ j → j < result → channel < slice_index ends.now j }
    ensures found { result < length ends.now → slice_index ends.now result ≤ channel }
    ensures after { from ≤ result }
{
    let mut track = from;
    while track < ends.len() && ends[track] > channel {
        track += 1;
    }
    track
}

impl Ends {
    /// Goes on to this channel, on which tracks may have become free.
    fn pass_to(&mut self, channel: u32)
        requires order { self.old.channel ≤ channel }
        requires filled { AreTaken self.old.ends.items self.old.channel self.old.from }
        requires within { self.old.from ≤ length self.old.ends.items }
        ensures ends { self.new.ends.items ≡ self.old.ends.items }
        ensures channel { self.new.channel ≡ channel }
        ensures filled { AreTaken self.new.ends.items channel self.new.from }
        ensures within { self.new.from ≤ length self.new.ends.items }
    {
        if channel != self.channel {
            self.channel = channel;
            self.from = 0;
        }
    }

    /// The track that a signal takes.
    fn take(&mut self, span: Span) -> usize
        requires order { self.old.channel ≤ span.first }
        requires live { span.first < span.end }
        requires filled { AreTaken self.old.ends.items self.old.channel self.old.from }
        requires within { self.old.from ≤ length self.old.ends.items }
        requires room { taken self.old.ends.items span.first < length self.old.ends.items }
        ensures there { result < length self.old.ends.items }
        ensures free { slice_index self.old.ends.items result ≤ span.first }
        ensures ends { self.new.ends.items ≡ slice_set self.old.ends.items result span.end }
        ensures channel { self.new.channel ≡ span.first }
        ensures filled { AreTaken self.new.ends.items span.first self.new.from }
        ensures within { self.new.from ≤ length self.new.ends.items }
    {
        self.pass_to(span.first);
        let track = free_from(&self.ends, self.from, span.first);
        self.ends[track] = span.end;
        self.from = track + 1;
        track
    }

    /// The track of a signal: one that it takes, or 0 where it is live nowhere.
    fn give(&mut self, span: Span) -> usize
        requires order { self.old.channel ≤ span.first }
        requires filled { AreTaken self.old.ends.items self.old.channel self.old.from }
        requires within { self.old.from ≤ length self.old.ends.items }
        requires room { span.first < span.end → taken self.old.ends.items span.first < length self.old.ends.items }
        ensures there { span.first < span.end → result < length self.old.ends.items }
        ensures free { span.first < span.end → slice_index self.old.ends.items result ≤ span.first }
        ensures ends { span.first < span.end
            → self.new.ends.items ≡ slice_set self.old.ends.items result span.end }
        ensures none { span.end ≤ span.first → self.new.ends.items ≡ self.old.ends.items }
        ensures channel { span.first < span.end → self.new.channel ≡ span.first }
        ensures later { self.old.channel ≤ self.new.channel }
        ensures order { self.new.channel ≤ span.first }
        ensures filled { AreTaken self.new.ends.items self.new.channel self.new.from }
        ensures within { self.new.from ≤ length self.new.ends.items }
    {
        if span.first < span.end {
            return self.take(span);
        }
        0
    }
}

/// A track for each signal, so that no two that are live on one channel share one; 0 for a signal
/// that is live nowhere. Fails for want of memory only.
pub fn choose_tracks(alloc: Global, spans: &[Span], have: usize) -> Result<Vec<usize>, AllocError>
    requires ordered { BeginInOrder spans.now }
    requires room { (c : ℕ) → need spans.now c ≤ have }
    ensures { IfOk result (λ tracks. AreTracks spans.now have tracks.items) }
{
    let mut tracks = Vec::with_capacity(alloc, spans.len())?;
    let mut ends = Ends {
        ends: vec![in alloc; 0u32; have]?,
        channel: 0,
        from: 0,
    };
    for span in spans {
        let track = ends.give(*span);
        tracks.push(track)?;
    }
    Ok(tracks)
}
