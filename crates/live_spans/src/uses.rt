ghost use Rattle.std.specs.Prelude.{◌≡◌, ◌+◌, ◌<◌, ◌≤◌, ◌⊎◌, ◌↔◌, ◌++◌, ℕ, [], ◌∷◌, length, All, map, replicate, take, slice_index, IfOk};
ghost use Rattle.cell_defs.specs.Cells.{IsSourceBelow};
ghost use Rattle.map_defs.specs.declared.limits.TheConstants.{MAX_COUNT};
ghost use Rattle.route_defs.specs.Spans.{span_at, no_span};
ghost use Rattle.route_defs.specs.Signals.{AreSpans};
ghost use Rattle.live_spans.specs.Uses.{AreExtended, entering, IsExtended};

use cell_defs::Source;
use lut_map::Luts;
use route_defs::Span;
use std::alloc::{AllocError, Global};

/// The spans of signals to which nothing listens yet: an input enters at the first channel, a cell
/// at the one after its column.
fn unused_spans(alloc: Global, inputs: u32, columns: &[u32]) -> Result<Vec<Span>, AllocError>
    requires small { (k : ℕ) → slice_index columns.now k < MAX_COUNT }
    ensures { IfOk result (λ spans. spans.items
        ≡ replicate inputs no_span ++ map entering columns.now) }
{
    let mut spans = vec![in alloc; Span { first: 0, end: 0 }; inputs as usize]?;
    for column in columns {
        spans.push(Span {
            first: *column + 1,
            end: 0,
        })?;
    }
    Ok(spans)
}

/// Makes signal `number` live on all channels from its first one on and before `end`.
fn extend(spans: &mut Vec<Span>, number: usize, end: u32)
    requires { number < length spans.old.items }
    ensures { IsExtended spans.old.items spans.new.items number end }
{
    let span = &mut spans[number];
    span.end = span.end.max(end);
}

/// Makes what this source stands for live before `end`.
fn listen(l: &Luts, spans: &mut Vec<Span>, source: Source, end: u32)
    requires count { length spans.old.items ≡ l.now.inputs + length l.now.cells }
    requires below { IsSourceBelow l.now.inputs (length l.now.cells) source }
    ensures { AreExtended l.now spans.old.items spans.new.items (source ∷ []) end }
{
    match source {
        Source::Zero => {}
        Source::Pad(i) => extend(spans, i as usize, end),
        Source::Cell(k) => extend(spans, l.inputs() as usize + k as usize, end),
    }
}

/// Makes what these sources stand for live before `end`.
fn listen_all(l: &Luts, spans: &mut Vec<Span>, sources: &[Source], end: u32)
    requires count { length spans.old.items ≡ l.now.inputs + length l.now.cells }
    requires below { All (IsSourceBelow l.now.inputs (length l.now.cells)) sources.now }
    ensures { AreExtended l.now spans.old.items spans.new.items sources.now end }
{
    for source in sources {
        listen(l, spans, *source, end);
    }
}

/// The span of each signal, where the cells have these columns and `last` columns stand before the
/// last channel. Fails for want of memory only.
pub fn spans_of(
    alloc: Global,
    l: &Luts,
    columns: &[u32],
    last: u32,
) -> Result<Vec<Span>, AllocError>
    requires count { length columns.now ≡ length l.now.cells }
    requires small { (k : ℕ) → slice_index columns.now k < MAX_COUNT }
    requires last { last < MAX_COUNT }
    ensures { IfOk result (λ spans. AreSpans l.now columns.now last spans.items) }
{
    let mut spans = unused_spans(alloc, l.inputs(), columns)?;
    for k in 0..l.len() {
        listen_all(l, &mut spans, l.pins(k), columns[k as usize] + 1);
    }
    for o in 0..l.outputs() {
        listen(l, &mut spans, l.output(o), last + 1);
    }
    Ok(spans)
}
