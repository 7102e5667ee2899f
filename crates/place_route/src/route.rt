ghost use Rattle.std.specs.Prelude.{◌≡◌, ◌+◌, ◌<◌, ◌≤◌, ℕ, List, None, length, take, slice_index, IfOk};
ghost use Rattle.text_defs.specs.Memory.{OrMemory};
ghost use Rattle.fabric_defs.specs.Numbered.{list_of};
ghost use Rattle.fabric_defs.specs.Bits.{AreBits};
ghost use Rattle.fabric_defs.specs.Geometries.{pin_count};
ghost use Rattle.fabric_defs.specs.Wirings.{FabOut};
ghost use Rattle.map_defs.specs.Mapped.{mapped_cell};
ghost use Rattle.map_defs.specs.Columns.{AreColumns};
ghost use Rattle.map_defs.specs.Outputs.{LutOut};
ghost use Rattle.route_defs.specs.declared.faults.RouteError.TheVariants.{NoMemory};
ghost use Rattle.route_defs.specs.Demands.{demands as demands_of, first_over};
ghost use Rattle.route_defs.specs.Signals.{AreSpans};
ghost use Rattle.route_defs.specs.Routes.{RouteOf};
ghost use Rattle.route_laws.specs.Seats.{AreRows};
ghost use Rattle.place_route.specs.Refusals.{Refuses};
ghost use Rattle.place_route.specs.Routings.{PlaceCells};

use crate::demands::{column_demands, fabric_demands};
use crate::refusal::refuse;
use crate::writing::Routing;
use fabric::{Config, Geometry};
use live_spans::spans_of;
use lut_map::Luts;
use needs::needs_of;
use route_defs::{RouteError, Span};
use seats::{rows_of, seats_of, take_seats};
use std::alloc::{AllocError, Global};
use tracks::choose_tracks;

/// The track of each signal, where the seats have these tracks.
fn tracks_of(alloc: Global, seats: &[usize], chosen: &[usize]) -> Result<Vec<usize>, AllocError>
    requires { (n : ℕ) → n < length seats.now → slice_index seats.now n < length chosen.now }
    ensures { IfOk result (λ tracks. tracks.items ≡ list_of (length seats.now)
        (λ n. slice_index chosen.now (slice_index seats.now n))) }
{
    let mut tracks = Vec::with_capacity(alloc, seats.len())?;
    for seat in seats {
        tracks.push(chosen[*seat])?;
    }
    Ok(tracks)
}

/// The words of a configuration that places the cells, where nothing is wanting.
fn routed_words(
    alloc: Global,
    l: &Luts,
    g: Geometry,
    columns: &[u32],
    rows: &[u32],
    spans: &[Span],
) -> Result<Vec<u16>, AllocError>
    requires pins { (k : ℕ) → k < length l.now.cells
        → length (mapped_cell l.now k).pins ≤ pin_count g }
    requires columns { AreColumns l.now columns.now }
    requires rows { AreRows columns.now rows.now }
    requires spans { AreSpans l.now columns.now g.columns spans.now }
    requires met { first_over (demands_of l.now g columns.now spans.now) ≡ None }
    ensures { IfOk result (λ words. PlaceCells l.now g columns.now spans.now words.items) }
{
    let inputs = l.inputs() as usize;
    let have = g.t() as usize;
    let seats = seats_of(alloc, inputs, g, columns, rows)?;
    let seating = take_seats(alloc, inputs, g, spans, &seats)?;
    let chosen = choose_tracks(alloc, &seating.spans, have)?;
    let tracks = tracks_of(alloc, &seats, &chosen)?;
    let routing = Routing {
        spans: seating.spans,
        signals: seating.signals,
        chosen,
        tracks,
    };
    routing.words(alloc, l, g)
}

/// Places mapped cells on a fabric and routes their signals. `Unroutable` comes exactly where more
/// is needed of a resource than is there, with the first one; else the configuration places the
/// cells, so its first output pads have their outputs. Only the choice of tracks is free.
pub fn place_route(alloc: Global, l: &Luts, g: Geometry) -> Result<Config, RouteError>
    requires { (k : ℕ) → k < length l.now.cells → length (mapped_cell l.now k).pins ≤ pin_count g }
    ensures route { OrMemory NoMemory (RouteOf l.now g) result }
    ensures outputs { IfOk result (λ config. (x z : List ℕ) → AreBits x → FabOut config x z
        → LutOut l.now x (take (length l.now.outputs) z)) }
{
    let columns = l.columns();
    let spans = spans_of(alloc, l, columns, g.c())?;
    refuse(&fabric_demands(l, columns, g))?;
    let rows = rows_of(alloc, columns, g.c() as usize)?;
    let needs = needs_of(alloc, &spans, g.c() as usize + 1)?;
    refuse(&column_demands(alloc, g, &rows.counts, &needs)?)?;
    let words = routed_words(alloc, l, g, columns, &rows.rows, &spans)?;
    match Config::new(g, words) {
        Ok(config) => Ok(config),
        Err(_) => unreachable!(),
    }
}
