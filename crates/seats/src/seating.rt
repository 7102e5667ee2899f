ghost use Rattle.std.specs.Prelude.{◌≡◌, ◌≢◌, ◌+◌, ◌<◌, ◌≤◌, ◌^◌, ℕ, length, slice_index, IfOk};
ghost use Rattle.fabric_defs.specs.Numbered.{list_of};
ghost use Rattle.fabric_defs.specs.declared.limits.TheConstants.{MAX_SIDE};
ghost use Rattle.route_laws.specs.Seats.{seat_of as seat_number, seat_count, first_of as first_channel, empty_span, HaveSeats};

use fabric::Geometry;
use route_defs::Span;
use std::alloc::{AllocError, Global};

/// The seats by number, empty ones too.
#[derive(Debug, Drop)]
pub struct Seating {
    /// The span of each seat's signal; an empty seat is live nowhere.
    pub spans: Vec<Span>,
    /// The number of each seat's signal.
    pub signals: Vec<Option<usize>>,
}

/// The seat of signal `n`.
fn seat_of(inputs: usize, g: Geometry, columns: &[u32], rows: &[u32], n: usize) -> usize
    requires there { n < inputs + length columns.now }
    requires few { inputs ≤ MAX_SIDE }
    requires count { length rows.now ≡ length columns.now }
    requires columns { (k : ℕ) → k < length columns.now → slice_index columns.now k < g.columns }
    requires rows { (k : ℕ) → k < length columns.now → slice_index rows.now k < g.rows }
    ensures { result ≡ seat_number inputs g columns.now rows.now n }
{
    if n < inputs {
        return n;
    }
    let k = n - inputs;
    let cell = columns[k] * g.r() + rows[k];
    inputs + cell as usize
}

/// The seat of each signal: an input has the seat of its number, and behind all inputs a cell has
/// the seat of its column and row. Fails for want of memory only.
pub fn seats_of(
    alloc: Global,
    inputs: usize,
    g: Geometry,
    columns: &[u32],
    rows: &[u32],
) -> Result<Vec<usize>, AllocError>
    requires few { inputs ≤ MAX_SIDE }
    requires few_cells { length columns.now < 2 ^ 32 }
    requires count { length rows.now ≡ length columns.now }
    requires columns { (k : ℕ) → k < length columns.now → slice_index columns.now k < g.columns }
    requires rows { (k : ℕ) → k < length columns.now → slice_index rows.now k < g.rows }
    ensures { IfOk result (λ seats. seats.items
        ≡ list_of (inputs + length columns.now) (seat_number inputs g columns.now rows.now)) }
{
    let count = inputs + columns.len();
    let mut seats = Vec::with_capacity(alloc, count)?;
    for n in 0..count {
        seats.push(seat_of(inputs, g, columns, rows, n))?;
    }
    Ok(seats)
}

/// The first channel of the signal that has this seat.
fn first_of(inputs: usize, g: Geometry, seat: usize) -> u32
    requires few { inputs ≤ MAX_SIDE }
    requires there { seat < seat_count inputs g }
    ensures { result ≡ first_channel inputs g seat }
{
    if seat < inputs {
        return 0;
    }
    (seat - inputs) as u32 / g.r() + 1
}

/// The spans of all seats where each is empty.
fn empty_seats(alloc: Global, inputs: usize, g: Geometry) -> Result<Vec<Span>, AllocError>
    requires { inputs ≤ MAX_SIDE }
    ensures { IfOk result (λ spans. spans.items
        ≡ list_of (seat_count inputs g) (empty_span inputs g)) }
{
    let count = inputs + g.cells() as usize;
    let mut spans = Vec::with_capacity(alloc, count)?;
    for seat in 0..count {
        spans.push(Span {
            first: first_of(inputs, g, seat),
            end: 0,
        })?;
    }
    Ok(spans)
}

/// Lets the signals with these spans take these seats. Fails for want of memory only.
pub fn take_seats(
    alloc: Global,
    inputs: usize,
    g: Geometry,
    spans: &[Span],
    seats: &[usize],
) -> Result<Seating, AllocError>
    requires few { inputs ≤ MAX_SIDE }
    requires count { length seats.now ≡ length spans.now }
    requires within { (n : ℕ) → n < length spans.now
        → slice_index seats.now n < seat_count inputs g }
    requires apart { (m n : ℕ) → m < n → n < length spans.now
        → slice_index seats.now m ≢ slice_index seats.now n }
    ensures { IfOk result (λ s. HaveSeats inputs g spans.now seats.now (length spans.now)
        s.spans.items s.signals.items) }
{
    let mut seated = empty_seats(alloc, inputs, g)?;
    let mut signals = vec![in alloc; None; seated.len()]?;
    for (n, seat) in seats.iter().enumerate() {
        seated[*seat] = spans[n];
        signals[*seat] = Some(n);
    }
    Ok(Seating {
        spans: seated,
        signals,
    })
}
