ghost use Rattle.std.specs.Prelude.{◌≡◌, ◌≤◌, IfOk};
ghost use Rattle.least_fabric.specs.LeastFabrics.{greatest as greatest_of, within as within_limit, limited_fabric, IsLeastFabric};

use fabric::Geometry;
use fabric_defs::{MAX_SIDE, MAX_TRACKS};
use live_spans::spans_of;
use lut_map::map;
use needs::needs_of;
use netlist::Net;
use pch_base::NoMemory;
use seats::rows_of;
use std::alloc::Global;

/// The least fabric for a net, with cells of four inputs: it has as many columns, rows, tracks and
/// pads as the reference mapping of the net needs, at least one of each, and no more than the limits.
pub fn least_fabric(alloc: Global, net: &Net) -> Result<Geometry, NoMemory>
    ensures { IfOk result (IsLeastFabric net.now) }
{
    let luts = map(alloc, net)?;
    let columns = luts.columns();
    let used = greatest(columns) + 1;
    let spans = spans_of(alloc, &luts, columns, used)?;
    let rows = rows_of(alloc, columns, used as usize)?;
    let needs = needs_of(alloc, &spans, used as usize + 1)?;
    Ok(limited_fabric(
        used,
        greatest(&rows.counts),
        greatest(&needs),
        luts.inputs(),
        luts.outputs(),
    ))
}

/// The fabric of so many columns, rows, tracks and pads, but with at least one of each and no more
/// than the limits.
fn limited_fabric(
    columns: u32,
    rows: u32,
    tracks: u32,
    input_pads: u32,
    output_pads: u32,
) -> Geometry
    ensures { result ≡ limited_fabric columns rows tracks input_pads output_pads }
{
    let fabric = Geometry::new(
        within(MAX_SIDE, columns),
        within(MAX_SIDE, rows),
        within(MAX_TRACKS, tracks),
        within(MAX_SIDE, input_pads),
        within(MAX_SIDE, output_pads),
    );
    match fabric {
        Some(fabric) => fabric,
        None => unreachable!(),
    }
}

/// The greatest of the numbers, or 0 where there is none.
fn greatest(numbers: &[u32]) -> u32
    ensures { result ≡ greatest_of numbers.now }
{
    let mut most = 0;
    for n in numbers {
        most = most.max(*n);
    }
    most
}

/// The number, but 1 where it is 0, and the limit where it is greater.
fn within(limit: u32, n: u32) -> u32
    requires { 1 ≤ limit }
    ensures value { result ≡ within_limit limit n }
    ensures some { 1 ≤ result }
    ensures most { result ≤ limit }
{
    n.max(1).min(limit)
}
