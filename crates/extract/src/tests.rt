use crate::{Cells, Source, extract};
use fabric::{Config, Geometry};
use std::alloc::Global;
use std::process::Abort;
use std::test::Fail;
use std::thread;

/// One cell, an inverter of the one input pad.
const INVERTER: [u16; 8] = [
    0x0001, 0x0001, 0x0000, 0x0000, 0x0000, 0x5555, 0x0002, 0x0001,
];

/// Two columns of one cell of six inputs. The tracks of channel 0 have the input pads a, b and c.
/// Cell 0 has the pins a, b, off, off, c and b; channel 1 has cell 0 in place of a. Cell 1 has the
/// pins c, off, cell 0, off, b and cell 0 once more. The output pads have cell 1 and cell 0.
const TWO_COLUMNS: [u16; 31] = [
    1, 2, 3, 1, 2, 0, 0, 3, 2, 0x00f0, 0x0005, 0x000a, 0x000f, 2, 1, 1, 3, 0, 1, 0, 2, 1, 0x0021,
    0x0032, 0x0001, 0x0012, 1, 2, 1, 2, 1,
];

/// Whether the cell has these pins and this table.
fn is_cell(rt: &impl Abort, cells: &Cells, cell: u32, pins: &[Source], table: u64) -> bool {
    assert!(rt; cell < cells.geometry().cells());
    cells.cell(cell).pins == pins && cells.table(cell) == table
}

/// The cells of the configuration of these words.
fn cells_of(alloc: Global, g: Geometry, words: &[u16]) -> Result<Cells, Fail> {
    let config = Config::new(g, Vec::from_slice(alloc, words)?)?;
    Ok(extract(alloc, &config)?)
}

#[test]
fn an_inverter_is_extracted(rt: HostRuntime) -> Result<(), Fail> {
    let g = Geometry::new(1, 1, 1, 1, 1).ok_or("within the limits")?;
    let cells = cells_of(rt.alloc(), g, &INVERTER)?;
    let pins = [Source::Pad(0), Source::Zero, Source::Zero, Source::Zero];
    assert!(rt; is_cell(&rt, &cells, 0, &pins, 0x5555));
    assert_eq!(rt; cells.cone(), [true].as_slice());
    Ok(())
}

#[test]
fn tracks_pass_on_what_stands_before(rt: HostRuntime) -> Result<(), Fail> {
    let g = Geometry::new(2, 1, 3, 3, 2)
        .ok_or("within the limits")?
        .six();
    let cells = cells_of(rt.alloc(), g, &TWO_COLUMNS)?;
    let (a, b, c) = (Source::Pad(0), Source::Pad(1), Source::Pad(2));
    let first = [a, b, Source::Zero, Source::Zero, c, b];
    let f = Source::Cell(0);
    let second = [c, Source::Zero, f, Source::Zero, b, f];
    assert!(rt; is_cell(&rt, &cells, 0, &first, 0x00f0_0005_000a_000f));
    assert!(rt; is_cell(&rt, &cells, 1, &second, 0x0021_0032_0001_0012));
    assert!(rt; 1 < cells.geometry().o());
    assert_eq!(rt; cells.output(0), Source::Cell(1));
    assert_eq!(rt; cells.output(1), Source::Cell(0));
    Ok(())
}

#[test]
fn cells_are_shared_by_threads(rt: HostRuntime) -> Result<(), Fail> {
    let g = Geometry::new(1, 1, 1, 1, 1).ok_or("within the limits")?;
    let cells = cells_of(rt.alloc(), g, &INVERTER)?;
    let (rows, tracks) = thread::join(&rt, || cells.geometry().r(), || cells.geometry().t());
    assert_eq!(rt; rows, 1);
    assert_eq!(rt; tracks, 1);
    Ok(())
}
