ghost use Rattle.std.specs.Prelude.{◌≡◌, IfOk};
ghost use Rattle.lut_map.specs.LutCells.{lut_cell};

use crate::{LutCell, Luts};
use extract::Source;
use pch_base::NoMemory;
use std::alloc::Global;
use std::test::Fail;

/// The cell with these pins and a table of zeros.
fn cell(alloc: Global, pins: &[Source]) -> Result<LutCell, NoMemory>
    ensures { IfOk result (λ cell. lut_cell cell ≡ record { pins = pins.now; table = 0 }) }
{
    Ok(LutCell {
        pins: Vec::from_slice(alloc, pins)?,
        table: 0,
    })
}

/// A cell that listens to a later one, which listens to the one input.
fn two_cells(alloc: Global) -> Result<Luts, NoMemory> {
    let late = cell(alloc, &[Source::Cell(1)])?;
    let early = cell(alloc, &[Source::Pad(0), Source::Zero])?;
    let cells = vec![in alloc; late, early]?;
    let outputs = vec![in alloc; Source::Cell(0)]?;
    Luts::new(alloc, 1, cells, outputs)
}

#[test]
fn a_cell_comes_after_those_to_which_it_listens(rt: HostRuntime) -> Result<(), Fail> {
    let luts = two_cells(rt.alloc())?;
    assert_eq!(rt; luts.columns(), [1, 0].as_slice());
    Ok(())
}
