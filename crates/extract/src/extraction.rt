//! From a configuration to its cells.

ghost use Rattle.std.specs.Prelude.{IfOk};
ghost use Rattle.cell_defs.specs.Sources.{AreCellsOf};

use crate::cells::Cells;
use crate::cone::cone_of;
use crate::sources::{Sources, sources_of};
use fabric::Config;
use pch_base::NoMemory;
use std::alloc::Global;

/// The cells of a configuration: the sources of all pins and output pads, and the cone.
pub fn extract(alloc: Global, config: &Config) -> Result<Cells, NoMemory>
    ensures { IfOk result (λ cells. AreCellsOf config.now cells) }
{
    let geometry = config.geometry();
    let Sources { cells, outputs } = sources_of(alloc, config)?;
    let cone = cone_of(alloc, geometry, &cells, &outputs)?;
    Ok(Cells {
        geometry,
        cells,
        outputs,
        cone,
    })
}
