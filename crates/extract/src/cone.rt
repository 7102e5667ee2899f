//! The cone. Cells listen to lower numbers only, so one pass from the last cell to the first finds
//! all: when a cell is passed, all cells that may listen to it have been.

ghost use Rattle.std.specs.Prelude.{◌≡◌, ℕ, ◌<◌, ◌↔◌, ◌⊎◌, Bool, List, length, IfOk};
ghost use Rattle.clause_defs.specs.Clauses.{Has};
ghost use Rattle.cell_defs.specs.Cells.{AreCells};
ghost use Rattle.cell_defs.specs.Cones.{HasCone};
ghost use Rattle.cell_defs.specs.declared.source.Source.TheVariants.{Cell};
ghost use Rattle.extract.specs.Kept.{cells_with};
ghost use Rattle.extract.specs.Walks.{IsMarked, AreCellsBelow};

use crate::cell_list::CellList;
use cell_defs::Source;
use fabric::Geometry;
use std::alloc::{AllocError, Global};

/// Marks the cells among the sources.
fn mark_cells(cone: &mut Vec<bool>, sources: &[Source])
    requires { AreCellsBelow (length cone.old.items) sources.now }
    ensures cells { length cone.new.items ≡ length cone.old.items }
    ensures marks { (n : ℕ) → IsMarked cone.new.items n
        ↔ (IsMarked cone.old.items n ⊎ Has sources.now (Cell n)) }
{
    for source in sources {
        if let Source::Cell(cell) = *source {
            cone[cell as usize] = true;
        }
    }
}

/// For each cell whether it is in the cone.
pub(crate) fn cone_of(
    alloc: Global,
    g: Geometry,
    cells: &CellList,
    outputs: &[Source],
) -> Result<Vec<bool>, AllocError>
    requires { (cone : List Bool) → AreCells (cells_with g cells.now outputs.now cone) }
    ensures { IfOk result (λ cone. HasCone (cells_with g cells.now outputs.now cone.items)) }
{
    let count = g.cells();
    let mut cone = vec![in alloc; false; count as usize]?;
    mark_cells(&mut cone, outputs);
    for cell in (0..count).rev() {
        if cone[cell as usize] {
            mark_cells(&mut cone, cells.get(cell).pins);
        }
    }
    Ok(cone)
}
