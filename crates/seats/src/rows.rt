ghost use Rattle.std.specs.Prelude.{◌≡◌, ◌<◌, ◌^◌, ℕ, length, slice_index, IfOk};
ghost use Rattle.route_defs.specs.Demands.{cells_in};
ghost use Rattle.route_laws.specs.Seats.{AreRows};

use std::alloc::{AllocError, Global};

/// The rows of cells, and how many cells each column has.
#[derive(Debug, Drop)]
pub struct Rows {
    /// The row of each cell: as many cells with lower numbers have its column.
    pub rows: Vec<u32>,
    /// The cells of each column.
    pub counts: Vec<u32>,
}

/// The rows of cells that have these columns, each below `count`. Fails for want of memory only.
pub fn rows_of(alloc: Global, columns: &[u32], count: usize) -> Result<Rows, AllocError>
    requires within { (k : ℕ) → k < length columns.now → slice_index columns.now k < count }
    requires few { length columns.now < 2 ^ 32 }
    ensures rows { IfOk result (λ r. AreRows columns.now r.rows.items) }
    ensures count { IfOk result (λ r. length r.counts.items ≡ count) }
    ensures counts { IfOk result (λ r. (c : ℕ) → c < count
        → slice_index r.counts.items c ≡ cells_in columns.now c) }
{
    let mut rows = Vec::with_capacity(alloc, columns.len())?;
    let mut counts = vec![in alloc; 0u32; count]?;
    for column in columns {
        let row = counts[*column as usize];
        rows.push(row)?;
        counts[*column as usize] = row + 1;
    }
    Ok(Rows { rows, counts })
}
