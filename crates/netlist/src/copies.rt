//! Copies of names and rows.
ghost use Rattle.std.specs.Prelude.{◌≡◌, IfOk};

use blif_read::Row;
use pch_base::Name;
use std::alloc::{AllocError, Global};

/// A copy of the name.
pub(crate) fn copy_of_name(alloc: Global, name: &Name) -> Result<Name, AllocError>
    ensures { IfOk result (λ copy. copy ≡ name.now) }
{
    match Name::from_bytes(alloc, name.bytes()) {
        Ok(copy) => Ok(copy),
        Err(_) => Err(AllocError),
    }
}

/// A copy of the row.
fn copy_of_row(alloc: Global, row: &Row) -> Result<Row, AllocError>
    ensures { IfOk result (λ copy. copy ≡ row.now) }
{
    match Row::from_marks(alloc, row.marks()) {
        Ok(copy) => Ok(copy),
        Err(_) => Err(AllocError),
    }
}

/// Copies of the names.
pub(crate) fn copies_of_names(alloc: Global, names: &[Name]) -> Result<Vec<Name>, AllocError>
    ensures { IfOk result (λ copies. copies.items ≡ names.now) }
{
    let mut copies = Vec::with_capacity(alloc, names.len())?;
    for name in names {
        copies.push(copy_of_name(alloc, name)?)?;
    }
    Ok(copies)
}

/// Copies of the rows.
pub(crate) fn copies_of_rows(alloc: Global, rows: &[Row]) -> Result<Vec<Row>, AllocError>
    ensures { IfOk result (λ copies. copies.items ≡ rows.now) }
{
    let mut copies = Vec::with_capacity(alloc, rows.len())?;
    for row in rows {
        copies.push(copy_of_row(alloc, row)?)?;
    }
    Ok(copies)
}
