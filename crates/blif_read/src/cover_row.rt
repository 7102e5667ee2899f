//! The rows of a cover.
ghost use Rattle.std.specs.Prelude.{◌≡◌, ℕ, List, length, map, OnOk, Option};
ghost use Rattle.std.specs.List.{list_all};
ghost use Rattle.std.specs.Option.{option_map};
ghost use Rattle.blif_defs.specs.Rows.{is_mark, is_bit, bit_of, row_parts, row_onto};
ghost use Rattle.blif_defs.specs.declared.error.BlifError.TheVariants.{NoMemory};
ghost use Rattle.text_defs.specs.Memory.{Gives};
ghost use Rattle.blif_read.specs.Views.{cover_of, texts, parts_of};

use crate::cover::Cover;
use crate::row::Row;
use blif_defs::BlifError;
use std::alloc::Global;

fn is_mark(b: u8) -> bool
    ensures { result ≡ is_mark b }
{
    b == b'0' || b == b'1' || b == b'-'
}

fn are_marks(word: &[u8]) -> bool
    ensures { result ≡ list_all is_mark word.now }
{
    for b in word {
        if !is_mark(*b) {
            return false;
        }
    }
    true
}

fn is_bit(word: &[u8]) -> bool
    ensures { result ≡ is_bit word.now }
{
    word == b"0".as_slice() || word == b"1".as_slice()
}

fn bit_of(word: &[u8]) -> bool
    ensures { result ≡ bit_of word.now }
{
    word == b"1".as_slice()
}

/// The marks and the output of a row of a cover with this number of inputs.
pub(crate) fn row_parts<'a>(inputs: usize, row: &[&'a [u8]]) -> Option<(&'a [u8], &'a [u8])>
    ensures { parts_of result ≡ row_parts inputs (texts row.now) }
{
    match row {
        [bit] if inputs == 0 => Some((&[], bit)),
        [marks, bit] if inputs != 0 => Some((marks, bit)),
        _ => None,
    }
}

/// Appends a row to the cover.
pub(crate) fn push_row(
    alloc: Global,
    line: u32,
    cover: &mut Cover,
    row: Option<(&[u8], &[u8])>,
) -> Result<(), BlifError>
    ensures reads { Gives NoMemory (λ _. cover_of cover.new) result
        (row_onto line (cover_of cover.old) (parts_of row.entry)) }
    ensures out { OnOk result (cover.new.out ≡ cover.old.out) }
{
    let Some((marks, bit)) = row else {
        return Err(BlifError::Syntax { line });
    };
    let inputs = cover.ins.as_slice().len();
    if marks.len() != inputs || !are_marks(marks) || !is_bit(bit) {
        return Err(BlifError::Syntax { line });
    }
    let on = bit_of(bit);
    if !cover.rows.as_slice().is_empty() && on != cover.on {
        return Err(BlifError::Mixed { line });
    }
    cover.rows.push(Row::from_bytes(alloc, marks)?)?;
    cover.on = on;
    Ok(())
}
