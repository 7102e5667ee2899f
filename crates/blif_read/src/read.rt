//! Reading a text: its lines are joined, and each joined line is read once.
ghost use Rattle.std.specs.Prelude.{◌≡◌, ◌≤◌, ◌++◌, ℕ, Bool, List, length, IfOk, Ok};
ghost use Rattle.blif_defs.specs.Drafts.{start};
ghost use Rattle.blif_defs.specs.Words.{words};
ghost use Rattle.blif_defs.specs.Lines.{joins, content, without_last};
ghost use Rattle.blif_defs.specs.Grammar.{statements, with_statements, reading};
ghost use Rattle.blif_defs.specs.declared.error.BlifError.TheVariants.{NoMemory};
ghost use Rattle.blif_defs.specs.Values.{IsBlif};
ghost use Rattle.text_defs.specs.Memory.{OrMemory};
ghost use Rattle.text_defs.specs.Memory.{Gives};
ghost use Rattle.blif_read.specs.Views.{texts, blif_of, IsReadFrom};
ghost use Rattle.blif_read.specs.Readers.{draft_of, IsIndexed};

use crate::blif::Blif;
use crate::line::{ends_with, len_before, push_words, stripped};
use crate::reader::Reader;
use blif_defs::{BlifError, MAX_BYTES};
use std::alloc::Global;

/// Appends the words of the line, and says whether the line is joined to the next one.
fn push_line<'a>(list: &mut Vec<&'a [u8]>, line: &'a [u8]) -> Result<bool, BlifError>
    ensures { Gives {Y = Bool × List (List ℕ)} NoMemory (λ b. (b, texts list.new.items)) result
        (Ok (joins line.now, texts list.old.items ++ words (content line.now))) }
{
    let line = stripped(line);
    let joins = ends_with(b'\\', line);
    if joins {
        push_words(list, without_last(line))?;
    } else {
        push_words(list, line)?;
    }
    Ok(joins)
}

/// The line without its last byte.
fn without_last(line: &[u8]) -> &[u8]
    ensures { result.now ≡ without_last line.now }
{
    match line {
        [front @ .., _] => front,
        [] => line,
    }
}

/// What the lines of a text give.
fn read_lines<'a>(alloc: Global, text: &'a [u8]) -> Result<Reader<'a>, BlifError>
    requires { length text.now ≤ MAX_BYTES }
    ensures reads { Gives NoMemory draft_of result (with_statements start (statements text.now)) }
    ensures indexed { IfOk result IsIndexed }
{
    let mut reader = Reader::new(alloc)?;
    let mut list = Vec::new(alloc);
    let mut first = 1;
    let mut at = 1;
    let mut rest = text;
    'lines: loop {
        let (line, after) = rest.split_at(len_before(b'\n', rest));
        let joins = push_line(&mut list, line)?;
        if after.is_empty() {
            reader.read_words(alloc, first, &list)?;
            return Ok(reader);
        }
        let (_, next) = after.split_at(1);
        rest = next;
        at += 1;
        if joins {
            continue 'lines;
        }
        reader.read_words(alloc, first, &list)?;
        list.clear();
        first = at;
    }
}

/// The value of a text or its first fault, as `reading` computes it.
fn read_text(alloc: Global, b: &[u8]) -> Result<Blif, BlifError>
    ensures { Gives NoMemory blif_of result (reading b.now) }
{
    if b.len() > MAX_BYTES {
        return Err(BlifError::TooLong);
    }
    read_lines(alloc, b)?.finish()
}

/// The value of a text in BLIF, or its first fault, as `blif_defs` says what a text means. Each text
/// has one value or one fault.
pub fn read_blif(alloc: Global, b: &[u8]) -> Result<Blif, BlifError>
    ensures answer { OrMemory NoMemory (IsReadFrom b.now) result }
    ensures design { IfOk result (λ m. IsBlif (blif_of m)) }
{
    read_text(alloc, b)
}
