//! Reading a text, line after line.
ghost use Rattle.std.specs.Prelude.{◌≡◌, ◌≤◌, length, drop, IfOk};
ghost use Rattle.fabric_defs.specs.declared.kind.CellKind.TheVariants.{FourInputs};
ghost use Rattle.text_defs.specs.Memory.{Gives, OrMemory};
ghost use Rattle.script_defs.specs.declared.error.ScriptError.TheVariants.{NoMemory};
ghost use Rattle.script_defs.specs.declared.limits.TheConstants.{MAX_SCRIPT_BYTES};
ghost use Rattle.script_defs.specs.Scripts.{IsScript};
ghost use Rattle.script_defs.specs.Lines.{statements, line_behind};
ghost use Rattle.script_defs.specs.Reading.{read_statements, reading};
ghost use Rattle.run_script.specs.Views.{script_of, IsReadFrom};
ghost use Rattle.run_script.specs.Readers.{draft_of};

use crate::reader::Reader;
use crate::script::Script;
use crate::words::put_words;
use blif_read::len_before;
use script_defs::{MAX_SCRIPT_BYTES, ScriptError};
use std::alloc::Global;

/// A text without its first line, which has `len` bytes, and without the line feed that ends it.
fn after_line(text: &[u8], len: usize) -> &[u8]
    requires { len ≤ length text.now }
    ensures { result.now ≡ drop 1 (drop len text.now) }
{
    match &text[len..] {
        [_, after @ ..] => after,
        rest => rest,
    }
}

/// The value of a text that isn't too long, or its first fault.
fn read_lines(alloc: Global, text: &[u8]) -> Result<Script, ScriptError>
    requires { length text.now ≤ MAX_SCRIPT_BYTES }
    ensures { Gives NoMemory script_of result (read_statements text.now) }
{
    let mut reader = Reader::new(alloc);
    let mut list = Vec::new(alloc);
    let mut rest = text;
    let mut at = 1;
    while !rest.is_empty() {
        let len = len_before(b'\n', rest);
        put_words(&mut list, &rest[..len])?;
        reader.read_words(alloc, at, &list)?;
        rest = after_line(rest, len);
        at += 1;
    }
    reader.finish(at)
}

/// The value of a text or its first fault, as `reading` computes it.
fn read_text(alloc: Global, b: &[u8]) -> Result<Script, ScriptError>
    ensures { Gives NoMemory script_of result (reading b.now) }
{
    if b.len() > MAX_SCRIPT_BYTES {
        return Err(ScriptError::TooLong);
    }
    read_lines(alloc, b)
}

/// The value of a script's text, or its first fault, as `script_defs` says what a text means. Each
/// text has one value or one fault. The cells of the script's fabric have four inputs.
pub fn read_script(alloc: Global, b: &[u8]) -> Result<Script, ScriptError>
    ensures answer { OrMemory NoMemory (IsReadFrom b.now) result }
    ensures script { IfOk result (λ s. IsScript (script_of s)) }
    ensures kind { IfOk result (λ s. s.geometry.kind ≡ FourInputs) }
{
    read_text(alloc, b)
}
