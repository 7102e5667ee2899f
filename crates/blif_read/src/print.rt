//! The text of a design.
ghost use Rattle.std.specs.Prelude.{◌≡◌, ◌≤◌, ℕ, Bool, List, [], ◌∷◌, ◌++◌, length, map, IfOk, OnOk, codes};
ghost use Rattle.std.specs.List.{flat_map};
ghost use Rattle.blif_defs.specs.Values.{IsBlif};
ghost use Rattle.blif_defs.specs.Printing.{mark_byte, bit_word, row_words, cover_lines, model_lines, input_lines, spaced, line_text, blif_text};
ghost use Rattle.blif_defs.specs.Texts.{BlifText};
ghost use Rattle.blif_read.specs.Views.{blif_of, cover_of};

use crate::blif::Blif;
use crate::cover::Cover;
use crate::row::Row;
use blif_defs::{MAX_BYTES, Mark};
use pch_base::{Name, NoMemory};
use std::alloc::Global;

fn mark_byte(mark: Mark) -> u8
    ensures { result ≡ mark_byte mark }
{
    match mark {
        Mark::Zero => b'0',
        Mark::One => b'1',
        Mark::Any => b'-',
    }
}

fn bit_byte(on: bool) -> u8
    ensures { result ∷ [] ≡ bit_word on }
{
    if on { b'1' } else { b'0' }
}

/// Appends the names, each with a space in front of it.
fn push_names(out: &mut Vec<u8>, names: &[Name]) -> Result<(), NoMemory>
    ensures { OnOk result (out.new.items ≡ out.old.items ++ spaced names.now) }
{
    for name in names {
        out.push(b' ')?;
        out.extend_from_slice(name.bytes())?;
    }
    Ok(())
}

/// Appends the marks, one byte for each.
fn push_marks(out: &mut Vec<u8>, marks: &[Mark]) -> Result<(), NoMemory>
    ensures { OnOk result (out.new.items ≡ out.old.items ++ map mark_byte marks.now) }
{
    for mark in marks {
        out.push(mark_byte(*mark))?;
    }
    Ok(())
}

/// Appends the line of a row.
fn push_row(out: &mut Vec<u8>, on: bool, row: &Row) -> Result<(), NoMemory>
    ensures { OnOk result (out.new.items ≡ out.old.items ++ line_text (row_words on row.now)) }
{
    let marks = row.marks();
    if !marks.is_empty() {
        push_marks(out, marks)?;
        out.push(b' ')?;
    }
    out.push(bit_byte(on))?;
    out.push(b'\n')?;
    Ok(())
}

/// Appends the lines of the rows.
fn push_rows(out: &mut Vec<u8>, on: bool, rows: &[Row]) -> Result<(), NoMemory>
    ensures { OnOk result (out.new.items ≡ out.old.items ++ flat_map line_text
        (map (row_words on) rows.now)) }
{
    for row in rows {
        push_row(out, on, row)?;
    }
    Ok(())
}

/// Appends the lines of a cover.
fn push_cover(out: &mut Vec<u8>, cover: &Cover) -> Result<(), NoMemory>
    ensures { OnOk result (out.new.items ≡ out.old.items ++ flat_map line_text
        (cover_lines (cover_of cover.now))) }
{
    out.extend_from_slice(b".names")?;
    push_names(out, cover.ins.as_slice())?;
    out.push(b' ')?;
    out.extend_from_slice(cover.out.bytes())?;
    out.push(b'\n')?;
    push_rows(out, cover.on, cover.rows.as_slice())
}

/// Appends the lines of the covers.
fn push_covers(out: &mut Vec<u8>, covers: &[Cover]) -> Result<(), NoMemory>
    ensures { OnOk result (out.new.items ≡ out.old.items ++ flat_map line_text
        (flat_map cover_lines (map cover_of covers.now))) }
{
    for cover in covers {
        push_cover(out, cover)?;
    }
    Ok(())
}

/// Appends the line of the model, where it has a name.
fn push_model(out: &mut Vec<u8>, model: &Name) -> Result<(), NoMemory>
    ensures { OnOk result (out.new.items ≡ out.old.items ++ flat_map line_text
        (model_lines model.now)) }
{
    if !model.bytes().is_empty() {
        out.extend_from_slice(b".model ")?;
        out.extend_from_slice(model.bytes())?;
        out.push(b'\n')?;
    }
    Ok(())
}

/// Appends the line of the inputs, where there are any.
fn push_inputs(out: &mut Vec<u8>, inputs: &[Name]) -> Result<(), NoMemory>
    ensures { OnOk result (out.new.items ≡ out.old.items ++ flat_map line_text
        (input_lines inputs.now)) }
{
    if !inputs.is_empty() {
        out.extend_from_slice(b".inputs")?;
        push_names(out, inputs)?;
        out.push(b'\n')?;
    }
    Ok(())
}

/// Appends the line of the outputs.
fn push_outputs(out: &mut Vec<u8>, outputs: &[Name]) -> Result<(), NoMemory>
    ensures { OnOk result (out.new.items ≡ out.old.items ++ line_text
        (codes ".outputs" ∷ outputs.now)) }
{
    out.extend_from_slice(b".outputs")?;
    push_names(out, outputs)?;
    out.push(b'\n')?;
    Ok(())
}

fn printed(alloc: Global, b: &Blif) -> Result<Vec<u8>, NoMemory>
    ensures { IfOk result (λ v. v.items ≡ blif_text (blif_of b.now)) }
{
    let mut out = Vec::new(alloc);
    push_model(&mut out, &b.model)?;
    push_inputs(&mut out, b.inputs.as_slice())?;
    push_outputs(&mut out, b.outputs.as_slice())?;
    push_covers(&mut out, b.covers.as_slice())?;
    out.extend_from_slice(b".end\n")?;
    Ok(out)
}

/// The text of a design: each line with one space between its words. It is read again, where the
/// design is one that `read_blif` can give and the text isn't too long.
pub fn print_blif(alloc: Global, b: &Blif) -> Result<Vec<u8>, NoMemory>
    ensures text { IfOk result (λ v. v.items ≡ blif_text (blif_of b.now)) }
    ensures again { IsBlif (blif_of b.now) → IfOk result
        (λ v. length v.items ≤ MAX_BYTES → BlifText v.items (blif_of b.now)) }
{
    printed(alloc, b)
}
