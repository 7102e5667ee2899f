//! What a reader has read so far, and what one line more does to it.
ghost use Rattle.std.specs.Prelude.{◌≡◌, ℕ, ◌+◌, ◌<◌, ◌≤◌, List, [], length, drop, slice_index_or, OnOk, IfOk, None, Ok};
ghost use Rattle.blif_defs.specs.Drafts.{start, closed, signal_count, is_among};
ghost use Rattle.blif_defs.specs.Grammar.{with_input, with_inputs, with_output, with_outputs, with_cover, with_model, with_names, with_end, with_row_line, with_line, with_words, finished};
ghost use Rattle.blif_defs.specs.declared.error.BlifError.TheVariants.{NoMemory};
ghost use Rattle.text_defs.specs.Memory.{Gives};
ghost use Rattle.blif_read.specs.Views.{texts, blif_of};
ghost use Rattle.blif_read.specs.Readers.{draft_of, IsIndexed};

use crate::blif::Blif;
use crate::cover::{Cover, Covers};
use crate::cover_row::{push_row, row_parts};
use crate::kind::{after_end, kind_of};
use crate::line::are_sound;
use crate::names::{Names, name_of};
use crate::row::Rows;
use blif_defs::{BlifError, LineKind, MAX_PORTS, MAX_SIGNALS};
use pch_base::Name;
use std::alloc::Global;
use std::collections::HashSet;

/// What the lines before a line have given, as `draft_of` says it, and the names of all signals.
#[derive(Drop)]
pub(crate) struct Reader<'a> {
    pub(crate) model: Name,
    pub(crate) inputs: Vec<Name>,
    pub(crate) outputs: Vec<Name>,
    pub(crate) covers: Vec<Cover>,
    pub(crate) current: Option<Cover>,
    pub(crate) begun: bool,
    pub(crate) ended: bool,
    pub(crate) known: HashSet<&'a [u8]>,
}

/// The names with these bytes.
fn names_of(alloc: Global, list: &[&[u8]]) -> Result<Vec<Name>, BlifError>
    ensures { Gives NoMemory (λ v. v.items) result (Ok (texts list.now)) }
{
    let mut names = Vec::new(alloc);
    for name in list {
        names.push(name_of(alloc, name)?)?;
    }
    Ok(names)
}

impl<'a> Reader<'a> {
    /// Before the first line.
    pub(crate) fn new(alloc: Global) -> Result<Reader<'a>, BlifError>
        ensures reads { Gives NoMemory draft_of result (Ok start) }
        ensures indexed { IfOk result IsIndexed }
    {
        Ok(Reader {
            model: name_of(alloc, &[])?,
            inputs: Vec::new(alloc),
            outputs: Vec::new(alloc),
            covers: Vec::new(alloc),
            current: None,
            begun: false,
            ended: false,
            known: HashSet::new(alloc),
        })
    }

    /// The open cover takes no more rows.
    fn close(&mut self) -> Result<(), BlifError>
        requires { IsIndexed self.old }
        ensures reads { Gives NoMemory (λ _. draft_of self.new) result
            (Ok (closed (draft_of self.old))) }
        ensures indexed { OnOk result (IsIndexed self.new) }
    {
        if let Some(cover) = self.current.take() {
            self.covers.push(cover)?;
        }
        Ok(())
    }

    /// The number of inputs and covers.
    fn signal_count(&self) -> usize
        requires { IsIndexed self.now }
        ensures { result ≡ signal_count (draft_of self.now) }
    {
        let open = if self.current.is_some() { 1 } else { 0 };
        self.inputs.len() + self.covers.len() + open
    }

    fn add_input(&mut self, alloc: Global, line: u32, name: &'a [u8]) -> Result<(), BlifError>
        requires { IsIndexed self.old }
        ensures reads { Gives NoMemory (λ _. draft_of self.new) result
            (with_input line (draft_of self.old) name.now) }
        ensures indexed { OnOk result (IsIndexed self.new) }
    {
        if self.known.contains(name) {
            return Err(BlifError::DoubleDriven { line });
        }
        if self.inputs.len() >= MAX_PORTS || self.signal_count() >= MAX_SIGNALS {
            return Err(BlifError::Limit { line });
        }
        self.known.insert(name)?;
        self.inputs.push(name_of(alloc, name)?)?;
        Ok(())
    }

    fn add_inputs(&mut self, alloc: Global, line: u32, names: &[&'a [u8]]) -> Result<(), BlifError>
        requires { IsIndexed self.old }
        ensures reads { Gives NoMemory (λ _. draft_of self.new) result
            (with_inputs line (draft_of self.old) (texts names.now)) }
        ensures indexed { OnOk result (IsIndexed self.new) }
    {
        for name in names {
            self.add_input(alloc, line, name)?;
        }
        Ok(())
    }

    /// Whether an output has this name. There are at most `MAX_PORTS` outputs.
    fn has_output(&self, name: &[u8]) -> bool
        ensures { result ≡ is_among name.now self.now.outputs.items }
    {
        for output in &self.outputs {
            if name == output.bytes() {
                return true;
            }
        }
        false
    }

    fn add_output(&mut self, alloc: Global, line: u32, name: &[u8]) -> Result<(), BlifError>
        requires { IsIndexed self.old }
        ensures reads { Gives NoMemory (λ _. draft_of self.new) result
            (with_output line (draft_of self.old) name.now) }
        ensures indexed { OnOk result (IsIndexed self.new) }
    {
        if self.has_output(name) {
            return Err(BlifError::RepeatedOutput { line });
        }
        if self.outputs.len() >= MAX_PORTS {
            return Err(BlifError::Limit { line });
        }
        self.outputs.push(name_of(alloc, name)?)?;
        Ok(())
    }

    fn add_outputs(&mut self, alloc: Global, line: u32, names: &[&[u8]]) -> Result<(), BlifError>
        requires { IsIndexed self.old }
        ensures reads { Gives NoMemory (λ _. draft_of self.new) result
            (with_outputs line (draft_of self.old) (texts names.now)) }
        ensures indexed { OnOk result (IsIndexed self.new) }
    {
        for name in names {
            self.add_output(alloc, line, name)?;
        }
        Ok(())
    }

    /// Opens a cover, where none is open.
    fn open_cover(
        &mut self,
        alloc: Global,
        line: u32,
        ins: &[&[u8]],
        out: &'a [u8],
    ) -> Result<(), BlifError>
        requires indexed { IsIndexed self.old }
        requires closed { self.old.current ≡ None }
        ensures reads { Gives NoMemory (λ _. draft_of self.new) result
            (with_cover line (draft_of self.old) (texts ins.now) out.now) }
        ensures indexed { OnOk result (IsIndexed self.new) }
    {
        if ins.len() > MAX_PORTS {
            return Err(BlifError::Limit { line });
        }
        if self.known.contains(out) {
            return Err(BlifError::DoubleDriven { line });
        }
        if self.signal_count() >= MAX_SIGNALS {
            return Err(BlifError::Limit { line });
        }
        let cover = Cover {
            ins: Names::from_vec(names_of(alloc, ins)?),
            out: name_of(alloc, out)?,
            on: true,
            rows: Rows::from_vec(Vec::new(alloc)),
        };
        self.known.insert(out)?;
        self.current = Some(cover);
        Ok(())
    }

    fn read_names(&mut self, alloc: Global, line: u32, names: &[&'a [u8]]) -> Result<(), BlifError>
        requires indexed { IsIndexed self.old }
        requires closed { self.old.current ≡ None }
        ensures reads { Gives NoMemory (λ _. draft_of self.new) result
            (with_names line (draft_of self.old) (texts names.now)) }
        ensures indexed { OnOk result (IsIndexed self.new) }
    {
        match names {
            [ins @ .., out] => self.open_cover(alloc, line, ins, out),
            [] => Err(BlifError::Syntax { line }),
        }
    }

    fn read_model(&mut self, alloc: Global, line: u32, names: &[&[u8]]) -> Result<(), BlifError>
        requires { IsIndexed self.old }
        ensures reads { Gives NoMemory (λ _. draft_of self.new) result
            (with_model line (draft_of self.old) (texts names.now)) }
        ensures indexed { OnOk result (IsIndexed self.new) }
    {
        if self.begun {
            return Err(BlifError::Unsupported { line });
        }
        let name = match names {
            [] => name_of(alloc, &[])?,
            [name] => name_of(alloc, name)?,
            _ => return Err(BlifError::Syntax { line }),
        };
        self.model = name;
        Ok(())
    }

    fn read_end(&mut self, line: u32, names: &[&[u8]]) -> Result<(), BlifError>
        requires { IsIndexed self.old }
        ensures reads { Gives NoMemory (λ _. draft_of self.new) result
            (with_end line (draft_of self.old) (texts names.now)) }
        ensures indexed { OnOk result (IsIndexed self.new) }
    {
        if !names.is_empty() {
            return Err(BlifError::Syntax { line });
        }
        self.ended = true;
        Ok(())
    }

    fn read_row(&mut self, alloc: Global, line: u32, row: &[&[u8]]) -> Result<(), BlifError>
        requires { IsIndexed self.old }
        ensures reads { Gives NoMemory (λ _. draft_of self.new) result
            (with_row_line line (draft_of self.old) (draft_of self.old).current (texts row.now)) }
        ensures indexed { OnOk result (IsIndexed self.new) }
    {
        let Some(mut cover) = self.current.take() else {
            return Err(BlifError::Syntax { line });
        };
        let parts = row_parts(cover.ins.as_slice().len(), row);
        push_row(alloc, line, &mut cover, parts)?;
        self.current = Some(cover);
        Ok(())
    }

    /// A line of this kind before `.end`.
    fn read_line(
        &mut self,
        alloc: Global,
        line: u32,
        kind: LineKind,
        list: &[&'a [u8]],
    ) -> Result<(), BlifError>
        requires indexed { IsIndexed self.old }
        requires some { 0 < length list.now }
        ensures reads { Gives NoMemory (λ _. draft_of self.new) result
            (with_line kind line (draft_of self.old) (slice_index_or (texts list.now) 0 [])
            (drop 1 (texts list.now))) }
        ensures indexed { OnOk result (IsIndexed self.new) }
    {
        if kind == LineKind::Row {
            return self.read_row(alloc, line, list);
        }
        self.close()?;
        let (_, names) = list.split_at(1);
        match kind {
            LineKind::Model => self.read_model(alloc, line, names),
            LineKind::Inputs => self.add_inputs(alloc, line, names),
            LineKind::Outputs => self.add_outputs(alloc, line, names),
            LineKind::Names => self.read_names(alloc, line, names),
            LineKind::End => self.read_end(line, names),
            LineKind::Other | LineKind::Row => Err(BlifError::Unsupported { line }),
        }
    }

    /// A line with these words.
    pub(crate) fn read_words(
        &mut self,
        alloc: Global,
        line: u32,
        list: &[&'a [u8]],
    ) -> Result<(), BlifError>
        requires { IsIndexed self.old }
        ensures reads { Gives NoMemory (λ _. draft_of self.new) result
            (with_words line (draft_of self.old) (texts list.now)) }
        ensures indexed { OnOk result (IsIndexed self.new) }
    {
        if list.is_empty() {
            return Ok(());
        }
        if !are_sound(list) {
            return Err(BlifError::Syntax { line });
        }
        let kind = kind_of(list[0]);
        if self.ended {
            return Err(after_end(kind, line));
        }
        self.read_line(alloc, line, kind, list)?;
        self.begun = true;
        Ok(())
    }

    /// The value of a text, where this is what its lines gave.
    pub(crate) fn finish(mut self) -> Result<Blif, BlifError>
        requires { IsIndexed self }
        ensures { Gives NoMemory blif_of result (finished (draft_of self.entry)) }
    {
        if self.outputs.is_empty() {
            return Err(BlifError::NoOutputs);
        }
        self.close()?;
        Ok(Blif {
            model: self.model,
            inputs: Names::from_vec(self.inputs),
            outputs: Names::from_vec(self.outputs),
            covers: Covers::from_vec(self.covers),
        })
    }
}
