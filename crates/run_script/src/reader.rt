//! What a reader has read so far, and what one line more does to it.
ghost use Rattle.std.specs.Prelude.{◌≡◌, ◌<◌, ◌≤◌, [], ◌∷◌, ◌++◌, length, IfOk, OnOk, None, Some, Ok, ok_or};
ghost use Rattle.text_defs.specs.Memory.{Gives};
ghost use Rattle.script_defs.specs.declared.error.ScriptError.TheVariants.{Line, NoMemory};
ghost use Rattle.script_defs.specs.declared.limits.TheConstants.{MAX_COMMANDS};
ghost use Rattle.script_defs.specs.Reading.{start, all_lanes, said_files, said_command, file_command, with_command_line, with_lane, with_lane_line, with_line, with_words, value_of};
ghost use Rattle.blif_read.specs.Views.{texts};
ghost use Rattle.run_script.specs.Views.{script_of};
ghost use Rattle.run_script.specs.Files.{IsIndexed};
ghost use Rattle.run_script.specs.Readers.{head_of, said_of, draft_of, IsKept};

use crate::files::FileTable;
use crate::head::Head;
use crate::items::Items;
use crate::said::{Said, said_by};
use crate::script::Script;
use crate::words::are_plain;
use script_defs::{Command, Kind, MAX_COMMANDS, MAX_LANES, ScriptError};
use std::alloc::Global;

/// What the lines before a line have given, as `draft_of` says it.
#[derive(Drop)]
pub(crate) struct Reader<'a> {
    /// The lines in front of the lanes.
    pub(crate) head: Head,
    /// The files that commands have named.
    pub(crate) files: FileTable<'a>,
    /// The lanes that take no more commands.
    pub(crate) lanes: Vec<Items<Command>>,
    /// The open lane.
    pub(crate) current: Option<Items<Command>>,
    /// How many commands all lanes have.
    pub(crate) commands: u32,
}

/// The command that names this file.
fn file_command(kind: Kind, slot: u32, file: u32) -> Command
    ensures { result ≡ file_command kind slot file }
{
    match kind {
        Kind::Spec => Command::Agree { slot, file },
        Kind::Bundle => Command::Deliver { slot, file },
    }
}

/// The command that a line says; the file that it names is mentioned now.
fn command_of<'a>(
    alloc: Global,
    files: &mut FileTable<'a>,
    said: &Said<'a>,
) -> Result<Command, ScriptError>
    requires indexed { IsIndexed files.old }
    requires few { length files.old.list.items < MAX_COMMANDS }
    ensures command { Gives NoMemory (λ c. c) result
        (Ok (said_command files.old.list.items (said_of said.now))) }
    ensures files { OnOk result
        (files.new.list.items ≡ said_files files.old.list.items (said_of said.now)) }
    ensures indexed { OnOk result (IsIndexed files.new) }
{
    match said {
        Said::Plain { command } => Ok(*command),
        Said::Named { kind, slot, name } => {
            let file = files.number_of(alloc, *kind, name)?;
            Ok(file_command(*kind, *slot, file))
        }
    }
}

impl<'a> Reader<'a> {
    /// Before the first line.
    pub(crate) fn new(alloc: Global) -> Reader<'a>
        ensures reads { draft_of result ≡ start }
        ensures kept { IsKept result }
    {
        Reader {
            head: Head::Nothing,
            files: FileTable::new(alloc),
            lanes: Vec::new(alloc),
            current: None,
            commands: 0,
        }
    }

    /// The number of lanes.
    fn lane_count(&self) -> usize
        ensures { result ≡ length (all_lanes (draft_of self.now)) }
    {
        let open = if self.current.is_some() { 1 } else { 0 };
        self.lanes.len() + open
    }

    /// The open lane takes no more commands.
    fn close(&mut self) -> Result<(), ScriptError>
        requires { IsKept self.old }
        ensures reads { Gives NoMemory (λ _. draft_of self.new) result
            (Ok (record (draft_of self.old) { lanes = all_lanes (draft_of self.old); current = None })) }
        ensures kept { OnOk result (IsKept self.new) }
    {
        if let Some(lane) = self.current.take() {
            self.lanes.push(lane)?;
        }
        Ok(())
    }

    /// `lane` and these words.
    fn open_lane(&mut self, alloc: Global, line: u32, more: &[&[u8]]) -> Result<(), ScriptError>
        requires { IsKept self.old }
        ensures reads { Gives NoMemory (λ _. draft_of self.new) result
            (ok_or (with_lane (draft_of self.old) (texts more.now)) (Line line)) }
        ensures kept { OnOk result (IsKept self.new) }
    {
        if !more.is_empty() {
            return Err(ScriptError::Line { line });
        }
        if self.lane_count() >= MAX_LANES as usize {
            return Err(ScriptError::Line { line });
        }
        self.close()?;
        self.current = Some(Items::new(alloc));
        Ok(())
    }

    /// What a line of the open lane says.
    fn add_command(&mut self, alloc: Global, line: u32, said: &Said<'a>) -> Result<(), ScriptError>
        requires { IsKept self.old }
        ensures reads { Gives NoMemory (λ _. draft_of self.new) result
            (ok_or (with_command_line (draft_of self.old) (draft_of self.old).current
            (Some (said_of said.now))) (Line line)) }
        ensures kept { OnOk result (IsKept self.new) }
    {
        let Some(mut lane) = self.current.take() else {
            return Err(ScriptError::Line { line });
        };
        if self.commands >= MAX_COMMANDS {
            return Err(ScriptError::Line { line });
        }
        let command = command_of(alloc, &mut self.files, said)?;
        lane.push(command)?;
        self.current = Some(lane);
        self.commands += 1;
        Ok(())
    }

    /// A line with this first word and these others, behind those in front of the lanes, of a device
    /// with so many slots and cells to a slot.
    fn read_lane_line(
        &mut self,
        alloc: Global,
        line: u32,
        slots: u32,
        cells: u32,
        first: &[u8],
        more: &[&'a [u8]],
    ) -> Result<(), ScriptError>
        requires { IsKept self.old }
        ensures reads { Gives NoMemory (λ _. draft_of self.new) result
            (ok_or (with_lane_line slots cells (draft_of self.old) first.now (texts more.now))
            (Line line)) }
        ensures kept { OnOk result (IsKept self.new) }
    {
        if first == b"lane".as_slice() {
            return self.open_lane(alloc, line, more);
        }
        let Some(said) = said_by(slots, cells, first, more) else {
            return Err(ScriptError::Line { line });
        };
        self.add_command(alloc, line, &said)
    }

    /// A line with this first word and these others.
    fn read_line(
        &mut self,
        alloc: Global,
        line: u32,
        first: &[u8],
        more: &[&'a [u8]],
    ) -> Result<(), ScriptError>
        requires { IsKept self.old }
        ensures reads { Gives NoMemory (λ _. draft_of self.new) result
            (ok_or (with_line (head_of self.old.head) (draft_of self.old) first.now (texts more.now))
            (Line line)) }
        ensures kept { OnOk result (IsKept self.new) }
    {
        if let Head::Whole {
            geometry,
            slots,
            ..
        } = &self.head
        {
            let (slots, cells) = (*slots, geometry.cells());
            return self.read_lane_line(alloc, line, slots, cells, first, more);
        }
        let Some(head) = self.head.next(first, more) else {
            return Err(ScriptError::Line { line });
        };
        self.head = head;
        Ok(())
    }

    /// A line with these words.
    pub(crate) fn read_words(
        &mut self,
        alloc: Global,
        line: u32,
        words: &[&'a [u8]],
    ) -> Result<(), ScriptError>
        requires { IsKept self.old }
        ensures reads { Gives NoMemory (λ _. draft_of self.new) result
            (ok_or (with_words (draft_of self.old) (texts words.now)) (Line line)) }
        ensures kept { OnOk result (IsKept self.new) }
    {
        let [first, more @ ..] = words else {
            return Ok(());
        };
        if !are_plain(words) {
            return Err(ScriptError::Line { line });
        }
        self.read_line(alloc, line, first, more)
    }

    /// The value of a text, where this is what its lines gave and `behind` is the number that a
    /// further line would have.
    pub(crate) fn finish(self, behind: u32) -> Result<Script, ScriptError>
        ensures { Gives NoMemory script_of result
            (ok_or (value_of (draft_of self.entry)) (Line behind)) }
    {
        let Reader {
            head,
            files,
            mut lanes,
            current,
            ..
        } = self;
        let Head::Whole {
            geometry,
            slots,
            limit,
            workers,
        } = head
        else {
            return Err(ScriptError::Line { line: behind });
        };
        let Some(lane) = current else {
            return Err(ScriptError::Line { line: behind });
        };
        lanes.push(lane)?;
        Ok(Script {
            geometry,
            slots,
            limit,
            workers,
            files: files.into_files(),
            lanes: Items::from_vec(lanes),
        })
    }
}
