//! The public calls that the program makes.

ghost use Rattle.std.specs.Prelude.{◌≡◌, None, Some, length, IfOk, OnErr};
ghost use Rattle.pch_lines.specs.Words.{words_in, form_of};
ghost use Rattle.pch_lines.specs.Files.{files_of};
ghost use Rattle.pch_lines.specs.Commands.{form_seen, IsWithinLimits};
ghost use Rattle.pch_lines.specs.Sessions.{session_form};
ghost use Rattle.pch_shell.specs.Due.{FilesDue};
ghost use Rattle.pch_shell.specs.Runs.{Leaves, Tells, WordsTell, Runs};
ghost use Rattle.pch_shell.specs.SessionRuns.{Answers};

use crate::commands::{check, cnf, compact, demonstrating, placing, producing, verifying};
use crate::ending::Ending;
use crate::finishing::{finish, save};
use crate::loading::{Loaded, load_all};
use crate::sessions::session;
use crate::status::Status;
use pch_base::NoMemory;
use pch_io::{Gate, Sink, Store};
use pch_lines::{Command, command_of, session_of};
use std::alloc::Global;
use std::sync::Wait;
use std::thread::Threads;

/// What a command comes to for the bytes of its files.
fn work<R: Threads + Sync>(
    rt: &R,
    alloc: Global,
    command: &Command<'_>,
    loaded: Loaded,
) -> Result<Ending, NoMemory>
    requires limits { IsWithinLimits command.now }
    requires all { length loaded ≡ length (files_of (form_seen command.now)) }
    ensures { IfOk result (FilesDue (form_seen command.now) loaded) }
{
    match *command {
        Command::Check { cnf, trace } => {
            let (cnf_bytes, trace_bytes) = loaded.two();
            check::run(alloc, cnf, trace, cnf_bytes, trace_bytes)
        }
        Command::Verify {
            spec,
            geometry,
            workers,
            ..
        } => {
            let (spec_bytes, bundle_bytes) = loaded.two();
            verifying::run(rt, alloc, spec, geometry, workers, spec_bytes, bundle_bytes)
        }
        Command::Cnf { spec, bundle } => {
            let (spec_bytes, bundle_bytes) = loaded.two();
            cnf::run(alloc, spec, bundle, spec_bytes, bundle_bytes)
        }
        Command::Compact { bundle, .. } => compact::run(alloc, bundle, loaded.one()),
        Command::Place {
            design,
            geometry,
            ..
        } => placing::run(alloc, design, geometry, loaded.one()),
        Command::Produce {
            spec,
            design,
            geometry,
            budget,
            ..
        } => {
            let (spec_bytes, design_bytes) = loaded.two();
            producing::run(
                alloc,
                spec,
                design,
                geometry,
                budget,
                spec_bytes,
                design_bytes,
            )
        }
        Command::Demo { bits, .. } => demonstrating::run(rt, alloc, bits),
    }
}

/// Loads the files of a command, works on their bytes, and saves what is to be saved.
fn run<R: Threads + Sync, S: Store>(
    rt: &R,
    alloc: Global,
    command: &Command<'_>,
    store: &mut S,
) -> Result<Ending, NoMemory>
    requires { IsWithinLimits command.now }
    ensures tells { IfOk result (Tells (form_seen command.now)
        (record { files = S.files store.old; faults = S.faults store.old })
        (record { files = S.files store.new; faults = S.faults store.new })) }
    ensures files { OnErr result
        (Leaves (Some (form_seen command.now)) (S.files store.old) (S.files store.new)) }
{
    let files = command.files(alloc)?;
    let loaded = match load_all(alloc, store, &files) {
        Ok(loaded) => loaded,
        Err(fault) => return Ending::not_stored(alloc, fault.name, fault.fail),
    };
    let ending = work(rt, alloc, command, loaded)?;
    save(alloc, store, command.out(), ending)
}

/// What is told of these words, before it is written.
fn tell<R: Threads + Sync, S: Store>(
    rt: &R,
    alloc: Global,
    words: &[String],
    store: &mut S,
) -> Result<Ending, NoMemory>
    ensures tells { IfOk result (WordsTell (form_of (words_in words.now))
        (record { files = S.files store.old; faults = S.faults store.old })
        (record { files = S.files store.new; faults = S.faults store.new })) }
    ensures files { OnErr result
        (Leaves (form_of (words_in words.now)) (S.files store.old) (S.files store.new)) }
    ensures untouched { form_of (words_in words.now) ≡ None → store.new ≡ store.old }
{
    match command_of(words) {
        Some(command) => run(rt, alloc, &command, store),
        None => Ending::words(alloc),
    }
}

/// Runs the command of these words, and answers its status. It always returns.
///
/// The words are those of the command line without the program's name (`form_of` has the forms). `Runs`
/// says what a run comes to: which status comes with which text and why, what is saved and written, and
/// that the bytes of the files decide.
pub fn command<R: Threads + Sync, S: Store, O: Sink>(
    rt: &R,
    alloc: Global,
    words: &[String],
    store: &mut S,
    out: &mut O,
) -> Status
    ensures runs { Runs (words_in words.now)
        (record { files = S.files store.old; faults = S.faults store.old })
        (record { files = S.files store.new; faults = S.faults store.new })
        (record { held = O.held out.old; faults = O.faults out.old })
        (record { held = O.held out.new; faults = O.faults out.new })
        result }
    ensures untouched { form_of (words_in words.now) ≡ None → store.new ≡ store.old }
{
    let told = tell(rt, alloc, words, store);
    finish(out, told)
}

/// Runs the command or the session of these words, and answers its status. It may wait for other
/// threads.
///
/// It is `session` for the words of a session, and `command` for all others; `Answers` says what comes
/// of them.
pub fn top<R: Threads + Wait + Sync, S: Store, O: Sink, G: Gate>(
    rt: &R,
    alloc: Global,
    words: &[String],
    store: &mut S,
    out: &mut O,
    gate: &G,
) -> Status
    ensures answers { Answers (words_in words.now)
        (record { files = S.files store.old; faults = S.faults store.old })
        (record { files = S.files store.new; faults = S.faults store.new })
        (record { held = O.held out.old; faults = O.faults out.old })
        (record { held = O.held out.new; faults = O.faults out.new })
        result }
    ensures untouched { form_of (words_in words.now) ≡ None → session_form (words_in words.now) ≡ None
        → store.new ≡ store.old }
{
    match session_of(words) {
        Some(_) => session(rt, alloc, words, store, out, gate),
        None => command(rt, alloc, words, store, out),
    }
}
