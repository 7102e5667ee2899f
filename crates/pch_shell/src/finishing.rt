//! What is left to do once it is known what a command comes to: its save, and its text.

ghost use Rattle.std.specs.Prelude.{◌≡◌, IfOk, OnErr};
ghost use Rattle.std.specs.Option.{option_map};
ghost use Rattle.pch_shell.specs.Runs.{MaySpoil, AfterSave, Put};

use crate::ending::Ending;
use crate::status::Status;
use pch_base::NoMemory;
use pch_io::{LoadFail, PutFail, SaveFail, Sink, Store};
use std::alloc::Global;

/// Saves what is to be saved under the name, and answers what is to be told.
pub fn save<S: Store>(
    alloc: Global,
    store: &mut S,
    out: Option<&str>,
    ending: Ending,
) -> Result<Ending, NoMemory>
    ensures saved { IfOk result (AfterSave (option_map (λ word. word.now) out.entry) ending
        (record { files = S.files store.old; faults = S.faults store.old })
        (record { files = S.files store.new; faults = S.faults store.new })) }
    ensures files { OnErr result
        (MaySpoil (option_map (λ word. word.now) out.entry) ending.saved (S.files store.old)
        (S.files store.new)) }
{
    match (out, &ending.saved) {
        (Some(name), Some(bytes)) => match store.save(name, bytes) {
            Ok(()) => Ok(ending),
            Err(SaveFail::Failed) => Ending::not_stored(alloc, name, LoadFail::Failed),
            Err(SaveFail::NoMemory) => Err(NoMemory),
        },
        _ => Ok(ending),
    }
}

/// Writes the text that is due by one put, and answers the status.
pub fn finish<O: Sink>(out: &mut O, ending: Result<Ending, NoMemory>) -> Status
    ensures put { IfOk ending (λ told. Put told
        (record { held = O.held out.old; faults = O.faults out.old })
        (record { held = O.held out.new; faults = O.faults out.new }) result) }
    ensures memory { OnErr ending ((result ≡ Status.Memory) × (out.new ≡ out.old)) }
{
    let Ok(ending) = ending else {
        return Status::Memory;
    };
    match out.put(&ending.text) {
        Ok(()) => ending.status,
        Err(PutFail::Failed) => Status::Sink,
        Err(PutFail::NoMemory) => Status::Memory,
    }
}
