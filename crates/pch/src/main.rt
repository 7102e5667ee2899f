//! The program: its words, real files and standard output, handed to `pch_shell::top`.
#![tactic(auto)]

use pch_io::{FileStore, OpenGate, OutSink};
use pch_shell::{Status, top};
use std::alloc::{AllocError, Global};
use std::env::Env;
use std::process::ExitCode;
use std::{env, io};

/// The words of the command line, without the program's name. Words that aren't text name no file, so
/// there are none then.
fn words<R: Env + AllocGlobal>(rt: &R) -> Result<Vec<String>, AllocError> {
    match env::args(rt) {
        Ok(args) => args.skip(1).collect(rt.alloc()),
        Err(error) if error.kind() == io::ErrorKind::OutOfMemory => Err(AllocError),
        Err(_) => Ok(Vec::new(rt.alloc())),
    }
}

fn main(rt: HostRuntime) -> ExitCode {
    let Ok(words) = words(&rt) else {
        return ExitCode::from(Status::Memory.code());
    };
    let mut store = FileStore::new(&rt);
    let mut out = OutSink::new(&rt);
    let status = top(&rt, rt.alloc(), &words, &mut store, &mut out, &OpenGate);
    ExitCode::from(status.code())
}
