ghost use Rattle.std.specs.Prelude.{◌≡◌, ◌≤◌, ℕ, None, vec_len, IfOk, ◌≢◌};
ghost use Rattle.pch_io.specs.Outside.{Rose};

use crate::faults::FaultCount;
use crate::store::{LoadFail, SaveFail, Store};
use crate::whole::{read_whole, write_whole};
use std::alloc::Global;
use std::fs;
use std::io::ErrorKind;
use std::rt::Files;

/// The store of real files, named by their paths. It tells no content.
///
/// Each failure raises the count of faults by one, a missing file and one that is longer than a load's
/// limit among them.
#[derive(Drop)]
pub struct FileStore<R: Files> {
    rt: R,
    faults: FaultCount,
}

impl<R: Files> FileStore<R> {
    /// The files of the system that the runtime stands for.
    pub fn new(rt: R) -> FileStore<R>
        ensures { result.faults ≡ 0 }
    {
        FileStore {
            rt,
            faults: FaultCount::new(),
        }
    }

    fn read(&self, alloc: Global, name: &str, max: u64) -> Result<Vec<u8>, LoadFail>
        ensures { IfOk result (λ bytes. vec_len bytes ≤ max) }
    {
        match fs::open(&self.rt, name) {
            Ok(mut file) => read_whole(alloc, &mut file, max),
            Err(error) if error.kind() == ErrorKind::NotFound => Err(LoadFail::Absent),
            Err(_) => Err(LoadFail::Failed),
        }
    }
}

impl<R: Files> Store for FileStore<R> {
    ghost files = { λ _. None };

    ghost faults = { λ s. s.faults };

    fn load(&mut self, alloc: Global, name: &str, max: u64) -> Result<Vec<u8>, LoadFail> {
        match self.read(alloc, name, max) {
            Ok(bytes) => Ok(bytes),
            Err(LoadFail::NoMemory) => Err(LoadFail::NoMemory),
            Err(fault) => {
                self.faults.raise();
                Err(fault)
            }
        }
    }

    fn save(&mut self, name: &str, bytes: &[u8]) -> Result<(), SaveFail> {
        let written = match fs::create(&self.rt, name) {
            Ok(mut file) => write_whole(&mut file, bytes),
            Err(error) => Err(error),
        };
        if written.is_err() {
            self.faults.raise();
            return Err(SaveFail::Failed);
        }
        Ok(())
    }
}
