ghost use Rattle.std.specs.Prelude.{◌≡◌, ◌≤◌, ◌<◌, ◌↔◌, ℕ, List, Option, Some, IfOk, IfErr, OnOk, OnErr, IsErrOf, IsSomeAnd, Contains};
ghost use Rattle.std.specs.Option.{option_map};
ghost use Rattle.pch_io.specs.Outside.{Rose, CountsOnce, Loads, LoadCause, Saves, Spoils};
ghost use Rattle.pch_io.specs.Memory.{bytes_of, files_in, FailsNext, CountsCall};

use crate::calls::Script;
use crate::named_files::NamedFiles;
use crate::store::{LoadFail, SaveFail, Store};
use pch_base::{Name, NoMemory};
use std::alloc::Global;
use std::marker::Model;

/// A store in memory, of which chosen calls fail.
///
/// Loads and saves are counted together, from 1. A call whose number was listed answers `Failed` and
/// does nothing else.
#[derive(Debug, Drop)]
pub struct MemStore {
    files: NamedFiles,
    script: Script,
}

impl Model for MemStore {
    ghost use Rattle.pch_io.specs.Memory.{Stored};

    ghost Value = { Stored };

    ghost view = { λ s. record { files = s.files; calls = s.script } };
}

impl MemStore {
    /// A store with these files, of which the calls with the listed numbers fail. Where a name stands
    /// twice, its first file counts.
    pub fn new(
        alloc: Global,
        files: Vec<(Name, Vec<u8>)>,
        failing: Vec<u32>,
    ) -> Result<MemStore, NoMemory>
        ensures { IfOk result (λ s. s ≡ record {
          files = files_in files.items;
          calls = record { failing = failing.items; made = 0; faults = 0 };
        }) }
    {
        Ok(MemStore {
            files: NamedFiles::new(alloc, files),
            script: Script::new(failing),
        })
    }

    /// The bytes of the file with this name.
    pub fn file(&self, name: &str) -> Option<&[u8]>
        ensures { option_map (λ bytes. bytes.now) result ≡ bytes_of self.now.files name.now }
    {
        self.files.find(name)
    }
}

impl Store for MemStore {
    ghost files = { λ s. Some (bytes_of s.files) };

    ghost faults = { λ s. s.calls.faults };

    fn load(&mut self, alloc: Global, name: &str, max: u64) -> Result<Vec<u8>, LoadFail>
        ensures files { self.new.files ≡ self.old.files }
        ensures once { CountsOnce self.old.calls.faults self.new.calls.faults }
        ensures calm { OnOk result (self.new.calls.faults ≡ self.old.calls.faults) }
        ensures loaded { IfOk result
            (λ bytes. Loads (Some (bytes_of self.old.files)) name.now max bytes.items) }
        ensures cause { IfErr result (LoadCause (Some (bytes_of self.old.files)) name.now max
            self.old.calls.faults self.new.calls.faults) }
        ensures failed_exactly { IsErrOf result LoadFail.Failed ↔ FailsNext self.old.calls }
        ensures counted { CountsCall self.old.calls self.new.calls }
    {
        if self.script.next_fails() {
            return Err(LoadFail::Failed);
        }
        self.files.load(alloc, name, max)
    }

    fn save(&mut self, name: &str, bytes: &[u8]) -> Result<(), SaveFail>
        ensures once { CountsOnce self.old.calls.faults self.new.calls.faults }
        ensures calm { OnOk result (self.new.calls.faults ≡ self.old.calls.faults) }
        ensures saved { OnOk result (Saves (Some (bytes_of self.old.files))
            (Some (bytes_of self.new.files)) name.now bytes.now) }
        ensures spoiled { OnErr result
            (Spoils (Some (bytes_of self.old.files)) (Some (bytes_of self.new.files)) name.now) }
        ensures failed { IsErrOf result SaveFail.Failed
            → Rose self.old.calls.faults self.new.calls.faults }
        ensures unchanged { OnErr result (self.new.files ≡ self.old.files) }
        ensures failed_exactly { IsErrOf result SaveFail.Failed ↔ FailsNext self.old.calls }
        ensures counted { CountsCall self.old.calls self.new.calls }
    {
        if self.script.next_fails() {
            return Err(SaveFail::Failed);
        }
        match self.files.put(name, bytes) {
            Ok(()) => Ok(()),
            Err(NoMemory) => Err(SaveFail::NoMemory),
        }
    }
}

/// A store in memory of which no call fails.
#[derive(Debug, Drop)]
pub struct NoFaultStore {
    files: NamedFiles,
}

impl Model for NoFaultStore {
    ghost use Rattle.std.specs.Prelude.{List};
    ghost use Rattle.pch_io.specs.Memory.{File};

    ghost Value = { List File };

    ghost view = { λ s. s.files };
}

impl NoFaultStore {
    /// A store with these files. Where a name stands twice, its first file counts.
    pub fn new(alloc: Global, files: Vec<(Name, Vec<u8>)>) -> Result<NoFaultStore, NoMemory>
        ensures { IfOk result (λ s. s ≡ files_in files.items) }
    {
        Ok(NoFaultStore {
            files: NamedFiles::new(alloc, files),
        })
    }

    /// The bytes of the file with this name.
    pub fn file(&self, name: &str) -> Option<&[u8]>
        ensures { option_map (λ bytes. bytes.now) result ≡ bytes_of self.now name.now }
    {
        self.files.find(name)
    }
}

impl Store for NoFaultStore {
    ghost files = { λ s. Some (bytes_of s) };

    ghost faults = { λ _. 0 };

    fn load(&mut self, alloc: Global, name: &str, max: u64) -> Result<Vec<u8>, LoadFail> {
        self.files.load(alloc, name, max)
    }

    fn save(&mut self, name: &str, bytes: &[u8]) -> Result<(), SaveFail> {
        match self.files.put(name, bytes) {
            Ok(()) => Ok(()),
            Err(NoMemory) => Err(SaveFail::NoMemory),
        }
    }
}
