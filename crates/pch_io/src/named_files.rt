ghost use Rattle.std.specs.Prelude.{◌≡◌, ◌≤◌, ◌<◌, ℕ, List, length, Some, None, OnOk, OnErr, IfOk, IsErrOf, IsSomeAnd};
ghost use Rattle.std.specs.Option.{option_map};
ghost use Rattle.pch_io.specs.Memory.{bytes_of, place_of, files_in};
ghost use Rattle.pch_io.specs.Outside.{Saves, Loads};

use crate::store::LoadFail;
use pch_base::{Name, NoMemory};
use std::alloc::Global;
use std::marker::Model;

/// Files in memory: names with bytes. Where a name stands twice, the first of the two counts.
#[derive(Debug, Drop)]
pub struct NamedFiles {
    alloc: Global,
    entries: Vec<(Name, Vec<u8>)>,
}

impl Model for NamedFiles {
    ghost use Rattle.std.specs.Prelude.{List};
    ghost use Rattle.pch_io.specs.Memory.{File, files_in};

    ghost Value = { List File };

    ghost view = { λ f. files_in f.entries.items };
}

impl NamedFiles {
    /// The files listed.
    pub fn new(alloc: Global, entries: Vec<(Name, Vec<u8>)>) -> NamedFiles
        ensures { result ≡ files_in entries.items }
    {
        NamedFiles { alloc, entries }
    }

    /// The place of the first file with this name, or the number of files where there is none.
    fn place(&self, name: &str) -> usize
        ensures { result ≡ place_of self.now name.now }
    {
        for i in 0..self.entries.len() {
            if self.entries[i].0.bytes() == name.as_bytes() {
                return i;
            }
        }
        self.entries.len()
    }

    /// The bytes of the file with this name.
    pub fn find(&self, name: &str) -> Option<&[u8]>
        ensures { option_map (λ bytes. bytes.now) result ≡ bytes_of self.now name.now }
    {
        for (stored, bytes) in &self.entries {
            if stored.bytes() == name.as_bytes() {
                return Some(bytes);
            }
        }
        None
    }

    /// A copy of the bytes of the file with this name, if it isn't longer than the limit.
    pub fn load(&self, alloc: Global, name: &str, max: u64) -> Result<Vec<u8>, LoadFail>
        ensures loaded { IfOk result
            (λ bytes. Loads (Some (bytes_of self.now)) name.now max bytes.items) }
        ensures absent { IsErrOf result LoadFail.Absent → bytes_of self.now name.now ≡ None }
        ensures too_long { IsErrOf result LoadFail.TooLong
            → IsSomeAnd (bytes_of self.now name.now) (λ bytes. max < length bytes) }
        ensures never_failed { IsErrOf result LoadFail.Failed → ⊥ }
    {
        match self.find(name) {
            None => Err(LoadFail::Absent),
            Some(bytes) if bytes.len() as u64 > max => Err(LoadFail::TooLong),
            Some(bytes) => Ok(bytes.to_vec(alloc)?),
        }
    }

    /// Puts these bytes under the name. Without memory the files are as before.
    pub fn put(&mut self, name: &str, bytes: &[u8]) -> Result<(), NoMemory>
        ensures ok { OnOk result (Saves (Some (bytes_of self.old))
            (Some (bytes_of self.new)) name.now bytes.now) }
        ensures err { OnErr result (self.new ≡ self.old) }
    {
        let stored = Name::from_bytes(self.alloc, name.as_bytes())?;
        let entry = (stored, bytes.to_vec(self.alloc)?);
        let place = self.place(name);
        if place < self.entries.len() {
            self.entries[place] = entry;
        } else {
            self.entries.push(entry)?;
        }
        Ok(())
    }
}
