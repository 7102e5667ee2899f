//! The loads of a command, in the order of its files.

ghost use Rattle.std.specs.Prelude.{◌≡◌, ℕ, List, [], ◌∷◌, ◌++◌, map, length, IfOk, IfErr, OnOk};
ghost use Rattle.pch_io.specs.Outside.{Loads, LoadCause};
ghost use Rattle.pch_lines.specs.Commands.{file_seen};
ghost use Rattle.pch_shell.specs.Loading.{AreLoaded, IsNotLoaded};

use pch_base::NoMemory;
use pch_io::{LoadFail, Store};
use pch_lines::NamedFile;
use std::alloc::Global;
use std::marker::Model;

/// The bytes of the files that were loaded, in their order. Contracts see the list of them.
#[derive(Drop)]
pub struct Loaded {
    files: Vec<Vec<u8>>,
}

impl Model for Loaded {
    ghost use Rattle.std.specs.Prelude.{ℕ, List, map};

    ghost Value = { List (List ℕ) };

    ghost view = { λ l. map (λ file. file.items) l.files.items };
}

impl Loaded {
    /// Nothing was loaded yet.
    pub fn new(alloc: Global) -> Loaded
        ensures { result ≡ [] }
    {
        Loaded {
            files: Vec::new(alloc),
        }
    }

    /// Puts the bytes of one file more behind the others.
    pub fn push(&mut self, file: Vec<u8>) -> Result<(), NoMemory>
        ensures { OnOk result (self.new ≡ self.old ++ file.items ∷ []) }
    {
        self.files.push(file)?;
        Ok(())
    }

    /// The bytes of the one file.
    pub fn one(mut self) -> Vec<u8>
        requires { length self ≡ 1 }
        ensures { self ≡ result.items ∷ [] }
    {
        match self.files.pop() {
            Some(file) => file,
            None => unreachable!(),
        }
    }

    /// The bytes of the two files.
    pub fn two(mut self) -> (Vec<u8>, Vec<u8>)
        requires { length self ≡ 2 }
        ensures { self ≡ result.0.items ∷ result.1.items ∷ [] }
    {
        let second = self.files.pop();
        let first = self.files.pop();
        match (first, second) {
            (Some(first), Some(second)) => (first, second),
            _ => unreachable!(),
        }
    }
}

/// The file that wasn't loaded, and why; memory may have been wanting.
#[derive(Clone, Copy, Debug)]
pub struct NotLoaded<'a> {
    pub name: &'a str,
    pub fail: LoadFail,
}

/// Loads the files in their order, up to the first that fails.
pub fn load_all<'a, S: Store>(
    alloc: Global,
    store: &mut S,
    files: &[NamedFile<'a>],
) -> Result<Loaded, NotLoaded<'a>>
    ensures files { S.files store.new ≡ S.files store.old }
    ensures calm { OnOk result (S.faults store.new ≡ S.faults store.old) }
    ensures loaded { IfOk result (λ l. AreLoaded (S.files store.old) (map file_seen files.now) l) }
    ensures not_loaded { IfErr result (λ n. IsNotLoaded (S.files store.old) (S.faults store.old)
        (S.faults store.new) (map file_seen files.now) n.name.now n.fail) }
{
    let mut loaded = Loaded::new(alloc);
    for file in files {
        match load_one(alloc, store, file, &mut loaded) {
            Ok(()) => {}
            Err(fail) => {
                return Err(NotLoaded {
                    name: file.name,
                    fail,
                });
            }
        }
    }
    Ok(loaded)
}

/// Loads one file more.
fn load_one<S: Store>(
    alloc: Global,
    store: &mut S,
    file: &NamedFile<'_>,
    loaded: &mut Loaded,
) -> Result<(), LoadFail>
    ensures files { S.files store.new ≡ S.files store.old }
    ensures calm { OnOk result (S.faults store.new ≡ S.faults store.old) }
    ensures ok { OnOk result ((bytes : List ℕ)
        × Loads (S.files store.old) file.now.name.now file.now.limit bytes
        × (loaded.new ≡ loaded.old ++ bytes ∷ [])) }
    ensures err { IfErr result (LoadCause (S.files store.old) file.now.name.now file.now.limit
        (S.faults store.old) (S.faults store.new)) }
{
    let bytes = store.load(alloc, file.name, file.limit)?;
    match loaded.push(bytes) {
        Ok(()) => Ok(()),
        Err(NoMemory) => Err(LoadFail::NoMemory),
    }
}
