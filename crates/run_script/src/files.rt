//! The files that a script names, numbered in the order of their first mention.
ghost use Rattle.std.specs.Prelude.{◌≡◌, ◌<◌, [], ◌∷◌, ◌++◌, false, length, IfOk, OnOk};
ghost use Rattle.std.specs.List.{list_any};
ghost use Rattle.script_defs.specs.Scripts.{same_kind, same_use};
ghost use Rattle.script_defs.specs.Reading.{file_number, mentioned};
ghost use Rattle.script_defs.specs.declared.limits.TheConstants.{MAX_COMMANDS};
ghost use Rattle.script_defs.specs.declared.command.Kind.TheVariants.{Spec, Bundle};
ghost use Rattle.run_script.specs.Files.{use_of, place_in, PutsName, IsIndexed};

use crate::items::Items;
use pch_base::{Name, NoMemory};
use script_defs::{FileUse, Kind};
use std::alloc::Global;
use std::collections::BTreeMap;

/// The files, with their numbers by name for each kind.
#[derive(Drop)]
pub(crate) struct FileTable<'a> {
    pub(crate) list: Vec<FileUse>,
    pub(crate) specs: BTreeMap<&'a [u8], u32>,
    pub(crate) bundles: BTreeMap<&'a [u8], u32>,
}

impl<'a> FileTable<'a> {
    /// No files.
    pub(crate) fn new(alloc: Global) -> FileTable<'a>
        ensures empty { result.list.items ≡ [] }
        ensures indexed { IsIndexed result }
    {
        FileTable {
            list: Vec::new(alloc),
            specs: BTreeMap::new(alloc),
            bundles: BTreeMap::new(alloc),
        }
    }

    /// The number of the file that is read as this kind, where it was mentioned.
    fn find(&self, kind: Kind, name: &[u8]) -> Option<u32>
        requires { IsIndexed self.now }
        ensures { result ≡ place_in (same_use (use_of kind name.now)) self.now.list.items }
    {
        match kind {
            Kind::Spec => self.specs.get(name).copied(),
            Kind::Bundle => self.bundles.get(name).copied(),
        }
    }

    /// Gives the name this number.
    fn put(&mut self, kind: Kind, name: &'a [u8], number: u32) -> Result<(), NoMemory>
        ensures specs { OnOk result
            (PutsName (same_kind Spec kind) name.now number self.old.specs self.new.specs) }
        ensures bundles { OnOk result
            (PutsName (same_kind Bundle kind) name.now number self.old.bundles self.new.bundles) }
        ensures list { self.new.list ≡ self.old.list }
    {
        match kind {
            Kind::Spec => {
                self.specs.insert(name, number)?;
                Ok(())
            }
            Kind::Bundle => {
                self.bundles.insert(name, number)?;
                Ok(())
            }
        }
    }

    /// Appends a file that wasn't mentioned before, and answers its number.
    fn add(&mut self, alloc: Global, kind: Kind, name: &'a [u8]) -> Result<u32, NoMemory>
        requires indexed { IsIndexed self.old }
        requires fresh { list_any (same_use (use_of kind name.now)) self.old.list.items ≡ false }
        requires few { length self.old.list.items < MAX_COMMANDS }
        ensures number { IfOk result (λ n. n ≡ length self.old.list.items) }
        ensures files { OnOk result
            (self.new.list.items ≡ self.old.list.items ++ use_of kind name.now ∷ []) }
        ensures indexed { OnOk result (IsIndexed self.new) }
    {
        let number = self.list.len() as u32;
        let file = FileUse {
            kind,
            name: Name::from_bytes(alloc, name)?,
        };
        self.list.push(file)?;
        self.put(kind, name, number)?;
        Ok(number)
    }

    /// The number of the file that is read as this kind, which is mentioned now.
    pub(crate) fn number_of(
        &mut self,
        alloc: Global,
        kind: Kind,
        name: &'a [u8],
    ) -> Result<u32, NoMemory>
        requires indexed { IsIndexed self.old }
        requires few { length self.old.list.items < MAX_COMMANDS }
        ensures number { IfOk result
            (λ n. n ≡ file_number self.old.list.items (use_of kind name.now)) }
        ensures files { OnOk result
            (self.new.list.items ≡ mentioned self.old.list.items (use_of kind name.now)) }
        ensures indexed { OnOk result (IsIndexed self.new) }
    {
        match self.find(kind, name) {
            Some(number) => Ok(number),
            None => self.add(alloc, kind, name),
        }
    }
    /// The files in their order.
    pub(crate) fn into_files(self) -> Items<FileUse>
        ensures { result ≡ self.entry.list.items }
    {
        let FileTable { list, .. } = self;
        Items::from_vec(list)
    }
}
