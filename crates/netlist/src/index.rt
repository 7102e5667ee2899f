use std::alloc::{AllocError, Global};
use std::collections::BTreeMap;

/// The places of names, looked up by their bytes in logarithmic time.
#[derive(Drop)]
pub(crate) struct NameIndex<'a> {
    places: BTreeMap<&'a [u8], u32>,
}

impl<'a> NameIndex<'a> {
    ghost use Rattle.std.specs.Prelude.{◌≡◌, [], OnOk};
    ghost use Rattle.netlist.specs.Index.{found, IsIndexOf, PutsName};

    /// No name.
    pub(crate) fn new(alloc: Global) -> NameIndex<'a>
        ensures { IsIndexOf result [] }
    {
        NameIndex {
            places: BTreeMap::new(alloc),
        }
    }

    /// Gives the name this place.
    pub(crate) fn insert(&mut self, name: &'a [u8], place: u32) -> Result<(), AllocError>
        ensures { OnOk result (PutsName self.old self.new name.now place) }
    {
        self.places.insert(name, place)?;
        Ok(())
    }

    /// The place of the name.
    pub(crate) fn find(&self, name: &[u8]) -> Option<u32>
        ensures { result ≡ found self.now name.now }
    {
        self.places.get(name).copied()
    }
}
