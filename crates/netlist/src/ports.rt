ghost use Rattle.std.specs.Prelude.{◌≡◌, ◌≤◌, length, IfOk};
ghost use Rattle.blif_defs.specs.declared.mark.TheConstants.{MAX_PORTS};
ghost use Rattle.netlist.specs.Index.{IsIndexOf};
ghost use Rattle.netlist.specs.Partners.{port_names, GivesPlaces, FindsAll, GivesPartners};
ghost use Rattle.netlist.specs.declared.ports.Unpaired.TheVariants.{NoMemory};

use crate::index::NameIndex;
use crate::network::NetOutput;
use net_defs::Side;
use pch_base::Name;
use std::alloc::{AllocError, AllocFailed, Global};

/// The names of the inputs of a net, or those of its outputs.
#[derive(Clone, Copy, Debug)]
pub(crate) enum Ports<'a> {
    Inputs(&'a [Name]),
    Outputs(&'a [NetOutput]),
}

/// Why names have no partners.
#[derive(Clone, Copy, Debug)]
pub(crate) enum Unpaired {
    /// The first name without a partner, by its place on its side.
    Missing { side: Side, place: u32 },
    /// Memory was wanting.
    NoMemory,
}

impl From<AllocError> for Unpaired {
    ghost from_gives = { λ _ e. e ≡ NoMemory };

    fn from(_error: AllocError) -> Unpaired {
        Unpaired::NoMemory
    }
}

impl<T: Drop> From<AllocFailed<T>> for Unpaired {
    ghost from_gives = { λ _ e. e ≡ NoMemory };

    fn from(_error: AllocFailed<T>) -> Unpaired {
        Unpaired::NoMemory
    }
}

impl<'a> Ports<'a> {
    ghost use Rattle.std.specs.Prelude.{◌≡◌, ◌<◌, ◌≤◌, length, slice_get, Some};
    ghost use Rattle.blif_defs.specs.declared.mark.TheConstants.{MAX_PORTS};
    ghost use Rattle.netlist.specs.Partners.{port_names};

    /// How many names there are.
    fn count(&self) -> u32
        requires { length (port_names self.now) ≤ MAX_PORTS }
        ensures { result ≡ length (port_names self.now) }
    {
        match *self {
            Ports::Inputs(names) => names.len() as u32,
            Ports::Outputs(outputs) => outputs.len() as u32,
        }
    }

    /// The bytes of name `i`.
    fn name(&self, i: u32) -> &'a [u8]
        requires { i < length (port_names self.now) }
        ensures { slice_get (port_names self.now) i ≡ Some result.now }
    {
        match *self {
            Ports::Inputs(names) => names[i as usize].bytes(),
            Ports::Outputs(outputs) => {
                let output = &outputs[i as usize];
                output.name.bytes()
            }
        }
    }

    /// The places of the names.
    fn index(&self, alloc: Global) -> Result<NameIndex<'a>, AllocError>
        requires { length (port_names self.now) ≤ MAX_PORTS }
        ensures { IfOk result (λ index. IsIndexOf index (port_names self.now)) }
    {
        let mut index = NameIndex::new(alloc);
        for i in 0..self.count() {
            index.insert(self.name(i), i)?;
        }
        Ok(index)
    }
}

/// The places among `names` of the names that are wanted, which are those of a side.
fn places_of(
    alloc: Global,
    names: &Ports<'_>,
    wanted: &Ports<'_>,
    side: Side,
) -> Result<Vec<u32>, Unpaired>
    requires names { length (port_names names.now) ≤ MAX_PORTS }
    requires wanted { length (port_names wanted.now) ≤ MAX_PORTS }
    ensures { GivesPlaces (port_names names.now) (port_names wanted.now) side result }
{
    let index = names.index(alloc)?;
    let mut places = Vec::with_capacity(alloc, wanted.count() as usize)?;
    for i in 0..wanted.count() {
        let Some(place) = index.find(wanted.name(i)) else {
            return Err(Unpaired::Missing { side, place: i });
        };
        places.push(place)?;
    }
    Ok(places)
}

/// Whether all names that are wanted, which are those of a side, are among `names`.
fn have_places(
    alloc: Global,
    names: &Ports<'_>,
    wanted: &Ports<'_>,
    side: Side,
) -> Result<(), Unpaired>
    requires names { length (port_names names.now) ≤ MAX_PORTS }
    requires wanted { length (port_names wanted.now) ≤ MAX_PORTS }
    ensures { FindsAll (port_names names.now) (port_names wanted.now) side result }
{
    let index = names.index(alloc)?;
    for i in 0..wanted.count() {
        if index.find(wanted.name(i)).is_none() {
            return Err(Unpaired::Missing { side, place: i });
        }
    }
    Ok(())
}

/// The places in the design of the partners of the specification's names, or the first name without a
/// partner, the specification's before the design's.
pub(crate) fn partners(
    alloc: Global,
    spec: &Ports<'_>,
    design: &Ports<'_>,
) -> Result<Vec<u32>, Unpaired>
    requires spec { length (port_names spec.now) ≤ MAX_PORTS }
    requires design { length (port_names design.now) ≤ MAX_PORTS }
    ensures { GivesPartners (port_names spec.now) (port_names design.now) result }
{
    let places = places_of(alloc, design, spec, Side::Spec)?;
    have_places(alloc, spec, design, Side::Design)?;
    Ok(places)
}
