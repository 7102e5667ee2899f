//! Both adders as networks, made from their texts.

ghost use Rattle.std.specs.Prelude.{◌≡◌, ◌≤◌, IfOk, IfErr};
ghost use Rattle.std.specs.Arc.{arc_value};
ghost use Rattle.net_defs.specs.Specifications.{HasNetwork};
ghost use Rattle.demo_texts.specs.Texts.{ripple_text, select_text};
ghost use Rattle.demo_texts.specs.declared.TheConstants.{MAX_BITS};
ghost use Rattle.demonstration.specs.Demonstrations.{AreAdders, AreFaulty, IsDesignFaulty};
ghost use Rattle.demonstration.specs.declared.adders.AddersError.TheVariants.{NoMemory as NoMemoryIn};

use demo_texts::{MAX_BITS, ripple_text, select_text};
use fabric::Geometry;
use least_fabric::least_fabric;
use net_defs::SpecError;
use netlist::{Net, read_specification};
use pch_base::NoMemory;
use std::alloc::Global;
use std::sync::Arc;

/// Two adders of so many bits, and the least fabric for the second one.
#[derive(Drop)]
pub struct Adders {
    /// The specification, which hands the carry on from bit to bit.
    pub spec: Arc<Net>,
    /// The design, which computes blocks of bits for both carries and chooses.
    pub design: Net,
    /// The least fabric for the design.
    pub fabric: Geometry,
}

/// Why there are no adders.
#[derive(Clone, Copy, Debug)]
pub enum AddersError {
    /// The text of the specification has this first fault.
    Spec(SpecError),
    /// The text of the design has this first fault, and that of the specification has none.
    Design(SpecError),
    /// Memory was wanting.
    NoMemory,
}

impl From<NoMemory> for AddersError {
    ghost from_gives = { λ _ e. e ≡ NoMemoryIn };

    fn from(_error: NoMemory) -> AddersError {
        AddersError::NoMemory
    }
}

/// The networks of both texts of so many bits, from 1 to 16, with the least fabric for the second one;
/// or the first fault of a text, the first one before the second.
pub fn adders_of(alloc: Global, bits: u32) -> Result<Adders, AddersError>
    requires some { 1 ≤ bits }
    requires few { bits ≤ MAX_BITS }
    ensures adders { IfOk result (λ a. AreAdders bits (arc_value a.spec) a.design a.fabric) }
    ensures faulty { IfErr result (AreFaulty bits) }
{
    let spec = spec_of(alloc, bits)?;
    let design = design_of(alloc, bits)?;
    let fabric = least_fabric(alloc, &design)?;
    Ok(Adders {
        spec: shared(alloc, spec)?,
        design,
        fabric,
    })
}

/// The network of the first text.
fn spec_of(alloc: Global, bits: u32) -> Result<Net, AddersError>
    requires some { 1 ≤ bits }
    requires few { bits ≤ MAX_BITS }
    ensures net { IfOk result (HasNetwork (ripple_text bits)) }
    ensures faulty { IfErr result (AreFaulty bits) }
{
    match read_specification(alloc, &ripple_text(alloc, bits)?) {
        Ok(net) => Ok(net),
        Err(error) => match error {
            SpecError::NoMemory => Err(AddersError::NoMemory),
            _ => Err(AddersError::Spec(error)),
        },
    }
}

/// The network of the second text.
fn design_of(alloc: Global, bits: u32) -> Result<Net, AddersError>
    requires some { 1 ≤ bits }
    requires few { bits ≤ MAX_BITS }
    ensures net { IfOk result (HasNetwork (select_text bits)) }
    ensures faulty { IfErr result (IsDesignFaulty bits) }
{
    match read_specification(alloc, &select_text(alloc, bits)?) {
        Ok(net) => Ok(net),
        Err(error) => match error {
            SpecError::NoMemory => Err(AddersError::NoMemory),
            _ => Err(AddersError::Design(error)),
        },
    }
}

/// The net, to be shared.
fn shared(alloc: Global, net: Net) -> Result<Arc<Net>, NoMemory>
    ensures { IfOk result (λ shared. arc_value shared ≡ net) }
{
    Ok(Arc::new(alloc, net)?)
}
