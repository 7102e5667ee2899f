ghost use Rattle.std.specs.Prelude.{◌≤◌, length, IfOk};
ghost use Rattle.text_defs.specs.Memory.{OrMemory};
ghost use Rattle.net_defs.specs.Nets.{IsNet};
ghost use Rattle.net_defs.specs.declared.interface.InterfaceError.TheVariants.{NoMemory};
ghost use Rattle.net_defs.specs.Interfaces.{InterfaceOf, Pairs};
ghost use Rattle.netlist.specs.Partners.{InputsOf, OutputsOf};

use crate::net::Net;
use crate::network::Network;
use crate::ports::{Ports, Unpaired, partners};
use net_defs::InterfaceError;
use std::alloc::Global;
use std::marker::Model;

/// For each input and each output of a specification the place of its partner in a design: that with
/// the same name.
#[derive(Debug, Drop)]
pub struct Pairing {
    inputs: Vec<u32>,
    outputs: Vec<u32>,
}

impl Model for Pairing {
    ghost use Rattle.net_defs.specs.Interfaces.{PlacePairs};

    ghost Value = { PlacePairs };

    ghost view = { λ p. record { inputs = p.inputs.items; outputs = p.outputs.items } };
}

impl Pairing {
    ghost use Rattle.std.specs.Prelude.{◌≡◌, ◌<◌, length, slice_get, Some};

    /// The design's place of the input that is the specification's input `i`.
    pub fn input(&self, i: u32) -> u32
        requires { i < length self.now.inputs }
        ensures { slice_get self.now.inputs i ≡ Some result }
    {
        self.inputs[i as usize]
    }

    /// The design's place of the output that is the specification's output `i`.
    pub fn output(&self, i: u32) -> u32
        requires { i < length self.now.outputs }
        ensures { slice_get self.now.outputs i ≡ Some result }
    {
        self.outputs[i as usize]
    }

    /// The design's places in the order of the specification's inputs.
    pub(crate) fn inputs(&self) -> &[u32]
        ensures { result.now ≡ self.now.inputs }
    {
        &self.inputs
    }

    /// The design's places in the order of the specification's outputs.
    pub(crate) fn outputs(&self) -> &[u32]
        ensures { result.now ≡ self.now.outputs }
    {
        &self.outputs
    }
}

/// The partners of the specification's inputs.
fn pair_inputs(alloc: Global, spec: &Network, design: &Network) -> Result<Vec<u32>, InterfaceError>
    requires spec { IsNet spec.now }
    requires design { IsNet design.now }
    ensures { OrMemory NoMemory (InputsOf spec.now design.now) result }
{
    let wanted = Ports::Inputs(spec.inputs());
    let there = Ports::Inputs(design.inputs());
    match partners(alloc, &wanted, &there) {
        Ok(places) => Ok(places),
        Err(Unpaired::Missing { side, place }) => Err(InterfaceError::Input { side, place }),
        Err(Unpaired::NoMemory) => Err(InterfaceError::NoMemory),
    }
}

/// The partners of the specification's outputs.
fn pair_outputs(alloc: Global, spec: &Network, design: &Network) -> Result<Vec<u32>, InterfaceError>
    requires spec { IsNet spec.now }
    requires design { IsNet design.now }
    ensures { OrMemory NoMemory (OutputsOf spec.now design.now) result }
{
    let wanted = Ports::Outputs(spec.outputs());
    let there = Ports::Outputs(design.outputs());
    match partners(alloc, &wanted, &there) {
        Ok(places) => Ok(places),
        Err(Unpaired::Missing { side, place }) => Err(InterfaceError::Output { side, place }),
        Err(Unpaired::NoMemory) => Err(InterfaceError::NoMemory),
    }
}

/// The pairing of the inputs and outputs of two nets by their names.
///
/// Where names have no partner, the first of them is answered: an input of the specification, then an
/// input of the design, then an output of the specification, then an output of the design, and among
/// these the one with the least place.
pub fn same_interface(alloc: Global, spec: &Net, design: &Net) -> Result<Pairing, InterfaceError>
    ensures answer { OrMemory NoMemory (InterfaceOf spec.now design.now) result }
    ensures pairs { IfOk result (Pairs design.now) }
{
    let wanted = spec.network();
    let there = design.network();
    let inputs = pair_inputs(alloc, wanted, there)?;
    let outputs = pair_outputs(alloc, wanted, there)?;
    Ok(Pairing { inputs, outputs })
}
