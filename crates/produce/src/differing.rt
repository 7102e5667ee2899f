//! What a specification and a design give at an input where they differ.

ghost use Rattle.std.specs.Prelude.{IfOk};
ghost use Rattle.net_defs.specs.Networks.{Network};
ghost use Rattle.produce.specs.Endings.{AlignedTo};
ghost use Rattle.produce.specs.Differences.{DifferAt, DifferWith};

use netlist::{Net, Scratch, same_interface};
use pch_base::{Bits, NoMemory};
use std::alloc::Global;

/// The outputs of a specification and of a design for the same inputs, both in the specification's
/// order.
#[derive(Clone, Copy, Debug)]
pub struct BothOutputs {
    pub spec: Bits,
    pub design: Bits,
}

/// The outputs of the specification and of the design at an input where they differ.
pub fn outputs_at(alloc: Global, spec: &Net, design: &Net, x: Bits) -> Result<BothOutputs, NoMemory>
    requires { DifferAt spec.now design.now x }
    ensures { IfOk result (λ both. DifferWith spec.now design.now x both.spec both.design) }
{
    let net = aligned_again(alloc, spec, design)?;
    let _inputs = net.inputs();
    let _spec_inputs = spec.inputs();
    let _design_inputs = design.inputs();
    let mut spec_bits = Scratch::new(alloc, spec)?;
    let mut design_bits = Scratch::new(alloc, &net)?;
    Ok(BothOutputs {
        spec: spec.eval(x, &mut spec_bits),
        design: net.eval(x, &mut design_bits),
    })
}

/// The design in the order of the specification, whose names are known to pair.
fn aligned_again(alloc: Global, spec: &Net, design: &Net) -> Result<Net, NoMemory>
    requires { (net : Network) × AlignedTo spec.now design.now net }
    ensures { IfOk result (AlignedTo spec.now design.now) }
{
    let _inputs = design.inputs();
    // The names pair, so it can only be memory that is wanting.
    let Ok(pairing) = same_interface(alloc, spec, design) else {
        return Err(NoMemory);
    };
    design.aligned(alloc, &pairing)
}
