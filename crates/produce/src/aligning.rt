//! The design in the order of the specification's names.

ghost use Rattle.std.specs.Prelude.{IfOk, IfErr};
ghost use Rattle.produce.specs.Endings.{AlignedTo, Unaligned};

use crate::produce_end::ProduceEnd;
use net_defs::InterfaceError;
use netlist::{Net, same_interface};
use std::alloc::Global;

/// The design with its inputs and outputs in the specification's order, or the first name without a
/// partner.
pub(crate) fn aligned_design(alloc: Global, spec: &Net, design: &Net) -> Result<Net, ProduceEnd>
    ensures aligned { IfOk result (AlignedTo spec.now design.now) }
    ensures unaligned { IfErr result (Unaligned spec.now design.now) }
{
    let pairing = match same_interface(alloc, spec, design) {
        Ok(pairing) => pairing,
        Err(InterfaceError::NoMemory) => return Err(ProduceEnd::NoMemory),
        Err(error) => return Err(ProduceEnd::Interface(error)),
    };
    match design.aligned(alloc, &pairing) {
        Ok(net) => Ok(net),
        Err(_) => Err(ProduceEnd::NoMemory),
    }
}
