//! Specifications: the net of a text, or why there is none.
ghost use Rattle.netlist.specs.Faults.{IsOfText, IsOfNetwork};
ghost use Rattle.text_defs.specs.Memory.{OrMemory};
ghost use Rattle.net_defs.specs.Specifications.{SpecificationOf};
ghost use Rattle.net_defs.specs.declared.specification.SpecError.TheVariants.{NoMemory};

use crate::from_blif::build;
use crate::net::Net;
use blif_read::{BlifError, read_blif};
use net_defs::{NetError, SpecError};
use std::alloc::Global;

/// The net that the bytes specify, or their first fault: one of the text, or else one of the design that
/// the text describes.
pub fn read_specification(alloc: Global, text: &[u8]) -> Result<Net, SpecError>
    ensures { OrMemory NoMemory (SpecificationOf text.now) result }
{
    let design = match read_blif(alloc, text) {
        Ok(design) => design,
        Err(error) => return Err(of_text(error)),
    };
    match build(alloc, &design) {
        Ok(net) => Ok(net),
        Err(error) => Err(of_network(error)),
    }
}

/// The fault of a text as that of a specification.
fn of_text(error: BlifError) -> SpecError
    ensures { IsOfText error result }
{
    match error {
        BlifError::NoMemory => SpecError::NoMemory,
        _ => SpecError::Text(error),
    }
}

/// The fault of a design as that of a specification.
fn of_network(error: NetError) -> SpecError
    ensures { IsOfNetwork error result }
{
    match error {
        NetError::NoMemory => SpecError::NoMemory,
        _ => SpecError::Network(error),
    }
}
