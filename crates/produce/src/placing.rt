//! A design placed on a fabric.

ghost use Rattle.std.specs.Prelude.{IfOk, IfErr};
ghost use Rattle.miter_defs.specs.Equality.{Equal};
ghost use Rattle.place_net.specs.Placings.{Placed};
ghost use Rattle.produce.specs.Endings.{Unplaced};

use crate::produce_end::ProduceEnd;
use fabric::{Config, Geometry};
use netlist::Net;
use place_net::place;
use route_defs::RouteError;
use std::alloc::Global;

/// The configuration that places a net, or the first resource that is wanting.
pub(crate) fn placed_design(alloc: Global, net: &Net, g: Geometry) -> Result<Config, ProduceEnd>
    ensures placed { IfOk result (Placed net.now g) }
    ensures equal { IfOk result (Equal net.now) }
    ensures unplaced { IfErr result (Unplaced net.now g) }
{
    match place(alloc, net, g) {
        Ok(config) => Ok(config),
        Err(
            RouteError::Unroutable {
                resource,
                place,
                need,
                have,
            },
        ) => Err(ProduceEnd::Unroutable {
            resource,
            place,
            need,
            have,
        }),
        Err(RouteError::NoMemory) => Err(ProduceEnd::NoMemory),
    }
}
