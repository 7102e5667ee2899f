ghost use Rattle.std.specs.Prelude.{◌≡◌, IfOk};
ghost use Rattle.text_defs.specs.Memory.{OrMemory};
ghost use Rattle.miter_defs.specs.Equality.{Equal};
ghost use Rattle.route_defs.specs.declared.faults.RouteError.TheVariants.{NoMemory};
ghost use Rattle.place_net.specs.Placings.{PlacingOf};

use fabric::{Config, Geometry};
use lut_map::map;
use netlist::Net;
use place_route::place_route;
use route_defs::RouteError;
use std::alloc::Global;

/// The configuration that places the reference mapping of the net on the fabric. It computes the net: the
/// first output pads have the net's outputs, whatever the bits of the inputs. `Unroutable` comes exactly
/// where more is needed of a resource than is there, with the first one.
pub fn place(alloc: Global, net: &Net, g: Geometry) -> Result<Config, RouteError>
    ensures placing { OrMemory NoMemory (PlacingOf net.now g) result }
    ensures equal { IfOk result (Equal net.now) }
{
    let Ok(luts) = map(alloc, net) else {
        return Err(RouteError::NoMemory);
    };
    place_route(alloc, &luts, g)
}
