ghost use Rattle.std.specs.Prelude.{◌≡◌, None, OnOk, IfErr};
ghost use Rattle.route_defs.specs.Demands.{first_over as first_over_of};
ghost use Rattle.place_route.specs.Refusals.{Refuses};

use needs::first_over;
use route_defs::{Demand, RouteError};

/// Refuses the first of these demands that is over.
pub(crate) fn refuse(demands: &[Demand]) -> Result<(), RouteError>
    ensures met { OnOk result (first_over_of demands.now ≡ None) }
    ensures over { IfErr result (Refuses demands.now) }
{
    match first_over(demands) {
        Some(demand) => Err(RouteError::Unroutable {
            resource: demand.resource,
            place: demand.place,
            need: demand.need,
            have: demand.have,
        }),
        None => Ok(()),
    }
}
