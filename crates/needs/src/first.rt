ghost use Rattle.std.specs.Prelude.{◌≡◌};
ghost use Rattle.route_defs.specs.Demands.{first_over as first_over_of};

use route_defs::Demand;

/// The first of these of which more is needed than is there.
pub fn first_over(demands: &[Demand]) -> Option<Demand>
    ensures { result ≡ first_over_of demands.now }
{
    for demand in demands {
        if demand.need > demand.have {
            return Some(*demand);
        }
    }
    None
}
