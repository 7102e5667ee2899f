//! What mapped cells need of a fabric, in the order in which a refusal names it.

ghost use Rattle.std.specs.Prelude.{◌≡◌, ◌<◌, ◌+◌, ◌^◌, ◌++◌, ℕ, List, [], ◌∷◌, length, slice_index, IfOk};
ghost use Rattle.map_defs.specs.declared.limits.TheConstants.{MAX_COUNT};
ghost use Rattle.route_defs.specs.Demands.{columns_used as used_columns};
ghost use Rattle.place_route.specs.Refusals.{fabric_demands as demands_of_fabric, listed_demands};

use fabric::Geometry;
use lut_map::Luts;
use route_defs::{Demand, Resource};
use std::alloc::{AllocError, Global};

/// One more than the greatest of these columns, or 0 where there is none.
fn columns_used(columns: &[u32]) -> u32
    requires { (k : ℕ) → slice_index columns.now k < MAX_COUNT }
    ensures { result ≡ used_columns columns.now }
{
    let mut used = 0;
    for column in columns {
        used = used.max(*column + 1);
    }
    used
}

/// What is needed of pads and of the columns together.
pub(crate) fn fabric_demands(l: &Luts, columns: &[u32], g: Geometry) -> [Demand; 3]
    requires { (k : ℕ) → slice_index columns.now k < MAX_COUNT }
    ensures { result ≡ demands_of_fabric l.now g columns.now }
{
    let demand = |resource, need, have| Demand {
        resource,
        place: 0,
        need,
        have,
    };
    [
        demand(Resource::InputPads, l.inputs(), g.i()),
        demand(Resource::OutputPads, l.outputs(), g.o()),
        demand(Resource::Columns, columns_used(columns), g.c()),
    ]
}

/// What is needed of each column and of the channel before it, and of the last channel, where the
/// columns have so many cells and the channels so many live signals.
pub(crate) fn column_demands(
    alloc: Global,
    g: Geometry,
    counts: &[u32],
    needs: &[u32],
) -> Result<Vec<Demand>, AllocError>
    requires counts { length counts.now ≡ g.columns }
    requires needs { length needs.now ≡ g.columns + 1 }
    ensures { IfOk result (λ demands. demands.items ≡ listed_demands g counts.now needs.now) }
{
    let mut demands = Vec::with_capacity(alloc, 2 * counts.len() + 1)?;
    for c in 0..g.c() {
        demands.push(Demand {
            resource: Resource::Cells,
            place: c,
            need: counts[c as usize],
            have: g.r(),
        })?;
        demands.push(Demand {
            resource: Resource::Tracks,
            place: c,
            need: needs[c as usize],
            have: g.t(),
        })?;
    }
    demands.push(Demand {
        resource: Resource::Tracks,
        place: g.c(),
        need: needs[g.c() as usize],
        have: g.t(),
    })?;
    Ok(demands)
}
