ghost use Rattle.std.specs.Prelude.{◌≡◌};
ghost use Rattle.clause_defs.specs.Clauses.{IsOrdered, clause_of};
ghost use Rattle.sat_text.specs.Climbing.{climbs_from};

use pch_base::{Lit, order_literals};

/// Puts the literals of a clause that was read in their order, and leaves out repeated ones.
pub fn order_clause(lits: &mut Vec<Lit>)
    ensures clause { lits.new.items ≡ clause_of lits.old.items }
    ensures ordered { IsOrdered lits.new.items }
{
    // Most clauses are printed in order, and sorting again would take longer than all else.
    if climbs(lits) {
        return;
    }
    order_literals(lits);
}

/// Whether each literal comes before the next.
fn climbs(lits: &[Lit]) -> bool
    ensures { result ≡ climbs_from 0 lits.now }
{
    let mut least: u32 = 0;
    for l in lits {
        let code = l.code();
        if code < least {
            return false;
        }
        least = code + 1;
    }
    true
}
