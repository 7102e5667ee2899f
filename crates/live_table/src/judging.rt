//! How an installation stands to what is agreed for its slot.

ghost use Rattle.std.specs.Prelude.{◌≡◌, ◌<◌, IsTrue, length, Some, None};
ghost use Rattle.miter_defs.specs.Equality.{Equal};
ghost use Rattle.journal_defs.specs.Journals.{spec_at};
ghost use Rattle.journal_defs.specs.Legality.{IsInstallable};
ghost use Rattle.live_table.specs.Changes.{IsStanding};

use fabric::Config;
use netlist::{Net, same};
use slot_core::Table;

/// How a net stands to the one that is agreed for a slot.
#[derive(Clone, Copy, Debug, Drop, PartialEq, Eq)]
pub enum Standing {
    /// It is the agreed one.
    Agreed,
    /// Another one is agreed.
    Stale,
    /// None is agreed.
    Unagreed,
}

/// How the net stands to the agreed one of the slot.
pub fn standing_of(t: &Table, slot: u32, net: &Net) -> Standing
    requires { slot < t.now.slots }
    ensures { IsStanding (spec_at t.now.journal slot) net.now result }
{
    match &t.look(slot).net {
        Some(agreed) if same(agreed, net) => Standing::Agreed,
        Some(_) => Standing::Stale,
        None => Standing::Unagreed,
    }
}

/// Whether the configuration, which is equal to the net, can be installed in the slot.
pub(crate) fn installs_well(t: &Table, slot: u32, net: &Net, config: &Config) -> bool
    requires slot { slot < t.now.slots }
    requires equal { Equal net.now config.now }
    ensures { IsTrue result → IsInstallable t.now.geometry t.now.journal slot net.now config.now }
{
    config.geometry() == t.geometry() && standing_of(t, slot, net) == Standing::Agreed
}
