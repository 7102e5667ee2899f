//! What is published: a table with a front that stands for its journal.

ghost use Rattle.std.specs.Prelude.{◌≡◌, ◌<◌, length, IsTrue};
ghost use Rattle.journal_defs.specs.Legality.{CanFollow};
ghost use Rattle.slot_core.specs.Entries.{entry_value};
ghost use Rattle.live_table.specs.Changes.{IsChecked};

use crate::front::Front;
use crate::judging::installs_well;
use left_right::Absorb;
use slot_core::{Entry, Ready, Table};
use std::alloc::AllocError;
use std::marker::Model;

/// A table with a front that stands for its journal.
#[derive(Drop)]
pub(crate) struct Published {
    pub(crate) table: Table,
    pub(crate) front: Front,
}

/// An entry on its way into both copies, with the front that stands for the journal then. An installed
/// configuration is equal to its net.
#[derive(Drop)]
pub(crate) struct Change {
    entry: Entry,
    front: Front,
}

impl Model for Change {
    ghost use Rattle.slot_core.specs.Entries.{entry_value};
    ghost use Rattle.live_table.specs.Values.{ChangeValue};
    ghost use Rattle.live_table.specs.Changes.{IsChecked};

    ghost Value = { ChangeValue };

    ghost view = { λ c. record { entry = entry_value c.entry; front = c.front } };

    ghost invariant = { λ c. IsChecked (entry_value c.entry).change };
}

impl Change {
    /// The entry, which was checked, with its front.
    pub(crate) fn new(entry: Entry, front: Front) -> Change
        requires { IsChecked (entry_value entry).change }
        ensures { result ≡ record { entry = entry_value entry; front = front } }
    {
        Change { entry, front }
    }
}

/// Whether the entry can come next in the table.
fn can_take(t: &Table, e: &Entry) -> bool
    requires { IsChecked (entry_value e.now).change }
    ensures { IsTrue result → (length t.now.journal < t.now.limit)
        × ((entry_value e.now).slot < t.now.slots)
        × CanFollow t.now.geometry t.now.journal (entry_value e.now) }
{
    if t.len() >= t.limit() || e.slot() as usize >= t.slots() {
        return false;
    }
    match e {
        Entry::Installed {
            slot,
            net,
            config,
            ..
        } => installs_well(t, *slot, net, config),
        _ => true,
    }
}

impl Absorb<Change> for Published {
    ghost use Rattle.live_table.specs.Values.{with_entry};

    type State = Published;

    ghost state = { λ p. p };

    ghost applied = { λ p c. record { table = with_entry p.table c.entry; front = c.front } };

    fn absorb_first(&mut self, operation: &Change, _other: &Published) -> Result<(), AllocError> {
        if !can_take(&self.table, &operation.entry) {
            return Err(AllocError);
        }
        let ready = Ready::of(&operation.entry).map_err(|_| AllocError)?;
        self.table.apply(ready);
        self.front = operation.front.again();
        Ok(())
    }
}
