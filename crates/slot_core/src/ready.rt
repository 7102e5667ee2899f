//! Entries that are ready to be applied: what comes in is an entry, what goes out is the same entry
//! with its own owner of what the entry leaves in its slot.

ghost use Rattle.std.specs.Prelude.{◌≡◌, IfOk};
ghost use Rattle.slot_core.specs.Entries.{entry_value};
ghost use Rattle.slot_core.specs.Shares.{IsLeftBy};

use crate::entry::Entry;
use fabric::Config;
use netlist::Net;
use pch_base::NoMemory;
use std::alloc::AllocError;
use std::marker::Model;
use std::sync::Arc;

/// What an entry leaves in its slot.
#[derive(Drop)]
pub(crate) enum Share {
    /// The net that is agreed.
    Net(Arc<Net>),
    /// The configuration that runs.
    Config(Arc<Config>),
    /// Nothing.
    Nothing,
}

impl Share {
    /// What the entry leaves. Fails only where a count of owners is full.
    fn of(e: &Entry) -> Result<Share, AllocError>
        ensures { IfOk result (IsLeftBy (entry_value e.now).change) }
    {
        match e {
            Entry::Agreed { net, .. } => Ok(Share::Net(Arc::try_clone(net)?)),
            Entry::Installed { config, .. } => Ok(Share::Config(Arc::try_clone(config)?)),
            Entry::Evicted { .. } => Ok(Share::Nothing),
        }
    }
}

/// An entry with all that a table needs to append it. Contracts see the plain value of the entry.
#[derive(Drop)]
pub struct Ready {
    pub(crate) entry: Entry,
    /// What the entry leaves in its slot.
    pub(crate) share: Share,
}

impl Model for Ready {
    ghost use Rattle.journal_defs.specs.Journals.{EntryValue};
    ghost use Rattle.slot_core.specs.Entries.{entry_value};
    ghost use Rattle.slot_core.specs.Shares.{IsLeftBy};

    ghost Value = { EntryValue };

    ghost view = { λ r. entry_value r.entry };

    ghost invariant = { λ r. IsLeftBy (entry_value r.entry).change r.share };
}

impl Ready {
    /// The same entry. It allocates nothing, and answers `NoMemory` only where a count of owners of a
    /// shared part is full.
    pub fn of(e: &Entry) -> Result<Ready, NoMemory>
        ensures { IfOk result (λ r. r ≡ entry_value e.now) }
    {
        let share = Share::of(e)?;
        let entry = e.again()?;
        Ok(Ready { entry, share })
    }

    /// The slot that the entry changes.
    pub(crate) fn slot(&self) -> u32
        ensures { result ≡ self.now.slot }
    {
        self.entry.slot()
    }
}
