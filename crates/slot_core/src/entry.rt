ghost use Rattle.std.specs.Prelude.{◌≡◌, IfOk};
ghost use Rattle.slot_core.specs.Entries.{entry_value};

use fabric::Config;
use netlist::Net;
use std::alloc::AllocError;
use std::sync::Arc;

/// An entry of the journal: what a lane did at one of its turns to one slot. Lanes, turns and slots are
/// counted from 0.
#[derive(Drop)]
pub enum Entry {
    /// The net is agreed for the slot, and nothing runs there until a configuration is installed.
    Agreed {
        lane: u32,
        turn: u32,
        slot: u32,
        net: Arc<Net>,
    },
    /// The configuration, which was checked against the net, runs in the slot.
    Installed {
        lane: u32,
        turn: u32,
        slot: u32,
        net: Arc<Net>,
        config: Arc<Config>,
    },
    /// Nothing runs in the slot. The agreed net stays.
    Evicted {
        lane: u32,
        turn: u32,
        slot: u32,
    },
}

impl Entry {
    /// The slot that this entry changes.
    pub fn slot(&self) -> u32
        ensures { result ≡ (entry_value self.now).slot }
    {
        match self {
            Entry::Agreed { slot, .. } => *slot,
            Entry::Installed { slot, .. } => *slot,
            Entry::Evicted { slot, .. } => *slot,
        }
    }

    /// The same entry, which owns what it shares once more. Fails only where a count of owners is
    /// full.
    pub(crate) fn again(&self) -> Result<Entry, AllocError>
        ensures { IfOk result (λ e. entry_value e ≡ entry_value self.now) }
    {
        match self {
            Entry::Agreed {
                lane,
                turn,
                slot,
                net,
            } => Ok(Entry::Agreed {
                lane: *lane,
                turn: *turn,
                slot: *slot,
                net: Arc::try_clone(net)?,
            }),
            Entry::Installed {
                lane,
                turn,
                slot,
                net,
                config,
            } => Ok(Entry::Installed {
                lane: *lane,
                turn: *turn,
                slot: *slot,
                net: Arc::try_clone(net)?,
                config: Arc::try_clone(config)?,
            }),
            Entry::Evicted { lane, turn, slot } => Ok(Entry::Evicted {
                lane: *lane,
                turn: *turn,
                slot: *slot,
            }),
        }
    }
}
