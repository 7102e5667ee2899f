//! The place of one slot in a table.

ghost use Rattle.std.specs.Prelude.{◌≡◌};
ghost use Rattle.journal_defs.specs.Journals.{Change};
ghost use Rattle.slot_core.specs.Shares.{IsLeftBy};
ghost use Rattle.slot_core.specs.Slots.{IsChanged, no_place};

use crate::ready::Share;
use crate::slot::Slot;

/// A slot with the number of its last agreement.
#[derive(Drop)]
pub(crate) struct Place {
    pub(crate) slot: Slot,
    /// The number of the slot's last agreement in the journal, counted from 1; 0 where there is none.
    pub(crate) agreed: u32,
}

impl Place {
    /// A slot before the first entry.
    pub(crate) fn vacant() -> Place
        ensures { result ≡ no_place }
    {
        Place {
            slot: Slot {
                net: None,
                config: None,
            },
            agreed: 0,
        }
    }

    /// Takes what an entry with this number leaves. Whatever the entry is, a configuration that ran
    /// before it runs no more.
    pub(crate) fn take(&mut self, share: Share, number: u32)
        ensures { (c : Change) → IsLeftBy c share → IsChanged c number self.old self.new }
    {
        match share {
            Share::Net(net) => {
                self.slot.net = Some(net);
                self.slot.config = None;
                self.agreed = number;
            }
            Share::Config(config) => self.slot.config = Some(config),
            Share::Nothing => self.slot.config = None,
        }
    }
}
