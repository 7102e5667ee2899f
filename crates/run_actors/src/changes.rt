//! The commands that change a slot: agreements, evictions, and installations of what was accepted.

ghost use Rattle.std.specs.Prelude.{◌≡◌, ℕ, ◌<◌, ◌≤◌, ◌↔◌, IsTrue, List, length, IfOk, Some};
ghost use Rattle.std.specs.Arc.{arc_value};
ghost use Rattle.std.specs.Option.{option_map};
ghost use Rattle.journal_defs.specs.Journals.{spec_at};
ghost use Rattle.verify_defs.specs.Acceptance.{AcceptsWith};
ghost use Rattle.script_defs.specs.declared.command.Command.TheVariants.{Agree, Deliver, Evict};
ghost use Rattle.session_defs.specs.Files.{Contents, DescribesNet, IsDelivery};
ghost use Rattle.session_defs.specs.Replies.{IsAgreedAfter};
ghost use Rattle.run_script.specs.Replies.{reply_of};
ghost use Rattle.run_actors.specs.Steps.{Answered};

use crate::device::Device;
use crate::turn::Turn;
use netlist::{Net, same};
use pch_base::NoMemory;
use run_script::Reply;
use slot_core::Entry;
use std::sync::Arc;
use verify::Verified;

impl Device {
    /// Agrees the net for the slot.
    pub(crate) fn agree(&mut self, at: Turn, slot: u32, net: &Arc<Net>) -> Result<Reply, NoMemory>
        requires { slot < self.old.slots }
        ensures { IfOk result (λ r. (files : List Contents) (file : ℕ)
            → DescribesNet files file (arc_value net.now)
            → Answered files (length self.old.journal) at (Agree slot file) (reply_of r)
            self.old self.new) }
    {
        if self.is_full() {
            return Ok(Reply::Full {
                at: self.table.len(),
            });
        }
        let entry = Entry::Agreed {
            lane: at.lane,
            turn: at.number,
            slot,
            net: net.clone()?,
        };
        Ok(Reply::Agreed {
            at: self.append(&entry)?,
        })
    }

    /// Takes what runs out of the slot.
    pub(crate) fn evict(&mut self, at: Turn, slot: u32) -> Result<Reply, NoMemory>
        requires { slot < self.old.slots }
        ensures { IfOk result (λ r. (files : List Contents)
            → Answered files (length self.old.journal) at (Evict slot) (reply_of r)
            self.old self.new) }
    {
        if self.is_full() {
            return Ok(Reply::Full {
                at: self.table.len(),
            });
        }
        let entry = Entry::Evicted {
            lane: at.lane,
            turn: at.number,
            slot,
        };
        Ok(Reply::Evicted {
            at: self.append(&entry)?,
        })
    }

    /// The agreed net of the slot, where there is one.
    pub(crate) fn ticket(&self, slot: u32) -> Result<Option<Arc<Net>>, NoMemory>
        requires { slot < self.now.slots }
        ensures { IfOk result (λ net. option_map arc_value net ≡ spec_at self.now.journal slot) }
    {
        match &self.table.look(slot).net {
            Some(net) => Ok(Some(net.clone()?)),
            None => Ok(None),
        }
    }

    /// Whether the net is the agreed one of the slot.
    fn is_agreed(&self, slot: u32, net: &Net) -> bool
        requires { slot < self.now.slots }
        ensures { IsTrue result ↔ (spec_at self.now.journal slot ≡ Some net.now) }
    {
        match &self.table.look(slot).net {
            Some(agreed) => same(agreed, net),
            None => false,
        }
    }

    /// Installs in the slot the configuration of a bundle that was accepted for a net. This net was
    /// the agreed one after `checked` entries.
    pub(crate) fn install(
        &mut self,
        at: Turn,
        slot: u32,
        checked: u32,
        accepted: Verified,
    ) -> Result<Reply, NoMemory>
        requires slot { slot < self.old.slots }
        requires geometry { accepted.config.geometry ≡ self.old.geometry }
        ensures { IfOk result (λ r. (files : List Contents) (file : ℕ) (bytes : List ℕ)
            → IsDelivery files file bytes
            → AcceptsWith self.old.geometry accepted.net bytes accepted.config
            → IsAgreedAfter self.old.journal checked slot accepted.net
            → checked ≤ length self.old.journal
            → Answered files checked at (Deliver slot file) (reply_of r) self.old self.new) }
    {
        if !self.is_agreed(slot, accepted.net()) {
            return Ok(Reply::Stale {
                checked,
                at: self.table.len(),
            });
        }
        if self.is_full() {
            return Ok(Reply::Full {
                at: self.table.len(),
            });
        }
        let (net, config) = accepted.into_parts();
        let entry = Entry::Installed {
            lane: at.lane,
            turn: at.number,
            slot,
            net,
            config,
        };
        Ok(Reply::Installed {
            at: self.append(&entry)?,
        })
    }
}
