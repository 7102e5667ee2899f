//! What evaluators answer. Each answer says after how many entries of the journal it holds.

use eval_lanes::Ones;
use netlist::Net;
use slot_core::Cycle;
use std::sync::Arc;

/// The answer to a sweep.
#[derive(Clone, Copy, Debug)]
pub enum Sweep {
    /// How many of the values make each output one, and how many outputs the agreed net has.
    Ones { counts: Ones, outputs: u32, at: u32 },
    /// Nothing runs in the slot.
    Vacant { at: u32 },
}

/// The answer to who asks for the agreed net of a slot.
#[derive(Drop)]
pub enum Look {
    /// This net is agreed.
    Agreed { net: Arc<Net>, at: u32 },
    /// No net is agreed.
    Unagreed { at: u32 },
}

/// The answer to a cycle, beside what is agreed at the same point.
#[derive(Drop)]
pub struct Since {
    /// The answer to the cycle.
    pub cycle: Cycle,
    /// The agreed net of the slot, where there is one.
    pub net: Option<Arc<Net>>,
    /// The number of the slot's last agreement, 0 where there is none.
    pub agreed: u32,
}
