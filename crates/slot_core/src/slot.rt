use fabric::Config;
use netlist::Net;
use std::sync::Arc;

/// What a slot has.
#[derive(Drop)]
pub struct Slot {
    /// The net that is agreed for it, where one is.
    pub net: Option<Arc<Net>>,
    /// The configuration that runs in it, where one does. It is equal to the agreed net.
    pub config: Option<Arc<Config>>,
}
