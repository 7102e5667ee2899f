use crate::faults::NetError;
use blif_defs::BlifError;

/// Why a text specifies no net: its first fault, or that memory was wanting. `IsSpecFault` says which
/// texts have which fault; no text has `NoMemory`, neither here nor in what these variants hold.
#[derive(Clone, Copy, Debug, PartialEq, Eq)]
pub enum SpecError {
    /// The first fault of the text.
    Text(BlifError),
    /// The text describes a design, and this is the design's first fault.
    Network(NetError),
    /// Memory was wanting.
    NoMemory,
}
