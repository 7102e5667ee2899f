use pch_base::{Bits, Name};

/// What a file of a session is read as.
#[derive(Clone, Copy, Debug, PartialEq, Eq)]
pub enum Kind {
    /// The text of a specification.
    Spec,
    /// A delivered bundle.
    Bundle,
}

/// A file that a script names, and what it is read as.
#[derive(Debug, Drop)]
pub struct FileUse {
    /// What the file is read as.
    pub kind: Kind,
    /// The name of the file.
    pub name: Name,
}

/// A command of a lane. Slots and the cells of a slot are counted from 0, and files by their place in
/// the script's list.
#[derive(Clone, Copy, Debug)]
pub enum Command {
    /// The specification of this file is agreed for the slot.
    Agree { slot: u32, file: u32 },
    /// The bundle of this file is delivered to the slot.
    Deliver { slot: u32, file: u32 },
    /// Nothing is to run in the slot.
    Evict { slot: u32 },
    /// The outputs of the slot for these input bits, and the bit of cell `probe`.
    Cycle { slot: u32, bits: Bits, probe: u32 },
    /// How many of the `count` values from `first` on make each output of the slot one.
    Sweep { slot: u32, first: u64, count: u32 },
}
