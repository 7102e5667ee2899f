use crate::items::Items;
use fabric::Geometry;
use script_defs::{Command, FileUse};

/// The script of a session: its device, the files that it uses, and what each lane does.
/// `script_of` gives the plain record that definitions speak of.
#[derive(Debug, Drop)]
pub struct Script {
    /// The fabric of each slot.
    pub geometry: Geometry,
    /// How many slots there are, 1 to 16.
    pub slots: u32,
    /// The most entries that the journal may have, 1 to 65,536.
    pub limit: u32,
    /// How many workers check a delivery, 1 to 64.
    pub workers: u32,
    /// The files, each with what it is read as, in the order of their first mention.
    pub files: Items<FileUse>,
    /// The commands of each lane, for 1 to 8 lanes.
    pub lanes: Items<Items<Command>>,
}
