/// What an entry of the journal is.
#[derive(Clone, Copy, Debug, PartialEq, Eq)]
pub enum EntryKind {
    /// A specification was agreed.
    Agreed,
    /// A configuration was installed.
    Installed,
    /// The slot was emptied.
    Evicted,
}

/// An entry of the journal as a transcript shows it: what it is, and the lane, the turn and the slot of
/// the command that made it, all counted from 0.
#[derive(Clone, Copy, Debug, PartialEq, Eq)]
pub struct Line {
    /// What the entry is.
    pub kind: EntryKind,
    /// The lane of the command.
    pub lane: u32,
    /// The place of the command in its lane.
    pub turn: u32,
    /// The slot of the command.
    pub slot: u32,
}
