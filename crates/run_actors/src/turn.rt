/// A turn of a lane, at which it asks for what its command says. Both count from 0.
#[derive(Clone, Copy, Debug)]
pub(crate) struct Turn {
    /// The lane.
    pub(crate) lane: u32,
    /// The number of the command in its lane.
    pub(crate) number: u32,
}
