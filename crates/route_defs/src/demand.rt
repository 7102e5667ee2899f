/// What a fabric may have too little of.
#[derive(Clone, Copy, Debug, PartialEq, Eq)]
pub enum Resource {
    /// Pads for inputs.
    InputPads,
    /// Pads for outputs.
    OutputPads,
    /// Columns of cells.
    Columns,
    /// Cells of one column.
    Cells,
    /// Tracks of one channel.
    Tracks,
}

/// How much of a resource is needed, and how much is there.
#[derive(Clone, Copy, Debug, PartialEq, Eq)]
pub struct Demand {
    /// What is needed.
    pub resource: Resource,
    /// The column or the channel; 0 where there is but one of the resource.
    pub place: u32,
    /// How much of it is needed.
    pub need: u32,
    /// How much of it is there.
    pub have: u32,
}
