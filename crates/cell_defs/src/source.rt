/// Where a pin or an output pad listens.
#[derive(Clone, Copy, Debug, PartialEq, Eq)]
pub enum Source {
    /// Nowhere: its bit is 0.
    Zero,
    /// An input pad, counted from 0.
    Pad(u32),
    /// A cell, by its number.
    Cell(u32),
}
