/// The most bytes that a text may have.
pub const MAX_BYTES: usize = 262_144;

/// The most inputs and the most outputs that a design may have, and the most inputs of a cover.
pub const MAX_PORTS: usize = 64;

/// The most signals that a design may have: inputs and covers.
pub const MAX_SIGNALS: usize = 4_096;

/// What a row of a cover asks of one input: `0`, `1` or `-` in the text.
#[derive(Clone, Copy, Debug, PartialEq, Eq)]
pub enum Mark {
    /// The input is 0.
    Zero,
    /// The input is 1.
    One,
    /// The input may be either.
    Any,
}
