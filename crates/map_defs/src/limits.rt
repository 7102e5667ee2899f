/// How many terms a cell of the reference mapping joins at most. A node with at most so many fan-ins
/// is one cell.
pub const GROUP: u32 = 4;

/// How many bits the table of a mapped cell has.
pub const TABLE_BITS: u32 = 64;

/// Inputs, cells and outputs of a mapping are each fewer than this.
pub const MAX_COUNT: u32 = 2_147_483_648;
