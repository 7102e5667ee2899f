/// The most bytes that the text of a script may have.
pub const MAX_SCRIPT_BYTES: usize = 1_048_576;

/// The most slots that a device may have.
pub const MAX_SLOTS: u32 = 16;

/// The most entries that the limit of a journal may allow.
pub const MAX_JOURNAL: u32 = 65_536;

/// The most workers that may check a delivery.
pub const MAX_WORKERS: u32 = 64;

/// The most lanes that a script may have.
pub const MAX_LANES: u32 = 8;

/// The most commands that a script may have, in all its lanes.
pub const MAX_COMMANDS: u32 = 65_536;

/// The most values that one sweep may count over.
pub const MAX_SWEEP: u32 = 1_048_576;
