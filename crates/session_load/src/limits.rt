/// The most bytes that all files of a session may have, its script not counted.
pub const MAX_SESSION_BYTES: u64 = 536_870_912;
