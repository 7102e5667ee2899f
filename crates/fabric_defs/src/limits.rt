/// The most columns, rows, input pads and output pads that a fabric may have.
pub const MAX_SIDE: u32 = 64;

/// The most tracks that a channel may have.
pub const MAX_TRACKS: u32 = 256;

/// How many bits each word of a configuration has.
pub const WORD_BITS: u32 = 16;

/// The greatest word of a configuration.
pub const MAX_WORD: u32 = 65_535;

/// The most pins that a cell of any kind has.
pub const MAX_PINS: u32 = 6;

/// The most words that a cell of any kind has, its pins and its table.
pub const MAX_CELL_WORDS: u32 = 10;
