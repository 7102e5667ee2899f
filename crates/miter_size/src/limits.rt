/// The most words that the derived clauses of a log over a miter may have.
pub const MAX_BUDGET: u32 = 4_194_304;

/// The most words that the clauses of a miter have in a trace: six for each mark and twelve for each
/// row, four for each node, ten for each of the 64 clauses of a cell, 24 for each output, and those
/// of the first and of the last clause.
pub const MAX_MITER_WORDS: u32 = 4_212_295;

/// The most bytes that a word of a trace is printed with: those of the greatest index, and the blank
/// behind it.
pub const MAX_WORD_BYTES: u32 = 11;
