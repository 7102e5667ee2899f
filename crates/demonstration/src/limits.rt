/// How many words the derived clauses of the bundle's trace may have.
pub const BUDGET: u32 = 2_097_152;

/// How many pieces of the trace the consumer checks beside each other.
pub const WORKERS: u32 = 4;

/// Values of so many bits are counted; of fewer bits where there are fewer inputs.
pub const MAX_COUNTED_BITS: u32 = 16;
