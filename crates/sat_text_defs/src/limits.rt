/// The greatest length of a CNF, in bytes.
pub const MAX_CNF_BYTES: u32 = 67_108_864;

/// The greatest length of a trace, in bytes.
pub const MAX_TRACE_BYTES: u32 = 134_217_728;
