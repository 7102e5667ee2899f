/// The most bytes that the file of a bundle may have: those of the longest configuration and of the
/// longest trace, and of what stands round them. Only loading needs it: a reader of bundles has no
/// such limit.
pub const MAX_BUNDLE_BYTES: u64 = 134_333_112;
