/// Why bytes are no bundle: the first fault.
#[derive(Clone, Copy, Debug, PartialEq, Eq)]
pub enum BundleError {
    /// The first four bytes aren't `PCHB`.
    Magic,
    /// There are too few bytes for the head, or not exactly as many as both lengths demand.
    Lengths,
    /// The version is none of 1, 2 and 3.
    Version { found: u32 },
    /// A number of the geometry is outside its limits.
    Geometry,
    /// The last 32 bytes aren't the digest of all before.
    Digest,
}
