/// The greatest version; the least is 1.
pub(crate) const LAST_VERSION: u16 = 3;

/// The version whose fabrics have cells of six inputs.
pub(crate) const SIX_INPUTS_VERSION: u16 = 3;

/// How many bytes stand before the configuration: `PCHB`, the version, the geometry and the
/// configuration's length.
pub(crate) const HEAD_BYTES: usize = 20;

/// How many bytes a length has.
pub(crate) const LENGTH_BYTES: usize = 4;

/// How many bytes the digest has.
pub(crate) const DIGEST_BYTES: usize = 32;
