use fabric::Geometry;

/// The parts of a bundle. Nothing is said of what the bytes of its configuration and its trace are.
#[derive(Clone, Copy, Debug)]
pub struct Bundle<'a> {
    /// 1, 2 or 3. The cells of the geometry have six inputs where it is 3, else four. From 2 on the
    /// trace may be compact.
    pub version: u16,
    /// The fabric for which the configuration is.
    pub geometry: Geometry,
    /// The words of the configuration.
    pub config: &'a [u8],
    /// The text of the trace.
    pub trace: &'a [u8],
}
