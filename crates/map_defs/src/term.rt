use cell_defs::Source;

/// A source, or its negation.
#[derive(Clone, Copy, Debug)]
pub struct Term {
    /// Where it listens.
    pub source: Source,
    /// Whether it is the source itself and not its negation.
    pub positive: bool,
}
