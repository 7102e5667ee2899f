/// What a line is, by its first word.
#[derive(Clone, Copy, Debug, PartialEq, Eq)]
pub enum LineKind {
    /// `.model`
    Model,
    /// `.inputs`
    Inputs,
    /// `.outputs`
    Outputs,
    /// `.names`
    Names,
    /// `.end`
    End,
    /// Any other word that begins with `.`
    Other,
    /// A row of the open cover.
    Row,
}
