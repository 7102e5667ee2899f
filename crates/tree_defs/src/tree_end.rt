use pch_base::Bits;

/// How the search for a refutation of a miter ended.
#[derive(Clone, Copy, Debug)]
pub enum TreeEnd {
    /// The clause of the log with this index is empty: the two circuits are equal.
    Empty { index: u32 },
    /// Where the inputs have the bits `x`, some output of the two circuits differs.
    Differs { x: Bits },
    /// The next clause is over the log's budget: `used` words are the log's, and `need` are the clause's.
    Spent { used: u32, need: u32 },
}
