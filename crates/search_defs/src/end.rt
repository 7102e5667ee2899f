/// How a search by clause learning ended.
#[derive(Clone, Copy, Debug, PartialEq, Eq)]
pub enum CdclEnd {
    /// The empty clause was derived, with this index.
    Empty { index: u32 },
    /// Each variable has a value, and each clause of the formula a true literal.
    Point,
    /// The words of the derived clauses and of the next one together are more than the limit: `used`
    /// words are the log's, and `need` are that clause's.
    Spent { used: u32, need: u32 },
}
