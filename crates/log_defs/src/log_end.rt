/// Why a log took no clause.
#[derive(Clone, Copy, Debug, PartialEq, Eq)]
pub enum LogEnd {
    /// The log has derived this clause already, with this index.
    Kept { index: u32 },
    /// The words of the derived clauses and of this one together are more than the budget: `used` words
    /// are the log's, and `need` are the clause's.
    Spent { used: u32, need: u32 },
}
