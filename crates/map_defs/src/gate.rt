/// How a gate joins its terms.
#[derive(Clone, Copy, Debug, PartialEq, Eq)]
pub enum Gate {
    /// All of them are true.
    Conjunction,
    /// At least one of them is true.
    Disjunction,
}
