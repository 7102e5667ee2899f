/// The greatest variable that a literal may have.
pub const MAX_VARIABLE: u32 = 16_777_216;

/// The greatest index that a clause of a trace may have.
pub const MAX_INDEX: u32 = 2_147_483_647;

/// The greatest number of clauses that a list of clauses or a trace may have.
pub const MAX_CLAUSES: u32 = 2_147_483_647;

/// How many literals the clauses of a trace whose literals aren't stated may have together, wherever
/// the program checks a trace.
pub const MAX_COMPUTED: u32 = 67_108_864;

/// The first faulty step of a chain, or that its result isn't the stated clause.
///
/// `clause` is the index that the trace gives the clause. Step `i` resolves the running clause with
/// antecedent number `i + 1`, both counted from 1.
#[derive(Clone, Copy, Debug, PartialEq, Eq)]
pub enum ChainError {
    /// No literal of the running clause has its negation in the antecedent.
    NoClash { clause: u32, step: u32 },
    /// Two or more literals of the running clause have their negation in the antecedent.
    ManyClash { clause: u32, step: u32 },
    /// Every step passes, and the result isn't the stated clause as a set.
    Other { clause: u32 },
}

/// What a trace shows of a list of clauses: that it refutes the list, or its first fault.
#[derive(Clone, Copy, Debug, PartialEq, Eq)]
pub enum Verdict {
    /// No clause is faulty, and the last one is empty.
    Refutes,
    /// The clause with this index has no antecedents, and no clause of the list is that set.
    NotOriginal { clause: u32 },
    /// The chain of a clause is faulty.
    Chain(ChainError),
    /// The clauses up to this one whose literals aren't stated have more literals together than the
    /// limit allows.
    TooWide { clause: u32 },
    /// No clause is faulty, and there is no clause or the last one isn't empty.
    NotEmptyEnd,
}
