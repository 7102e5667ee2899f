ghost use Rattle.std.specs.Prelude.{◌≡◌};
ghost use Rattle.sat_text_defs.specs.declared.errors.CnfError.TheVariants as cnf;
ghost use Rattle.sat_text_defs.specs.declared.errors.TraceError.TheVariants as trace;

use pch_base::NoMemory;
use std::alloc::{AllocError, AllocFailed};
use thiserror::Error;

/// Why a CNF can't be had of a text: the one fault that the format determines, or want of memory.
/// Offsets count bytes from 0.
#[derive(Clone, Copy, Debug, PartialEq, Eq, Error)]
pub enum CnfError {
    /// The text has more than [`MAX_CNF_BYTES`](crate::MAX_CNF_BYTES) bytes.
    #[error("too-long")]
    TooLong,
    /// The first token that can't stand where it does begins at `at`, or the text ends too early and
    /// has that many bytes.
    #[error("syntax {at}")]
    Syntax { at: u32 },
    /// The first literal whose variable is greater than the header's number begins at `at`.
    #[error("var-range {at}")]
    VarRange { at: u32 },
    /// The header says `said` clauses, and the text has `found`.
    #[error("count {said} {found}")]
    Count { said: u32, found: u32 },
    /// Memory was wanting.
    #[error("no-memory")]
    NoMemory,
}

/// Why a trace can't be had of a text: the one fault that the format determines, or want of memory.
/// Offsets count bytes from 0.
#[derive(Clone, Copy, Debug, PartialEq, Eq, Error)]
pub enum TraceError {
    /// The text has more than [`MAX_TRACE_BYTES`](crate::MAX_TRACE_BYTES) bytes.
    #[error("too-long")]
    TooLong,
    /// The first token that can't stand where it does begins at `at`, or the text ends inside a clause
    /// and has that many bytes.
    #[error("syntax {at}")]
    Syntax { at: u32 },
    /// An earlier clause has the index of this one.
    #[error("repeated {index}")]
    Repeated { index: u32 },
    /// The clause with this index has an antecedent that is no index of an earlier clause.
    #[error("unknown {index} {antecedent}")]
    Unknown { index: u32, antecedent: u32 },
    /// Memory was wanting.
    #[error("no-memory")]
    NoMemory,
}

impl From<AllocError> for CnfError {
    ghost from_gives = { λ _ e. e ≡ cnf.NoMemory };

    fn from(_error: AllocError) -> CnfError {
        CnfError::NoMemory
    }
}

impl<T: Drop> From<AllocFailed<T>> for CnfError {
    ghost from_gives = { λ _ e. e ≡ cnf.NoMemory };

    fn from(_error: AllocFailed<T>) -> CnfError {
        CnfError::NoMemory
    }
}

impl From<NoMemory> for CnfError {
    ghost from_gives = { λ _ e. e ≡ cnf.NoMemory };

    fn from(_error: NoMemory) -> CnfError {
        CnfError::NoMemory
    }
}

impl From<AllocError> for TraceError {
    ghost from_gives = { λ _ e. e ≡ trace.NoMemory };

    fn from(_error: AllocError) -> TraceError {
        TraceError::NoMemory
    }
}

impl<T: Drop> From<AllocFailed<T>> for TraceError {
    ghost from_gives = { λ _ e. e ≡ trace.NoMemory };

    fn from(_error: AllocFailed<T>) -> TraceError {
        TraceError::NoMemory
    }
}

impl From<NoMemory> for TraceError {
    ghost from_gives = { λ _ e. e ≡ trace.NoMemory };

    fn from(_error: NoMemory) -> TraceError {
        TraceError::NoMemory
    }
}
