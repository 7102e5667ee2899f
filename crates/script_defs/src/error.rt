ghost use Rattle.std.specs.Prelude.{◌≡◌};
ghost use Rattle.script_defs.specs.declared.error.ScriptError.TheVariants.{NoMemory};

use pch_base::NoMemory;
use std::alloc::{AllocError, AllocFailed};
use thiserror::Error;

/// The first fault of a text, or that memory was wanting. Lines count from 1. `ScriptFault` says which
/// texts have which fault; no text has `NoMemory`.
#[derive(Clone, Copy, Debug, PartialEq, Eq, Error)]
pub enum ScriptError {
    /// The text has more than `MAX_SCRIPT_BYTES` bytes.
    #[error("too-long")]
    TooLong,
    /// The first line that can't stand where it does, or the line behind the last one where the text
    /// ends too early.
    #[error("{line}")]
    Line { line: u32 },
    /// Memory was wanting.
    #[error("no-memory")]
    NoMemory,
}

impl From<AllocError> for ScriptError {
    ghost from_gives = { λ _ e. e ≡ NoMemory };

    fn from(_error: AllocError) -> ScriptError {
        ScriptError::NoMemory
    }
}

impl<T: Drop> From<AllocFailed<T>> for ScriptError {
    ghost from_gives = { λ _ e. e ≡ NoMemory };

    fn from(_error: AllocFailed<T>) -> ScriptError {
        ScriptError::NoMemory
    }
}

impl From<NoMemory> for ScriptError {
    ghost from_gives = { λ _ e. e ≡ NoMemory };

    fn from(_error: NoMemory) -> ScriptError {
        ScriptError::NoMemory
    }
}
