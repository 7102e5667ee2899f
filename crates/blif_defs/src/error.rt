ghost use Rattle.std.specs.Prelude.{◌≡◌};
ghost use Rattle.blif_defs.specs.declared.error.BlifError.TheVariants.{NoMemory};

use std::alloc::{AllocError, AllocFailed};
use thiserror::Error;

/// The first fault of a text, or that memory was wanting. Lines count from 1, and a joined line has the
/// number of its first line. `BlifFault` says which texts have which fault; no text has `NoMemory`.
#[derive(Clone, Copy, Debug, PartialEq, Eq, Error)]
pub enum BlifError {
    /// The text has more than `MAX_BYTES` bytes.
    #[error("too-long")]
    TooLong,
    /// A word has a byte that may not stand in it or ends with `\`, or the line has no right form.
    #[error("syntax {line}")]
    Syntax { line: u32 },
    /// The line begins with a word with a dot that this profile doesn't read, or `.model` comes late.
    #[error("unsupported {line}")]
    Unsupported { line: u32 },
    /// The row's output differs from that of an earlier row of its cover.
    #[error("mixed {line}")]
    Mixed { line: u32 },
    /// An input or the output of a cover is already an input or the output of a cover.
    #[error("double-driven {line}")]
    DoubleDriven { line: u32 },
    /// An output is already an output.
    #[error("repeated-output {line}")]
    RepeatedOutput { line: u32 },
    /// There are too many inputs, outputs, inputs of a cover, or signals.
    #[error("limit {line}")]
    Limit { line: u32 },
    /// No line is faulty, and there is no output.
    #[error("no-outputs")]
    NoOutputs,
    /// Memory was wanting.
    #[error("no-memory")]
    NoMemory,
}

impl From<AllocError> for BlifError {
    ghost from_gives = { λ _ e. e ≡ NoMemory };

    fn from(_error: AllocError) -> BlifError {
        BlifError::NoMemory
    }
}

impl<T: Drop> From<AllocFailed<T>> for BlifError {
    ghost from_gives = { λ _ e. e ≡ NoMemory };

    fn from(_error: AllocFailed<T>) -> BlifError {
        BlifError::NoMemory
    }
}
