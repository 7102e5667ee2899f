//! What calls answer in place of their value.

ghost use Rattle.std.specs.Prelude.{◌≡◌};
ghost use Rattle.slot_live.specs.declared.errors.ControlError.TheVariants as control_ends;
ghost use Rattle.slot_live.specs.declared.errors.OpenError.TheVariants as open_ends;

use pch_base::NoMemory;
use thiserror::Error;

/// Why an entry was refused. Nothing was published then.
#[derive(Clone, Copy, Debug, Drop, Error, PartialEq, Eq)]
pub enum ControlError {
    /// No net is agreed for the slot. The journal has `at` entries.
    #[error("no net is agreed at {at}")]
    Unagreed { at: u32 },
    /// The agreed net isn't the one that was checked. The journal has `at` entries.
    #[error("another net is agreed at {at}")]
    Stale { at: u32 },
    /// The journal has as many entries as it may.
    #[error("the journal has {limit} entries")]
    Full { limit: u32 },
    /// Memory was wanting in an earlier call.
    #[error("memory was wanting before")]
    Broken,
    /// Memory was wanting.
    #[error("no memory")]
    NoMemory,
}

/// Why a device wasn't opened.
#[derive(Clone, Copy, Debug, Drop, Error, PartialEq, Eq)]
pub enum OpenError {
    /// Memory was wanting.
    #[error("no memory")]
    NoMemory,
}

impl From<NoMemory> for OpenError {
    ghost from_gives = { λ _ e. e ≡ open_ends.NoMemory };

    fn from(_: NoMemory) -> OpenError {
        OpenError::NoMemory
    }
}

impl From<NoMemory> for ControlError {
    ghost from_gives = { λ _ e. e ≡ control_ends.NoMemory };

    fn from(_: NoMemory) -> ControlError {
        ControlError::NoMemory
    }
}
