ghost use Rattle.std.specs.Prelude.{◌≡◌};
ghost use Rattle.fabric_defs.specs.declared.faults.ConfigError.TheVariants.{NoMemory};

use std::alloc::{AllocError, AllocFailed};

/// Why words or bytes are no configuration of a geometry: the first fault.
#[derive(Clone, Copy, Debug, PartialEq, Eq)]
pub enum ConfigError {
    /// There are `found` bytes where the geometry wants `want`.
    Length { want: u64, found: u64 },
    /// The first word that is out of its range begins at this byte, counted from 0.
    Selector { at: u32 },
    /// Memory was wanting.
    NoMemory,
}

impl From<AllocError> for ConfigError {
    ghost from_gives = { λ _ e. e ≡ NoMemory };

    fn from(_error: AllocError) -> ConfigError {
        ConfigError::NoMemory
    }
}

impl<T: Drop> From<AllocFailed<T>> for ConfigError {
    ghost from_gives = { λ _ e. e ≡ NoMemory };

    fn from(_error: AllocFailed<T>) -> ConfigError {
        ConfigError::NoMemory
    }
}
