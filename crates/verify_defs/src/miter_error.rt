ghost use Rattle.std.specs.Prelude.{◌≡◌, ◌≢◌, ◌⊎◌};
ghost use Rattle.fabric_defs.specs.declared.faults.ConfigError.TheVariants as config_errors;
ghost use Rattle.verify_defs.specs.declared.miter_error.MiterError.TheVariants as errors;

use bundle_defs::BundleError;
use fabric_defs::ConfigError;
use pch_base::NoMemory;

/// Why a bundle gives no miter with a network: the first test that fails, in this order, and its fault;
/// or want of memory.
#[derive(Clone, Copy, Debug, PartialEq, Eq)]
pub enum MiterError {
    /// The bytes are no bundle.
    Bundle(BundleError),
    /// The bundle's configuration has a fault; it is never `NoMemory`.
    Config(ConfigError),
    /// The network doesn't fit the pads of the bundle's fabric.
    Pads,
    /// Memory was wanting.
    NoMemory,
}

impl From<BundleError> for MiterError {
    ghost from_gives = { λ e r. r ≡ errors.Bundle e };

    fn from(error: BundleError) -> MiterError {
        MiterError::Bundle(error)
    }
}

impl From<ConfigError> for MiterError {
    ghost from_gives = { λ e r. ((e ≡ config_errors.NoMemory) × (r ≡ errors.NoMemory))
        ⊎ ((e ≢ config_errors.NoMemory) × (r ≡ errors.Config e)) };

    fn from(error: ConfigError) -> MiterError {
        match error {
            ConfigError::NoMemory => MiterError::NoMemory,
            fault => MiterError::Config(fault),
        }
    }
}

impl From<NoMemory> for MiterError {
    ghost from_gives = { λ _ r. r ≡ errors.NoMemory };

    fn from(_error: NoMemory) -> MiterError {
        MiterError::NoMemory
    }
}
