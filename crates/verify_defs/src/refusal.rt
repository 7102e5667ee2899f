ghost use Rattle.std.specs.Prelude.{◌≡◌, ◌≢◌, ◌⊎◌};
ghost use Rattle.sat_text_defs.specs.declared.errors.TraceError.TheVariants as trace_errors;
ghost use Rattle.fabric_defs.specs.declared.faults.ConfigError.TheVariants as config_errors;
ghost use Rattle.verify_defs.specs.declared.refusal.Refusal.TheVariants as refusals;

use bundle_defs::BundleError;
use clause_defs::Verdict;
use fabric_defs::ConfigError;
use pch_base::NoMemory;
use sat_text_defs::TraceError;
use std::alloc::{AllocError, AllocFailed};

/// Why a bundle isn't accepted: the first test that fails, in this order, and its fault; or want of
/// memory.
#[derive(Clone, Copy, Debug, PartialEq, Eq)]
pub enum Refusal {
    /// The network has more inputs than there are input pads, or more outputs than output pads.
    Pads,
    /// The bytes are no bundle.
    Bundle(BundleError),
    /// The bundle's geometry isn't the fabric's.
    OtherFabric,
    /// The bundle's configuration has a fault; it is never `NoMemory`.
    Config(ConfigError),
    /// The bundle's trace has a fault; it is never `NoMemory`.
    Trace(TraceError),
    /// The trace doesn't refute the miter; the verdict is never `Refutes`.
    Verdict(Verdict),
    /// Memory was wanting.
    NoMemory,
}

impl From<BundleError> for Refusal {
    ghost from_gives = { λ e r. r ≡ refusals.Bundle e };

    fn from(error: BundleError) -> Refusal {
        Refusal::Bundle(error)
    }
}

impl From<ConfigError> for Refusal {
    ghost from_gives = { λ e r. ((e ≡ config_errors.NoMemory) × (r ≡ refusals.NoMemory))
        ⊎ ((e ≢ config_errors.NoMemory) × (r ≡ refusals.Config e)) };

    fn from(error: ConfigError) -> Refusal {
        match error {
            ConfigError::NoMemory => Refusal::NoMemory,
            fault => Refusal::Config(fault),
        }
    }
}

impl From<TraceError> for Refusal {
    ghost from_gives = { λ e r. ((e ≡ trace_errors.NoMemory) × (r ≡ refusals.NoMemory))
        ⊎ ((e ≢ trace_errors.NoMemory) × (r ≡ refusals.Trace e)) };

    fn from(error: TraceError) -> Refusal {
        match error {
            TraceError::NoMemory => Refusal::NoMemory,
            fault => Refusal::Trace(fault),
        }
    }
}

impl From<NoMemory> for Refusal {
    ghost from_gives = { λ _ r. r ≡ refusals.NoMemory };

    fn from(_error: NoMemory) -> Refusal {
        Refusal::NoMemory
    }
}

impl From<AllocError> for Refusal {
    ghost from_gives = { λ _ r. r ≡ refusals.NoMemory };

    fn from(_error: AllocError) -> Refusal {
        Refusal::NoMemory
    }
}

impl<T: Drop> From<AllocFailed<T>> for Refusal {
    ghost from_gives = { λ _ r. r ≡ refusals.NoMemory };

    fn from(_error: AllocFailed<T>) -> Refusal {
        Refusal::NoMemory
    }
}
