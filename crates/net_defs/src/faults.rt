ghost use Rattle.std.specs.Prelude.{◌≡◌};
ghost use Rattle.net_defs.specs.declared.faults.NetError.TheVariants.{NoMemory};

use std::alloc::{AllocError, AllocFailed};

/// Why a BLIF design is no net: the first fault.
#[derive(Clone, Copy, Debug, PartialEq, Eq)]
pub enum NetError {
    /// By cover and then by pin, the first input of a cover that is neither an input of the design
    /// nor the output of a cover. Both are counted from 0.
    UndrivenPin { node: u32, pin: u32 },
    /// The first output of the design that is neither an input nor the output of a cover.
    UndrivenOutput { place: u32 },
    /// The first node that the inputs don't determine.
    Cycle { node: u32 },
    /// Memory was wanting.
    NoMemory,
}

impl From<AllocError> for NetError {
    ghost from_gives = { λ _ e. e ≡ NoMemory };

    fn from(_error: AllocError) -> NetError {
        NetError::NoMemory
    }
}

impl<T: Drop> From<AllocFailed<T>> for NetError {
    ghost from_gives = { λ _ e. e ≡ NoMemory };

    fn from(_error: AllocFailed<T>) -> NetError {
        NetError::NoMemory
    }
}
