ghost use Rattle.std.specs.Prelude.{◌≡◌};
ghost use Rattle.route_defs.specs.declared.faults.RouteError.TheVariants.{NoMemory};

use crate::demand::Resource;
use std::alloc::{AllocError, AllocFailed};

/// Why mapped cells have no place on a fabric.
#[derive(Clone, Copy, Debug, PartialEq, Eq)]
pub enum RouteError {
    /// The first resource of which more is needed than is there.
    Unroutable {
        resource: Resource,
        place: u32,
        need: u32,
        have: u32,
    },
    /// Memory was wanting.
    NoMemory,
}

impl From<AllocError> for RouteError {
    ghost from_gives = { λ _ e. e ≡ NoMemory };

    fn from(_error: AllocError) -> RouteError {
        RouteError::NoMemory
    }
}

impl<T: Drop> From<AllocFailed<T>> for RouteError {
    ghost from_gives = { λ _ e. e ≡ NoMemory };

    fn from(_error: AllocFailed<T>) -> RouteError {
        RouteError::NoMemory
    }
}
