ghost use Rattle.std.specs.Prelude.{◌≡◌};
ghost use Rattle.net_defs.specs.declared.interface.InterfaceError.TheVariants.{NoMemory};

use std::alloc::{AllocError, AllocFailed};

/// One of the two nets whose names are compared.
#[derive(Clone, Copy, Debug, PartialEq, Eq)]
pub enum Side {
    /// The specification.
    Spec,
    /// The design.
    Design,
}

/// Why the names of two nets don't pair: the first name without a partner.
#[derive(Clone, Copy, Debug, PartialEq, Eq)]
pub enum InterfaceError {
    /// An input, by its place among the inputs of that side.
    Input { side: Side, place: u32 },
    /// An output, by its place among the outputs of that side.
    Output { side: Side, place: u32 },
    /// Memory was wanting.
    NoMemory,
}

impl From<AllocError> for InterfaceError {
    ghost from_gives = { λ _ e. e ≡ NoMemory };

    fn from(_error: AllocError) -> InterfaceError {
        InterfaceError::NoMemory
    }
}

impl<T: Drop> From<AllocFailed<T>> for InterfaceError {
    ghost from_gives = { λ _ e. e ≡ NoMemory };

    fn from(_error: AllocFailed<T>) -> InterfaceError {
        InterfaceError::NoMemory
    }
}
