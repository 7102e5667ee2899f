ghost use Rattle.std.specs.Prelude.{◌≡◌, ◌≤◌, ℕ, List, Option, OnOk, OnErr, IsErrOf};
ghost use Rattle.pch_io.specs.Outside.{Rose, CountsOnce, Appends, AppendsPrefix};
ghost use Rattle.pch_io.specs.declared.sink.PutFail.TheVariants.{NoMemory};

use std::alloc::{AllocError, AllocFailed};

/// Why a put didn't append all bytes.
#[derive(Clone, Copy, Debug, PartialEq, Eq)]
pub enum PutFail {
    /// Writing failed; the count of faults rose.
    Failed,
    /// Memory was wanting.
    NoMemory,
}

impl From<AllocError> for PutFail {
    ghost from_gives = { λ _ e. e ≡ NoMemory };

    fn from(_error: AllocError) -> PutFail {
        PutFail::NoMemory
    }
}

impl<T: Drop> From<AllocFailed<T>> for PutFail {
    ghost from_gives = { λ _ e. e ≡ NoMemory };

    fn from(_error: AllocFailed<T>) -> PutFail {
        PutFail::NoMemory
    }
}

/// Where output goes: to standard output, or into memory.
pub trait Sink {
    /// The bytes that the sink holds, where it tells them.
    ghost held: { Self → Option (List ℕ) };

    /// How often the sink has failed. A put raises the count by one at most, and leaves it as it was
    /// where it answers Ok. It never falls, and stands still at its last value, 2^64 - 1.
    ghost faults: { Self → ℕ };

    /// Appends all bytes; after an error a front of them.
    fn put(&mut self, bytes: &[u8]) -> Result<(), PutFail>
        ensures once { CountsOnce (faults self.old) (faults self.new) }
        ensures calm { OnOk result (faults self.new ≡ faults self.old) }
        ensures appended { OnOk result (Appends (held self.old) (held self.new) bytes.now) }
        ensures cut_off { OnErr result (AppendsPrefix (held self.old) (held self.new) bytes.now) }
        ensures failed { IsErrOf result PutFail.Failed → Rose (faults self.old) (faults self.new) };
}
