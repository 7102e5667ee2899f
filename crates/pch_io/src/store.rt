ghost use Rattle.std.specs.Prelude.{◌≡◌, ◌≤◌, ℕ, List, Option, IfOk, IfErr, OnOk, OnErr, IsErrOf};
ghost use Rattle.pch_io.specs.Outside.{Rose, CountsOnce, Loads, LoadCause, Saves, Spoils};
ghost use Rattle.pch_io.specs.declared.store.LoadFail.TheVariants.{NoMemory as NoMemoryToLoad};
ghost use Rattle.pch_io.specs.declared.store.SaveFail.TheVariants.{NoMemory as NoMemoryToSave};

use std::alloc::{AllocError, AllocFailed, Global};

/// Why a load gave no bytes.
#[derive(Clone, Copy, Debug, PartialEq, Eq)]
pub enum LoadFail {
    /// Reading failed; the count of faults rose.
    Failed,
    /// There is no file of this name.
    Absent,
    /// The file is longer than the limit.
    TooLong,
    /// Memory was wanting.
    NoMemory,
}

impl From<AllocError> for LoadFail {
    ghost from_gives = { λ _ e. e ≡ NoMemoryToLoad };

    fn from(_error: AllocError) -> LoadFail {
        LoadFail::NoMemory
    }
}

impl<T: Drop> From<AllocFailed<T>> for LoadFail {
    ghost from_gives = { λ _ e. e ≡ NoMemoryToLoad };

    fn from(_error: AllocFailed<T>) -> LoadFail {
        LoadFail::NoMemory
    }
}

/// Why a save didn't store the bytes.
#[derive(Clone, Copy, Debug, PartialEq, Eq)]
pub enum SaveFail {
    /// Writing failed; the count of faults rose.
    Failed,
    /// Memory was wanting.
    NoMemory,
}

impl From<AllocError> for SaveFail {
    ghost from_gives = { λ _ e. e ≡ NoMemoryToSave };

    fn from(_error: AllocError) -> SaveFail {
        SaveFail::NoMemory
    }
}

impl<T: Drop> From<AllocFailed<T>> for SaveFail {
    ghost from_gives = { λ _ e. e ≡ NoMemoryToSave };

    fn from(_error: AllocFailed<T>) -> SaveFail {
        SaveFail::NoMemory
    }
}

/// Where files lie: on a disk, or in memory.
pub trait Store {
    /// The files by their names, where the store tells them.
    ghost files: { Self → Option (List ℕ → Option (List ℕ)) };

    /// How often the store has failed. A call raises the count by one at most, and leaves it as it was
    /// where it answers Ok. It never falls, and stands still at its last value, 2^64 - 1.
    ghost faults: { Self → ℕ };

    /// The bytes of a file that has at most `max` bytes. Files never change.
    fn load(&mut self, alloc: Global, name: &str, max: u64) -> Result<Vec<u8>, LoadFail>
        ensures files { files self.new ≡ files self.old }
        ensures once { CountsOnce (faults self.old) (faults self.new) }
        ensures calm { OnOk result (faults self.new ≡ faults self.old) }
        ensures loaded { IfOk result (λ bytes. Loads (files self.old) name.now max bytes.items) }
        ensures cause { IfErr result
            (LoadCause (files self.old) name.now max (faults self.old) (faults self.new)) };

    /// Puts these bytes under the name, in place of what was there. Other files never change; after an
    /// error the named one may be absent or hold any bytes.
    fn save(&mut self, name: &str, bytes: &[u8]) -> Result<(), SaveFail>
        ensures once { CountsOnce (faults self.old) (faults self.new) }
        ensures calm { OnOk result (faults self.new ≡ faults self.old) }
        ensures saved { OnOk result (Saves (files self.old) (files self.new) name.now bytes.now) }
        ensures spoiled { OnErr result (Spoils (files self.old) (files self.new) name.now) }
        ensures failed { IsErrOf result SaveFail.Failed
            → Rose (faults self.old) (faults self.new) };
}
