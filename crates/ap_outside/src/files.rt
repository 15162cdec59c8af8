ghost use Rattle.std.specs.Prelude.{◌≡◌, ◌≤◌, List, ℕ, length, IfOk, OnOk, Option, IsErrOf};
ghost use Rattle.ap_outside.specs.Causes.{HasLoadCause, SparesStoreFaults};
ghost use Rattle.ap_outside.specs.StoreCauses.{HasStoreCause, SparesLoadFaults};
ghost use Rattle.ap_outside.specs.Told.{Loads, IsTooLong, Stores, StoresSome};

use std::alloc::Global;
use thiserror::Error;

/// Why a file was not loaded.
#[derive(Clone, Copy, Debug, PartialEq, Eq, Error)]
pub enum LoadRefusal {
    /// The file is not there or can't be read.
    #[error("the file was not loaded")]
    Failed,
    /// The file has more bytes than the caller takes.
    #[error("the file is too long")]
    TooLong,
    /// Want of memory.
    #[error("out of memory")]
    Memory,
}

/// Why a file was not stored.
#[derive(Clone, Copy, Debug, PartialEq, Eq, Error)]
pub enum StoreRefusal {
    /// The file can't be made or written.
    #[error("the file was not stored")]
    Failed,
    /// Want of memory.
    #[error("out of memory")]
    Memory,
}

/// Files by name.
pub trait Files {
    /// The contents by name, where it tells: None for a name that isn't there.
    ghost contents: { Self → Option (List ℕ → Option (List ℕ)) };
    /// How often a load of a name has failed. It never falls, and stands still at 2^64 - 1.
    ghost load_faults: { Self → List ℕ → ℕ };
    /// How often a store has failed. It never falls, and stands still at 2^64 - 1.
    ghost store_faults: { Self → ℕ };

    /// Gives the bytes of the file `name`, which are at most `most`. No load changes any file.
    /// `TooLong` comes only where the file has more than `most` bytes, and `Failed` only where the
    /// count of faults of that name rose.
    fn load(&mut self, alloc: Global, name: &str, most: u64) -> Result<Vec<u8>, LoadRefusal>
        ensures most { IfOk result (λ bytes. length bytes.items ≤ most) }
        ensures loaded { IfOk result
            (λ bytes. Loads (contents self.old) name.now most bytes.items) }
        ensures too_long { IsErrOf result LoadRefusal.TooLong →
            IsTooLong (contents self.old) name.now most }
        ensures kept { contents self.new ≡ contents self.old }
        ensures cause { HasLoadCause (load_faults self.old) (load_faults self.new) name.now result }
        ensures store_cause { SparesStoreFaults (store_faults self.old)
            (store_faults self.new) result };

    /// Makes the file `name` have exactly these bytes, whether or not it was there. `Failed` comes
    /// only where the count of faults of stores rose, and then this one file may hold anything.
    /// After `Memory` it holds what it held. The other files stay in every case.
    fn store(&mut self, name: &str, bytes: &[u8]) -> Result<(), StoreRefusal>
        ensures stored { OnOk result
            (Stores (contents self.old) (contents self.new) name.now bytes.now) }
        ensures failed { IsErrOf result StoreRefusal.Failed →
            StoresSome (contents self.old) (contents self.new) name.now }
        ensures memory { IsErrOf result StoreRefusal.Memory →
            contents self.new ≡ contents self.old }
        ensures cause { HasStoreCause (store_faults self.old) (store_faults self.new) result }
        ensures load_cause { SparesLoadFaults (load_faults self.old)
            (load_faults self.new) result };
}
