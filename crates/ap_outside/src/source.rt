ghost use Rattle.std.specs.Prelude.{◌≡◌, ◌≤◌, ◌<◌, List, ℕ, length, take, IfOk, OnErr, Option};
ghost use Rattle.ap_outside.specs.Causes.{HasCause};
ghost use Rattle.ap_outside.specs.Told.{Takes, IsEnd};

use thiserror::Error;

/// A call on a source, a sink or files failed.
#[derive(Clone, Copy, Debug, PartialEq, Eq, Error)]
#[error("an object of the outside failed")]
pub struct Failed;

/// Where a stream of bytes comes from.
pub trait Source {
    /// The bytes that are left, where it tells.
    ghost left: { Self → Option (List ℕ) };
    /// How often a take has failed. It never falls, and stands still at 2^64 - 1.
    ghost faults: { Self → ℕ };

    /// Takes the next bytes into the front of `into` and answers their number. `Ok(0)` for a slice
    /// that is not empty is the end of the stream. `Failed` comes only where the count of faults
    /// rose, and then nothing was taken.
    fn take(&mut self, into: &mut [u8]) -> Result<usize, Failed>
        ensures count { IfOk result (λ n. n ≤ length into.old) }
        ensures taken { IfOk result (λ n. Takes (left self.old) (left self.new) (take n into.new)) }
        ensures end { IfOk result (λ n. n ≡ 0 → 0 < length into.old → IsEnd (left self.new)) }
        ensures failed { OnErr result (left self.new ≡ left self.old) }
        ensures cause { HasCause (faults self.old) (faults self.new) result };
}
