ghost use Rattle.std.specs.Prelude.{List, ℕ, OnOk, OnErr, Option};
ghost use Rattle.ap_outside.specs.Causes.{HasCause};
ghost use Rattle.ap_outside.specs.Told.{Puts, PutsFront};

use crate::source::Failed;

/// Where a stream of bytes goes to.
pub trait Sink {
    /// The bytes that were written, where it tells.
    ghost written: { Self → Option (List ℕ) };
    /// How often a put has failed. It never falls, and stands still at 2^64 - 1.
    ghost faults: { Self → ℕ };

    /// Appends the piece. `Failed` comes only where the count of faults rose, and then a front of
    /// the piece, of any length, was appended.
    fn put(&mut self, piece: &[u8]) -> Result<(), Failed>
        ensures ok { OnOk result (Puts (written self.old) (written self.new) piece.now) }
        ensures failed { OnErr result (PutsFront (written self.old) (written self.new) piece.now) }
        ensures cause { HasCause (faults self.old) (faults self.new) result };
}
