ghost use Rattle.std.specs.Prelude.{◌≡◌, ◌<◌, ℕ, List, ◌++◌, length, true, false, Ok, OnOk};
ghost use Rattle.ap_stream.specs.declared.TheConstants.{UNIT_MAX};
ghost use Rattle.ap_symbol.specs.declared.symbol.Symbol.{Symbol};

use ap_symbol::{Bytes, Memory, Word};

/// What a look-up writes for one word, whatever stands around it.
pub trait WordWriter {
    /// The text that a word gives.
    ghost given: { Self → List Symbol → List ℕ };

    /// Appends the text of a word, and answers whether it did. A writer may leave it where the text
    /// has more than `UNIT_MAX` bytes, and needn't make it whole to see that; then anything may have
    /// been appended. The error means want of memory; then a front of the text may stand there, and
    /// the writer can be used again.
    fn write(&mut self, word: &Word, into: &mut Bytes) -> Result<bool, Memory>
        ensures text { result ≡ Ok true → into.new ≡ into.old ++ given self.old word.now }
        ensures long { result ≡ Ok false → UNIT_MAX < length (given self.old word.now) }
        ensures same { given self.new ≡ given self.old };
}
