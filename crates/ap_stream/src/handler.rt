ghost use Rattle.std.specs.Prelude.{◌≡◌, ◌≢◌, ℕ, ◌+◌, ◌<◌, ◌≤◌, List, [], ◌∷◌, ◌++◌, length, Bool, true, false, IfErr, OnOk, OnErr, ◌⊎◌};
ghost use Rattle.ap_stream.specs.declared.TheConstants.{SPAN_MAX, UNIT_MAX};
ghost use Rattle.ap_stream.specs.declared.dialect.Dialect.{Dialect};
ghost use Rattle.ap_stream.specs.declared.fault.MalformedKind.{MalformedKind};
ghost use Rattle.ap_stream.specs.declared.fault.StreamFault.{StreamFault};
ghost use Rattle.ap_stream.specs.declared.item.Read.{Read};
ghost use Rattle.ap_stream.specs.Reading.{IsRead};
ghost use Rattle.ap_stream.specs.Told.{Told, silent, behind, ends_in};

use crate::fault::{MalformedKind, StageFault};
use crate::item::Read;
use ap_symbol::{Bytes, Memory};

/// What a handler's turn did.
#[derive(Clone, Copy, Debug, PartialEq, Eq)]
pub enum Turn {
    /// An item, or the word that none follows, is wanted; nothing was changed.
    Wants,
    /// At least one held item was dropped, and what the dropped items give was written.
    Wrote,
    /// Nothing is held, and no item follows.
    Over,
}

/// The part of a stage that works on whole items. It holds the items that it was given until it has
/// seen enough.
pub trait Handler {
    /// What is still to come where these are the items that still come.
    ghost work: { Self → List Read → Told };

    /// The dialect whose items it takes.
    ghost dialect: { Self → Dialect };

    /// The number of items that are held.
    ghost count: { Self → ℕ };

    /// The number of bytes of the items that are held.
    ghost held: { Self → ℕ };

    /// The number of held items that the tool must see together, from the first one on: the span of
    /// its definition.
    ghost span: { Self → ℕ };

    /// No item comes any more.
    ghost finished: { Self → Bool };

    /// The last turn wanted an item.
    ghost wants: { Self → Type 0 };

    /// Adds an item to those that are held, where none is or the last turn wanted one. After a
    /// refusal, which means want of memory, the handler isn't called again.
    fn push(&mut self, read: Read) -> Result<(), Memory>
        requires is_read { IsRead (dialect self.old) read }
        requires open { finished self.old ≡ false }
        requires wanted { (count self.old ≡ 0) ⊎ wants self.old }
        ensures work { OnOk result ((xs : List Read) → work self.old (read ∷ xs)
            ≡ work self.new xs) }
        ensures dialect { OnOk result (dialect self.new ≡ dialect self.old) }
        ensures count { OnOk result (count self.new ≡ count self.old + 1) }
        ensures held { OnOk result (held self.new ≡ held self.old + read.size) }
        ensures open { OnOk result (finished self.new ≡ false) };

    /// Says that no item follows. It takes no memory.
    fn finish(&mut self)
        requires { finished self.old ≡ false }
        ensures work { work self.new [] ≡ work self.old [] }
        ensures dialect { dialect self.new ≡ dialect self.old }
        ensures count { count self.new ≡ count self.old }
        ensures held { held self.new ≡ held self.old }
        ensures finished { finished self.new ≡ true };

    /// Works on the held items. A limit is answered where it is the fault however the items go on,
    /// and no text comes before it; `Memory` means want of memory. After an error nothing was
    /// written, and the handler isn't called again.
    fn turn(&mut self, into: &mut Bytes) -> Result<Turn, StageFault>
        ensures wants { result ≡ Ok Turn.Wants → (self.new ≡ self.old) × (into.new ≡ into.old)
            × wants self.old
            × (finished self.old ≡ false) × (held self.old ≤ SPAN_MAX)
            × ((count self.old ≡ 0) ⊎ (span self.old ≡ count self.old)) }
        ensures wrote { result ≡ Ok Turn.Wrote → (given : List ℕ) × (into.new ≡ into.old ++ given)
            × (length given ≤ SPAN_MAX + UNIT_MAX + 2)
            × (count self.new < count self.old) × (held self.new < held self.old)
            × (dialect self.new ≡ dialect self.old) × (finished self.new ≡ finished self.old)
            × ((xs : List Read) → (finished self.old ≡ true → xs ≡ []) →
            behind given (work self.new xs) ≡ work self.old xs) }
        ensures over { result ≡ Ok Turn.Over → (self.new ≡ self.old) × (into.new ≡ into.old)
            × (finished self.old ≡ true) × (count self.old ≡ 0) × (held self.old ≡ 0)
            × (work self.old [] ≡ silent) }
        ensures err { OnErr result (into.new ≡ into.old) }
        ensures limit { IfErr result (λ f. f ≢ StreamFault.Memory →
            (xs : List Read) → (finished self.old ≡ true → xs ≡ []) →
            work self.old xs ≡ ends_in [] f) }
        ensures never { IfErr result (λ f. (kind : MalformedKind) (place : ℕ) →
            f ≢ StreamFault.Malformed kind place) };
}

/// A handler that may be given several items with no turn between them.
pub trait ByRun: Handler {
    /// Whether an item more may be pushed with no turn before it. It may also be denied where it is
    /// so.
    fn wants_more(&self) -> bool
        ensures { result ≡ true → Self.wants self.now × (Self.finished self.now ≡ false)
            × (Self.held self.now ≤ SPAN_MAX) };
}
