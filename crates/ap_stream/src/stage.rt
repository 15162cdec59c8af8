ghost use Rattle.std.specs.Prelude.{◌≡◌, ◌≢◌, ℕ, ◌+◌, ◌-◌, ◌<◌, ◌≤◌, min, List, [], ◌∷◌, ◌++◌, take, drop, length, Bool, true, false, Option, Some, None, IfOk, OnOk, IfErr, OnErr, ◌⊎◌};
ghost use Rattle.ap_stream.specs.declared.fault.StreamFault.{StreamFault};
ghost use Rattle.ap_stream.specs.declared.fault.MalformedKind.{MalformedKind};
ghost use Rattle.ap_stream.specs.declared.TheConstants.{SPAN_MAX, UNIT_MAX};
ghost use Rattle.ap_stream.specs.Told.{Told, Ending, Clean, silent, behind, ends_in, Begins, IsRest};

use crate::fault::StageFault;
use crate::pipe::Pipe;

/// What a stage answers at the end of its input.
#[derive(Clone, Copy, Debug, PartialEq, Eq)]
pub enum Finish {
    /// Output is pending, and more may come once it was given.
    More,
    /// Nothing is pending, and nothing is to come.
    Over,
}

/// A stage that takes a text in pieces and gives a text in pieces, whatever the pieces. After a
/// fault it answers that fault from then on, and still gives what was pending.
pub trait Stage {
    /// What is still to come where this is the text that still comes, with this ending.
    ghost rest: { Self → List ℕ → Ending → Told };

    /// The bytes that can be given now.
    ghost pending: { Self → List ℕ };

    /// The number of bytes that were taken and aren't answered.
    ghost held: { Self → ℕ };

    /// No text comes any more.
    ghost ended: { Self → Bool };

    /// The fault that was answered.
    ghost fault: { Self → Option StreamFault };

    /// Takes bytes of the piece, and answers how many: none only where output is pending or the
    /// piece is empty. A fault is answered once what comes before it was given; `Memory` means want
    /// of memory, and then what is pending is a front of the text. It isn't called after the first
    /// `end`.
    fn take(&mut self, piece: &[u8]) -> Result<usize, StageFault>
        requires { ended self.old ≡ false }
        ensures count { IfOk result (λ n. n ≤ length piece.now) }
        ensures rest { IfOk result (λ n. (x : List ℕ) (e : Ending) →
            rest self.old (take n piece.now ++ x) e ≡ rest self.new x e) }
        ensures zero { result ≡ Ok 0 → pending self.new ≡ [] → piece.now ≡ [] }
        ensures held { IfOk result (λ n. held self.new ≤ held self.old + n) }
        ensures rank { result ≡ Ok 0 → length (pending self.old) < length (pending self.new) →
            held self.new < held self.old }
        ensures open { ended self.new ≡ false }
        ensures no_fault { OnOk result (fault self.new ≡ None) }
        ensures fault { IfErr result (λ f. fault self.new ≡ Some f) }
        ensures cause { IfErr result (λ f. f ≢ StreamFault.Memory → fault self.old ≡ None →
            (n : ℕ) × (n ≤ length piece.now) × ((x : List ℕ) (e : Ending) →
            rest self.old (take n piece.now ++ x) e ≡ ends_in (pending self.new) f)) }
        ensures whole { IfErr result (λ f. fault self.old ≡ None → (place : ℕ) →
            f ≢ StreamFault.Malformed MalformedKind.Unfinished place) }
        ensures front { OnErr result (fault self.old ≡ None → (x : List ℕ) (e : Ending) →
            Begins (pending self.new) (rest self.old (piece.now ++ x) e).text) }
        ensures stays { (f : StreamFault) → fault self.old ≡ Some f →
            (result ≡ Err f) × (self.new ≡ self.old) }
        ensures bounded { (held self.new ≤ SPAN_MAX + UNIT_MAX + 2)
            × (length (pending self.new) ≤ SPAN_MAX + UNIT_MAX + 2) };

    /// Says that no byte follows, and works on. It is called again, once output was given, until it
    /// answers `Over` or a fault.
    fn end(&mut self) -> Result<Finish, StageFault>
        ensures rest { OnOk result (rest self.old [] Clean ≡ rest self.new [] Clean) }
        ensures more { result ≡ Ok Finish.More → 0 < length (pending self.new) }
        ensures over { result ≡ Ok Finish.Over → (rest self.new [] Clean ≡ silent)
            × (pending self.new ≡ []) }
        ensures held { OnOk result (held self.new ≤ held self.old) }
        ensures rank { ended self.old ≡ true → length (pending self.old) < length (pending self.new)
            → held self.new < held self.old }
        ensures ended { fault self.old ≡ None → ended self.new ≡ true }
        ensures no_fault { OnOk result (fault self.new ≡ None) }
        ensures fault { IfErr result (λ f. fault self.new ≡ Some f) }
        ensures cause { IfErr result (λ f. f ≢ StreamFault.Memory → fault self.old ≡ None →
            rest self.old [] Clean ≡ ends_in (pending self.new) f) }
        ensures front { OnErr result (fault self.old ≡ None →
            Begins (pending self.new) (rest self.old [] Clean).text) }
        ensures stays { (f : StreamFault) → fault self.old ≡ Some f →
            (result ≡ Err f) × (self.new ≡ self.old) }
        ensures bounded { (held self.new ≤ SPAN_MAX + UNIT_MAX + 2)
            × (length (pending self.new) ≤ SPAN_MAX + UNIT_MAX + 2) };

    /// Moves as many of the pending bytes as fit into the pipe, and answers how many. It takes no
    /// memory.
    fn give(&mut self, into: &mut Pipe) -> usize
        ensures count { result ≡ min (length (pending self.old))
            (into.old.room - length into.old.bytes) }
        ensures bytes { into.new.bytes ≡ into.old.bytes ++ take result (pending self.old) }
        ensures room { into.new.room ≡ into.old.room }
        ensures pending { pending self.new ≡ drop result (pending self.old) }
        ensures rest { (x : List ℕ) (e : Ending) →
            behind (take result (pending self.old)) (rest self.new x e) ≡ rest self.old x e }
        ensures held { held self.new ≡ held self.old }
        ensures ended { ended self.new ≡ ended self.old }
        ensures fault { fault self.new ≡ fault self.old };

    /// The number of bytes that can be given now.
    fn pending(&self) -> usize
        ensures count { result ≡ length (pending self.now) }
        ensures bounded { (held self.now ≤ SPAN_MAX + UNIT_MAX + 2)
            × (length (pending self.now) ≤ SPAN_MAX + UNIT_MAX + 2) };

    /// What is still to come is what is pending, and then the fault that was answered; where none
    /// was, what is made of the text up to its stop. So what is pending comes first, and where the
    /// text was cut, an unfinished item is no fault.
    ghost rest_is: { (s : Self) (x : List ℕ) → IsRest (fault s) (pending s) (rest s x) };
}
