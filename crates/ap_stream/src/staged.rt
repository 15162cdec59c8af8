ghost use Rattle.std.specs.Prelude.{◌≡◌, ◌≢◌, ℕ, ◌+◌, ◌-◌, ◌*◌, ◌<◌, ◌≤◌, List, [], ◌∷◌, ◌++◌, take, drop, length, Bool, true, false, Option, Some, None, IfOk, OnOk, IfErr, OnErr, refl};
ghost use Rattle.ap_stream.specs.declared.fault.StreamFault.{StreamFault};
ghost use Rattle.ap_stream.specs.declared.fault.MalformedKind.{MalformedKind};
ghost use Rattle.ap_stream.specs.declared.TheConstants.{SPAN_MAX, UNIT_MAX};
ghost use Rattle.ap_stream.specs.Told.{Told, Ending, Clean, silent, behind, ends_in, Begins};
ghost use Rattle.ap_stream.specs.Rest.{rest_of, reads_of, held_of, May, measure};
ghost use Rattle.ap_stream.specs.Copying.{IsOpen, IsIdle, AreCopying};
ghost use Rattle.ap_stream.specs.Fronts.{IsFresh};

use crate::copying::{ByUnit, Copies, copied_run, give_first};
use crate::dialect::Dialect;
use crate::fault::{StageFault, StreamFault};
use crate::front::{ByFront, give_known};
use crate::handler::{ByRun, Handler, Turn};
use crate::pipe::Pipe;
use crate::reader::{Fed, Reader};
use crate::stage::{Finish, Stage};
use ap_symbol::{Bytes, Memory};
use std::alloc::Global;
use std::marker::Model;

/// The most bytes that are copied at once.
const COPIED_AT_ONCE: usize = 4096;

/// The most bytes that are looked at before they are taken.
const AHEAD: usize = 1024;

/// Once so many bytes are pending, nothing more is given by itself.
const GIVEN_AT_ONCE: usize = 4096;

/// A stage over bytes, made of a handler over whole items. It reads by a reader of its dialect, and
/// lets the handler work only while nothing is pending.
#[derive(Drop)]
pub struct Staged<H: Handler + Drop> {
    reader: Reader,
    handler: H,
    out: Bytes,
    /// The bytes of `out` before it are given.
    from: usize,
    /// Room for what is given by itself.
    room: Bytes,
    /// Room for bytes that are looked at before they are taken.
    ahead: Bytes,
    /// What the reader stopped at.
    stop: Option<StreamFault>,
    finished: bool,
    ended: bool,
    fault: Option<StreamFault>,
}

impl<H: Handler + Drop> Model for Staged<H> {
    ghost use Rattle.std.specs.Prelude.{◌≡◌, ◌≤◌, drop, length, None};
    ghost use Rattle.ap_stream.specs.Limits.{stage_max};
    ghost use Rattle.ap_stream.specs.Seat.{Seat};
    ghost use Rattle.ap_stream.specs.Rest.{Sound};

    ghost Value = { Seat H };

    ghost view = { λ s. record {
      handler = s.handler;
      dialect = s.reader.dialect;
      begun =
          s.reader.held;
      place = s.reader.place;
      pending = drop s.from s.out;
      ended =
          s.ended;
      fault = s.fault;
    } };

    ghost invariant = { λ s. (s.fault ≡ None →
        Sound H.finished H.held H.dialect s.handler s.reader s.finished s.stop s.ended)
        × (s.from ≤ length s.out) × (length s.out ≤ stage_max) };
}

impl<H: Handler + Drop> Staged<H> {
    /// A new stage over a handler that holds nothing and isn't finished, and whose dialect is this
    /// one. It takes no memory.
    pub fn new(alloc: Global, dialect: Dialect, handler: H) -> Staged<H>
        requires dialect { H.dialect handler ≡ dialect }
        requires open { H.finished handler ≡ false }
        requires empty { H.held handler ≡ 0 }
        ensures handler { result.handler ≡ handler }
        ensures dialect { result.dialect ≡ dialect }
        ensures begun { result.begun ≡ [] }
        ensures place { result.place ≡ 0 }
        ensures pending { result.pending ≡ [] }
        ensures ended { result.ended ≡ false }
        ensures fault { result.fault ≡ None }
    {
        Staged {
            reader: Reader::new(alloc, dialect),
            handler,
            out: Bytes::new(alloc),
            from: 0,
            room: Bytes::new(alloc),
            ahead: Bytes::new(alloc),
            stop: None,
            finished: false,
            ended: false,
            fault: None,
        }
    }

    /// Nothing is pending.
    fn is_idle(&self) -> bool
        ensures idle { result ≡ true → self.now.pending ≡ [] }
        ensures busy { result ≡ false → 0 < length self.now.pending }
        ensures bounded { (held_of H.held self.now ≤ SPAN_MAX + UNIT_MAX + 2)
            × (length self.now.pending ≤ SPAN_MAX + UNIT_MAX + 2) }
    {
        self.from == self.out.as_slice().len()
    }

    /// One turn of the handler.
    fn work(&mut self) -> Result<Turn, StageFault>
        requires going { self.old.fault ≡ None }
        requires empty { self.old.pending ≡ [] }
        ensures ended { self.new.ended ≡ self.old.ended }
        ensures wants { result ≡ Ok Turn.Wants → (self.new ≡ self.old) × H.wants self.new.handler
            × (H.finished self.new.handler ≡ false) × (H.held self.new.handler ≤ SPAN_MAX) }
        ensures wrote { result ≡ Ok Turn.Wrote → (H.held self.new.handler < H.held self.old.handler)
            × (H.finished self.new.handler ≡ H.finished self.old.handler)
            × (self.new.begun ≡ self.old.begun) }
        ensures over { result ≡ Ok Turn.Over → (self.new ≡ self.old) × (self.old.ended ≡ true)
            × (rest_of H.work self.old [] Clean ≡ silent) }
        ensures going { OnOk result (self.new.fault ≡ None) }
        ensures rest { OnOk result ((x : List ℕ) (e : Ending) → May self.old x e →
            rest_of H.work self.old x e ≡ rest_of H.work self.new x e) }
        ensures err { IfErr result (λ f. (self.new.fault ≡ Some f) × (self.new.pending ≡ [])) }
        ensures whole { IfErr result (λ f. self.old.ended ≡ false → (place : ℕ) →
            f ≢ StreamFault.Malformed MalformedKind.Unfinished place) }
        ensures cause { IfErr result (λ f. f ≢ StreamFault.Memory → (x : List ℕ) (e : Ending) →
            May self.old x e → rest_of H.work self.old x e ≡ ends_in [] f) }
    {
        self.out.clear();
        self.from = 0;
        match self.handler.turn(&mut self.out) {
            Ok(Turn::Over) => match self.stop {
                None => Ok(Turn::Over),
                Some(fault) => {
                    self.fault = Some(fault);
                    Err(fault)
                }
            },
            Ok(Turn::Wrote) => Ok(Turn::Wrote),
            Ok(Turn::Wants) => Ok(Turn::Wants),
            Err(fault) => {
                self.fault = Some(fault);
                Err(fault)
            }
        }
    }

    /// Gives the piece to the reader, until an item is whole or the piece is used up. Answers how
    /// many bytes were used.
    fn read(&mut self, piece: &[u8]) -> Result<usize, StageFault>
        requires going { self.old.fault ≡ None }
        requires empty { self.old.pending ≡ [] }
        requires open { self.old.ended ≡ false }
        requires wants { H.wants self.old.handler }
        requires reading { H.finished self.old.handler ≡ false }
        requires span { H.held self.old.handler ≤ SPAN_MAX }
        requires piece { 0 < length piece.now }
        ensures ended { self.new.ended ≡ false }
        ensures pending { self.new.pending ≡ [] }
        ensures going { OnOk result (self.new.fault ≡ None) }
        ensures count { IfOk result (λ n. n ≤ length piece.now) }
        ensures rest { IfOk result (λ n. (x : List ℕ) (e : Ending) →
            rest_of H.work self.old (take n piece.now ++ x) e ≡ rest_of H.work self.new x e) }
        ensures held { IfOk result (λ n. H.held self.new.handler + length self.new.begun
            ≡ H.held self.old.handler + length self.old.begun + n) }
        ensures falls { IfOk result
            (λ n. measure H.finished H.held self.new (length piece.now - n) < measure H.finished
            H.held self.old (length piece.now)) }
        ensures err { IfErr result (λ f. (f ≡ StreamFault.Memory) × (self.new.fault ≡ Some f)) }
    {
        let before = self.reader.begun();
        match self.reader.feed(piece) {
            Ok(Fed { used, item: None }) => Ok(used),
            Ok(
                Fed {
                    used,
                    item: Some(read),
                },
            ) => match self.handler.push(read) {
                Ok(()) => Ok(used),
                Err(_) => {
                    self.fault = Some(StreamFault::Memory);
                    Err(StreamFault::Memory)
                }
            },
            Err(fault) => match fault {
                StreamFault::Memory => {
                    self.fault = Some(StreamFault::Memory);
                    Err(StreamFault::Memory)
                }
                _ => {
                    self.handler.finish();
                    self.finished = true;
                    self.stop = Some(fault);
                    Ok(self.reader.begun() - before)
                }
            },
        }
    }

    /// Takes the last item of the reader, or finishes the handler where there is none.
    fn close(&mut self) -> Result<(), StageFault>
        requires going { self.old.fault ≡ None }
        requires empty { self.old.pending ≡ [] }
        requires ended { self.old.ended ≡ true }
        requires wants { H.wants self.old.handler }
        requires reading { H.finished self.old.handler ≡ false }
        requires span { H.held self.old.handler ≤ SPAN_MAX }
        ensures ended { self.new.ended ≡ true }
        ensures pending { self.new.pending ≡ [] }
        ensures going { OnOk result (self.new.fault ≡ None) }
        ensures rest { OnOk result (rest_of H.work self.old [] Clean
            ≡ rest_of H.work self.new [] Clean) }
        ensures held { OnOk result (H.held self.new.handler + length self.new.begun
            ≡ H.held self.old.handler + length self.old.begun) }
        ensures falls { OnOk result
            (measure H.finished H.held self.new 0 < measure H.finished H.held self.old 0) }
        ensures err { IfErr result (λ f. (f ≡ StreamFault.Memory) × (self.new.fault ≡ Some f)) }
    {
        match self.reader.end() {
            Ok(Some(read)) => match self.handler.push(read) {
                Ok(()) => Ok(()),
                Err(_) => {
                    self.fault = Some(StreamFault::Memory);
                    Err(StreamFault::Memory)
                }
            },
            Ok(None) => {
                self.handler.finish();
                self.finished = true;
                Ok(())
            }
            Err(fault) => match fault {
                StreamFault::Memory => {
                    self.fault = Some(StreamFault::Memory);
                    Err(StreamFault::Memory)
                }
                _ => {
                    self.handler.finish();
                    self.finished = true;
                    self.stop = Some(fault);
                    Ok(())
                }
            },
        }
    }
}

impl<H: Copies + Drop> Staged<H> {
    /// Nothing is pending, begun or held, and more may come.
    fn is_free(&self) -> bool
        ensures idle { result ≡ true → IsIdle H.finished H.count self.now }
        ensures copies { result ≡ true → AreCopying H.count H.work }
    {
        self.fault.is_none()
            && !self.finished
            && self.from == self.out.as_slice().len()
            && self.reader.is_between()
            && self.handler.is_free()
    }

    /// Copies what stands at the front of the piece and is copied, however the text goes on, where
    /// nothing is pending, begun or held. Answers how many bytes; where that is 0, nothing was
    /// changed.
    fn copy(&mut self, piece: &[u8]) -> usize
        ensures none { result ≡ 0 → self.new ≡ self.old }
        ensures count { result ≤ length piece.now }
        ensures ended { self.new.ended ≡ self.old.ended }
        ensures going { 0 < result → (self.old.fault ≡ None) × (self.new.fault ≡ None) }
        ensures rest { 0 < result → (x : List ℕ) (e : Ending) →
            rest_of H.work self.old (take result piece.now ++ x) e ≡ rest_of H.work self.new x e }
        ensures held { held_of H.held self.new ≡ held_of H.held self.old }
        ensures bounded { 0 < result → (held_of H.held self.new ≤ SPAN_MAX + UNIT_MAX + 2)
            × (length self.new.pending ≤ SPAN_MAX + UNIT_MAX + 2) }
    {
        let most = piece.len().min(COPIED_AT_ONCE);
        let count = copied_run(&piece[..most]);
        if count == 0 || !self.is_free() {
            return 0;
        }
        self.out.clear();
        self.from = 0;
        match self.out.extend(&piece[..count]) {
            Ok(()) => {}
            Err(_) => return 0,
        }
        self.reader.pass(count);
        count
    }

    /// As `take`, but what only gives itself is copied by runs.
    pub fn take_copying(&mut self, piece: &[u8]) -> Result<usize, StageFault>
        requires { self.old.ended ≡ false }
        ensures count { IfOk result (λ n. n ≤ length piece.now) }
        ensures rest { IfOk result (λ n. (x : List ℕ) (e : Ending) →
            rest_of H.work self.old (take n piece.now ++ x) e ≡ rest_of H.work self.new x e) }
        ensures zero { result ≡ Ok 0 → self.new.pending ≡ [] → piece.now ≡ [] }
        ensures held { IfOk result
            (λ n. held_of H.held self.new ≤ held_of H.held self.old + n) }
        ensures rank { result ≡ Ok 0 → length self.old.pending < length self.new.pending →
            held_of H.held self.new < held_of H.held self.old }
        ensures open { self.new.ended ≡ false }
        ensures no_fault { OnOk result (self.new.fault ≡ None) }
        ensures fault { IfErr result (λ f. self.new.fault ≡ Some f) }
        ensures cause { IfErr result (λ f. f ≢ StreamFault.Memory → self.old.fault ≡ None →
            (n : ℕ) × (n ≤ length piece.now) × ((x : List ℕ) (e : Ending) →
            rest_of H.work self.old (take n piece.now ++ x) e ≡ ends_in self.new.pending f)) }
        ensures whole { IfErr result (λ f. self.old.fault ≡ None → (place : ℕ) →
            f ≢ StreamFault.Malformed MalformedKind.Unfinished place) }
        ensures front { OnErr result (self.old.fault ≡ None → (x : List ℕ) (e : Ending) →
            Begins self.new.pending (rest_of H.work self.old (piece.now ++ x) e).text) }
        ensures stays { (f : StreamFault) → self.old.fault ≡ Some f →
            (result ≡ Err f) × (self.new ≡ self.old) }
        ensures bounded { (held_of H.held self.new ≤ SPAN_MAX + UNIT_MAX + 2)
            × (length self.new.pending ≤ SPAN_MAX + UNIT_MAX + 2) }
    {
        let count = self.copy(piece);
        if count > 0 {
            return Ok(count);
        }
        self.take(piece)
    }
}

impl<H: ByUnit + Drop> Staged<H> {
    /// Lets the room of what was given go.
    fn begin(&mut self)
        requires { IsIdle H.finished H.count self.old }
        ensures same { self.new ≡ self.old }
        ensures bounded { (held_of H.held self.new ≤ SPAN_MAX + UNIT_MAX + 2)
            × (length self.new.pending ≤ SPAN_MAX + UNIT_MAX + 2) }
    {
        self.out.clear();
        self.from = 0;
    }

    /// Works on what stands at the front of the piece and gives a text by itself, however the text
    /// goes on. Answers how many bytes that was.
    fn advance(&mut self, piece: &[u8]) -> Result<usize, StageFault>
        requires free { IsOpen H.finished H.count self.old }
        requires copies { AreCopying H.count H.work }
        ensures count { IfOk result (λ n. n ≤ length piece.now) }
        ensures rest { IfOk result (λ n. (x : List ℕ) (e : Ending) →
            rest_of H.work self.old (take n piece.now ++ x) e ≡ rest_of H.work self.new x e) }
        ensures free { OnOk result (IsOpen H.finished H.count self.new) }
        ensures ended { self.new.ended ≡ self.old.ended }
        ensures held { OnOk result (H.held self.new.handler ≡ H.held self.old.handler) }
        ensures none { result ≡ Ok 0 → self.new.pending ≡ self.old.pending }
        ensures err { IfErr result (λ f. (f ≡ StreamFault.Memory) × (self.new.fault ≡ Some f)
            × (self.new.pending ≡ self.old.pending)) }
        ensures bounded { (held_of H.held self.new ≤ SPAN_MAX + UNIT_MAX + 2)
            × (length self.new.pending ≤ SPAN_MAX + UNIT_MAX + 2) }
    {
        if self.out.as_slice().len() >= GIVEN_AT_ONCE {
            return Ok(0);
        }
        self.room.clear();
        let dialect = self.reader.dialect();
        let count = match give_first(&mut self.handler, dialect, piece, &mut self.room) {
            Ok(count) => count,
            Err(_) => {
                self.fault = Some(StreamFault::Memory);
                return Err(StreamFault::Memory);
            }
        };
        if count == 0 {
            return Ok(0);
        }
        match self.out.extend(self.room.as_slice()) {
            Ok(()) => {}
            Err(_) => {
                self.fault = Some(StreamFault::Memory);
                return Err(StreamFault::Memory);
            }
        }
        self.reader.pass(count);
        Ok(count)
    }

    /// Works on what stands in the piece and gives a text by itself, up to what doesn't. Answers how
    /// many bytes that was.
    fn go_over(&mut self, piece: &[u8]) -> Result<usize, StageFault>
        requires idle { IsIdle H.finished H.count self.old }
        requires copies { AreCopying H.count H.work }
        requires open { self.old.ended ≡ false }
        ensures count { IfOk result (λ n. n ≤ length piece.now) }
        ensures rest { IfOk result (λ n. (x : List ℕ) (e : Ending) →
            rest_of H.work self.old (take n piece.now ++ x) e ≡ rest_of H.work self.new x e) }
        ensures free { OnOk result (IsOpen H.finished H.count self.new) }
        ensures ended { self.new.ended ≡ false }
        ensures held { OnOk result (H.held self.new.handler ≡ H.held self.old.handler) }
        ensures none { result ≡ Ok 0 → self.new.pending ≡ [] }
        ensures err { IfErr result (λ f. (f ≡ StreamFault.Memory) × (self.new.fault ≡ Some f)) }
        ensures front { OnErr result ((x : List ℕ) (e : Ending) →
            Begins self.new.pending (rest_of H.work self.old (piece.now ++ x) e).text) }
        ensures bounded { (held_of H.held self.new ≤ SPAN_MAX + UNIT_MAX + 2)
            × (length self.new.pending ≤ SPAN_MAX + UNIT_MAX + 2) }
    {
        self.begin();
        let mut used = 0;
        while used < piece.len() {
            let count = match self.advance(&piece[used..]) {
                Ok(count) => count,
                Err(fault) => return Err(fault),
            };
            if count == 0 {
                return Ok(used);
            }
            used += count;
        }
        Ok(used)
    }

    /// As `take`, but units and what only gives itself are worked on as they stand in the piece.
    pub fn take_units(&mut self, piece: &[u8]) -> Result<usize, StageFault>
        requires { self.old.ended ≡ false }
        ensures count { IfOk result (λ n. n ≤ length piece.now) }
        ensures rest { IfOk result (λ n. (x : List ℕ) (e : Ending) →
            rest_of H.work self.old (take n piece.now ++ x) e ≡ rest_of H.work self.new x e) }
        ensures zero { result ≡ Ok 0 → self.new.pending ≡ [] → piece.now ≡ [] }
        ensures held { IfOk result
            (λ n. held_of H.held self.new ≤ held_of H.held self.old + n) }
        ensures rank { result ≡ Ok 0 → length self.old.pending < length self.new.pending →
            held_of H.held self.new < held_of H.held self.old }
        ensures open { self.new.ended ≡ false }
        ensures no_fault { OnOk result (self.new.fault ≡ None) }
        ensures fault { IfErr result (λ f. self.new.fault ≡ Some f) }
        ensures cause { IfErr result (λ f. f ≢ StreamFault.Memory → self.old.fault ≡ None →
            (n : ℕ) × (n ≤ length piece.now) × ((x : List ℕ) (e : Ending) →
            rest_of H.work self.old (take n piece.now ++ x) e ≡ ends_in self.new.pending f)) }
        ensures whole { IfErr result (λ f. self.old.fault ≡ None → (place : ℕ) →
            f ≢ StreamFault.Malformed MalformedKind.Unfinished place) }
        ensures front { OnErr result (self.old.fault ≡ None → (x : List ℕ) (e : Ending) →
            Begins self.new.pending (rest_of H.work self.old (piece.now ++ x) e).text) }
        ensures stays { (f : StreamFault) → self.old.fault ≡ Some f →
            (result ≡ Err f) × (self.new ≡ self.old) }
        ensures bounded { (held_of H.held self.new ≤ SPAN_MAX + UNIT_MAX + 2)
            × (length self.new.pending ≤ SPAN_MAX + UNIT_MAX + 2) }
    {
        if !self.is_free() {
            return self.take(piece);
        }
        let used = match self.go_over(piece) {
            Ok(used) => used,
            Err(fault) => return Err(fault),
        };
        if used > 0 {
            return Ok(used);
        }
        self.take(piece)
    }
}

impl<H: ByRun + Drop> Staged<H> {
    /// Pushes the ASCII character at the front of the piece, if no tool gives it a meaning, nothing
    /// is begun and the handler wants one more. Answers how many bytes were used; where that is 0,
    /// nothing was changed.
    fn push_bare(&mut self, piece: &[u8]) -> Result<usize, StageFault>
        requires going { self.old.fault ≡ None }
        requires empty { self.old.pending ≡ [] }
        requires open { self.old.ended ≡ false }
        ensures ended { self.new.ended ≡ false }
        ensures pending { self.new.pending ≡ [] }
        ensures going { OnOk result (self.new.fault ≡ None) }
        ensures count { IfOk result (λ n. n ≤ length piece.now) }
        ensures rest { IfOk result (λ n. (x : List ℕ) (e : Ending) →
            rest_of H.work self.old (take n piece.now ++ x) e ≡ rest_of H.work self.new x e) }
        ensures held { IfOk result (λ n. H.held self.new.handler + length self.new.begun
            ≡ H.held self.old.handler + length self.old.begun + n) }
        ensures falls { IfOk result
            (λ n. measure H.finished H.held self.new (length piece.now - n) ≤ measure H.finished
            H.held self.old (length piece.now)) }
        ensures err { IfErr result (λ f. (f ≡ StreamFault.Memory) × (self.new.fault ≡ Some f)) }
    {
        if !self.handler.wants_more() {
            return Ok(0);
        }
        match self.reader.next_bare(piece) {
            None => Ok(0),
            Some(read) => match self.handler.push(read) {
                Ok(()) => Ok(1),
                Err(_) => {
                    self.fault = Some(StreamFault::Memory);
                    Err(StreamFault::Memory)
                }
            },
        }
    }

    /// Pushes the ASCII characters at the front of the piece to which no tool gives a meaning, as
    /// long as nothing is begun and the handler wants more. Answers how many bytes were used.
    fn run(&mut self, piece: &[u8]) -> Result<usize, StageFault>
        requires going { self.old.fault ≡ None }
        requires empty { self.old.pending ≡ [] }
        requires open { self.old.ended ≡ false }
        ensures ended { self.new.ended ≡ false }
        ensures pending { self.new.pending ≡ [] }
        ensures going { OnOk result (self.new.fault ≡ None) }
        ensures count { IfOk result (λ n. n ≤ length piece.now) }
        ensures rest { IfOk result (λ n. (x : List ℕ) (e : Ending) →
            rest_of H.work self.old (take n piece.now ++ x) e ≡ rest_of H.work self.new x e) }
        ensures held { IfOk result (λ n. H.held self.new.handler + length self.new.begun
            ≡ H.held self.old.handler + length self.old.begun + n) }
        ensures falls { IfOk result
            (λ n. measure H.finished H.held self.new (length piece.now - n) ≤ measure H.finished
            H.held self.old (length piece.now)) }
        ensures err { IfErr result (λ f. (f ≡ StreamFault.Memory) × (self.new.fault ≡ Some f)) }
    {
        let mut used = 0;
        while used < piece.len() {
            let count = match self.push_bare(&piece[used..]) {
                Ok(count) => count,
                Err(fault) => return Err(fault),
            };
            if count == 0 {
                return Ok(used);
            }
            used += count;
        }
        Ok(used)
    }

    /// As `read`, and then pushes the ASCII characters behind to which no tool gives a meaning.
    fn read_run(&mut self, piece: &[u8]) -> Result<usize, StageFault>
        requires going { self.old.fault ≡ None }
        requires empty { self.old.pending ≡ [] }
        requires open { self.old.ended ≡ false }
        requires wants { H.wants self.old.handler }
        requires reading { H.finished self.old.handler ≡ false }
        requires span { H.held self.old.handler ≤ SPAN_MAX }
        requires piece { 0 < length piece.now }
        ensures ended { self.new.ended ≡ false }
        ensures pending { self.new.pending ≡ [] }
        ensures going { OnOk result (self.new.fault ≡ None) }
        ensures count { IfOk result (λ n. n ≤ length piece.now) }
        ensures rest { IfOk result (λ n. (x : List ℕ) (e : Ending) →
            rest_of H.work self.old (take n piece.now ++ x) e ≡ rest_of H.work self.new x e) }
        ensures held { IfOk result (λ n. H.held self.new.handler + length self.new.begun
            ≡ H.held self.old.handler + length self.old.begun + n) }
        ensures falls { IfOk result
            (λ n. measure H.finished H.held self.new (length piece.now - n) < measure H.finished
            H.held self.old (length piece.now)) }
        ensures err { IfErr result (λ f. (f ≡ StreamFault.Memory) × (self.new.fault ≡ Some f)) }
    {
        let first = match self.read(piece) {
            Ok(first) => first,
            Err(fault) => return Err(fault),
        };
        let more = match self.run(&piece[first..]) {
            Ok(more) => more,
            Err(fault) => return Err(fault),
        };
        Ok(first + more)
    }

    /// As `take`, but ASCII characters to which no tool gives a meaning are pushed with no turn
    /// between them, as long as the handler wants more.
    pub fn take_runs(&mut self, piece: &[u8]) -> Result<usize, StageFault>
        requires { self.old.ended ≡ false }
        ensures count { IfOk result (λ n. n ≤ length piece.now) }
        ensures rest { IfOk result (λ n. (x : List ℕ) (e : Ending) →
            rest_of H.work self.old (take n piece.now ++ x) e ≡ rest_of H.work self.new x e) }
        ensures zero { result ≡ Ok 0 → self.new.pending ≡ [] → piece.now ≡ [] }
        ensures held { IfOk result
            (λ n. held_of H.held self.new ≤ held_of H.held self.old + n) }
        ensures rank { result ≡ Ok 0 → length self.old.pending < length self.new.pending →
            held_of H.held self.new < held_of H.held self.old }
        ensures open { self.new.ended ≡ false }
        ensures no_fault { OnOk result (self.new.fault ≡ None) }
        ensures fault { IfErr result (λ f. self.new.fault ≡ Some f) }
        ensures cause { IfErr result (λ f. f ≢ StreamFault.Memory → self.old.fault ≡ None →
            (n : ℕ) × (n ≤ length piece.now) × ((x : List ℕ) (e : Ending) →
            rest_of H.work self.old (take n piece.now ++ x) e ≡ ends_in self.new.pending f)) }
        ensures whole { IfErr result (λ f. self.old.fault ≡ None → (place : ℕ) →
            f ≢ StreamFault.Malformed MalformedKind.Unfinished place) }
        ensures front { OnErr result (self.old.fault ≡ None → (x : List ℕ) (e : Ending) →
            Begins self.new.pending (rest_of H.work self.old (piece.now ++ x) e).text) }
        ensures stays { (f : StreamFault) → self.old.fault ≡ Some f →
            (result ≡ Err f) × (self.new ≡ self.old) }
        ensures bounded { (held_of H.held self.new ≤ SPAN_MAX + UNIT_MAX + 2)
            × (length self.new.pending ≤ SPAN_MAX + UNIT_MAX + 2) }
    {
        if let Some(fault) = self.fault {
            return Err(fault);
        }
        let mut used = 0;
        while self.is_idle() {
            match self.work()? {
                Turn::Wrote => {}
                Turn::Over => unreachable!(),
                Turn::Wants => {
                    if used == piece.len() {
                        return Ok(used);
                    }
                    used += self.read_run(&piece[used..])?;
                }
            }
        }
        Ok(used)
    }
}

impl<H: ByFront + Drop> Staged<H> {
    /// Nothing is pending or held, at most one byte is begun, and more may come.
    fn is_fresh(&self) -> bool
        ensures { result ≡ true → IsFresh H.finished H.count H.held self.now }
    {
        self.fault.is_none()
            && !self.finished
            && self.from == self.out.as_slice().len()
            && self.reader.begun() <= 1
            && self.handler.is_free()
    }

    /// Gives what the first steps of the piece give, as far as they are known by its bytes. Answers
    /// how many bytes were used.
    fn go_on(&mut self, piece: &[u8]) -> Result<usize, Memory>
        requires fresh { IsFresh H.finished H.count H.held self.old }
        requires open { self.old.ended ≡ false }
        ensures count { IfOk result (λ n. n ≤ length piece.now) }
        ensures rest { IfOk result (λ n. (x : List ℕ) (e : Ending) →
            rest_of H.work self.old (take n piece.now ++ x) e ≡ rest_of H.work self.new x e) }
        ensures going { OnOk result (self.new.fault ≡ None) }
        ensures ended { self.new.ended ≡ false }
        ensures held { IfOk result
            (λ n. held_of H.held self.new ≤ held_of H.held self.old + n) }
        ensures none { result ≡ Ok 0 → self.new ≡ self.old }
        ensures bounded { (held_of H.held self.new ≤ SPAN_MAX + UNIT_MAX + 2)
            × (length self.new.pending ≤ SPAN_MAX + UNIT_MAX + 2) }
    {
        let begun = self.reader.begun();
        let most = piece.len().min(AHEAD);
        self.ahead.clear();
        self.ahead.extend(self.reader.held())?;
        self.ahead.extend(&piece[..most])?;
        let text = self.ahead.as_slice();
        self.out.clear();
        self.from = 0;
        let known = give_known(&mut self.handler, text, &mut self.room, &mut self.out);
        let front = match known {
            Ok(front) => front,
            Err(_) => {
                self.out.clear();
                return Err(Memory);
            }
        };
        if front.used == 0 || front.seen <= begun {
            self.out.clear();
            return Ok(0);
        }
        self.reader
            .stand(front.used, &text[front.used..front.seen])?;
        Ok(front.seen - begun)
    }

    /// As `take_runs`, but steps that are known by their bytes are given with no item made.
    pub fn take_known(&mut self, piece: &[u8]) -> Result<usize, StageFault>
        requires { self.old.ended ≡ false }
        ensures count { IfOk result (λ n. n ≤ length piece.now) }
        ensures rest { IfOk result (λ n. (x : List ℕ) (e : Ending) →
            rest_of H.work self.old (take n piece.now ++ x) e ≡ rest_of H.work self.new x e) }
        ensures zero { result ≡ Ok 0 → self.new.pending ≡ [] → piece.now ≡ [] }
        ensures held { IfOk result
            (λ n. held_of H.held self.new ≤ held_of H.held self.old + n) }
        ensures rank { result ≡ Ok 0 → length self.old.pending < length self.new.pending →
            held_of H.held self.new < held_of H.held self.old }
        ensures open { self.new.ended ≡ false }
        ensures no_fault { OnOk result (self.new.fault ≡ None) }
        ensures fault { IfErr result (λ f. self.new.fault ≡ Some f) }
        ensures cause { IfErr result (λ f. f ≢ StreamFault.Memory → self.old.fault ≡ None →
            (n : ℕ) × (n ≤ length piece.now) × ((x : List ℕ) (e : Ending) →
            rest_of H.work self.old (take n piece.now ++ x) e ≡ ends_in self.new.pending f)) }
        ensures whole { IfErr result (λ f. self.old.fault ≡ None → (place : ℕ) →
            f ≢ StreamFault.Malformed MalformedKind.Unfinished place) }
        ensures front { OnErr result (self.old.fault ≡ None → (x : List ℕ) (e : Ending) →
            Begins self.new.pending (rest_of H.work self.old (piece.now ++ x) e).text) }
        ensures stays { (f : StreamFault) → self.old.fault ≡ Some f →
            (result ≡ Err f) × (self.new ≡ self.old) }
        ensures bounded { (held_of H.held self.new ≤ SPAN_MAX + UNIT_MAX + 2)
            × (length self.new.pending ≤ SPAN_MAX + UNIT_MAX + 2) }
    {
        if !self.is_fresh() {
            return self.take_runs(piece);
        }
        match self.go_on(piece) {
            Ok(0) => self.take_runs(piece),
            Ok(used) => Ok(used),
            Err(_) => {
                self.out.clear();
                self.from = 0;
                self.fault = Some(StreamFault::Memory);
                Err(StreamFault::Memory)
            }
        }
    }
}

impl<H: Handler + Drop> Stage for Staged<H> {
    ghost rest = { λ s. rest_of H.work s };

    ghost pending = { λ s. s.pending };

    ghost held = { λ s. held_of H.held s };

    ghost ended = { λ s. s.ended };

    ghost fault = { λ s. s.fault };

    fn take(&mut self, piece: &[u8]) -> Result<usize, StageFault> {
        if let Some(fault) = self.fault {
            return Err(fault);
        }
        let mut used = 0;
        while self.is_idle() {
            match self.work()? {
                Turn::Wrote => {}
                Turn::Over => unreachable!(),
                Turn::Wants => {
                    if used == piece.len() {
                        return Ok(used);
                    }
                    used += self.read(&piece[used..])?;
                }
            }
        }
        Ok(used)
    }

    fn end(&mut self) -> Result<Finish, StageFault> {
        if let Some(fault) = self.fault {
            return Err(fault);
        }
        self.ended = true;
        while self.is_idle() {
            match self.work()? {
                Turn::Wrote => {}
                Turn::Over => return Ok(Finish::Over),
                Turn::Wants => self.close()?,
            }
        }
        Ok(Finish::More)
    }

    fn give(&mut self, into: &mut Pipe) -> usize {
        let count = into.fill(&self.out.as_slice()[self.from..]);
        self.from += count;
        count
    }

    fn pending(&self) -> usize {
        self.out.as_slice().len() - self.from
    }

    ghost rest_is = { λ s x. record {
      stop = (reads_of s x).stop;
      made = H.work s.handler (reads_of s x).items;
      is = λ e. refl;
    } };
}
