ghost use Rattle.std.specs.Prelude.{◌≡◌, ◌≢◌, ℕ, ◌+◌, ◌-◌, ◌<◌, ◌≤◌, List, [], ◌++◌, take, length, true, false, None, IfOk, IfErr, OnOk};
ghost use Rattle.ap_stream.specs.Reading.{counted};
ghost use Rattle.ap_stream.specs.Told.{Ending, Clean, silent, ends_in};
ghost use Rattle.ap_stream.specs.declared.TheConstants.{SPAN_MAX, UNIT_MAX};
ghost use Rattle.ap_stream.specs.declared.fault.MalformedKind.{MalformedKind};
ghost use Rattle.ap_stream.specs.declared.fault.StreamFault.{StreamFault};
ghost use Rattle.ap_format.specs.Giving.{ret_from, moved_fault, IsSound, StopsAt, Takes, Closes, weight};

use crate::given::give_front;
use crate::items::write_bare;
use ap_stream::{Dialect, Fed, Reader, StreamFault};
use ap_symbol::{Bytes, Memory};
use std::alloc::Global;
use std::marker::Model;

/// Reads a generated text, in any pieces that it comes in, and writes what it gives. What is whole
/// in a piece goes past the reader.
#[derive(Drop)]
pub(crate) struct Reformatter {
    reader: Reader,
    /// The number of bytes that went past the reader.
    passed: u64,
    /// What the text stopped at.
    stop: Option<StreamFault>,
    /// Room for the bytes of a blank.
    text: Vec<u8>,
}

impl Model for Reformatter {
    ghost use Rattle.std.specs.Prelude.{◌≡◌, ◌+◌, None};
    ghost use Rattle.ap_stream.specs.Reading.{counted};
    ghost use Rattle.ap_stream.specs.declared.dialect.Dialect.TheVariants.{Generated};
    ghost use Rattle.ap_format.specs.Giving.{Unread};

    ghost Value = { Unread };

    ghost view = { λ r. record {
      bytes = r.reader.held;
      place = counted (r.passed + r.reader.place);
      stop = r.stop;
    } };

    ghost invariant = { λ r. (r.reader.dialect ≡ Generated)
        × (r.stop ≡ None → r.reader.fault ≡ None) };
}

fn place_after(place: u64, size: u64) -> u64
    ensures { result ≡ counted (place + size) }
{
    place.saturating_add(size)
}

/// The fault of a text behind so many bytes more.
fn moved(fault: StreamFault, by: u64) -> StreamFault
    ensures { result ≡ moved_fault by fault }
{
    match fault {
        StreamFault::Malformed { kind, place } => StreamFault::Malformed {
            kind,
            place: place_after(by, place),
        },
        StreamFault::Limit { kind, place } => StreamFault::Limit {
            kind,
            place: place_after(by, place),
        },
        StreamFault::Memory => StreamFault::Memory,
    }
}

impl Reformatter {
    /// At the start of a text. It takes no memory.
    pub(crate) fn new(alloc: Global) -> Reformatter
        ensures bytes { result.bytes ≡ [] }
        ensures place { result.place ≡ 0 }
        ensures stop { result.stop ≡ None }
    {
        Reformatter {
            reader: Reader::new(alloc, Dialect::Generated),
            passed: 0,
            stop: None,
            text: Vec::new(alloc),
        }
    }

    /// Gives the piece to the reader, until an item is whole, the piece is used up or the text
    /// stops. Answers how many bytes were used. The error means want of memory.
    fn read(&mut self, piece: &[u8], out: &mut Bytes) -> Result<usize, Memory>
        requires going { self.old.stop ≡ None }
        requires some { 0 < length piece.now }
        ensures count { IfOk result (λ n. n ≤ length piece.now) }
        ensures takes { IfOk result (λ n.
            Takes self.old (take n piece.now) out.old out.new self.new) }
        ensures sound { OnOk result (IsSound self.new) }
        ensures falls { IfOk result (λ n.
            weight self.new (length piece.now - n) < weight self.old (length piece.now)) }
        ensures short { OnOk result (length out.new ≤ length out.old + UNIT_MAX) }
        ensures most { length self.new.bytes ≤ UNIT_MAX + 1 }
    {
        let before = self.reader.begun();
        match self.reader.feed(piece) {
            Ok(Fed { used, item }) => match item {
                None => Ok(used),
                Some(read) => match write_bare(&read.item, &mut self.text, out) {
                    Ok(()) => Ok(used),
                    Err(Memory) => Err(Memory),
                },
            },
            Err(fault) => {
                self.stop = Some(moved(fault, self.passed));
                match fault {
                    StreamFault::Memory => Err(Memory),
                    _ => Ok(self.reader.begun() - before),
                }
            }
        }
    }

    /// Takes bytes of the piece, and writes what they give: those at its front that give a text by
    /// themselves, or those that the reader uses. A fault is answered once the bytes that are held
    /// show it; then nothing is changed. `Memory` means want of memory.
    pub(crate) fn take(&mut self, piece: &[u8], out: &mut Bytes) -> Result<usize, StreamFault>
        requires sound { IsSound self.old }
        requires some { 0 < length piece.now }
        requires most { length self.old.bytes ≤ UNIT_MAX + 1 }
        ensures count { IfOk result (λ n. n ≤ length piece.now) }
        ensures takes { IfOk result (λ n.
            Takes self.old (take n piece.now) out.old out.new self.new) }
        ensures sound { OnOk result (IsSound self.new) }
        ensures falls { IfOk result (λ n.
            weight self.new (length piece.now - n) < weight self.old (length piece.now)) }
        ensures short { OnOk result (length out.new ≤ length out.old + UNIT_MAX) }
        ensures most { length self.new.bytes ≤ UNIT_MAX + 1 }
        ensures stops { IfErr result (λ f. f ≢ StreamFault.Memory → (self.new ≡ self.old)
            × (out.new ≡ out.old) × StopsAt self.old f) }
    {
        match self.stop {
            Some(fault) => return Err(fault),
            None => {}
        }
        if self.reader.begun() == 0 {
            let count = match give_front(piece, &mut self.text, out) {
                Ok(count) => count,
                Err(Memory) => return Err(StreamFault::Memory),
            };
            if count > 0 {
                self.passed = place_after(self.passed, count as u64);
                return Ok(count);
            }
        }
        match self.read(piece, out) {
            Ok(count) => Ok(count),
            Err(Memory) => Err(StreamFault::Memory),
        }
    }

    /// Writes what the last item gives, where the text ends, and answers whether there was one.
    /// `Memory` means want of memory.
    fn close(&mut self, out: &mut Bytes) -> Result<bool, StreamFault>
        requires sound { IsSound self.old }
        requires most { length self.old.bytes ≤ UNIT_MAX + 1 }
        ensures closes { OnOk result (Closes self.old out.old out.new self.new) }
        ensures sound { OnOk result (IsSound self.new) }
        ensures more { result ≡ Ok true → length self.new.bytes < length self.old.bytes }
        ensures over { result ≡ Ok false →
            ret_from self.new.place self.new.bytes Clean ≡ silent }
        ensures short { OnOk result (length out.new ≤ length out.old + UNIT_MAX) }
        ensures most { length self.new.bytes ≤ UNIT_MAX + 1 }
        ensures stops { IfErr result (λ f. f ≢ StreamFault.Memory → (out.new ≡ out.old)
            × (ret_from self.old.place self.old.bytes Clean ≡ ends_in [] f)) }
    {
        match self.stop {
            Some(fault) => return Err(fault),
            None => {}
        }
        match self.reader.end() {
            Ok(None) => Ok(false),
            Ok(Some(read)) => match write_bare(&read.item, &mut self.text, out) {
                Ok(()) => Ok(true),
                Err(Memory) => Err(StreamFault::Memory),
            },
            Err(fault) => {
                let fault = moved(fault, self.passed);
                self.stop = Some(fault);
                Err(fault)
            }
        }
    }

    /// Writes what the items give that are begun, where the text ends, up to the first that gives
    /// anything. A fault is answered where none does; then nothing is written. `Memory` means want
    /// of memory.
    pub(crate) fn finish(&mut self, out: &mut Bytes) -> Result<(), StreamFault>
        requires sound { IsSound self.old }
        requires empty { out.old ≡ [] }
        requires most { length self.old.bytes ≤ UNIT_MAX + 1 }
        ensures closes { OnOk result (Closes self.old [] out.new self.new) }
        ensures sound { OnOk result (IsSound self.new) }
        ensures over { OnOk result (out.new ≡ [] →
            ret_from self.new.place self.new.bytes Clean ≡ silent) }
        ensures short { OnOk result (length out.new ≤ UNIT_MAX) }
        ensures most { length self.new.bytes ≤ UNIT_MAX + 1 }
        ensures stops { IfErr result (λ f. f ≢ StreamFault.Memory →
            ret_from self.old.place self.old.bytes Clean ≡ ends_in [] f) }
    {
        while out.as_slice().is_empty() {
            match self.close(out) {
                Ok(true) => {}
                Ok(false) => return Ok(()),
                Err(fault) => return Err(fault),
            }
        }
        Ok(())
    }
}

/// How many bytes are written at least before the rest of a piece waits.
const WRITTEN_AT_ONCE: usize = 65_536;

/// Goes over a piece of the text, up to its end or until many bytes are written, and answers how
/// many bytes were taken. A fault is answered once nothing is written before it; `Memory` means
/// want of memory.
pub(crate) fn give_piece(
    reformatter: &mut Reformatter,
    piece: &[u8],
    out: &mut Bytes,
) -> Result<usize, StreamFault>
    requires sound { IsSound reformatter.old }
    requires empty { out.old ≡ [] }
    requires most { length reformatter.old.bytes ≤ UNIT_MAX + 1 }
    ensures count { IfOk result (λ n. n ≤ length piece.now) }
    ensures takes { IfOk result (λ n.
        Takes reformatter.old (take n piece.now) [] out.new reformatter.new) }
    ensures sound { OnOk result (IsSound reformatter.new) }
    ensures some { IfOk result (λ n. out.new ≡ [] → n ≡ length piece.now) }
    ensures short { OnOk result (length out.new ≤ SPAN_MAX + UNIT_MAX + 2) }
    ensures most { length reformatter.new.bytes ≤ UNIT_MAX + 1 }
    ensures stops { IfErr result (λ f. f ≢ StreamFault.Memory → (n : ℕ) × (n ≤ length piece.now)
        × ((x : List ℕ) (e : Ending) →
        ret_from reformatter.old.place (reformatter.old.bytes ++ (take n piece.now ++ x)) e
        ≡ ends_in [] f)) }
    ensures whole { IfErr result (λ f. (place : ℕ) →
        f ≢ StreamFault.Malformed MalformedKind.Unfinished place) }
{
    let mut used = 0;
    while used < piece.len() && out.as_slice().len() < WRITTEN_AT_ONCE {
        match reformatter.take(&piece[used..], out) {
            Ok(count) => used += count,
            Err(StreamFault::Memory) => return Err(StreamFault::Memory),
            Err(fault) => {
                if out.as_slice().is_empty() {
                    return Err(fault);
                }
                return Ok(used);
            }
        }
    }
    Ok(used)
}
