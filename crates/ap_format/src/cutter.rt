ghost use Rattle.std.specs.Prelude.{◌≡◌, ◌≢◌, ℕ, ◌+◌, ◌<◌, ◌≤◌, List, [], ◌∷◌, ◌++◌, take, length, false, IfOk, IfErr, OnOk, encode_utf8};
ghost use Rattle.ap_symbol.specs.Rendering.{letter_bytes};
ghost use Rattle.ap_stream.specs.Blanks.{is_white as white_test};
ghost use Rattle.ap_stream.specs.Chars.{Part, char_at};
ghost use Rattle.ap_stream.specs.Reading.{counted};
ghost use Rattle.ap_stream.specs.Told.{Ending, Clean, silent, behind, ends_in};
ghost use Rattle.ap_stream.specs.declared.TheConstants.{SPAN_MAX, UNIT_MAX};
ghost use Rattle.ap_stream.specs.declared.fault.MalformedKind.{MalformedKind};
ghost use Rattle.ap_stream.specs.declared.fault.StreamFault.{StreamFault};
ghost use Rattle.ap_format.specs.Deformatted.{des_from, run_bytes};
ghost use Rattle.ap_format.specs.Pieces.{white_size as white_count};
ghost use Rattle.ap_format.specs.Standing.{IsWhite, Stops, Cuts, Closes, kind_of_white};

use crate::copied::{copied_size, is_escaped, is_white, white_size};
use ap_stream::decode::{Decoded, decode};
use ap_stream::{LimitKind, MalformedKind, StreamFault, UNIT_MAX};
use ap_symbol::{Bytes, Memory};
use std::alloc::Global;
use std::marker::Model;

/// What the bytes are that were taken and are no whole piece yet.
#[derive(Clone, Copy, Debug, PartialEq, Eq)]
pub(crate) enum Begun {
    /// There are none.
    Nothing,
    /// A run of white space, which may go on.
    White,
    /// The start of a character.
    Character,
    /// No character begins so.
    NotChar,
    /// A run of white space that has too many bytes.
    TooLong,
}

/// Cuts a plain text into its pieces, in any pieces that it comes in, and writes them.
#[derive(Drop)]
pub(crate) struct Cutter {
    begun: Begun,
    held: Vec<u8>,
    place: u64,
}

impl Model for Cutter {
    ghost use Rattle.ap_format.specs.Deformatted.{Uncut};
    ghost use Rattle.ap_format.specs.Standing.{Stands};

    ghost Value = { Uncut };

    ghost view = { λ c. record { bytes = c.held.items; place = c.place } };

    ghost invariant = { λ c. Stands c.begun c.held.items };
}

/// How many bytes are copied at once.
const COPIED_AT_ONCE: usize = 65_536;

fn place_after(place: u64, size: usize) -> u64
    ensures { result ≡ counted (place + size) }
{
    place.saturating_add(size as u64)
}

/// What white space of so many bytes is: a run, or too long to be an item with two brackets.
fn kind_of_white(size: usize) -> Begun
    requires { size < UNIT_MAX }
    ensures { result ≡ kind_of_white size }
{
    if size + 1 == UNIT_MAX {
        Begun::TooLong
    } else {
        Begun::White
    }
}

/// Appends a run of white space: one space as itself, any other run in brackets.
fn write_run(run: &[u8], out: &mut Bytes) -> Result<(), Memory>
    ensures { OnOk result (out.new ≡ out.old ++ run_bytes run.now) }
{
    if let [b' '] = run {
        return out.extend(run);
    }
    out.extend(b"[")?;
    out.extend(run)?;
    out.extend(b"]")
}

/// Appends the bytes of a character, after `\` where it is reserved.
fn write_letter(letter: char, bytes: &[u8], out: &mut Bytes) -> Result<(), Memory>
    requires { bytes.now ≡ encode_utf8 letter }
    ensures { OnOk result (out.new ≡ out.old ++ letter_bytes letter) }
{
    if is_escaped(letter) {
        out.extend(b"\\")?;
    }
    out.extend(bytes)
}

impl Cutter {
    pub(crate) fn new(alloc: Global) -> Cutter
        ensures bytes { result.bytes ≡ [] }
        ensures place { result.place ≡ 0 }
    {
        Cutter {
            begun: Begun::Nothing,
            held: Vec::new(alloc),
            place: 0,
        }
    }

    /// Takes the next byte of a character.
    fn grow(&mut self, byte: u8, out: &mut Bytes) -> Result<(), Memory>
        requires part { char_at self.old.bytes ≡ Part }
        requires dark { self.old.bytes ≡ [] → white_test byte ≡ false }
        ensures cuts { OnOk result (Cuts self.old (byte ∷ []) out.old out.new self.new) }
        ensures short { OnOk result (length out.new ≤ length out.old + UNIT_MAX) }
        ensures most { length self.new.bytes ≤ UNIT_MAX }
    {
        self.held.push(byte)?;
        match decode(self.held.as_slice()) {
            Decoded::Part => {
                self.begun = Begun::Character;
                Ok(())
            }
            Decoded::NotChar => {
                self.begun = Begun::NotChar;
                Ok(())
            }
            Decoded::Char { letter, size } => {
                match write_letter(letter, self.held.as_slice(), out) {
                    Ok(()) => {
                        self.place = place_after(self.place, size);
                        self.held.clear();
                        self.begun = Begun::Nothing;
                        Ok(())
                    }
                    Err(Memory) => {
                        self.held.clear();
                        self.begun = Begun::Nothing;
                        Err(Memory)
                    }
                }
            }
        }
    }

    /// Takes more white space, as far as a run may go and one byte more.
    fn add_white(&mut self, piece: &[u8]) -> Result<usize, Memory>
        requires white { IsWhite self.old.bytes }
        requires short { length self.old.bytes + 2 ≤ UNIT_MAX }
        requires more { 0 < white_count piece.now }
        ensures count { IfOk result (λ n. (0 < n) × (n ≤ length piece.now)) }
        ensures bytes { IfOk result (λ n. self.new.bytes ≡ self.old.bytes ++ take n piece.now) }
        ensures place { self.new.place ≡ self.old.place }
        ensures most { length self.new.bytes ≤ UNIT_MAX }
    {
        let most = piece.len().min(UNIT_MAX - 1 - self.held.as_slice().len());
        let count = white_size(&piece[..most]);
        self.held.extend_from_slice(&piece[..count])?;
        self.begun = kind_of_white(self.held.as_slice().len());
        Ok(count)
    }

    /// Writes the run of white space that is held, which no white space follows.
    fn close(&mut self, out: &mut Bytes) -> Result<(), Memory>
        requires white { IsWhite self.old.bytes }
        requires some { 0 < length self.old.bytes }
        requires short { length self.old.bytes + 2 ≤ UNIT_MAX }
        ensures closes { OnOk result (Closes self.old out.old out.new self.new) }
        ensures most { length self.new.bytes ≤ UNIT_MAX }
    {
        write_run(self.held.as_slice(), out)?;
        self.place = place_after(self.place, self.held.as_slice().len());
        self.held.clear();
        self.begun = Begun::Nothing;
        Ok(())
    }

    /// Takes bytes where no piece is begun.
    fn begin(&mut self, piece: &[u8], out: &mut Bytes) -> Result<usize, Memory>
        requires empty { self.old.bytes ≡ [] }
        requires some { 0 < length piece.now }
        ensures count { IfOk result (λ n. (0 < n) × (n ≤ length piece.now)) }
        ensures cuts { IfOk result (λ n.
            Cuts self.old (take n piece.now) out.old out.new self.new) }
        ensures short { OnOk result (length out.new ≤ length out.old + UNIT_MAX) }
        ensures most { length self.new.bytes ≤ UNIT_MAX }
    {
        let most = piece.len().min(COPIED_AT_ONCE);
        let count = copied_size(&piece[..most]);
        if count > 0 {
            out.extend(&piece[..count])?;
            self.place = place_after(self.place, count);
            return Ok(count);
        }
        if is_white(piece[0]) {
            return self.add_white(piece);
        }
        self.grow(piece[0], out)?;
        Ok(1)
    }

    /// Takes bytes behind white space.
    fn go_on_white(&mut self, piece: &[u8], out: &mut Bytes) -> Result<usize, Memory>
        requires white { IsWhite self.old.bytes }
        requires held { 0 < length self.old.bytes }
        requires short { length self.old.bytes + 2 ≤ UNIT_MAX }
        requires some { 0 < length piece.now }
        ensures count { IfOk result (λ n. (0 < n) × (n ≤ length piece.now)) }
        ensures cuts { IfOk result (λ n.
            Cuts self.old (take n piece.now) out.old out.new self.new) }
        ensures short { OnOk result (length out.new ≤ length out.old + SPAN_MAX) }
        ensures most { length self.new.bytes ≤ UNIT_MAX }
    {
        if is_white(piece[0]) {
            return self.add_white(piece);
        }
        self.close(out)?;
        self.begin(piece, out)
    }

    /// Takes at least one byte, and writes the pieces that are whole then. A fault is answered once
    /// the bytes that are held show it; then nothing is changed. `Memory` means want of memory.
    pub(crate) fn take(&mut self, piece: &[u8], out: &mut Bytes) -> Result<usize, StreamFault>
        requires { 0 < length piece.now }
        ensures count { IfOk result (λ n. (0 < n) × (n ≤ length piece.now)) }
        ensures cuts { IfOk result (λ n.
            Cuts self.old (take n piece.now) out.old out.new self.new) }
        ensures short { OnOk result (length out.new ≤ length out.old + SPAN_MAX) }
        ensures most { length self.new.bytes ≤ UNIT_MAX }
        ensures stops { IfErr result (λ f. f ≢ StreamFault.Memory → (self.new ≡ self.old)
            × (out.new ≡ out.old) × Stops self.old f) }
        ensures whole { IfErr result (λ f. (place : ℕ) →
            f ≢ StreamFault.Malformed MalformedKind.Unfinished place) }
    {
        let taken = match self.begun {
            Begun::Nothing => self.begin(piece, out),
            Begun::White => self.go_on_white(piece, out),
            Begun::Character => match self.grow(piece[0], out) {
                Ok(()) => Ok(1),
                Err(Memory) => Err(Memory),
            },
            Begun::NotChar => {
                return Err(StreamFault::Malformed {
                    kind: MalformedKind::NotUtf8,
                    place: self.place,
                });
            }
            Begun::TooLong => {
                return Err(StreamFault::Limit {
                    kind: LimitKind::ItemTooLong,
                    place: self.place,
                });
            }
        };
        match taken {
            Ok(count) => Ok(count),
            Err(Memory) => Err(StreamFault::Memory),
        }
    }

    /// Writes what is begun, where the text ends. A fault is that of the bytes that are held; then
    /// nothing is changed. `Memory` means want of memory.
    pub(crate) fn finish(&mut self, out: &mut Bytes) -> Result<(), StreamFault>
        ensures ends { OnOk result ((given : List ℕ) × (out.new ≡ out.old ++ given)
            × (length given ≤ UNIT_MAX) × (self.new.bytes ≡ [])
            × (self.old.bytes ≡ [] → given ≡ [])
            × (des_from self.old.place self.old.bytes Clean ≡ behind given silent)) }
        ensures most { length self.new.bytes ≤ UNIT_MAX }
        ensures stops { IfErr result (λ f. f ≢ StreamFault.Memory → (self.new ≡ self.old)
            × (out.new ≡ out.old)
            × (des_from self.old.place self.old.bytes Clean ≡ ends_in [] f)) }
    {
        match self.begun {
            Begun::Nothing => Ok(()),
            Begun::White => match self.close(out) {
                Ok(()) => Ok(()),
                Err(Memory) => Err(StreamFault::Memory),
            },
            Begun::Character => Err(StreamFault::Malformed {
                kind: MalformedKind::Unfinished,
                place: self.place,
            }),
            Begun::NotChar => Err(StreamFault::Malformed {
                kind: MalformedKind::NotUtf8,
                place: self.place,
            }),
            Begun::TooLong => Err(StreamFault::Limit {
                kind: LimitKind::ItemTooLong,
                place: self.place,
            }),
        }
    }
}

/// How many bytes are written at least before the rest of a piece waits.
const GIVEN_AT_ONCE: usize = 65_536;

/// Cuts a piece of the text, up to its end or until many bytes are written, and answers how many
/// bytes were taken. A fault is answered once nothing is written before it; `Memory` means want of
/// memory.
pub(crate) fn cut_piece(
    cutter: &mut Cutter,
    piece: &[u8],
    out: &mut Bytes,
) -> Result<usize, StreamFault>
    requires empty { out.old ≡ [] }
    requires most { length cutter.old.bytes ≤ UNIT_MAX }
    ensures count { IfOk result (λ n. n ≤ length piece.now) }
    ensures cuts { IfOk result (λ n. Cuts cutter.old (take n piece.now) [] out.new cutter.new) }
    ensures some { result ≡ Ok 0 → (piece.now ≡ []) × (out.new ≡ []) }
    ensures short { OnOk result (length out.new ≤ SPAN_MAX + UNIT_MAX + 2) }
    ensures most { length cutter.new.bytes ≤ UNIT_MAX }
    ensures stops { IfErr result (λ f. f ≢ StreamFault.Memory → (n : ℕ) × (n ≤ length piece.now)
        × ((x : List ℕ) (e : Ending) →
        des_from cutter.old.place (cutter.old.bytes ++ (take n piece.now ++ x)) e
        ≡ ends_in [] f)) }
    ensures whole { IfErr result (λ f. (place : ℕ) →
        f ≢ StreamFault.Malformed MalformedKind.Unfinished place) }
{
    let mut used = 0;
    while used < piece.len() && out.as_slice().len() < GIVEN_AT_ONCE {
        match cutter.take(&piece[used..], out) {
            Ok(count) => used += count,
            Err(StreamFault::Memory) => return Err(StreamFault::Memory),
            Err(fault) => {
                if out.as_slice().is_empty() {
                    return Err(fault);
                }
                return Ok(used);
            }
        }
    }
    Ok(used)
}
