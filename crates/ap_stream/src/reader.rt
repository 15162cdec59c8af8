ghost use Rattle.std.specs.Prelude.{◌≡◌, ◌≢◌, ℕ, ◌+◌, ◌-◌, ◌<◌, ◌≤◌, List, [], ◌∷◌, ◌++◌, take, drop, length, Some, None, true, false, IfOk, IfErr, OnOk, OnErr, OnSome, IfSome, slice_index};
ghost use Rattle.ap_symbol.specs.declared.symbol.Symbol.{Symbol};
ghost use Rattle.ap_stream.specs.declared.fault.StreamFault.{StreamFault};
ghost use Rattle.ap_stream.specs.declared.item.Chunk.{Chunk as ChunkIs};
ghost use Rattle.ap_stream.specs.declared.item.Item.TheVariants as ItemIs;
ghost use Rattle.ap_stream.specs.Stands.{ChunkOf, Surely};
ghost use Rattle.ap_stream.specs.Dialects.{has_chunks};
ghost use Rattle.ap_stream.specs.Given.{Gives, Stopped, Feeds, Shows, Ends, CanGoOn, NeededMore};
ghost use Rattle.ap_stream.specs.Reading.{Whole, counted, reads, stopped, nothing, IsRead};
ghost use Rattle.ap_stream.specs.UnitBytes.{UnitOf};

use crate::UNIT_MAX;
use crate::blank::Blank;
use crate::chunks::chunk_of;
use crate::copying::is_common;
use crate::crossing::{Run, run_in};
use crate::dialect::Dialect;
use crate::examine::Mode;
use crate::fault::{LimitKind, MalformedKind, StreamFault};
use crate::item::{Character, Item, Read};
use crate::level::{Effect, Level, is_blank, look};
use crate::names::Names;
use crate::unit::Unit;
use ap_symbol::Memory;
use std::alloc::Global;
use std::marker::Model;
use std::mem;

/// How much of a piece was used, and the item that became whole.
#[derive(Debug, Drop)]
pub struct Fed {
    pub used: usize,
    pub item: Option<Read>,
}

/// Reads the items of a text in any pieces. It holds the bytes of no whole item alone, and looks at
/// no byte twice.
#[derive(Drop)]
pub struct Reader {
    alloc: Global,
    dialect: Dialect,
    held: Vec<u8>,
    /// The bytes before it are behind, and those from it on are the start of a character.
    done: usize,
    level: Level,
    /// Whether the last byte was looked at. Behind a blank the byte that ended it wasn't.
    looked: bool,
    place: u64,
    fault: Option<StreamFault>,
    /// The tags of the names of chunks that were read last.
    names: Names,
}

impl Model for Reader {
    ghost use Rattle.std.specs.Prelude.{◌≡◌, ◌≤◌, length, None};
    ghost use Rattle.ap_stream.specs.Limits.{begun_max};
    ghost use Rattle.ap_stream.specs.Given.{Begun, Standing};

    ghost Value = { Begun };

    ghost view = { λ r. record {
      dialect = r.dialect;
      held = r.held.items;
      place = r.place;
      looked =
          r.looked;
      fault = r.fault;
    } };

    ghost invariant = { λ r. (length r.held.items ≤ begun_max)
        × (r.fault ≡ None → Standing r.dialect r.looked r.level r.done r.held.items) };
}

/// How far ahead the next byte of a superblank or a word that needs a look is sought at once.
const CROSSED_AT_ONCE: usize = 256;

/// The bytes of a unit for which room is made at once.
const UNIT_ROOM: usize = 64;

fn place_after(place: u64, size: u64) -> u64
    ensures { result ≡ counted (place + size) }
{
    place.saturating_add(size)
}

/// Takes the bytes before `at` out as a blank, and leaves the one there.
fn cut(alloc: Global, held: &mut Vec<u8>, at: usize) -> Result<Blank, Memory>
    requires { at < length held.old.items }
    ensures bytes { IfOk result (λ blank. blank ≡ take at held.old.items) }
    ensures left { OnOk result (held.new.items ≡ slice_index held.old.items at ∷ []) }
    ensures short { length held.new.items ≤ length held.old.items }
{
    let blank = Blank::from_slice(alloc, &held[..at])?;
    let last = held[at];
    held.clear();
    held.push(last)?;
    Ok(blank)
}

/// Takes all bytes out. There is room for the bytes of most units then.
fn all_out(alloc: Global, held: &mut Vec<u8>) -> Result<Vec<u8>, Memory>
    ensures bytes { IfOk result (λ bytes. bytes.items ≡ held.old.items) }
    ensures left { OnOk result (held.new.items ≡ []) }
    ensures same { OnErr result (held.new.items ≡ held.old.items) }
{
    let next = Vec::with_capacity(alloc, UNIT_ROOM)?;
    Ok(mem::replace(held, next))
}

impl Reader {
    /// A reader at the start of a text.
    pub fn new(alloc: Global, dialect: Dialect) -> Reader
        ensures dialect { result.dialect ≡ dialect }
        ensures held { result.held ≡ [] }
        ensures place { result.place ≡ 0 }
        ensures looked { result.looked ≡ true }
        ensures fault { result.fault ≡ None }
    {
        Reader {
            alloc,
            dialect,
            held: Vec::new(alloc),
            done: 0,
            level: Level::Item(Mode::Start),
            looked: true,
            place: 0,
            fault: None,
            names: Names::new(alloc),
        }
    }

    /// The number of bytes that it holds.
    pub fn begun(&self) -> usize
        ensures count { result ≡ length self.now.held }
        ensures most { result ≤ UNIT_MAX + 1 }
    {
        self.held.len()
    }

    /// Its dialect.
    pub(crate) fn dialect(&self) -> Dialect
        ensures { result ≡ self.now.dialect }
    {
        self.dialect
    }

    /// Whether it stands between two items: it holds nothing, and has answered no fault.
    pub(crate) fn is_between(&self) -> bool
        ensures held { result ≡ true → self.now.held ≡ [] }
        ensures fault { result ≡ true → self.now.fault ≡ None }
    {
        self.held.is_empty() && self.fault.is_none()
    }

    /// Passes over so many bytes, which it doesn't look at.
    pub(crate) fn pass(&mut self, count: usize)
        requires { self.old.held ≡ [] }
        ensures held { self.new.held ≡ [] }
        ensures place { self.new.place ≡ counted (self.old.place + count) }
        ensures counts { counted self.old.place ≡ self.old.place }
        ensures dialect { self.new.dialect ≡ self.old.dialect }
        ensures fault { self.new.fault ≡ self.old.fault }
    {
        self.place = place_after(self.place, count as u64);
    }

    /// The bytes that it holds.
    pub(crate) fn held(&self) -> &[u8]
        ensures { result.now ≡ self.now.held }
    {
        self.held.as_slice()
    }

    /// Passes over so many bytes, which it doesn't look at, and holds those behind them, one or
    /// none, which it doesn't look at either.
    pub(crate) fn stand(&mut self, count: usize, behind: &[u8]) -> Result<(), Memory>
        requires { length behind.now ≤ 1 }
        ensures held { OnOk result (self.new.held ≡ behind.now) }
        ensures short { length self.new.held ≤ 1 }
        ensures place { OnOk result (self.new.place ≡ counted (self.old.place + count)) }
        ensures counts { counted self.old.place ≡ self.old.place }
        ensures dialect { self.new.dialect ≡ self.old.dialect }
        ensures fault { self.new.fault ≡ self.old.fault }
    {
        self.held.clear();
        self.level = Level::Item(Mode::Start);
        self.done = 0;
        self.looked = true;
        self.held.extend_from_slice(behind)?;
        self.looked = behind.len() == 0;
        self.place = place_after(self.place, count as u64);
        Ok(())
    }

    /// Takes one more byte, and doesn't look at it yet.
    fn push(&mut self, byte: u8) -> Result<(), StreamFault>
        requires going { self.old.fault ≡ None }
        requires looked { self.old.looked ≡ true }
        ensures ok { OnOk result ((self.new.held ≡ self.old.held ++ byte ∷ [])
            × (self.new.looked ≡ false) × (self.new.fault ≡ None)) }
        ensures dialect { self.new.dialect ≡ self.old.dialect }
        ensures place { self.new.place ≡ self.old.place }
        ensures holds { length self.new.held ≤ UNIT_MAX + 1 }
        ensures err { IfErr result (λ f. (f ≡ StreamFault.Memory) × (self.new.fault ≡ Some f)) }
    {
        match self.held.push(byte) {
            Ok(()) => {
                self.looked = false;
                Ok(())
            }
            Err(_) => {
                self.fault = Some(StreamFault::Memory);
                Err(StreamFault::Memory)
            }
        }
    }

    /// Within a superblank or a word, in a chunk too, takes the bytes that only go on with it, as far
    /// as a look ahead shows.
    fn cross(&mut self, piece: &[u8]) -> Result<usize, StreamFault>
        requires going { self.old.fault ≡ None }
        requires looked { self.old.looked ≡ true }
        ensures count { IfOk result (λ n. n ≤ length piece.now) }
        ensures ok { IfOk result (λ n. (self.new.held ≡ self.old.held ++ take n piece.now)
            × (self.new.looked ≡ true) × (self.new.fault ≡ None)) }
        ensures dialect { self.new.dialect ≡ self.old.dialect }
        ensures place { self.new.place ≡ self.old.place }
        ensures holds { length self.new.held ≤ UNIT_MAX + 1 }
        ensures err { IfErr result (λ f. (f ≡ StreamFault.Memory) × (self.new.fault ≡ Some f)) }
    {
        if self.done < self.held.len() {
            return Ok(0);
        }
        let most = piece
            .len()
            .min(CROSSED_AT_ONCE)
            .min(UNIT_MAX - self.held.len());
        let Run { count, level } = run_in(self.dialect, self.level, &piece[..most]);
        if count == 0 {
            return Ok(0);
        }
        match self.held.extend_from_slice(&piece[..count]) {
            Ok(()) => {
                self.level = level;
                self.done = self.held.len();
                Ok(count)
            }
            Err(_) => {
                self.fault = Some(StreamFault::Memory);
                Err(StreamFault::Memory)
            }
        }
    }

    /// Takes at least one byte: those that only go on with a superblank or a word, or one that it
    /// doesn't look at yet.
    fn advance(&mut self, piece: &[u8]) -> Result<usize, StreamFault>
        requires going { self.old.fault ≡ None }
        requires looked { self.old.looked ≡ true }
        requires some { 0 < length piece.now }
        ensures count { IfOk result (λ n. (0 < n) × (n ≤ length piece.now)) }
        ensures ok { IfOk result (λ n. (self.new.held ≡ self.old.held ++ take n piece.now)
            × (self.new.fault ≡ None)) }
        ensures dialect { self.new.dialect ≡ self.old.dialect }
        ensures place { self.new.place ≡ self.old.place }
        ensures holds { length self.new.held ≤ UNIT_MAX + 1 }
        ensures err { IfErr result (λ f. (f ≡ StreamFault.Memory) × (self.new.fault ≡ Some f)) }
    {
        match self.cross(piece) {
            Ok(count) => {
                if count > 0 {
                    return Ok(count);
                }
            }
            Err(fault) => return Err(fault),
        }
        match self.push(piece[0]) {
            Ok(()) => Ok(1),
            Err(fault) => Err(fault),
        }
    }

    /// Notes a fault, which it answers from then on.
    fn note(&mut self, fault: StreamFault) -> StreamFault
        ensures same { result ≡ fault }
        ensures fault { self.new.fault ≡ Some fault }
        ensures dialect { self.new.dialect ≡ self.old.dialect }
        ensures held { self.new.held ≡ self.old.held }
        ensures place { self.new.place ≡ self.old.place }
    {
        self.fault = Some(fault);
        fault
    }

    /// Gives this item, which all that it holds is, and begins the next one.
    fn give(&mut self, item: Item) -> Read
        requires going { self.old.fault ≡ None }
        requires some { 0 < length self.old.held }
        requires short { length self.old.held ≤ UNIT_MAX }
        requires whole { Surely self.old.dialect self.old.held (Whole item (length self.old.held)) }
        ensures given { Gives self.old (Some result) self.new }
        ensures item { IsRead self.old.dialect result }
        ensures dialect { self.new.dialect ≡ self.old.dialect }
        ensures held { self.new.held ≡ [] }
        ensures going { self.new.fault ≡ None }
    {
        let read = Read {
            item,
            place: self.place,
            size: self.held.len() as u64,
        };
        self.place = place_after(self.place, read.size);
        self.held.clear();
        self.level = Level::Item(Mode::Start);
        self.done = 0;
        self.looked = true;
        read
    }

    /// Gives the unit that all that it holds is, and begins the next item.
    fn unit(&mut self) -> Result<Option<Read>, StreamFault>
        requires going { self.old.fault ≡ None }
        requires short { length self.old.held ≤ UNIT_MAX }
        requires unit { (words : List (List Symbol)) × UnitOf self.old.dialect self.old.held words }
        ensures given { IfOk result (λ item. Gives self.old item self.new) }
        ensures item { IfOk result (λ item. IfSome item (IsRead self.old.dialect)) }
        ensures some { IfOk result (λ item. item ≢ None) }
        ensures dialect { self.new.dialect ≡ self.old.dialect }
        ensures short { OnOk result (length self.new.held ≤ 1) }
        ensures holds { length self.new.held ≤ UNIT_MAX + 1 }
        ensures going { OnOk result (self.new.fault ≡ None) }
        ensures fault { IfErr result (λ f. (f ≡ StreamFault.Memory) × (self.new.fault ≡ Some f)) }
    {
        let bytes = match all_out(self.alloc, &mut self.held) {
            Ok(bytes) => bytes,
            Err(_) => {
                self.fault = Some(StreamFault::Memory);
                return Err(StreamFault::Memory);
            }
        };
        let read = Read {
            size: bytes.len() as u64,
            item: Item::Unit(Unit::from_bytes(self.alloc, self.dialect, bytes)),
            place: self.place,
        };
        self.place = place_after(self.place, read.size);
        self.level = Level::Item(Mode::Start);
        self.done = 0;
        self.looked = true;
        Ok(Some(read))
    }

    /// Gives the chunk that all that it holds is, and begins the next item.
    fn chunk(&mut self) -> Result<Option<Read>, StreamFault>
        requires going { self.old.fault ≡ None }
        requires some { 0 < length self.old.held }
        requires short { length self.old.held ≤ UNIT_MAX }
        requires chunks { has_chunks self.old.dialect ≡ true }
        requires chunk { (chunk : ChunkIs) × ChunkOf self.old.held chunk }
        ensures given { IfOk result (λ item. Gives self.old item self.new) }
        ensures item { IfOk result (λ item. IfSome item (IsRead self.old.dialect)) }
        ensures some { IfOk result (λ item. item ≢ None) }
        ensures dialect { self.new.dialect ≡ self.old.dialect }
        ensures short { OnOk result (length self.new.held ≤ 1) }
        ensures holds { length self.new.held ≤ UNIT_MAX + 1 }
        ensures going { OnOk result (self.new.fault ≡ None) }
        ensures fault { IfErr result (λ f. (f ≡ StreamFault.Memory) × (self.new.fault ≡ Some f)) }
    {
        match chunk_of(self.alloc, &mut self.names, self.held.as_slice()) {
            Ok(chunk) => Ok(Some(self.give(Item::Chunk(chunk)))),
            Err(_) => {
                self.fault = Some(StreamFault::Memory);
                Err(StreamFault::Memory)
            }
        }
    }

    /// Gives so many bytes as a blank, and holds the byte behind them, which ended it: the next item
    /// begins with it.
    fn blank(&mut self, count: usize) -> Result<Option<Read>, StreamFault>
        requires going { self.old.fault ≡ None }
        requires looked { self.old.looked ≡ false }
        requires some { 0 < count }
        requires one { length self.old.held ≡ count + 1 }
        requires short { count ≤ UNIT_MAX }
        requires whole { Surely self.old.dialect self.old.held
            (Whole (ItemIs.Blank (take count self.old.held)) count) }
        ensures given { IfOk result (λ item. Gives self.old item self.new) }
        ensures item { IfOk result (λ item. IfSome item (IsRead self.old.dialect)) }
        ensures some { IfOk result (λ item. item ≢ None) }
        ensures dialect { self.new.dialect ≡ self.old.dialect }
        ensures short { OnOk result (length self.new.held ≤ 1) }
        ensures holds { length self.new.held ≤ UNIT_MAX + 1 }
        ensures going { OnOk result (self.new.fault ≡ None) }
        ensures fault { IfErr result (λ f. (f ≡ StreamFault.Memory) × (self.new.fault ≡ Some f)) }
    {
        let blank = match cut(self.alloc, &mut self.held, count) {
            Ok(blank) => blank,
            Err(_) => {
                self.fault = Some(StreamFault::Memory);
                return Err(StreamFault::Memory);
            }
        };
        let read = Read {
            item: Item::Blank(blank),
            place: self.place,
            size: count as u64,
        };
        self.place = place_after(self.place, read.size);
        self.level = Level::Item(Mode::Start);
        self.done = 0;
        Ok(Some(read))
    }

    /// Looks at the last byte, if it has not been looked at.
    fn step(&mut self) -> Result<Option<Read>, StreamFault>
        requires going { self.old.fault ≡ None }
        ensures given { IfOk result (λ item. Gives self.old item self.new) }
        ensures item { IfOk result (λ item. IfSome item (IsRead self.old.dialect)) }
        ensures dialect { self.new.dialect ≡ self.old.dialect }
        ensures going { OnOk result (self.new.fault ≡ None) }
        ensures looked { IfOk result (λ item. item ≡ None → self.new.looked ≡ true) }
        ensures short { IfOk result (λ item. OnSome item (length self.new.held ≤ 1)) }
        ensures holds { length self.new.held ≤ UNIT_MAX + 1 }
        ensures held { IfOk result (λ item. item ≡ None → (self.new.held ≡ self.old.held)
            × (self.new.place ≡ self.old.place) × CanGoOn self.new) }
        ensures fault { IfErr result (λ f. self.new.fault ≡ Some f) }
        ensures shown { IfErr result (λ f. f ≢ StreamFault.Memory → (self.new.held ≡ self.old.held)
            × (self.new.place ≡ self.old.place) × Stopped f self.new
            × ((place : ℕ) → f ≢ StreamFault.Malformed MalformedKind.Unfinished place)
            × NeededMore self.new) }
    {
        if self.looked {
            return Ok(None);
        }
        let place = self.place;
        let done = self.done;
        let shown = look(self.dialect, self.level, done, self.held.as_slice());
        match shown {
            Effect::Waits => {
                self.looked = true;
                Ok(None)
            }
            Effect::Goes(level) => {
                self.level = level;
                self.done = self.held.len();
                self.looked = true;
                Ok(None)
            }
            Effect::Plain(character) => Ok(Some(self.give(Item::Plain(character)))),
            Effect::UnitEnds => self.unit(),
            Effect::ChunkEnds => self.chunk(),
            Effect::BlankEnds => self.blank(done),
            Effect::Bad(kind) => Err(self.note(StreamFault::Malformed { kind, place })),
            Effect::TooLong => {
                let kind = LimitKind::ItemTooLong;
                Err(self.note(StreamFault::Limit { kind, place }))
            }
        }
    }

    /// Where nothing is held and an ASCII character to which no tool gives a meaning stands next,
    /// gives it, and holds nothing then either.
    fn bare(&mut self, piece: &[u8]) -> Option<Read>
        requires going { self.old.fault ≡ None }
        requires looked { self.old.looked ≡ true }
        ensures some { OnSome result (1 ≤ length piece.now) }
        ensures given { IfSome result
            (λ read. Feeds self.old (take 1 piece.now) (Some read) self.new) }
        ensures item { IfSome result (λ read. IsRead self.old.dialect read) }
        ensures held { OnSome result (self.new.held ≡ []) }
        ensures going { self.new.fault ≡ None }
        ensures dialect { self.new.dialect ≡ self.old.dialect }
        ensures none { result ≡ None → self.new ≡ self.old }
    {
        if !self.held.is_empty() || piece.is_empty() {
            return None;
        }
        let byte = piece[0];
        if byte >= 128 || !is_common(byte as char) {
            return None;
        }
        let read = Read {
            item: Item::Plain(Character {
                letter: byte as char,
                escaped: false,
            }),
            place: self.place,
            size: 1,
        };
        self.place = place_after(self.place, 1);
        Some(read)
    }

    /// As `bare`, where the last byte was looked at; else none, and nothing is changed.
    pub(crate) fn next_bare(&mut self, piece: &[u8]) -> Option<Read>
        requires going { self.old.fault ≡ None }
        ensures some { OnSome result (1 ≤ length piece.now) }
        ensures given { IfSome result
            (λ read. Feeds self.old (take 1 piece.now) (Some read) self.new) }
        ensures item { IfSome result (λ read. IsRead self.old.dialect read) }
        ensures held { OnSome result (self.new.held ≡ []) }
        ensures going { self.new.fault ≡ None }
        ensures dialect { self.new.dialect ≡ self.old.dialect }
        ensures none { result ≡ None → self.new ≡ self.old }
    {
        if !self.looked {
            return None;
        }
        self.bare(piece)
    }

    /// Uses bytes of the piece until an item is whole or the piece is used up. An item that is
    /// whole is given with its place and size, and at most one byte is held behind it. A fault is
    /// that of the items in the Apertium stream format, and comes once it is certain however the
    /// text goes on; `Memory` means want of memory. After a fault it answers that fault from then
    /// on, and uses nothing more.
    pub fn feed(&mut self, piece: &[u8]) -> Result<Fed, StreamFault>
        ensures given { IfOk result
            (λ fed. Feeds self.old (take fed.used piece.now) fed.item self.new) }
        ensures used { IfOk result (λ fed. fed.used ≤ length piece.now) }
        ensures all_used { IfOk result (λ fed. fed.item ≡ None → fed.used ≡ length piece.now) }
        ensures begun { IfOk result (λ fed. fed.item ≡ None → CanGoOn self.new) }
        ensures item { IfOk result (λ fed. IfSome fed.item (IsRead self.old.dialect)) }
        ensures dialect { self.new.dialect ≡ self.old.dialect }
        ensures short { IfOk result (λ fed. OnSome fed.item (length self.new.held ≤ 1)) }
        ensures holds { length self.new.held ≤ UNIT_MAX + 1 }
        ensures going { OnOk result (self.new.fault ≡ None) }
        ensures fault { IfErr result (λ f. self.new.fault ≡ Some f) }
        ensures shown { IfErr result (λ f. self.old.fault ≡ None → f ≢ StreamFault.Memory →
            Shows f self.old piece.now self.new) }
        ensures stays { (f : StreamFault) → self.old.fault ≡ Some f →
            (result ≡ Err f) × (self.new ≡ self.old) }
    {
        if let Some(fault) = self.fault {
            return Err(fault);
        }
        match self.step() {
            Ok(Some(read)) => {
                return Ok(Fed {
                    used: 0,
                    item: Some(read),
                });
            }
            Ok(None) => {}
            Err(fault) => return Err(fault),
        }
        if let Some(read) = self.bare(piece) {
            return Ok(Fed {
                used: 1,
                item: Some(read),
            });
        }
        let mut used = 0;
        while used < piece.len() {
            match self.advance(&piece[used..]) {
                Ok(count) => used += count,
                Err(fault) => return Err(fault),
            }
            match self.step() {
                Ok(Some(read)) => {
                    return Ok(Fed {
                        used,
                        item: Some(read),
                    });
                }
                Ok(None) => {}
                Err(fault) => return Err(fault),
            }
        }
        Ok(Fed { used, item: None })
    }

    /// What is begun, where the text ends.
    fn last(&mut self) -> Result<Option<Read>, StreamFault>
        requires going { self.old.fault ≡ None }
        requires looked { self.old.looked ≡ true }
        ensures given { IfOk result (λ item. Ends self.old item self.new) }
        ensures item { IfOk result (λ item. IfSome item (IsRead self.old.dialect)) }
        ensures none { result ≡ Ok None → self.new.held ≡ [] }
        ensures dialect { self.new.dialect ≡ self.old.dialect }
        ensures short { IfOk result (λ item. OnSome item (self.new.held ≡ [])) }
        ensures holds { length self.new.held ≤ UNIT_MAX + 1 }
        ensures going { OnOk result (self.new.fault ≡ None) }
        ensures fault { IfErr result (λ f. self.new.fault ≡ Some f) }
        ensures shown { IfErr result (λ f. f ≢ StreamFault.Memory → (self.new.held ≡ self.old.held)
            × (self.new.place ≡ self.old.place)
            × (reads self.new.dialect self.new.place self.new.held ≡ stopped f)) }
    {
        if self.held.is_empty() {
            return Ok(None);
        }
        if is_blank(self.level) {
            let bytes = mem::replace(&mut self.held, Vec::new(self.alloc));
            let read = Read {
                size: bytes.len() as u64,
                item: Item::Blank(Blank::from_vec(bytes)),
                place: self.place,
            };
            self.place = place_after(self.place, read.size);
            self.level = Level::Item(Mode::Start);
            self.done = 0;
            Ok(Some(read))
        } else {
            let fault = StreamFault::Malformed {
                kind: MalformedKind::Unfinished,
                place: self.place,
            };
            self.fault = Some(fault);
            Err(fault)
        }
    }

    #[tactic(auto, using(crate::proofs::ReadingLaws::reads_nil))]
    /// Gives the last item, and then none, once the text has ended. The faults are those of `feed`,
    /// and `Unfinished` where the text ends inside an item.
    pub fn end(&mut self) -> Result<Option<Read>, StreamFault>
        ensures given { IfOk result (λ item. Ends self.old item self.new) }
        ensures item { IfOk result (λ item. IfSome item (IsRead self.old.dialect)) }
        ensures none { result ≡ Ok None → (self.new.held ≡ []) × (self.old.held ≡ []) }
        ensures over { result ≡ Ok None →
            (reads self.old.dialect self.old.place self.old.held ≡ nothing)
            × (reads self.new.dialect self.new.place self.new.held ≡ nothing) }
        ensures dialect { self.new.dialect ≡ self.old.dialect }
        ensures short { IfOk result (λ item. OnSome item (length self.new.held ≤ 1)) }
        ensures holds { length self.new.held ≤ UNIT_MAX + 1 }
        ensures going { OnOk result (self.new.fault ≡ None) }
        ensures fault { IfErr result (λ f. self.new.fault ≡ Some f) }
        ensures shown { IfErr result (λ f. self.old.fault ≡ None → f ≢ StreamFault.Memory →
            (self.new.held ≡ self.old.held) × (self.new.place ≡ self.old.place)
            × (reads self.new.dialect self.new.place self.new.held ≡ stopped f)) }
        ensures stays { (f : StreamFault) → self.old.fault ≡ Some f →
            (result ≡ Err f) × (self.new ≡ self.old) }
    {
        if let Some(fault) = self.fault {
            return Err(fault);
        }
        match self.step() {
            Ok(Some(read)) => Ok(Some(read)),
            Ok(None) => match self.last() {
                Ok(item) => Ok(item),
                Err(fault) => Err(fault),
            },
            Err(fault) => Err(fault),
        }
    }
}
