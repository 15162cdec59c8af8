ghost use Rattle.std.specs.Prelude.{◌≡◌, ◌≢◌, ℕ, ◌+◌, ◌-◌, ◌<◌, ◌≤◌, List, [], ◌∷◌, drop, take, length, IfOk, false, get_or};
ghost use Rattle.ap_symbol.specs.declared.symbol.Symbol.{Symbol};
ghost use Rattle.ap_stream.specs.declared.item.Chunk.{Chunk as ChunkIs};
ghost use Rattle.ap_stream.specs.declared.item.Inner.{Inner as InnerIs};
ghost use Rattle.ap_stream.specs.declared.dialect.Dialect.TheVariants.{Lexical, Chunked};
ghost use Rattle.ap_stream.specs.Blanks.{Done, blank};
ghost use Rattle.ap_stream.specs.Chunks.{Closes, behind_part, body};
ghost use Rattle.ap_stream.specs.Stands.{ChunkOf};
ghost use Rattle.ap_stream.specs.Chars.{CharSize};
ghost use Rattle.ap_stream.specs.Units.{Stops, name, Reads, sign, Ends, rest, form_of};

use crate::blank::Blank;
use crate::decode::{Decoded, decode};
use crate::dialect::Dialect;
use crate::examine::is_white;
use crate::item::{Chunk, Content, Inner};
use crate::names::Names;
use crate::supers::closed_size;
use crate::unit::Unit;
use crate::words::{Signed, empty_word, sign_at};
use ap_symbol::{Memory, Word, is_reserved_in_tag};
use std::alloc::Global;

/// How many bytes the blank at the front has.
fn blank_size(bytes: &[u8]) -> usize
    requires { (n : ℕ) × (blank 0 bytes.now ≡ Done n) }
    ensures size { blank 0 bytes.now ≡ Done result }
    ensures most { result ≤ length bytes.now }
{
    let mut at = 0;
    while at < bytes.len() {
        if is_white(bytes[at]) {
            at += 1;
        } else if bytes[at] == b'[' {
            match closed_size(&bytes[at + 1..]) {
                Some(size) => at += 1 + size,
                None => unreachable!(),
            }
        } else {
            return at;
        }
    }
    unreachable!()
}

/// How many bytes a tag's name at the front has, where it is one.
fn name_size(bytes: &[u8]) -> usize
    ensures size { (n : ℕ) (c : ℕ) → name 0 bytes.now ≡ Stops n c → result ≡ n }
    ensures most { result ≤ length bytes.now }
{
    let mut at = 0;
    while at < bytes.len() {
        match decode(&bytes[at..]) {
            Decoded::Part => return at,
            Decoded::NotChar => return at,
            Decoded::Char { letter, size } => {
                if is_reserved_in_tag(letter) {
                    return at;
                }
                at += size;
            }
        }
    }
    at
}

/// How many bytes the character at the front has, where it is one.
#[inline(always)]
fn char_size(bytes: &[u8]) -> usize
    ensures size { CharSize bytes.now result }
    ensures most { result ≤ length bytes.now }
{
    match decode(bytes) {
        Decoded::Part => 0,
        Decoded::NotChar => 0,
        Decoded::Char { letter: _, size } => size,
    }
}

/// How many bytes the symbol at the front of a word has, where it is one.
#[inline(always)]
fn symbol_size(bytes: &[u8]) -> usize
    ensures size { (s : Symbol) (n : ℕ) → sign false bytes.now ≡ Reads s n → result ≡ n }
    ensures most { result ≤ length bytes.now + 1 }
{
    match bytes {
        [] => 0,
        [first, rest @ ..] => {
            if *first == b'\\' {
                return 1 + char_size(rest);
            }
            if *first == b'<' {
                return 2 + name_size(rest);
            }
            char_size(bytes)
        }
    }
}

/// How many bytes the rest of a unit of one word has, behind its `^`.
#[inline(always)]
fn unit_size(bytes: &[u8]) -> usize
    requires { (words : List (List Symbol)) × (n : ℕ)
        × (rest (form_of Lexical) [] [] 0 bytes.now ≡ Ends words n) }
    ensures size { (words : List (List Symbol))
        × (rest (form_of Lexical) [] [] 0 bytes.now ≡ Ends words result) }
    ensures most { result ≤ length bytes.now }
{
    let mut at = 0;
    while at < bytes.len() {
        if bytes[at] == b'$' {
            return at + 1;
        }
        at += symbol_size(&bytes[at..]);
    }
    unreachable!()
}

/// A copy of the bytes.
fn copy_of(alloc: Global, bytes: &[u8]) -> Result<Vec<u8>, Memory>
    ensures { IfOk result (λ made. made.items ≡ bytes.now) }
{
    let mut made = Vec::with_capacity(alloc, bytes.len())?;
    made.extend_from_slice(bytes)?;
    Ok(made)
}

/// A part of a content, and how many bytes it has.
struct PartEnd {
    part: Inner,
    size: usize,
}

/// The part at the front of a content.
#[inline(always)]
fn part_at(alloc: Global, bytes: &[u8]) -> Result<PartEnd, Memory>
    requires whole { (parts : List InnerIs) × (n : ℕ) × (body 0 bytes.now ≡ Closes parts n) }
    requires some { 0 < length bytes.now }
    requires open { get_or bytes.now 0 0 ≢ 125 }
    ensures part { IfOk result (λ end. body 0 bytes.now
        ≡ behind_part end.part end.size (body 0 (drop end.size bytes.now))) }
    ensures size { IfOk result (λ end. (0 < end.size) × (end.size ≤ length bytes.now)) }
{
    if bytes[0] == b'^' {
        let size = 1 + unit_size(&bytes[1..]);
        let own = copy_of(alloc, &bytes[..size])?;
        return Ok(PartEnd {
            part: Inner::Unit(Unit::from_bytes(alloc, Dialect::Lexical, own)),
            size,
        });
    }
    let size = blank_size(bytes);
    let own = Blank::from_slice(alloc, &bytes[..size])?;
    Ok(PartEnd {
        part: Inner::Blank(own),
        size,
    })
}

/// The parts of the content at the front of these bytes.
fn content_of(alloc: Global, bytes: &[u8]) -> Result<Content, Memory>
    requires { (parts : List InnerIs) × (n : ℕ) × (body 0 bytes.now ≡ Closes parts n) }
    ensures { IfOk result (λ made. (n : ℕ) × (body 0 bytes.now ≡ Closes made n)) }
{
    let mut content = Content::new(alloc);
    let mut at = 0;
    while at < bytes.len() {
        if bytes[at] == b'}' {
            return Ok(content);
        }
        let PartEnd { part, size } = part_at(alloc, &bytes[at..])?;
        content.push(part)?;
        at += size;
    }
    unreachable!()
}

/// A chunk's name, and how many bytes stand up to the end of the brace behind it.
struct NameEnd {
    name: Word,
    end: usize,
}

/// The name of the chunk that these bytes are. Its tags are taken from the names that are kept,
/// and kept.
fn name_at(alloc: Global, names: &mut Names, held: &[u8]) -> Result<NameEnd, Memory>
    requires { (words : List (List Symbol)) × (n : ℕ)
        × (rest (form_of Chunked) [] [] 0 (drop 1 held.now) ≡ Ends words n) }
    ensures { IfOk result (λ made. (1 ≤ made.end) × (made.end ≤ length held.now)
        × (rest (form_of Chunked) [] [] 0 (drop 1 held.now)
        ≡ Ends (made.name ∷ []) (made.end - 1))) }
{
    let mut name = empty_word(alloc, held.len())?;
    let mut at = 1;
    while at < held.len() {
        match sign_at(alloc, names, false, &held[at..])? {
            Signed::Reads(symbol, size) => {
                name.push(symbol)?;
                at += size;
            }
            Signed::Brace => return Ok(NameEnd { name, end: at + 1 }),
            Signed::Slash => unreachable!(),
            Signed::Dollar => unreachable!(),
            Signed::Nothing => unreachable!(),
        }
    }
    unreachable!()
}

/// The chunk that these bytes are.
pub(crate) fn chunk_of(alloc: Global, names: &mut Names, held: &[u8]) -> Result<Chunk, Memory>
    requires { (chunk : ChunkIs) × ChunkOf held.now chunk }
    ensures { IfOk result (ChunkOf held.now) }
{
    let NameEnd { name, end } = name_at(alloc, names, held)?;
    let content = content_of(alloc, &held[end..])?;
    Ok(Chunk { name, content })
}
