ghost use Rattle.std.specs.Prelude.{◌≡◌, ◌&&◌, eqb, ◌+◌, ◌<◌, List, [], length, IfOk, IsTrue, false};
ghost use Rattle.ap_symbol.specs.Words.{is_word_symbol};
ghost use Rattle.ap_symbol.specs.declared.symbol.Symbol.{Symbol};
ghost use Rattle.ap_stream.specs.Chars.{char_at};
ghost use Rattle.ap_stream.specs.Units.{sign, of_bare, of_escape, of_name, name, is_none as none_before, bare_of, form_of};
ghost use Rattle.ap_stream.specs.UnitBytes.{UnitOf, unit_words, IsAt, IsName, Signs};

use crate::decode::{Decoded, decode};
use crate::dialect::Dialect;
use crate::effects::is_barred;
use crate::names::Names;
use ap_symbol::{
    Memory, Symbol, TagName, Word, Words, bare_symbol, escaped_symbol, is_reserved_in_tag,
};
use std::alloc::Global;
use std::mem;

/// What the bytes of a tag's name go up to: their end within it, no character, or a character that
/// no name holds.
pub(crate) enum Named {
    Runs,
    Breaks,
    Stops { text: String, letter: char },
}

/// What stands at the front of a word's bytes: a symbol of so many bytes, the end of the word, or
/// neither.
pub(crate) enum Signed {
    Reads(Symbol, usize),
    Slash,
    Dollar,
    Brace,
    Nothing,
}

#[inline(always)]
fn bare_of(surface: bool, letter: char) -> Symbol
    ensures value { result ≡ bare_of surface letter }
    ensures word_symbol { IsTrue (is_word_symbol result) }
{
    if surface {
        escaped_symbol(letter)
    } else {
        bare_symbol(letter)
    }
}

/// The characters of a name at the front.
fn name_of(alloc: Global, bytes: &[u8]) -> Result<Named, Memory>
    ensures { IfOk result (IsName bytes.now) }
{
    let mut text = String::new(alloc);
    let mut at = 0;
    while at < bytes.len() {
        match decode(&bytes[at..]) {
            Decoded::Part => return Ok(Named::Runs),
            Decoded::NotChar => return Ok(Named::Breaks),
            Decoded::Char { letter, size } => {
                if is_reserved_in_tag(letter) {
                    return Ok(Named::Stops { text, letter });
                }
                text.push(letter)?;
                at += size;
            }
        }
    }
    Ok(Named::Runs)
}

/// The tag behind a `<`, whose name isn't among those that are kept.
fn new_tag_at(alloc: Global, names: &mut Names, bytes: &[u8]) -> Result<Signed, Memory>
    ensures { IfOk result (Signs (of_name bytes.now (name 0 bytes.now)) (1 + length bytes.now)) }
{
    match name_of(alloc, bytes)? {
        Named::Runs => Ok(Signed::Nothing),
        Named::Breaks => Ok(Signed::Nothing),
        Named::Stops { text, letter } => {
            if letter != '>' {
                return Ok(Signed::Nothing);
            }
            let size = text.len();
            match TagName::new(alloc, text.as_str())? {
                Some(tag) => {
                    names.keep(&tag);
                    Ok(Signed::Reads(Symbol::Tag(tag), 2 + size))
                }
                None => Ok(Signed::Nothing),
            }
        }
    }
}

/// The tag behind a `<`.
fn tag_at(alloc: Global, names: &mut Names, bytes: &[u8]) -> Result<Signed, Memory>
    ensures { IfOk result (Signs (of_name bytes.now (name 0 bytes.now)) (1 + length bytes.now)) }
{
    match names.find(bytes)? {
        Some(tag) => {
            let size = tag.text().len();
            Ok(Signed::Reads(Symbol::Tag(tag), 2 + size))
        }
        None => new_tag_at(alloc, names, bytes),
    }
}

#[inline(always)]
fn escape_at(bytes: &[u8]) -> Signed
    ensures { Signs (of_escape (char_at bytes.now)) (1 + length bytes.now) result }
{
    match decode(bytes) {
        Decoded::Part => Signed::Nothing,
        Decoded::NotChar => Signed::Nothing,
        Decoded::Char { letter, size } => Signed::Reads(escaped_symbol(letter), 1 + size),
    }
}

#[inline(always)]
fn bare_at(surface: bool, bytes: &[u8]) -> Signed
    ensures { Signs (of_bare surface (char_at bytes.now)) (length bytes.now) result }
{
    match decode(bytes) {
        Decoded::Part => Signed::Nothing,
        Decoded::NotChar => Signed::Nothing,
        Decoded::Char { letter, size } => {
            if letter == '/' {
                return Signed::Slash;
            }
            if letter == '$' {
                return Signed::Dollar;
            }
            if letter == '{' {
                return Signed::Brace;
            }
            if is_barred(surface, letter) {
                return Signed::Nothing;
            }
            Signed::Reads(bare_of(surface, letter), size)
        }
    }
}

#[inline(always)]
#[tactic(auto, unfolding(crate::specs::Units::sign))]
pub(crate) fn sign_at(
    alloc: Global,
    names: &mut Names,
    surface: bool,
    bytes: &[u8],
) -> Result<Signed, Memory>
    ensures { IfOk result (Signs (sign surface bytes.now) (length bytes.now)) }
{
    match bytes {
        [] => Ok(Signed::Nothing),
        [first, rest @ ..] => {
            if *first == 92 {
                return Ok(escape_at(rest));
            }
            if *first == 60 && !surface {
                return tag_at(alloc, names, rest);
            }
            Ok(bare_at(surface, bytes))
        }
    }
}

pub(crate) fn is_surfaced(dialect: Dialect) -> bool
    ensures { result ≡ (form_of dialect).surface }
{
    matches!(dialect, Dialect::Analysed)
}

/// Whether a word behind these words is a surface.
fn begins_surface(surfaced: bool, words: &[Word]) -> bool
    ensures { result ≡ (surfaced && none_before words.now) }
{
    surfaced && words.is_empty()
}

/// Whether a word behind so many words is a surface.
fn is_surface_behind(surfaced: bool, behind: usize) -> bool
    ensures { result ≡ (surfaced && eqb behind 0) }
{
    surfaced && behind == 0
}

/// A word without symbols, with room for the first of so many bytes.
pub(crate) fn empty_word(alloc: Global, bytes: usize) -> Result<Word, Memory>
    ensures { IfOk result (λ word. word ≡ []) }
{
    Word::with_capacity(alloc, bytes.min(16), bytes.min(32))
}

/// The words of the unit that these bytes are. Names of its tags are taken from those that are
/// kept, and kept.
pub(crate) fn words_of(
    alloc: Global,
    names: &mut Names,
    dialect: Dialect,
    held: &[u8],
) -> Result<Words, Memory>
    requires { (words : List (List Symbol)) × UnitOf dialect held.now words }
    ensures { IfOk result (λ words. words ≡ unit_words dialect held.now) }
{
    let surfaced = is_surfaced(dialect);
    let mut words = Words::new(alloc);
    let mut word = empty_word(alloc, held.len())?;
    let mut at = 1;
    while at < held.len() {
        match sign_at(
            alloc,
            names,
            begins_surface(surfaced, words.as_slice()),
            &held[at..],
        )? {
            Signed::Reads(symbol, size) => {
                word.push(symbol)?;
                at += size;
            }
            Signed::Slash => {
                let next = empty_word(alloc, held.len())?;
                words.push(mem::replace(&mut word, next))?;
                at += 1;
            }
            Signed::Dollar => {
                words.push(word)?;
                return Ok(words);
            }
            Signed::Brace => unreachable!(),
            Signed::Nothing => unreachable!(),
        }
    }
    unreachable!()
}

/// Puts the word at a place of the unit that these bytes are into `into`, and answers whether there
/// is one. Names of tags are taken from those that are kept, and kept.
pub(crate) fn read_word(
    alloc: Global,
    names: &mut Names,
    dialect: Dialect,
    held: &[u8],
    wanted: usize,
    into: &mut Word,
) -> Result<bool, Memory>
    requires { (words : List (List Symbol)) × UnitOf dialect held.now words }
    ensures { IfOk result (λ found. IsAt (unit_words dialect held.now) wanted found into.new) }
{
    let surfaced = is_surfaced(dialect);
    into.clear();
    let mut behind = 0;
    let mut at = 1;
    while at < held.len() {
        match sign_at(
            alloc,
            names,
            is_surface_behind(surfaced, behind),
            &held[at..],
        )? {
            Signed::Reads(symbol, size) => {
                into.push(symbol)?;
                at += size;
            }
            Signed::Slash => {
                if behind == wanted {
                    return Ok(true);
                }
                into.clear();
                behind += 1;
                at += 1;
            }
            Signed::Dollar => return Ok(behind == wanted),
            Signed::Brace => unreachable!(),
            Signed::Nothing => unreachable!(),
        }
    }
    unreachable!()
}
