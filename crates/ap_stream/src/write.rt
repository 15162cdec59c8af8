ghost use Rattle.std.specs.Prelude.{◌≡◌, ◌++◌, ◌∷◌, [], OnOk, OnErr, encode_utf8};
ghost use Rattle.std.specs.List.{flat_map};
ghost use Rattle.ap_symbol.specs.Rendering.{rendering};
ghost use Rattle.ap_stream.specs.Spelling.{spelled, joined, slashed, unit_bytes, inner_bytes, chunk_bytes, character_bytes};

use crate::item::{Character, Chunk, Inner, Item};
use crate::names::Names;
use crate::unit::Unit;
use ap_symbol::{Bytes, Memory, Word};
use std::alloc::Global;

/// Appends the bytes of a character. After a refusal nothing is appended.
fn write_letter(letter: char, into: &mut Bytes) -> Result<(), Memory>
    ensures ok { OnOk result (into.new ≡ into.old ++ encode_utf8 letter) }
    ensures err { OnErr result (into.new ≡ into.old) }
{
    let mut buffer = [0; 4];
    into.extend(letter.encode_utf8(&mut buffer).as_bytes())
}

fn write_character(alloc: Global, character: Character, into: &mut Bytes) -> Result<(), Memory>
    ensures ok { OnOk result (into.new ≡ into.old ++ character_bytes character) }
    ensures err { OnErr result (into.new ≡ into.old) }
{
    if character.escaped {
        let mut text = Bytes::new(alloc);
        text.extend(b"\\")?;
        write_letter(character.letter, &mut text)?;
        into.extend(text.as_slice())
    } else {
        write_letter(character.letter, into)
    }
}

fn append_words(words: &[Word], text: &mut Bytes) -> Result<(), Memory>
    ensures { OnOk result (text.new ≡ text.old ++ flat_map slashed words.now) }
{
    for word in words {
        text.extend(b"/")?;
        text.extend(word.rendered())?;
    }
    Ok(())
}

fn append_joined(words: &[Word], text: &mut Bytes) -> Result<(), Memory>
    ensures { OnOk result (text.new ≡ text.old ++ joined words.now) }
{
    match words {
        [] => Ok(()),
        [first, rest @ ..] => {
            text.extend(first.rendered())?;
            append_words(rest, text)
        }
    }
}

fn append_unit(alloc: Global, unit: &Unit, text: &mut Bytes) -> Result<(), Memory>
    ensures { OnOk result (text.new ≡ text.old ++ unit_bytes unit.now) }
{
    if let Some(bytes) = unit.spelled() {
        return text.extend(bytes);
    }
    let words = unit.words(&mut Names::new(alloc))?;
    text.extend(b"^")?;
    append_joined(words.as_slice(), text)?;
    text.extend(b"$")
}

fn append_inner(alloc: Global, part: &Inner, text: &mut Bytes) -> Result<(), Memory>
    ensures { OnOk result (text.new ≡ text.old ++ inner_bytes part.now) }
{
    match part {
        Inner::Unit(unit) => append_unit(alloc, unit, text),
        Inner::Blank(blank) => text.extend(blank.as_slice()),
    }
}

fn append_content(alloc: Global, parts: &[Inner], text: &mut Bytes) -> Result<(), Memory>
    ensures { OnOk result (text.new ≡ text.old ++ flat_map inner_bytes parts.now) }
{
    for part in parts {
        append_inner(alloc, part, text)?;
    }
    Ok(())
}

fn append_chunk(alloc: Global, chunk: &Chunk, text: &mut Bytes) -> Result<(), Memory>
    ensures { OnOk result (text.new ≡ text.old ++ chunk_bytes chunk.now.name chunk.now.content) }
{
    text.extend(b"^")?;
    text.extend(chunk.name.rendered())?;
    text.extend(b"{")?;
    append_content(alloc, chunk.content.as_slice(), text)?;
    text.extend(b"}$")
}

/// Appends the bytes of the item: a blank as it is, a character behind `\` if it is escaped, a unit
/// as its words joined by `/` between `^` and `$`, and a chunk as `^name{content}$` (the Apertium
/// stream format). After a refusal, which means want of memory, nothing is appended.
pub fn write_item(alloc: Global, item: &Item, into: &mut Bytes) -> Result<(), Memory>
    ensures ok { OnOk result (into.new ≡ into.old ++ spelled item.now) }
    ensures err { OnErr result (into.new ≡ into.old) }
{
    match item {
        Item::Plain(character) => write_character(alloc, *character, into),
        Item::Blank(blank) => into.extend(blank.as_slice()),
        Item::Unit(unit) => {
            if let Some(bytes) = unit.spelled() {
                return into.extend(bytes);
            }
            let mut text = Bytes::new(alloc);
            append_unit(alloc, unit, &mut text)?;
            into.extend(text.as_slice())
        }
        Item::Chunk(chunk) => {
            let mut text = Bytes::new(alloc);
            append_chunk(alloc, chunk, &mut text)?;
            into.extend(text.as_slice())
        }
    }
}

/// Appends the bytes of the item, as `write_item` does; but after a refusal a front of them may
/// stand there.
pub fn append_item(alloc: Global, item: &Item, into: &mut Bytes) -> Result<(), Memory>
    ensures { OnOk result (into.new ≡ into.old ++ spelled item.now) }
{
    match item {
        Item::Plain(character) => write_character(alloc, *character, into),
        Item::Blank(blank) => into.extend(blank.as_slice()),
        Item::Unit(unit) => append_unit(alloc, unit, into),
        Item::Chunk(chunk) => append_chunk(alloc, chunk, into),
    }
}
