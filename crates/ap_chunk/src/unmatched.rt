//! What is written for an item that no match holds.
ghost use Rattle.std.specs.Prelude.{◌≡◌, ◌++◌, OnOk};
ghost use Rattle.ap_stream.specs.declared.item.Item.TheVariants as kinds;
ghost use Rattle.ap_rules.specs.declared.rules.DefaultPiece.TheVariants as default;
ghost use Rattle.ap_chunk.specs.Chunks.{lone_unit, chunk_words, item_words};
ghost use Rattle.ap_chunk.specs.Parts.{word_of};
ghost use Rattle.ap_chunk.specs.Unmatched.{is_unknown as unknown_test, chunk_front, default_text, unit_text, chunk_text, unmatched_text};

use crate::chunks::{write_content, write_lone};
use crate::parts::{Room, put_word};
use ap_rules::{DefaultPiece, Form, Rules};
use ap_stream::{Chunk, Item, Unit, append_item};
use ap_symbol::{Bytes, Memory, Symbol, Word};
use std::alloc::Global;

/// Whether the source of a unit is unknown.
fn is_unknown(word: &[Symbol]) -> bool
    ensures { result ≡ unknown_test word.now }
{
    match word {
        [] => false,
        [first, ..] => matches!(first, Symbol::Star),
    }
}

fn write_front(unknown: bool, into: &mut Bytes) -> Result<(), Memory>
    ensures { OnOk result (into.new ≡ into.old ++ chunk_front unknown) }
{
    if unknown {
        into.extend(b"^unknown<unknown>{")
    } else {
        into.extend(b"^default<default>{")
    }
}

/// Appends the target of a unit, as a unit; nothing where it is empty.
fn write_target(unit: &Unit, room: &mut Room, into: &mut Bytes) -> Result<(), Memory>
    ensures { OnOk result (into.new ≡ into.old ++ lone_unit (word_of 1 unit.now)) }
{
    put_word(unit, &mut room.names, 1, &mut room.word)?;
    write_lone(&room.word, into)
}

/// Appends the target of a unit in a chunk of its own.
fn write_default_chunk(unit: &Unit, room: &mut Room, into: &mut Bytes) -> Result<(), Memory>
    ensures { OnOk result (into.new ≡ into.old ++ default_text default.Chunk (word_of 0 unit.now)
        (word_of 1 unit.now)) }
{
    put_word(unit, &mut room.names, 0, &mut room.word)?;
    write_front(is_unknown(room.word.symbols()), into)?;
    write_target(unit, room, into)?;
    into.extend(b"}$")
}

fn write_default(
    piece: DefaultPiece,
    unit: &Unit,
    room: &mut Room,
    into: &mut Bytes,
) -> Result<(), Memory>
    ensures { OnOk result (into.new ≡ into.old ++ default_text piece (word_of 0 unit.now)
        (word_of 1 unit.now)) }
{
    match piece {
        DefaultPiece::Chunk => write_default_chunk(unit, room, into),
        DefaultPiece::Lu => write_target(unit, room, into),
    }
}

/// Appends what is written for a chunk: in postchunk its content with these words, and else the
/// chunk as it is spelled.
fn write_chunk(
    alloc: Global,
    form: Form,
    item: &Item,
    chunk: &Chunk,
    words: &[Word],
    into: &mut Bytes,
) -> Result<(), Memory>
    requires item { item.now ≡ kinds.Chunk chunk.now }
    requires words { words.now ≡ item_words form item.now }
    ensures { OnOk result
        (into.new ≡ into.old ++ chunk_text form chunk.now.name chunk.now.content) }
{
    match form {
        Form::Transfer | Form::Interchunk => append_item(alloc, item, into),
        Form::Postchunk => write_content(chunk.content.as_slice(), words, into),
    }
}

/// Appends what is written for an item that no match holds (the Apertium transfer format): for a
/// unit of transfer its target, as it is or in a chunk of its own; every other item as it is
/// spelled, but in postchunk for a chunk its content with these words. After a refusal, which
/// means want of memory, a part of it may stand there.
pub(crate) fn write_unmatched(
    alloc: Global,
    rules: &Rules,
    item: &Item,
    words: &[Word],
    room: &mut Room,
    into: &mut Bytes,
) -> Result<(), Memory>
    requires { words.now ≡ item_words rules.now.form item.now }
    ensures { OnOk result (into.new ≡ into.old ++ unmatched_text rules.now item.now) }
{
    match item {
        Item::Unit(unit) => match rules.form {
            Form::Transfer => write_default(rules.default, unit, room, into),
            Form::Interchunk | Form::Postchunk => append_item(alloc, item, into),
        },
        Item::Plain(_) | Item::Blank(_) => append_item(alloc, item, into),
        Item::Chunk(chunk) => write_chunk(alloc, rules.form, item, chunk, words, into),
    }
}
