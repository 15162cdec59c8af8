//! What a match gives to a rule.
ghost use Rattle.std.specs.Prelude.{◌≡◌, ◌++◌, ◌∷◌, [], List, length, map, is_some, IfOk, OnOk};
ghost use Rattle.std.specs.List.{flat_map};
ghost use Rattle.ap_stream.specs.declared.item.Read.{Read as ReadIs};
ghost use Rattle.ap_exec.specs.Acting.{shown, shown_chunk, units_in};
ghost use Rattle.ap_exec.specs.Held.{word_in};
ghost use Rattle.ap_chunk.specs.Chunks.{first_words};
ghost use Rattle.ap_chunk.specs.Matches.{translated, worded, named, item_name, first_name, matched_item, matched_items, shown_items, shown_word, matched_of, inner_blanks, item_blanks, blanks_of};

use crate::known::KnownUnits;
use crate::parts::{Room, word_at};
use ap_exec::{Blanks, Held, Lent};
use ap_rules::Form;
use ap_stream::{Blank, Chunk, Inner, Item, Read, Unit};
use ap_symbol::{Memory, Sequence, Word};
use std::alloc::Global;

/// A unit with this target alone, all of which is head, and this content.
fn lone<'a>(alloc: Global, target: &'a Word, content: &'a [Inner]) -> Lent<'a>
    ensures { result ≡ shown (named target.now content.now) }
{
    Lent::new(
        Held::Made(Word::new(alloc)),
        Held::Lent(target),
        target.len(),
        content,
    )
}

/// A chunk of interchunk, as a rule is run on it.
fn named<'a>(alloc: Global, chunk: &'a Chunk) -> Lent<'a>
    ensures { result ≡ shown (named chunk.now.name chunk.now.content) }
{
    lone(alloc, &chunk.name, chunk.content.as_slice())
}

/// A unit that isn't kept, as a rule is run on it.
fn made<'a>(unit: &Unit, room: &mut Room) -> Result<Lent<'a>, Memory>
    ensures { IfOk result (λ made. made ≡ shown (translated unit.now)) }
{
    let source = word_at(unit, 0, room)?;
    let head = word_at(unit, 1, room)?;
    let border = head.len();
    Ok(Lent::new(Held::Made(source), Held::Made(head), border, &[]))
}

/// A unit of transfer, as a rule is run on it. The words of a kept one are lent.
fn translated<'a>(unit: &Unit, units: &'a KnownUnits, room: &mut Room) -> Result<Lent<'a>, Memory>
    ensures { IfOk result (λ made. made ≡ shown (translated unit.now)) }
{
    match units.known(unit) {
        None => made(unit, room),
        Some(known) => {
            let source = known.unit.source();
            let target = known.unit.target();
            let border = target.word().len();
            Ok(Lent::new(Held::Known(source), Held::Known(target), border, &[]))
        }
    }
}

/// Appends what an item gives to a rule.
fn push_matched<'a>(
    alloc: Global,
    item: &'a Item,
    units: &'a KnownUnits,
    room: &mut Room,
    into: &mut Vec<Lent<'a>>,
) -> Result<(), Memory>
    ensures { OnOk result (into.new.items ≡ into.old.items ++ map shown (matched_item item.now)) }
{
    match item {
        Item::Plain(_) | Item::Blank(_) => Ok(()),
        Item::Unit(unit) => {
            into.push(translated(unit, units, room)?)?;
            Ok(())
        }
        Item::Chunk(chunk) => {
            into.push(named(alloc, chunk))?;
            Ok(())
        }
    }
}

/// Appends what items give to a rule.
fn push_items<'a>(
    alloc: Global,
    reads: &'a [Read],
    units: &'a KnownUnits,
    room: &mut Room,
    into: &mut Vec<Lent<'a>>,
) -> Result<(), Memory>
    ensures { OnOk result (into.new.items ≡ into.old.items ++ shown_items reads.now) }
{
    for read in reads {
        push_matched(alloc, &read.item, units, room, into)?;
    }
    Ok(())
}

/// The units of transfer or interchunk that a rule is run on, where these items are the match.
fn units_of<'a>(
    alloc: Global,
    reads: &'a [Read],
    units: &'a KnownUnits,
    room: &mut Room,
) -> Result<Vec<Lent<'a>>, Memory>
    ensures { IfOk result (λ made. made.items ≡ map shown (matched_items reads.now)) }
{
    let mut made = Vec::with_capacity(alloc, reads.len())?;
    push_items(alloc, reads, units, room, &mut made)?;
    Ok(made)
}

/// A word of a chunk in postchunk, as a rule is run on it.
fn worded<'a>(alloc: Global, word: &'a Word) -> Lent<'a>
    ensures { result ≡ shown (worded word.now) }
{
    lone(alloc, word, &[])
}

/// A chunk's name as a unit.
fn chunk_name<'a>(alloc: Global, name: Held<'a>, size: usize) -> Lent<'a>
    requires { size ≡ length (word_in name) }
    ensures { result ≡ shown_chunk (word_in name.entry) }
{
    Lent::new(Held::Made(Word::new(alloc)), name, size, &[])
}

/// The name of an item that is a chunk, with its tags, as a unit.
fn item_name<'a>(alloc: Global, item: &'a Item) -> Lent<'a>
    ensures { result ≡ shown_chunk (item_name item.now) }
{
    match item {
        Item::Plain(_) | Item::Blank(_) | Item::Unit(_) => {
            chunk_name(alloc, Held::Made(Word::new(alloc)), 0)
        }
        Item::Chunk(chunk) => chunk_name(alloc, Held::Lent(&chunk.name), chunk.name.len()),
    }
}

fn first_name<'a>(alloc: Global, reads: &'a [Read]) -> Lent<'a>
    ensures { result ≡ shown_chunk (first_name reads.now) }
{
    match reads {
        [] => chunk_name(alloc, Held::Made(Word::new(alloc)), 0),
        [first, ..] => item_name(alloc, &first.item),
    }
}

/// Appends words of a chunk in postchunk, as a rule is run on them.
fn push_words<'a>(alloc: Global, words: &'a [Word], into: &mut Vec<Lent<'a>>) -> Result<(), Memory>
    ensures { OnOk result (into.new.items ≡ into.old.items ++ map shown_word words.now) }
{
    for word in words {
        into.push(worded(alloc, word))?;
    }
    Ok(())
}

/// The units of postchunk that a rule is run on, behind the name of the chunk.
fn words_of<'a>(
    alloc: Global,
    reads: &'a [Read],
    words: &'a [Word],
) -> Result<Vec<Lent<'a>>, Memory>
    ensures { IfOk result (λ made. made.items
        ≡ shown_chunk (first_name reads.now) ∷ map shown (map worded words.now)) }
{
    let mut units = Vec::new(alloc);
    units.push(first_name(alloc, reads))?;
    push_words(alloc, words, &mut units)?;
    Ok(units)
}

/// Whether a chunk stands before the units that a rule is run on.
pub(crate) fn has_chunk(form: Form) -> bool
    ensures { (reads : List ReadIs) → result ≡ is_some (matched_of form reads).chunk }
{
    match form {
        Form::Transfer | Form::Interchunk => false,
        Form::Postchunk => true,
    }
}

/// What a rule is run on, by number, where these items are the match. In postchunk the words of its
/// chunk are those.
pub(crate) fn lent_of<'a>(
    alloc: Global,
    form: Form,
    reads: &'a [Read],
    words: &'a [Word],
    units: &'a KnownUnits,
    room: &mut Room,
) -> Result<Vec<Lent<'a>>, Memory>
    requires { words.now ≡ first_words form reads.now }
    ensures { IfOk result (λ made. made.items
        ≡ units_in (matched_of form reads.now).chunk (matched_of form reads.now).units) }
{
    match form {
        Form::Transfer | Form::Interchunk => units_of(alloc, reads, units, room),
        Form::Postchunk => words_of(alloc, reads, words),
    }
}

/// Appends a copy of a blank.
fn push_blank(alloc: Global, blank: &Blank, into: &mut Blanks) -> Result<(), Memory>
    ensures { OnOk result (into.new ≡ into.old ++ blank.now ∷ []) }
{
    into.push(Blank::from_slice(alloc, blank.as_slice())?)
}

/// Appends the blanks in a chunk.
fn push_inner_blanks(alloc: Global, parts: &[Inner], into: &mut Blanks) -> Result<(), Memory>
    ensures { OnOk result (into.new ≡ into.old ++ flat_map inner_blanks parts.now) }
{
    for part in parts {
        if let Inner::Blank(blank) = part {
            push_blank(alloc, blank, into)?;
        }
    }
    Ok(())
}

/// Appends the blanks of an item.
fn push_blanks(alloc: Global, item: &Item, into: &mut Blanks) -> Result<(), Memory>
    ensures { OnOk result (into.new ≡ into.old ++ item_blanks item.now) }
{
    match item {
        Item::Blank(blank) => push_blank(alloc, blank, into),
        Item::Chunk(chunk) => push_inner_blanks(alloc, chunk.content.as_slice(), into),
        Item::Plain(_) | Item::Unit(_) => Ok(()),
    }
}

/// The blanks of the items of a match, those inside chunks too, in order.
pub(crate) fn blanks_of(alloc: Global, reads: &[Read]) -> Result<Blanks, Memory>
    ensures { IfOk result (λ made. made ≡ blanks_of reads.now) }
{
    let mut made = Sequence::new(alloc);
    for read in reads {
        push_blanks(alloc, &read.item, &mut made)?;
    }
    Ok(made)
}
