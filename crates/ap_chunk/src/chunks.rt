//! The words of a chunk as postchunk reads them.
ghost use Rattle.std.specs.Prelude.{◌≡◌, ◌<◌, ◌≤◌, ◌++◌, ◌∷◌, ◌==◌, List, [], length, map, take, drop, nat_lt, None, IfOk, IfSome, IsTrue, OnOk};
ghost use Rattle.std.specs.List.{filter, list_all};
ghost use Rattle.ap_symbol.specs.Kinds.{is_tag as tag_test};
ghost use Rattle.ap_symbol.specs.Recasing.{case_of_lem};
ghost use Rattle.ap_symbol.specs.Words.{is_word_symbol};
ghost use Rattle.ap_symbol.specs.declared.symbol.Symbol.TheVariants.{Tag};
ghost use Rattle.ap_stream.specs.declared.item.Inner.{Inner};
ghost use Rattle.ap_stream.specs.declared.TheConstants.{UNIT_MAX};
ghost use Rattle.ap_chunk.specs.Tests.{first_tag};
ghost use Rattle.ap_chunk.specs.Chunks.{lone_unit, is_digit as digit_test, number_from, tag_of, fill_symbol, fill_word, carry_one, part_words, content_words, carry_words, chunk_words, content_text, item_words, first_words, item_text, first_text};

use crate::parts::{Room, put_word};
use crate::words::first_tag;
use ap_rules::Form;
use ap_stream::{Chunk, Inner, Item, Read, UNIT_MAX};
use ap_symbol::{
    Bytes, Case, Memory, Symbol, TagName, Word, Words, carry, case_of_symbols, is_tag,
};
use std::alloc::Global;

/// Appends a word as a unit; nothing where it is empty.
pub(crate) fn write_lone(word: &Word, into: &mut Bytes) -> Result<(), Memory>
    ensures { OnOk result (into.new ≡ into.old ++ lone_unit word.now) }
{
    if word.is_empty() {
        return Ok(());
    }
    into.extend(b"^")?;
    into.extend(word.rendered())?;
    into.extend(b"$")
}

fn is_digit(b: u8) -> bool
    ensures { result ≡ digit_test b }
{
    48 <= b && b <= 57
}

fn are_digits(name: &[u8]) -> bool
    ensures { result ≡ list_all digit_test name.now }
{
    name.iter().all(|b| is_digit(*b))
}

/// The number that decimal digits write, if it is no greater than `most`.
fn number_within(digits: &[u8], most: usize) -> Option<usize>
    ensures within { IfSome result (λ n. (n ≡ number_from 0 digits.now) × (n ≤ most)) }
    ensures beyond { result ≡ None → most < number_from 0 digits.now }
{
    let mut number: u128 = 0;
    for digit in digits {
        number = number * 10 + u128::from(digit.saturating_sub(48));
        if number > most as u128 {
            return None;
        }
    }
    Some(number as usize)
}

/// Appends the tag of a number, counted from 1; nothing where there is none.
fn push_numbered(alloc: Global, tags: &Word, digits: &[u8], into: &mut Word) -> Result<(), Memory>
    ensures { OnOk result (into.new ≡ into.old ++ tag_of tags.now (number_from 0 digits.now)) }
{
    let symbols = tags.symbols();
    match number_within(digits, symbols.len()) {
        None => Ok(()),
        Some(number) => {
            if number == 0 {
                return Ok(());
            }
            into.push(symbols[number - 1].copy(alloc)?)
        }
    }
}

/// Appends a tag, or the tag that its digits number.
fn push_tag(alloc: Global, tags: &Word, name: &TagName, into: &mut Word) -> Result<(), Memory>
    ensures { OnOk result (into.new ≡ into.old ++ fill_symbol tags.now (Tag name.now)) }
{
    let digits = name.text().as_bytes();
    if are_digits(digits) {
        return push_numbered(alloc, tags, digits, into);
    }
    into.push(Symbol::Tag(name.copy()?))
}

/// Appends a symbol of a word, a numbered tag filled.
fn push_symbol(alloc: Global, tags: &Word, symbol: &Symbol, into: &mut Word) -> Result<(), Memory>
    requires { IsTrue (is_word_symbol symbol.now) }
    ensures { OnOk result (into.new ≡ into.old ++ fill_symbol tags.now symbol.now) }
{
    match symbol {
        Symbol::Tag(name) => push_tag(alloc, tags, name, into),
        _ => into.push(symbol.copy(alloc)?),
    }
}

/// A word with its numbered tags filled.
fn fill_word(alloc: Global, tags: &Word, word: &Word) -> Result<Word, Memory>
    ensures { IfOk result (λ made. made ≡ fill_word tags.now word.now) }
{
    let mut made = Word::with_capacity(alloc, word.len(), word.rendered().len())?;
    for symbol in word.symbols() {
        push_symbol(alloc, tags, symbol, &mut made)?;
    }
    Ok(made)
}

/// The tags of a word.
fn tags_of(alloc: Global, word: &Word) -> Result<Word, Memory>
    ensures { IfOk result (λ made. made ≡ filter tag_test word.now) }
{
    let mut made = Word::new(alloc);
    for symbol in word.symbols() {
        if is_tag(symbol) {
            made.push(symbol.copy(alloc)?)?;
        }
    }
    Ok(made)
}

/// A word with a case carried to it, as it is carried to the first word of a chunk or to a later
/// one.
fn carry_one(alloc: Global, case: Case, first: bool, word: Word) -> Result<Word, Memory>
    ensures { IfOk result (λ made. made ≡ carry_one case first word) }
{
    match case {
        Case::Low => Ok(word),
        Case::First => {
            if first {
                carry(alloc, &word, Case::First)
            } else {
                Ok(word)
            }
        }
        Case::All => carry(alloc, &word, Case::All),
    }
}

/// Whether there is no word.
fn has_none(words: &Words) -> bool
    ensures { result ≡ (length words.now == 0) }
{
    words.len() == 0
}

/// Appends the word of a part of a chunk, where it is a unit.
fn push_part(
    alloc: Global,
    tags: &Word,
    case: Case,
    part: &Inner,
    room: &mut Room,
    into: &mut Words,
) -> Result<(), Memory>
    ensures { OnOk result
        (into.new ≡ into.old ++ part_words case tags.now (length into.old == 0) part.now) }
{
    match part {
        Inner::Blank(_) => Ok(()),
        Inner::Unit(unit) => {
            put_word(unit, &mut room.names, 0, &mut room.word)?;
            let filled = fill_word(alloc, tags, &room.word)?;
            let first = has_none(into);
            into.push(carry_one(alloc, case, first, filled)?)
        }
    }
}

/// The case of a name's lemma.
fn lemma_case(name: &[Symbol]) -> Case
    ensures { result ≡ case_of_lem (take (first_tag name.now) name.now) }
{
    case_of_symbols(&name[..first_tag(name)])
}

/// The words of a content, with numbered tags filled from these tags, and this case carried.
fn words_of(
    alloc: Global,
    tags: &Word,
    case: Case,
    parts: &[Inner],
    room: &mut Room,
) -> Result<Words, Memory>
    ensures { IfOk result
        (λ made. made ≡ carry_words case (map (fill_word tags.now) (content_words parts.now))) }
{
    let mut made = Words::new(alloc);
    for part in parts {
        push_part(alloc, tags, case, part, room, &mut made)?;
    }
    Ok(made)
}

/// The words of a chunk as postchunk reads them.
fn chunk_words(alloc: Global, chunk: &Chunk, room: &mut Room) -> Result<Words, Memory>
    ensures { IfOk result (λ made. made ≡ chunk_words chunk.now.name chunk.now.content) }
{
    let tags = tags_of(alloc, &chunk.name)?;
    let case = lemma_case(chunk.name.symbols());
    words_of(alloc, &tags, case, chunk.content.as_slice(), room)
}

fn item_words(alloc: Global, form: Form, item: &Item, room: &mut Room) -> Result<Words, Memory>
    ensures { IfOk result (λ made. made ≡ item_words form item.now) }
{
    match form {
        Form::Transfer | Form::Interchunk => Ok(Words::new(alloc)),
        Form::Postchunk => match item {
            Item::Chunk(chunk) => chunk_words(alloc, chunk, room),
            Item::Plain(_) | Item::Blank(_) | Item::Unit(_) => Ok(Words::new(alloc)),
        },
    }
}

/// The words of the first item in postchunk, where it is a chunk.
pub(crate) fn first_words(
    alloc: Global,
    form: Form,
    reads: &[Read],
    room: &mut Room,
) -> Result<Words, Memory>
    ensures { IfOk result (λ made. made ≡ first_words form reads.now) }
{
    match reads {
        [] => Ok(Words::new(alloc)),
        [first, ..] => item_words(alloc, form, &first.item, room),
    }
}

/// Appends a part of a content, with the word at a place in place of a unit. Answers the place of
/// the next word.
fn write_part(part: &Inner, words: &[Word], at: usize, into: &mut Bytes) -> Result<usize, Memory>
    ensures { IfOk result (λ n. (rest : List Inner) →
        into.new ++ content_text rest (drop n words.now) ≡ into.old ++ content_text
        (part.now ∷ rest) (drop at words.now)) }
{
    match part {
        Inner::Blank(blank) => {
            into.extend(blank.as_slice())?;
            Ok(at)
        }
        Inner::Unit(_) => match words.get(at) {
            None => Ok(at),
            Some(word) => {
                write_lone(word, into)?;
                Ok(at + 1)
            }
        },
    }
}

/// Appends the blanks of a content, and these words as its units.
pub(crate) fn write_content(parts: &[Inner], words: &[Word], into: &mut Bytes) -> Result<(), Memory>
    ensures { OnOk result (into.new ≡ into.old ++ content_text parts.now words.now) }
{
    let mut at = 0;
    for part in parts {
        at = write_part(part, words, at, into)?;
    }
    Ok(())
}

fn write_item_text(form: Form, item: &Item, words: &[Word], into: &mut Bytes) -> Result<(), Memory>
    ensures { OnOk result (into.new ≡ into.old ++ item_text form item.now words.now) }
{
    match form {
        Form::Transfer | Form::Interchunk => Ok(()),
        Form::Postchunk => match item {
            Item::Chunk(chunk) => write_content(chunk.content.as_slice(), words, into),
            Item::Plain(_) | Item::Blank(_) | Item::Unit(_) => Ok(()),
        },
    }
}

fn write_first_text(
    form: Form,
    reads: &[Read],
    words: &[Word],
    into: &mut Bytes,
) -> Result<(), Memory>
    ensures { OnOk result (into.new ≡ into.old ++ first_text form reads.now words.now) }
{
    match reads {
        [] => Ok(()),
        [first, ..] => write_item_text(form, &first.item, words, into),
    }
}

/// Whether postchunk writes too many bytes for the first item, a chunk with these words. It is
/// written into the text, which is empty, and empty again afterwards.
pub(crate) fn is_overfull(
    form: Form,
    reads: &[Read],
    words: &[Word],
    text: &mut Bytes,
) -> Result<bool, Memory>
    requires { text.old ≡ [] }
    ensures text { OnOk result (text.new ≡ []) }
    ensures over { IfOk result
        (λ over. over ≡ nat_lt UNIT_MAX (length (first_text form reads.now words.now))) }
{
    write_first_text(form, reads, words, text)?;
    let over = text.as_slice().len() > UNIT_MAX;
    text.clear();
    Ok(over)
}
