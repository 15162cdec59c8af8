ghost use Rattle.std.specs.Prelude.{◌≡◌, ◌++◌, ◌<◌, ◌≤◌, [], length, drop, take, IsTrue, OnOk, IfOk};
ghost use Rattle.ap_symbol.specs.Rendering.{symbol_bytes};
ghost use Rattle.ap_symbol.specs.Words.{is_proper};
ghost use Rattle.ap_live.specs.Lexicon.{lexicon_of};
ghost use Rattle.ap_live.specs.SectionLives.{AreLive};
ghost use Rattle.ap_lookup.specs.PostGenerating.{symbols, matched, span, chosen, least as least_word, blank_of, blanks, left_over, is_slot as slot_test, filling, part, unused, filled, word_step, alarm_step as alarm_lem};
ghost use Rattle.ap_lookup.specs.PostWorks.{meant};

use crate::post_search::Found;
use ap_fst::Compiled;
use ap_live::{LiveSections, least_readings};
use ap_stream::{Item, LimitKind, Queue, Read, UNIT_MAX, push_superblanks};
use ap_symbol::{Bytes, Memory, Symbol, Word};
use std::alloc::Global;

/// What a step does: it uses so many items and writes this, or it stops at a limit.
#[derive(Drop)]
pub(crate) enum Written {
    Gives { count: usize, text: Bytes },
    Stops { kind: LimitKind },
}

fn is_slot(symbol: &Symbol) -> bool
    ensures { result ≡ slot_test symbol.now }
{
    matches!(symbol, Symbol::Blank)
}

/// Appends the bytes of a symbol of a word, through a word that is room for it.
fn push_symbol(
    alloc: Global,
    symbol: &Symbol,
    room: &mut Word,
    text: &mut Bytes,
) -> Result<(), Memory>
    requires { IsTrue (is_proper symbol.now) }
    ensures { OnOk result (text.new ≡ text.old ++ symbol_bytes symbol.now) }
{
    room.clear();
    room.push(symbol.copy(alloc)?)?;
    text.extend(room.rendered())
}

/// Appends what fills a slot: the first blank from a place on, or a space. Answers the place behind
/// it.
fn push_slot(reads: &[Read], from: usize, text: &mut Bytes) -> Result<usize, Memory>
    requires { from ≤ length reads.now }
    ensures text { OnOk result (text.new ≡ text.old ++ filling (blanks (drop from reads.now))) }
    ensures within { IfOk result (λ n. n ≤ length reads.now) }
    ensures rest { IfOk result (λ n. blanks (drop n reads.now)
        ≡ drop 1 (blanks (drop from reads.now))) }
{
    let mut at = from;
    while at < reads.len() {
        if let Item::Blank(blank) = &reads[at].item {
            text.extend(blank.as_slice())?;
            return Ok(at + 1);
        }
        at += 1;
    }
    text.extend(b" ")?;
    Ok(at)
}

/// Appends a symbol of a word whose blanks are slots. Answers from which item on the next blank is
/// sought.
fn push_part(
    alloc: Global,
    symbol: &Symbol,
    reads: &[Read],
    from: usize,
    room: &mut Word,
    text: &mut Bytes,
) -> Result<usize, Memory>
    requires proper { IsTrue (is_proper symbol.now) }
    requires within { from ≤ length reads.now }
    ensures text { OnOk result
        (text.new ≡ text.old ++ part symbol.now (blanks (drop from reads.now))) }
    ensures within { IfOk result (λ n. n ≤ length reads.now) }
    ensures rest { IfOk result (λ n. blanks (drop n reads.now)
        ≡ unused symbol.now (blanks (drop from reads.now))) }
{
    if is_slot(symbol) {
        return push_slot(reads, from, text);
    }
    push_symbol(alloc, symbol, room, text)?;
    Ok(from)
}

/// Appends the superblanks of an item that is a blank.
fn push_left_of(item: &Item, text: &mut Bytes) -> Result<(), Memory>
    ensures { OnOk result (text.new ≡ text.old ++ left_over (blank_of item.now)) }
{
    match item {
        Item::Blank(_) => push_superblanks(item, text),
        Item::Plain(_) | Item::Unit(_) | Item::Chunk(_) => Ok(()),
    }
}

/// Appends the superblanks of the blanks from a place on.
fn push_left(reads: &[Read], from: usize, text: &mut Bytes) -> Result<(), Memory>
    requires { from ≤ length reads.now }
    ensures { OnOk result (text.new ≡ text.old ++ left_over (blanks (drop from reads.now))) }
{
    let mut at = from;
    while at < reads.len() {
        push_left_of(&reads[at].item, text)?;
        at += 1;
    }
    Ok(())
}

/// Appends a word whose slots are filled with the blanks of the items, and the superblanks of those
/// left over.
fn push_filled(alloc: Global, word: &Word, reads: &[Read], text: &mut Bytes) -> Result<(), Memory>
    ensures { OnOk result (text.new ≡ text.old ++ filled word.now (blanks reads.now)) }
{
    let symbols = word.symbols();
    let mut room = Word::new(alloc);
    let mut from = 0;
    let mut at = 0;
    while at < symbols.len() {
        from = push_part(alloc, &symbols[at], reads, from, &mut room, text)?;
        at += 1;
    }
    push_left(reads, from, text)
}

/// The step in which the items give a word with their blanks.
fn write_word(
    alloc: Global,
    word: &Word,
    reads: &[Read],
    mut text: Bytes,
) -> Result<Written, Memory>
    requires { text ≡ [] }
    ensures { IfOk result (λ made. meant made
        ≡ word_step (length reads.now) word.now (blanks reads.now)) }
{
    if word.rendered().len() > UNIT_MAX {
        return Ok(Written::Stops {
            kind: LimitKind::UnitTooLong,
        });
    }
    push_filled(alloc, word, reads, &mut text)?;
    let count = reads.len();
    Ok(Written::Gives { count, text })
}

/// The step in which the items give the first of some words.
fn write_least(
    alloc: Global,
    words: &[Word],
    reads: &[Read],
    text: Bytes,
) -> Result<Written, Memory>
    requires { text ≡ [] }
    ensures { IfOk result (λ made. meant made
        ≡ word_step (length reads.now) (least_word words.now) (blanks reads.now)) }
{
    match words {
        [] => write_word(alloc, &Word::new(alloc), reads, text),
        [first, ..] => write_word(alloc, first, reads, text),
    }
}

/// The step in which the items give the least of the words that are read in their symbols.
fn write_match(
    alloc: Global,
    compiled: &Compiled,
    sensitive: bool,
    lives: &LiveSections,
    seen: &[Symbol],
    reads: &[Read],
    text: Bytes,
) -> Result<Written, Memory>
    requires lives { AreLive compiled.now sensitive seen.now lives.now }
    requires empty { text ≡ [] }
    ensures { IfOk result (λ made. meant made
        ≡ word_step (length reads.now)
        (chosen (lexicon_of compiled.now sensitive) sensitive seen.now) (blanks reads.now)) }
{
    let words = least_readings(alloc, compiled, sensitive, lives, seen)?;
    write_least(alloc, words.as_slice(), reads, text)
}

/// The step at an alarm, by what the search found; at its match, where there is one, the live sets
/// stand. It is written into the text, which is empty.
pub(crate) fn alarm_step(
    alloc: Global,
    compiled: &Compiled,
    sensitive: bool,
    lives: &LiveSections,
    seen: &[Symbol],
    items: &Queue,
    found: Found,
    text: Bytes,
) -> Result<Written, Memory>
    requires lives { AreLive compiled.now sensitive seen.now lives.now }
    requires seen { 0 < found.matched → seen.now ≡ take found.matched (symbols items.now) }
    requires matched { found.matched ≡ matched (lexicon_of compiled.now sensitive) items.now }
    requires span { found.span ≡ span (lexicon_of compiled.now sensitive) items.now }
    requires within { found.span ≤ length items.now }
    requires below { found.matched ≤ found.span }
    requires empty { text ≡ [] }
    ensures { IfOk result (λ made. meant made
        ≡ alarm_lem (lexicon_of compiled.now sensitive) sensitive items.now) }
{
    if items.is_over(found.span) {
        return Ok(Written::Stops {
            kind: LimitKind::SpanTooLong,
        });
    }
    if found.matched == 0 {
        return Ok(Written::Gives { count: 1, text });
    }
    let reads = &items.as_slice()[..found.matched];
    write_match(alloc, compiled, sensitive, lives, seen, reads, text)
}
