ghost use Rattle.std.specs.Prelude.{◌≡◌, ◌<◌, Bool, true, None, List, ◌++◌, map, slice_get, Ok, OnOk, IfOk, IfSome};
ghost use Rattle.ap_symbol.specs.Recasing.{carry_lem};
ghost use Rattle.ap_symbol.specs.Words.{AreProper};
ghost use Rattle.ap_symbol.specs.declared.symbol.Symbol.{Symbol};
ghost use Rattle.ap_fst.specs.Lists.{IsIn};
ghost use Rattle.ap_live.specs.Least.{AddsLeast, HoldsFirst};
ghost use Rattle.ap_live.specs.Lexicon.{lexicon_of};
ghost use Rattle.ap_live.specs.Readings.{AddsSome, carried, any_words, carried_words, parted_size};
ghost use Rattle.ap_live.specs.SectionLives.{AreLive};

use crate::live_sections::LiveSections;
use crate::wording::sort_words;
use ap_fst::{Compiled, Kind2};
use ap_symbol::{
    Case, Memory, Symbol, Word, Words, carry, case_keeps_words, case_of_symbols, one_rendering,
};
use std::alloc::Global;

/// The case that is carried to what is read where this was seen: none of its own where case counts.
pub fn case_carried(sensitive: bool, seen: &[Symbol]) -> Case
    ensures { (word : List Symbol) → carry_lem result word ≡ carried sensitive seen.now word }
{
    if sensitive {
        Case::Low
    } else {
        case_of_symbols(seen)
    }
}

/// The word with a case carried to it. It is made anew only where letters may change.
fn carried_word(alloc: Global, case: Case, word: Word) -> Result<Word, Memory>
    ensures { IfOk result (λ made. made ≡ carry_lem case word) }
{
    match case {
        Case::Low => Ok(word),
        Case::First | Case::All => carry(alloc, &word, case),
    }
}

/// Appends the words with this case carried to each.
fn append_carried(
    alloc: Global,
    case: Case,
    words: Vec<Word>,
    into: &mut Vec<Word>,
) -> Result<(), Memory>
    ensures { OnOk result (into.new.items ≡ into.old.items ++ map (carry_lem case) words.items) }
{
    for word in words {
        into.push(carried_word(alloc, case, word)?)?;
    }
    Ok(())
}

fn keeps_words(case: Case) -> bool
    ensures { result ≡ true → (word : List Symbol) → carry_lem case word ≡ word }
{
    matches!(case, Case::Low)
}

/// Appends the words with this case carried to each. Where there were none before, and they stay as
/// they are, it takes them over.
fn push_carried(
    alloc: Global,
    case: Case,
    words: Vec<Word>,
    into: &mut Vec<Word>,
) -> Result<(), Memory>
    ensures { OnOk result (into.new.items ≡ into.old.items ++ map (carry_lem case) words.items) }
{
    if into.is_empty() && keeps_words(case) {
        *into = words;
        return Ok(());
    }
    append_carried(alloc, case, words, into)
}

/// Appends what the entries of a kind read in the symbols so far, with this case carried to each.
/// The error means want of memory.
pub fn push_kind(
    alloc: Global,
    compiled: &Compiled,
    lives: &LiveSections,
    kind: Kind2,
    case: Case,
    into: &mut Vec<Word>,
) -> Result<(), Memory>
    ensures { OnOk result ((sensitive : Bool) (symbols : List Symbol) →
        AreLive compiled.now sensitive symbols lives.now → into.new.items ≡ into.old.items
        ++ map (carry_lem case) ((lexicon_of compiled.now sensitive).readings kind symbols)) }
{
    let words = lives.readings(alloc, compiled, kind)?;
    push_carried(alloc, case, words.into_vec(), into)
}

/// Appends some of what the entries of a kind read in the symbols so far, with this case carried to
/// each: where that may be more than a few thousand words, as many as there is room for their bytes
/// or one more, and else none. One may be appended twice. So it is known of a word that has too many
/// of them, without all being made, that they are too long. The error means want of memory.
pub fn push_some(
    alloc: Global,
    compiled: &Compiled,
    lives: &LiveSections,
    kind: Kind2,
    case: Case,
    room: usize,
    into: &mut Vec<Word>,
) -> Result<(), Memory>
    ensures { OnOk result ((sensitive : Bool) (symbols : List Symbol) →
        AreLive compiled.now sensitive symbols lives.now → AddsSome
        (map (carry_lem case) ((lexicon_of compiled.now sensitive).readings kind symbols))
        into.old.items into.new.items) }
{
    let words = lives.some_readings(alloc, compiled, kind, room)?;
    push_carried(alloc, case, words, into)
}

/// The right words of any kind that entries read in the symbols so far, with this case carried to
/// each.
fn gathered(
    alloc: Global,
    compiled: &Compiled,
    lives: &LiveSections,
    case: Case,
) -> Result<Vec<Word>, Memory>
    ensures { IfOk result (λ words. (sensitive : Bool) (symbols : List Symbol) →
        AreLive compiled.now sensitive symbols lives.now →
        words.items ≡ map (carry_lem case)
        (any_words (lexicon_of compiled.now sensitive) symbols)) }
{
    let mut words = Vec::new(alloc);
    push_kind(alloc, compiled, lives, Kind2::Standard, case, &mut words)?;
    push_kind(
        alloc,
        compiled,
        lives,
        Kind2::Inconditional,
        case,
        &mut words,
    )?;
    push_kind(alloc, compiled, lives, Kind2::Postblank, case, &mut words)?;
    push_kind(alloc, compiled, lives, Kind2::Preblank, case, &mut words)?;
    Ok(words)
}

/// The right words of any kind that entries read in the symbols so far, with the case of what was
/// seen carried to each, in the order of words, each once. The error means want of memory.
pub fn any_readings(
    alloc: Global,
    compiled: &Compiled,
    sensitive: bool,
    lives: &LiveSections,
    seen: &[Symbol],
) -> Result<Words, Memory>
    requires { (symbols : List Symbol) × AreLive compiled.now sensitive symbols lives.now }
    ensures { IfOk result (λ words. (symbols : List Symbol) →
        AreLive compiled.now sensitive symbols lives.now →
        words ≡ carried_words (lexicon_of compiled.now sensitive) sensitive seen.now symbols) }
{
    let case = case_carried(sensitive, seen);
    let mut words = gathered(alloc, compiled, lives, case)?;
    case_keeps_words();
    let _ = compiled.alphabet();
    sort_words(&mut words);
    Ok(Words::from_vec(words))
}

/// Whether words have more bytes than so many, with one more byte for each.
fn are_longer(words: &[Word], size: usize) -> bool
    ensures { result ≡ true → size < parted_size words.now }
{
    let mut bytes: usize = 0;
    for word in words {
        bytes = bytes.saturating_add(word.rendered().len().saturating_add(1));
    }
    bytes > size
}

/// Whether these words, each once, have more bytes than so many, with one more byte for each that
/// parts it from the others. Then so have all words of which these are some. It takes no memory.
pub fn are_told_longer(words: Vec<Word>, size: usize) -> bool
    requires { (w : List Symbol) → IsIn w words.items → AreProper w }
    ensures { result ≡ true → (whole : List (List Symbol)) →
        ((w : List Symbol) → IsIn w words.items → IsIn w whole) → size < parted_size whole }
{
    let mut words = words;
    sort_words(&mut words);
    are_longer(words.as_slice(), size)
}

/// Some of the right words of any kind that entries read in the symbols so far, with this case
/// carried to each: of each kind as many as `push_some` appends.
fn some_gathered(
    alloc: Global,
    compiled: &Compiled,
    lives: &LiveSections,
    case: Case,
    room: usize,
) -> Result<Vec<Word>, Memory>
    ensures { IfOk result (λ words. (sensitive : Bool) (symbols : List Symbol) →
        AreLive compiled.now sensitive symbols lives.now → (w : List Symbol) → IsIn w words.items
        → IsIn w (map (carry_lem case) (any_words (lexicon_of compiled.now sensitive) symbols))) }
{
    let mut words = Vec::new(alloc);
    let some = &mut words;
    push_some(alloc, compiled, lives, Kind2::Standard, case, room, some)?;
    push_some(
        alloc,
        compiled,
        lives,
        Kind2::Inconditional,
        case,
        room,
        some,
    )?;
    push_some(alloc, compiled, lives, Kind2::Postblank, case, room, some)?;
    push_some(alloc, compiled, lives, Kind2::Preblank, case, room, some)?;
    Ok(words)
}

/// Whether some of the words that `any_readings` gives show that all of them have more bytes than
/// so many, with one more byte for each that parts it from the others. So words of which there are
/// too many are told, and not all are made. Where it isn't told, they may have more bytes all the
/// same: it looks only where there may be more than a few thousand.
fn any_too_long(
    alloc: Global,
    compiled: &Compiled,
    sensitive: bool,
    lives: &LiveSections,
    seen: &[Symbol],
    size: usize,
) -> Result<bool, Memory>
    requires { (symbols : List Symbol) × AreLive compiled.now sensitive symbols lives.now }
    ensures { result ≡ Ok true → (symbols : List Symbol) →
        AreLive compiled.now sensitive symbols lives.now → size
        < parted_size (carried_words (lexicon_of compiled.now sensitive) sensitive
        seen.now symbols) }
{
    let case = case_carried(sensitive, seen);
    let room = size.saturating_add(1);
    let words = some_gathered(alloc, compiled, lives, case, room)?;
    case_keeps_words();
    one_rendering();
    let _ = compiled.alphabet();
    Ok(are_told_longer(words, size))
}

/// What `any_readings` gives, or none where some of it shows that all the words have more bytes than
/// so many, with one more byte for each that parts it from the others. So not all words are made
/// where there are too many of them; where there are fewer, they may have more bytes all the same.
/// The error means want of memory.
pub fn any_readings_within(
    alloc: Global,
    compiled: &Compiled,
    sensitive: bool,
    lives: &LiveSections,
    seen: &[Symbol],
    size: usize,
) -> Result<Option<Words>, Memory>
    requires { (symbols : List Symbol) × AreLive compiled.now sensitive symbols lives.now }
    ensures words { IfOk result (λ found. IfSome found (λ words. (symbols : List Symbol) →
        AreLive compiled.now sensitive symbols lives.now →
        words ≡ carried_words (lexicon_of compiled.now sensitive) sensitive seen.now symbols)) }
    ensures long { result ≡ Ok None → (symbols : List Symbol) →
        AreLive compiled.now sensitive symbols lives.now → size
        < parted_size (carried_words (lexicon_of compiled.now sensitive) sensitive
        seen.now symbols) }
{
    if any_too_long(alloc, compiled, sensitive, lives, seen, size)? {
        return Ok(None);
    }
    let words = any_readings(alloc, compiled, sensitive, lives, seen)?;
    Ok(Some(words))
}

/// Appends words that the entries of a kind read in the symbols so far, with this case carried to
/// each, of which one is no later than any other: all of them, or few where there may be more than a
/// few thousand.
fn push_least(
    alloc: Global,
    compiled: &Compiled,
    lives: &LiveSections,
    kind: Kind2,
    case: Case,
    into: &mut Vec<Word>,
) -> Result<(), Memory>
    ensures { OnOk result ((sensitive : Bool) (symbols : List Symbol) →
        AreLive compiled.now sensitive symbols lives.now → AddsLeast case
        ((lexicon_of compiled.now sensitive).readings kind symbols)
        into.old.items into.new.items) }
{
    let words = lives.least_readings(alloc, compiled, kind, case)?;
    push_carried(alloc, case, words, into)
}

/// Words of any kind that entries read in the symbols so far, with this case carried to each, of
/// which one stands before each that they read or is it.
fn least_gathered(
    alloc: Global,
    compiled: &Compiled,
    lives: &LiveSections,
    case: Case,
) -> Result<Vec<Word>, Memory>
    ensures { IfOk result (λ words. (sensitive : Bool) (symbols : List Symbol) →
        AreLive compiled.now sensitive symbols lives.now → HoldsFirst
        (map (carry_lem case) (any_words (lexicon_of compiled.now sensitive) symbols))
        words.items) }
{
    let mut words = Vec::new(alloc);
    let some = &mut words;
    push_least(alloc, compiled, lives, Kind2::Standard, case, some)?;
    push_least(alloc, compiled, lives, Kind2::Inconditional, case, some)?;
    push_least(alloc, compiled, lives, Kind2::Postblank, case, some)?;
    push_least(alloc, compiled, lives, Kind2::Preblank, case, some)?;
    Ok(words)
}

/// Some of the words that `any_readings` gives, in the order of words, each once: the first of them
/// is the first of all, and there is one where there is any. So not all are made where there may be
/// more than a few thousand. The error means want of memory.
pub fn least_readings(
    alloc: Global,
    compiled: &Compiled,
    sensitive: bool,
    lives: &LiveSections,
    seen: &[Symbol],
) -> Result<Words, Memory>
    requires { (symbols : List Symbol) × AreLive compiled.now sensitive symbols lives.now }
    ensures { IfOk result (λ words. (symbols : List Symbol) →
        AreLive compiled.now sensitive symbols lives.now → slice_get words 0
        ≡ slice_get (carried_words (lexicon_of compiled.now sensitive) sensitive
        seen.now symbols) 0) }
{
    let case = case_carried(sensitive, seen);
    let mut words = least_gathered(alloc, compiled, lives, case)?;
    case_keeps_words();
    one_rendering();
    let _ = compiled.alphabet();
    sort_words(&mut words);
    Ok(Words::from_vec(words))
}
