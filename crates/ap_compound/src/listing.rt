ghost use Rattle.std.specs.Prelude.{◌≡◌, ◌↔◌, ◌++◌, ◌∷◌, List, IfOk, OnOk};
ghost use Rattle.std.specs.List.{flat_map};
ghost use Rattle.ap_symbol.specs.Lists.{IsIn};
ghost use Rattle.ap_symbol.specs.Words.{AreProper};
ghost use Rattle.ap_symbol.specs.declared.symbol.Symbol.{Symbol};
ghost use Rattle.ap_symbol.specs.declared.symbol.Symbol.TheVariants.{Join};
ghost use Rattle.ap_compound.specs.Places.{joins, is_number, going, goings, ending, words_from, AreListed, first_words, IsListing};

use crate::exploring::fewest_parts;
use crate::place::Place;
use ap_live::sort_words;
use ap_symbol::{Memory, Symbol, Word, Words};
use std::alloc::Global;

/// What is listed of a place: the words of the parts from there to the end, joined by Joins, where
/// the parts are as few as can be.
#[derive(Drop)]
pub(crate) struct Listed {
    /// The fewest left parts that reach the place.
    pub(crate) fewest: Option<usize>,
    pub(crate) words: Words,
}

/// Says of words that they are proper. It changes nothing.
pub(crate) fn words_are_proper(words: &[Word])
    ensures { (w : List Symbol) → IsIn w words.now → AreProper w }
{
    for word in words {
        let _symbols = word.symbols();
    }
}

fn push_symbols(alloc: Global, word: &Word, into: &mut Word) -> Result<(), Memory>
    ensures { OnOk result (into.new ≡ into.old ++ word.now) }
{
    for symbol in word.symbols() {
        into.push(symbol.copy(alloc)?)?;
    }
    Ok(())
}

/// A word, Join, and another.
fn joined(alloc: Global, front: &Word, back: &Word) -> Result<Word, Memory>
    ensures { IfOk result (λ made. made ≡ front.now ++ Join ∷ back.now) }
{
    let mut made = front.copy(alloc)?;
    made.push(Symbol::Join)?;
    push_symbols(alloc, back, &mut made)?;
    Ok(made)
}

/// Appends a word joined with each of those behind it.
fn push_behind(
    alloc: Global,
    front: &Word,
    backs: &[Word],
    into: &mut Vec<Word>,
) -> Result<(), Memory>
    ensures { OnOk result (into.new.items ≡ into.old.items ++ joins backs.now front.now) }
{
    for back in backs {
        into.push(joined(alloc, front, back)?)?;
    }
    Ok(())
}

/// Appends each of the words joined with each of those behind them.
fn push_joined(
    alloc: Global,
    fronts: &[Word],
    backs: &[Word],
    into: &mut Vec<Word>,
) -> Result<(), Memory>
    ensures { OnOk result (into.new.items ≡ into.old.items
        ++ flat_map (joins backs.now) fronts.now) }
{
    for front in fronts {
        push_behind(alloc, front, backs, into)?;
    }
    Ok(())
}

fn push_copies(alloc: Global, words: &[Word], into: &mut Vec<Word>) -> Result<(), Memory>
    ensures { OnOk result (into.new.items ≡ into.old.items ++ words.now) }
{
    for word in words {
        into.push(word.copy(alloc)?)?;
    }
    Ok(())
}

fn is_number(fewest: Option<usize>, next: usize) -> bool
    ensures { result ≡ is_number fewest next }
{
    match fewest {
        None => false,
        Some(count) => count == next,
    }
}

/// Appends what a left part of so many symbols and one more gives, where just so many parts reach
/// the place behind it.
fn push_going(
    alloc: Global,
    place: &Place,
    next: usize,
    k: usize,
    listed: &Listed,
    into: &mut Vec<Word>,
) -> Result<(), Memory>
    ensures { OnOk result (into.new.items ≡ into.old.items ++ going place.now next k listed.now) }
{
    if !is_number(listed.fewest, next) {
        return Ok(());
    }
    match place.lefts.get(k) {
        None => Ok(()),
        Some(fronts) => push_joined(alloc, fronts.as_slice(), listed.words.as_slice(), into),
    }
}

/// Appends what left parts from a place give, by what is listed of the places behind it.
fn push_goings(
    alloc: Global,
    place: &Place,
    next: usize,
    behind: &[Listed],
    into: &mut Vec<Word>,
) -> Result<(), Memory>
    ensures { OnOk result (into.new.items ≡ into.old.items ++ goings place.now next 0 behind.now) }
{
    for (k, listed) in behind.iter().enumerate() {
        push_going(alloc, place, next, k, listed, into)?;
    }
    Ok(())
}

/// Appends what right parts from a place give, where there are so many parts with them.
fn push_ending(
    alloc: Global,
    place: &Place,
    at: usize,
    total: usize,
    next: usize,
    into: &mut Vec<Word>,
) -> Result<(), Memory>
    ensures { OnOk result (into.new.items ≡ into.old.items ++ ending place.now at total next) }
{
    if at > 0 && next == total {
        return push_copies(alloc, place.rights.as_slice(), into);
    }
    Ok(())
}

/// The words that are listed of a place, by what is listed of the places behind it.
fn words_from(
    alloc: Global,
    fewest: Option<usize>,
    place: &Place,
    at: usize,
    total: usize,
    behind: &[Listed],
) -> Result<Words, Memory>
    ensures { IfOk result (λ words. (w : List Symbol) → IsIn w words
        ↔ IsIn w (words_from fewest place.now at total behind.now)) }
{
    let Some(count) = fewest else {
        return Ok(Words::new(alloc));
    };
    let Some(next) = count.checked_add(1) else {
        return Err(Memory);
    };
    let mut words = Vec::new(alloc);
    push_ending(alloc, place, at, total, next, &mut words)?;
    push_goings(alloc, place, next, behind, &mut words)?;
    words_are_proper(words.as_slice());
    sort_words(&mut words);
    Ok(Words::from_vec(words))
}

/// What is listed of all places, from the last to the first.
fn all_listed(alloc: Global, places: &[Place], total: usize) -> Result<Vec<Listed>, Memory>
    ensures { IfOk result (λ lists. AreListed total 0 places.now lists.items) }
{
    let mut lists = Vec::new(alloc);
    let mut at = places.len();
    while at > 0 {
        at -= 1;
        let place = &places[at];
        let words = words_from(alloc, place.fewest, place, at, total, lists.as_slice())?;
        let fewest = place.fewest;
        lists.insert(0, Listed { fewest, words })?;
    }
    Ok(lists)
}

/// The words that are listed of the first place.
fn first_words(alloc: Global, mut lists: Vec<Listed>) -> Words
    ensures { result ≡ first_words lists.items }
{
    if lists.is_empty() {
        return Words::new(alloc);
    }
    let Listed { words, .. } = lists.swap_remove(0);
    words
}

/// The words of the splits of a surface with the fewest parts, two or more, of which these are the
/// places.
pub(crate) fn words_listed(alloc: Global, places: &[Place]) -> Result<Words, Memory>
    ensures { IfOk result (λ words. IsListing places.now words) }
{
    match fewest_parts(places)? {
        None => Ok(Words::new(alloc)),
        Some(total) => {
            let lists = all_listed(alloc, places, total)?;
            Ok(first_words(alloc, lists))
        }
    }
}
