ghost use Rattle.std.specs.Prelude.{◌≡◌, ◌<◌, [], Some, ℕ, suc, length, IfOk, OnOk};
ghost use Rattle.ap_live.specs.Found.{has_words};
ghost use Rattle.ap_live.specs.Lexicon.{lexicon_of};
ghost use Rattle.ap_live.specs.SectionLives.{AreLive};
ghost use Rattle.ap_compound.specs.Places.{words_at, IsLeast, IsRow, Arrives, Completes, IsExplored, lesser, arriving, completing};

use crate::place::Place;
use crate::rows::row_of;
use ap_fst::Compiled;
use ap_live::LiveSections;
use ap_symbol::{Memory, Symbol, Words};
use std::alloc::Global;

/// The lesser of two numbers, where there are any.
fn lesser(a: Option<usize>, b: Option<usize>) -> Option<usize>
    ensures { result ≡ lesser a b }
{
    match (a, b) {
        (None, b) => b,
        (a, None) => a,
        (Some(m), Some(n)) => { if m <= n { Some(m) } else { Some(n) } }
    }
}

fn one_more(count: usize) -> Result<Option<usize>, Memory>
    ensures { IfOk result (λ made. made ≡ Some (suc count)) }
{
    match count.checked_add(1) {
        None => Err(Memory),
        Some(next) => Ok(Some(next)),
    }
}

/// Whether a left part of so many symbols and one more gives a word.
fn has_left(lefts: &[Words], k: usize) -> bool
    ensures { result ≡ has_words (words_at lefts.now k) }
{
    match lefts.get(k) {
        None => false,
        Some(words) => !words.as_slice().is_empty(),
    }
}

/// How many left parts reach a place so many symbols and one more behind this one, the last of them
/// from here.
fn arriving(place: &Place, k: usize) -> Result<Option<usize>, Memory>
    ensures { IfOk result (λ made. made ≡ arriving place.now k) }
{
    match place.fewest {
        None => Ok(None),
        Some(count) => {
            if has_left(place.lefts.as_slice(), k) {
                return one_more(count);
            }
            Ok(None)
        }
    }
}

/// How many parts there are, the last of them a right part from here.
fn completing(place: &Place) -> Result<Option<usize>, Memory>
    ensures { IfOk result (λ made. made ≡ completing place.now) }
{
    match place.fewest {
        None => Ok(None),
        Some(count) => {
            if !place.rights.as_slice().is_empty() {
                return one_more(count);
            }
            Ok(None)
        }
    }
}

/// The fewest left parts that reach the place behind these, which isn't the first.
fn fewest_to(places: &[Place]) -> Result<Option<usize>, Memory>
    ensures { IfOk result (λ found.
        IsLeast (Arrives places.now (length places.now)) (length places.now) found) }
{
    let mut found = None;
    for at in 0..places.len() {
        let next = arriving(&places[at], places.len() - at - 1)?;
        found = lesser(found, next);
    }
    Ok(found)
}

/// The fewest parts with which the end of the surface is reached, two or more.
pub(crate) fn fewest_parts(places: &[Place]) -> Result<Option<usize>, Memory>
    ensures { IfOk result (λ found. IsLeast (Completes places.now) (length places.now) found) }
{
    let mut found = None;
    for at in 1..places.len() {
        let next = completing(&places[at])?;
        found = lesser(found, next);
    }
    Ok(found)
}

/// The fewest left parts that reach the next place; none are needed for the first.
fn fewest_next(places: &[Place]) -> Result<Option<usize>, Memory>
    ensures first { IfOk result (λ found. length places.now ≡ 0 → found ≡ Some 0) }
    ensures behind { IfOk result (λ found. 0 < length places.now →
        IsLeast (Arrives places.now (length places.now)) (length places.now) found) }
{
    if places.is_empty() {
        return Ok(Some(0));
    }
    fewest_to(places)
}

/// The next place. Where no left parts reach it, nothing is looked up.
fn next_place(
    alloc: Global,
    compiled: &Compiled,
    sensitive: bool,
    lives: &mut LiveSections,
    fewest: Option<usize>,
    symbols: &[Symbol],
) -> Result<Place, Memory>
    requires { AreLive compiled.now sensitive [] lives.old }
    ensures row { IfOk result (λ place. (m : ℕ) → place.fewest ≡ Some m →
        IsRow (lexicon_of compiled.now sensitive) symbols.now place.lefts.items place.rights) }
    ensures fewest { IfOk result (λ place. place.fewest ≡ fewest) }
    ensures lives { OnOk result (AreLive compiled.now sensitive [] lives.new) }
{
    if fewest.is_none() {
        return Ok(Place {
            fewest,
            lefts: Vec::new(alloc),
            rights: Words::new(alloc),
        });
    }
    let (lefts, rights) = row_of(alloc, compiled, sensitive, lives, symbols)?;
    Ok(Place {
        fewest,
        lefts,
        rights,
    })
}

/// The places of a surface, in order.
pub(crate) fn explored(
    alloc: Global,
    compiled: &Compiled,
    sensitive: bool,
    lives: &mut LiveSections,
    surface: &[Symbol],
) -> Result<Vec<Place>, Memory>
    requires { AreLive compiled.now sensitive [] lives.old }
    ensures places { IfOk result (λ places.
        IsExplored (lexicon_of compiled.now sensitive) surface.now places.items) }
    ensures lives { OnOk result (AreLive compiled.now sensitive [] lives.new) }
{
    let mut places = Vec::new(alloc);
    for at in 0..surface.len() {
        let fewest = fewest_next(places.as_slice())?;
        let place = next_place(alloc, compiled, sensitive, lives, fewest, &surface[at..])?;
        places.push(place)?;
    }
    Ok(places)
}
