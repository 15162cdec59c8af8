ghost use Rattle.std.specs.Prelude.{◌≡◌, List, IfOk};
ghost use Rattle.ap_symbol.specs.Lists.{IsIn};
ghost use Rattle.ap_dix.specs.declared.dictionary.Entry.{Entry as LexiconEntry};
ghost use Rattle.ap_compile.specs.Gatherings.{HasPlace};

use ap_dix::{Entry, EntryPart};
use ap_symbol::{Memory, Word};
use std::alloc::Global;

/// The place of an entry among others, and codes of its parts from the last one on. Entries that
/// end alike have codes that begin alike; that is a hint alone.
#[derive(Debug, Drop)]
pub(crate) struct Place {
    pub(crate) codes: Vec<u64>,
    pub(crate) entry: usize,
}

/// A code of the bytes of a word.
fn word_code(word: &Word) -> u64 {
    let mut code: u64 = 14695981039346656037;
    for b in word.rendered() {
        code = (code ^ u64::from(*b)).wrapping_mul(1099511628211);
    }
    code
}

fn code_of(part: &EntryPart) -> u64 {
    match part {
        EntryPart::Paradigm(n) => *n as u64,
        EntryPart::Identity(word) => word_code(word),
        EntryPart::Pair(left, right) => word_code(left).wrapping_add(word_code(right).rotate_left(
            1,
        )),
        EntryPart::Expression(_, _) => 0,
    }
}

/// The codes of these parts, from the last one on.
fn codes_of(alloc: Global, parts: &[EntryPart]) -> Result<Vec<u64>, Memory> {
    let mut codes = Vec::new(alloc);
    for part in parts.iter().rev() {
        codes.push(code_of(part))?;
    }
    Ok(codes)
}

/// The place of each of the entries, in order.
fn places_of(alloc: Global, entries: &[Entry]) -> Result<Vec<Place>, Memory>
    ensures { IfOk result (λ places. (entry : LexiconEntry) → IsIn entry entries.now →
        HasPlace entries.now places.items entry) }
{
    let mut places = Vec::new(alloc);
    for at in 0..entries.len() {
        let codes = codes_of(alloc, entries[at].parts.as_slice())?;
        places.push(Place { codes, entry: at })?;
    }
    Ok(places)
}

/// The places of the entries, those that end alike side by side.
pub(crate) fn places_by_ending(alloc: Global, entries: &[Entry]) -> Result<Vec<Place>, Memory>
    ensures { IfOk result (λ places. (entry : LexiconEntry) → IsIn entry entries.now →
        HasPlace entries.now places.items entry) }
{
    let mut places = places_of(alloc, entries)?;
    places.sort_unstable_by(|a, b| a.codes.cmp(&b.codes));
    Ok(places)
}
