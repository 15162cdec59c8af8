ghost use Rattle.std.specs.Prelude.{◌≡◌, [], IfOk, true};
ghost use Rattle.std.specs.Option.{option_copied};
ghost use Rattle.ap_choose.specs.Choice.{first_tag, numbered};
ghost use Rattle.ap_choose.specs.Chances.{same_number, has_number, Thins};
ghost use Rattle.ap_choose.specs.Numbering.{number_of};

use crate::numbers::Numbers;
use ap_symbol::{Memory, Sequence, Symbol, TagName, Word};
use std::alloc::Global;

/// A reading of a unit: its place among the readings, counted from 0, and the number of its first tag,
/// where that occurs in a forbidden pair.
#[derive(Clone, Copy, Debug, PartialEq, Eq)]
pub(crate) struct Chance {
    pub(crate) place: usize,
    pub(crate) tag: Option<usize>,
}

/// The readings of one unit that count.
pub(crate) type Chances = Sequence<Chance>;

/// The first tag of some symbols.
fn first_tag(symbols: &[Symbol]) -> Option<&TagName>
    ensures { option_copied result ≡ first_tag symbols.now }
{
    'symbols: for symbol in symbols {
        if let Symbol::Tag(name) = symbol {
            return Some(name);
        }
    }
    None
}

/// The number of the first tag of a word.
fn tag_number(numbers: &Numbers, word: &Word) -> Option<usize>
    ensures { result ≡ number_of numbers.now.names (first_tag word.now) }
{
    match first_tag(word.symbols()) {
        None => None,
        Some(name) => numbers.number(name.text().as_bytes()),
    }
}

fn same_number(a: Option<usize>, b: Option<usize>) -> bool
    ensures { result ≡ same_number a b }
{
    match (a, b) {
        (None, None) => true,
        (Some(a), Some(b)) => a == b,
        _ => false,
    }
}

/// Where a number was seen last: a hint alone.
#[derive(Drop)]
pub(crate) struct Hints {
    places: Vec<usize>,
}

fn slot_of(tag: Option<usize>) -> usize {
    match tag {
        None => 0,
        Some(number) => number.saturating_add(1),
    }
}

impl Hints {
    /// Room for so many numbers.
    pub(crate) fn new(alloc: Global, count: usize) -> Result<Hints, Memory> {
        let mut places = Vec::new(alloc);
        places.push(0)?;
        for _ in 0..count {
            places.push(0)?;
        }
        Ok(Hints { places })
    }

    fn keep(&mut self, tag: Option<usize>, place: usize) {
        let slot = slot_of(tag);
        if slot < self.places.len() {
            self.places[slot] = place;
        }
    }

    /// Whether one of the chances surely has this number.
    fn is_seen(&self, chances: &[Chance], tag: Option<usize>) -> bool
        ensures { result ≡ true → has_number chances.now tag ≡ true }
    {
        match self.places.get(slot_of(tag)) {
            None => false,
            Some(place) => match chances.get(*place) {
                None => false,
                Some(chance) => same_number(chance.tag, tag),
            },
        }
    }
}

/// The readings of a unit, by their numbers: of readings with one number the first alone, since any
/// other fares as it does and comes later.
pub(crate) fn chances(
    alloc: Global,
    numbers: &Numbers,
    hints: &mut Hints,
    readings: &[Word],
) -> Result<Chances, Memory>
    ensures { IfOk result (Thins numbers.now.names [] (numbered 0 readings.now)) }
{
    let mut found = Chances::new(alloc);
    'readings: for place in 0..readings.len() {
        let tag = tag_number(numbers, &readings[place]);
        if !hints.is_seen(found.as_slice(), tag) {
            hints.keep(tag, found.len());
            found.push(Chance { place, tag })?;
        }
    }
    Ok(found)
}
