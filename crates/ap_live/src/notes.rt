ghost use Rattle.std.specs.Prelude.{◌≡◌, ◌⊎◌, ◌++◌, ◌∷◌, [], IfSome, false, slice_get, true};
ghost use Rattle.std.specs.Option.{option_copied};
ghost use Rattle.ap_fst.specs.Lists.{IsIn};

use crate::met::Met;
use ap_symbol::Memory;
use std::alloc::Global;
use std::marker::Model;

/// Of so many places in a row one may have notes.
pub(crate) const STRIDE: usize = 8;

/// Notes have so many chains; a place that may have notes stands in that of its remainder.
const CHAINS: usize = 4_096;

/// So many notes of a chain are looked at, at most.
const MOST_LOOKS: usize = 64;

/// A place has so many notes, at most: where as many walks were in other states each, as along one
/// long entry, a further one won't be in the states of an earlier one either.
const MOST_OF_PLACE: usize = 16;

/// The notes of a chain: one more than where the last one stands, or 0; its place, and how many in a
/// row are of that place.
#[derive(Clone, Copy, Debug)]
struct Chain {
    last: usize,
    place: usize,
    count: usize,
}

/// What a walk met at a place, with a number beside it.
#[derive(Debug, Drop)]
pub struct Note {
    pub place: usize,
    pub ahead: usize,
    pub met: Met,
    /// One more than where the note before it in its chain stands, or 0.
    pub before: usize,
}

/// Notes, those of places with the same remainder each in a chain, so that the last one of a place
/// is soon found. Contracts see the list. A note is checked when it is found, so that a wrong chain
/// would cost time alone.
#[derive(Debug, Drop)]
pub(crate) struct Notes {
    list: Vec<Note>,
    /// One for each remainder. None before the first note.
    chains: Vec<Chain>,
    numbers: usize,
}

impl Model for Notes {
    ghost use Rattle.std.specs.Prelude.{List};
    ghost use Rattle.ap_live.specs.declared.notes.Note.{Note};

    ghost Value = { List Note };

    ghost view = { λ n. n.list.items };
}

/// Where the chain of a place stands.
fn chain_of(place: usize) -> usize {
    place / STRIDE % CHAINS
}

/// Gives each chain its place, where that isn't done yet.
fn lay_chains(chains: &mut Vec<Chain>) -> Result<(), Memory> {
    for _ in chains.len()..CHAINS {
        chains.push(Chain {
            last: 0,
            place: 0,
            count: 0,
        })?;
    }
    Ok(())
}

/// Adds a note behind the others, and answers whether there was memory for it. If not, nothing is
/// changed.
fn add_note(list: &mut Vec<Note>, note: Note) -> bool
    ensures added { result ≡ true → list.new.items ≡ list.old.items ++ note ∷ [] }
    ensures stayed { result ≡ false → list.new.items ≡ list.old.items }
{
    match list.push(note) {
        Ok(()) => true,
        Err(_) => false,
    }
}

impl Notes {
    ghost use Rattle.ap_live.specs.declared.notes.Note.{Note};
    ghost use Rattle.ap_live.specs.Walks.{IsFoundIn, IsGiven};

    pub(crate) fn new(alloc: Global) -> Notes
        ensures { result ≡ [] }
    {
        Notes {
            list: Vec::new(alloc),
            chains: Vec::new(alloc),
            numbers: 0,
        }
    }

    pub(crate) fn allocator(&self) -> Global {
        *self.list.allocator()
    }

    pub(crate) fn is_empty(&self) -> bool
        ensures { result ≡ true → self.now ≡ [] }
    {
        self.list.is_empty()
    }

    /// How many numbers the notes have in all: a place and its states.
    pub(crate) fn numbers(&self) -> usize {
        self.numbers
    }

    /// The note that stands there.
    fn get(&self, at: usize) -> Option<&Note>
        ensures { option_copied result ≡ slice_get self.now at }
    {
        self.list.get(at)
    }

    /// One more than where the last note of a place's chain stands, or 0.
    pub(crate) fn chain(&self, place: usize) -> usize {
        match self.chains.get(chain_of(place)) {
            None => 0,
            Some(chain) => chain.last,
        }
    }

    /// Whether a place has as many notes as it may have.
    pub(crate) fn is_full(&self, place: usize) -> bool {
        match self.chains.get(chain_of(place)) {
            None => false,
            Some(chain) => chain.place == place && chain.count >= MOST_OF_PLACE,
        }
    }

    /// The last note is of this place.
    fn count_last(&mut self, place: usize)
        ensures { self.new ≡ self.old }
    {
        let last = self.list.len();
        if let Some(chain) = self.chains.get_mut(chain_of(place)) {
            chain.count = if chain.place == place {
                chain.count.saturating_add(1)
            } else {
                1
            };
            chain.place = place;
            chain.last = last;
        }
    }

    /// Adds a note, if there is memory for it.
    pub(crate) fn add(&mut self, place: usize, ahead: usize, met: Met)
        ensures { (note : Note) → IsIn note self.new →
            IsIn note self.old ⊎ IsGiven place ahead met note }
    {
        if lay_chains(&mut self.chains).is_err() {
            return;
        }
        let numbers = met.len().saturating_add(1);
        let before = self.chain(place);
        let note = Note {
            place,
            ahead,
            met,
            before,
        };
        if !add_note(&mut self.list, note) {
            return;
        }
        self.numbers = self.numbers.saturating_add(numbers);
        self.count_last(place);
    }

    /// The number beside the last note that this was met at a place.
    pub(crate) fn find(&self, place: usize, met: &Met) -> Option<usize>
        ensures { IfSome result (IsFoundIn self.now place met.now) }
    {
        let mut at = self.chain(place);
        for _ in 0..MOST_LOOKS {
            if at == 0 {
                return None;
            }
            let Some(note) = self.get(at - 1) else {
                return None;
            };
            if note.place == place && note.met.is_same(met) {
                return Some(note.ahead);
            }
            at = note.before;
        }
        None
    }
}
