ghost use Rattle.std.specs.Prelude.{◌≡◌, [], IfOk};

use ap_symbol::{Memory, Word};
use std::alloc::Global;
use std::mem;

/// The most words that are kept.
const WORDS_MAX: usize = 64;

/// The most symbols of a word that is kept, so that long ones don't keep their memory.
const LENGTH_MAX: usize = 256;

/// The most positions whose room is kept.
const PLACES_MAX: usize = 256;

/// The symbols, and the bytes, of a new word for which room is made at once.
const WORD_ROOM: usize = 16;

const BYTES_ROOM: usize = 64;

/// Words that nothing holds any longer. A run takes the room of the words that it makes from them,
/// and takes memory for a word only where there are none. The room of its positions and of its new
/// values is kept too.
#[derive(Drop)]
pub struct Spare {
    words: Vec<Word>,
    places: Vec<Option<usize>>,
    fresh: Vec<Option<Word>>,
}

impl Spare {
    /// No words, which takes no memory.
    pub fn new(alloc: Global) -> Spare {
        Spare {
            words: Vec::new(alloc),
            places: Vec::new(alloc),
            fresh: Vec::new(alloc),
        }
    }

    /// No positions, in the room of those that are kept.
    pub(crate) fn take_places(&mut self, alloc: Global) -> Vec<Option<usize>>
        ensures { result.items ≡ [] }
    {
        let mut places = mem::replace(&mut self.places, Vec::new(alloc));
        places.clear();
        places
    }

    /// Keeps the room of positions, unless there are many.
    pub(crate) fn put_places(&mut self, places: Vec<Option<usize>>) {
        if places.len() <= PLACES_MAX {
            self.places = places;
        }
    }

    /// No new values, in the room of those that are kept.
    pub(crate) fn take_fresh(&mut self, alloc: Global) -> Vec<Option<Word>>
        ensures { result.items ≡ [] }
    {
        let mut fresh = mem::replace(&mut self.fresh, Vec::new(alloc));
        fresh.clear();
        fresh
    }

    /// Keeps the room of new values.
    pub(crate) fn put_fresh(&mut self, fresh: Vec<Option<Word>>) {
        self.fresh = fresh;
    }

    /// The empty word, in the room of one that is kept. The error means want of memory.
    pub(crate) fn take(&mut self, alloc: Global) -> Result<Word, Memory>
        ensures { IfOk result (λ word. word ≡ []) }
    {
        match self.words.pop() {
            None => Word::with_capacity(alloc, WORD_ROOM, BYTES_ROOM),
            Some(mut word) => {
                word.clear();
                Ok(word)
            }
        }
    }

    /// Keeps a word, unless it is long or there are many already; for want of memory it is let go
    /// too.
    pub(crate) fn put(&mut self, word: Word) {
        if self.words.len() < WORDS_MAX && word.len() <= LENGTH_MAX {
            let _ = self.words.push(word);
        }
    }
}
