//! Units that were written before, with what they gave. What is kept is a hint alone: what is found
//! is compared with the bytes of the unit that is sought.
ghost use Rattle.std.specs.Prelude.{◌≡◌, ◌≤◌, ◌++◌, ◌∷◌, ◌⊎◌, ℕ, List, [], length, bytes_eq, OnOk, IfSome};
ghost use Rattle.ap_symbol.specs.declared.symbol.Symbol.{Symbol};
ghost use Rattle.ap_stream.specs.declared.dialect.Dialect.{Dialect};
ghost use Rattle.ap_stream.specs.Each.{IsGiven, IsKept, AreKept};
ghost use Rattle.ap_stream.specs.UnitBytes.{UnitOf};

use crate::UNIT_MAX;
use ap_symbol::Memory;
use std::alloc::Global;

/// The most units that are kept.
const ENTRIES_MAX: usize = 65536;

/// The most bytes that they and what they gave may have.
const BYTES_MAX: usize = 16777216;

/// The number of places, and how many of them are tried for a unit.
const PLACES: usize = 131072;

const TRIES: usize = 4;

/// After so many units that weren't recalled it is seen anew whether units are worth keeping.
const WINDOW: u32 = 1024;

/// No entry has this number.
const NO_ENTRY: u32 = 4294967295;

/// Where the bytes of a unit stand, and behind them what it gave: both places and that behind both.
#[derive(Clone, Copy)]
pub(crate) struct Entry {
    pub(crate) from: u32,
    pub(crate) behind: u32,
    pub(crate) to: u32,
}

/// Where the entry of a unit with this hash may be found.
#[derive(Clone, Copy)]
struct Place {
    hash: u32,
    entry: u32,
}

/// What is kept of units, whose bytes and texts stand one behind another. Where few units are
/// recalled, only some are kept.
#[derive(Drop)]
pub(crate) struct KeptUnits {
    pub(crate) entries: Vec<Entry>,
    pub(crate) bytes: Vec<u8>,
    places: Vec<Place>,
    recalled: u32,
    missed: u32,
    sparse: bool,
}

/// One byte more goes into a number, five places from the one before it.
fn mixed(number: u64, byte: u8) -> u64 {
    number.rotate_left(5) ^ u64::from(byte)
}

/// The upper half of what a number is multiplied to.
fn told(number: u64) -> u32 {
    (number.wrapping_mul(11400714819323198485) >> 32) as u32
}

/// The hash of a unit with these bytes.
pub(crate) fn hash_of(key: &[u8]) -> u32 {
    let mut number: u64 = 0;
    for byte in key {
        number = mixed(number, *byte);
    }
    told(number)
}

/// The number of bytes of a front, and its hash.
#[derive(Clone, Copy)]
pub(crate) struct Front {
    pub(crate) size: usize,
    pub(crate) hash: u32,
}

/// The front up to the first `$` of what begins with `^`; else none, of no bytes.
pub(crate) fn front_of(piece: &[u8]) -> Front
    ensures { result.size ≤ length piece.now }
{
    let none = Front { size: 0, hash: 0 };
    if piece.is_empty() || piece[0] != b'^' {
        return none;
    }
    let mut number: u64 = 0;
    for at in 0..piece.len() {
        number = mixed(number, piece[at]);
        if piece[at] == b'$' {
            return Front {
                size: at + 1,
                hash: told(number),
            };
        }
    }
    none
}

/// The place that is tried at this turn.
fn place_at(hash: u32, turn: usize) -> usize {
    (hash as usize).wrapping_add(turn) % PLACES
}

/// The entry of this hash.
fn find_place(places: &[Place], hash: u32) -> Option<usize> {
    for turn in 0..TRIES {
        match places.get(place_at(hash, turn)) {
            Some(place) => {
                if place.hash == hash {
                    return Some(place.entry as usize);
                }
            }
            None => return None,
        }
    }
    None
}

/// Writes a place for this hash: over that of the same hash, over a free one, or over the first
/// that is tried.
fn set_place(places: &mut [Place], place: Place) {
    let mut at = place_at(place.hash, 0);
    for turn in 0..TRIES {
        let tried = place_at(place.hash, turn);
        if tried < places.len() {
            let old = places[tried];
            if old.hash == place.hash || old.entry == NO_ENTRY {
                at = tried;
                break;
            }
        }
    }
    if at < places.len() {
        places[at] = place;
    }
}

/// Frees all places.
fn free_places(places: &mut Vec<Place>) -> Result<(), Memory> {
    places.clear();
    for _ in 0..PLACES {
        places.push(Place {
            hash: 0,
            entry: NO_ENTRY,
        })?;
    }
    Ok(())
}

/// Whether two lists of bytes are equal.
pub(crate) fn is_same(a: &[u8], b: &[u8]) -> bool
    ensures { result ≡ bytes_eq a.now b.now }
{
    a == b
}

/// What the unit with these bytes gave, if this entry is the unit's.
fn given_at<'a>(bytes: &'a [u8], entries: &[Entry], at: usize, key: &[u8]) -> Option<&'a [u8]>
    ensures { (dialect : Dialect) (given : List (List Symbol) → List ℕ) →
        AreKept dialect given bytes.now entries.now →
        IfSome result (λ text. IsGiven dialect given key.now text.now) }
{
    if at >= entries.len() {
        return None;
    }
    let entry = &entries[at];
    let from = entry.from as usize;
    let behind = entry.behind as usize;
    let to = entry.to as usize;
    if from > behind || behind > to || to > bytes.len() {
        return None;
    }
    if is_same(&bytes[from..behind], key) {
        return Some(&bytes[behind..to]);
    }
    None
}

/// Appends the bytes of a unit and its text, after which so many bytes stand there at most.
fn append_both(bytes: &mut Vec<u8>, key: &[u8], text: &[u8]) -> Result<(), Memory>
    ensures ok { OnOk result (bytes.new.items ≡ bytes.old.items ++ key.now ++ text.now) }
    ensures grown { (rest : List ℕ) × (bytes.new.items ≡ bytes.old.items ++ rest) }
{
    bytes.extend_from_slice(key)?;
    bytes.extend_from_slice(text)?;
    Ok(())
}

impl KeptUnits {
    /// No units, which takes no memory.
    pub(crate) fn new(alloc: Global) -> KeptUnits
        ensures { result.entries.items ≡ [] }
    {
        KeptUnits {
            entries: Vec::new(alloc),
            bytes: Vec::new(alloc),
            places: Vec::new(alloc),
            recalled: 0,
            missed: 0,
            sparse: false,
        }
    }

    /// What the unit with these bytes and this hash gave, if it is kept.
    pub(crate) fn find(&self, key: &[u8], hash: u32) -> Option<&[u8]>
        ensures { (dialect : Dialect) (given : List (List Symbol) → List ℕ) →
            AreKept dialect given self.now.bytes.items self.now.entries.items →
            IfSome result (λ text. IsGiven dialect given key.now text.now) }
    {
        match find_place(self.places.as_slice(), hash) {
            None => None,
            Some(at) => given_at(self.bytes.as_slice(), self.entries.as_slice(), at, key),
        }
    }

    /// Counts a unit that was recalled.
    pub(crate) fn count_recalled(&mut self)
        ensures entries { self.new.entries ≡ self.old.entries }
        ensures bytes { self.new.bytes ≡ self.old.bytes }
    {
        self.recalled = self.recalled.saturating_add(1);
    }

    /// Forgets all.
    pub(crate) fn forget(&mut self)
        ensures { self.new.entries.items ≡ [] }
    {
        self.entries.clear();
        self.places.clear();
        self.bytes.clear();
    }

    /// Whether a unit is worth keeping: each, unless few of the last units were recalled.
    fn is_worth(&mut self) -> bool
        ensures entries { self.new.entries ≡ self.old.entries }
        ensures bytes { self.new.bytes ≡ self.old.bytes }
    {
        self.missed = self.missed.wrapping_add(1);
        if self.missed >= WINDOW {
            self.sparse = self.recalled < WINDOW / 2;
            self.recalled = 0;
            self.missed = 0;
        }
        !self.sparse || self.missed % 8 == 0
    }

    /// Forgets all, where there is no room for so many bytes more.
    fn make_room(&mut self, size: usize) -> Result<(), Memory>
        ensures { (dialect : Dialect) (given : List (List Symbol) → List ℕ) →
            AreKept dialect given self.old.bytes.items self.old.entries.items →
            AreKept dialect given self.new.bytes.items self.new.entries.items }
    {
        if self.entries.len() >= ENTRIES_MAX || self.bytes.len().saturating_add(size) > BYTES_MAX {
            self.entries.clear();
            self.bytes.clear();
            free_places(&mut self.places)?;
        }
        if self.places.len() < PLACES {
            free_places(&mut self.places)?;
        }
        Ok(())
    }

    /// Adds an entry, whose place this hash tells.
    fn add(&mut self, entry: Entry, hash: u32) -> Result<(), Memory>
        ensures entries { self.new.entries.items ≡ self.old.entries.items
            ⊎ (self.new.entries.items ≡ self.old.entries.items ++ entry ∷ []) }
        ensures bytes { self.new.bytes ≡ self.old.bytes }
    {
        let held = self.entries.len();
        if held >= ENTRIES_MAX {
            return Ok(());
        }
        let entry_at = held as u32;
        set_place(
            &mut self.places,
            Place {
                hash,
                entry: entry_at,
            },
        );
        self.entries.push(entry)?;
        Ok(())
    }

    fn keep_copy(&mut self, key: &[u8], text: &[u8]) -> Result<(), Memory>
        ensures { (dialect : Dialect) (given : List (List Symbol) → List ℕ) →
            IsGiven dialect given key.now text.now →
            AreKept dialect given self.old.bytes.items self.old.entries.items →
            AreKept dialect given self.new.bytes.items self.new.entries.items }
    {
        self.make_room(key.len().saturating_add(text.len()))?;
        let from = self.bytes.len();
        if from > BYTES_MAX || key.len() > BYTES_MAX || text.len() > BYTES_MAX {
            return Ok(());
        }
        append_both(&mut self.bytes, key, text)?;
        let behind = from + key.len();
        let to = behind + text.len();
        let entry = Entry {
            from: from as u32,
            behind: behind as u32,
            to: to as u32,
        };
        self.add(entry, hash_of(key))
    }

    /// Keeps what the unit with these bytes gave, if it is within the limit on a unit and worth it,
    /// and there is memory.
    pub(crate) fn keep(&mut self, key: &[u8], text: &[u8])
        ensures { (dialect : Dialect) (given : List (List Symbol) → List ℕ)
            (words : List (List Symbol)) → UnitOf dialect key.now words → text.now ≡ given words →
            AreKept dialect given self.old.bytes.items self.old.entries.items →
            AreKept dialect given self.new.bytes.items self.new.entries.items }
    {
        if text.len() <= UNIT_MAX && self.is_worth() {
            let _ = self.keep_copy(key, text);
        }
    }
}
