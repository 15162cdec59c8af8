ghost use Rattle.std.specs.Prelude.{◌≡◌, ◌⊎◌, ℕ, Bool, ◌+◌, ◌<◌, ◌≤◌, List, [], ◌∷◌, ◌++◌, true, false, length, take, None, Ok, IfOk, IfSome, OnOk};
ghost use Rattle.ap_stream.specs.declared.TheConstants.{FRONT_MAX};
ghost use Rattle.ap_stream.specs.Bare.{bare_run};
ghost use Rattle.ap_live.specs.Lexicon.{Lexicon};
ghost use Rattle.ap_analysis.specs.Endings.{is_ending as ending_test};
ghost use Rattle.ap_analysis.specs.Fronts.{IsFront};
ghost use Rattle.ap_analysis.specs.FrontSteps.{IsFrontStep, IsHeld, AreFrontSteps, FitsStep, EndsBare, IsSpaceStep, step_of};

use crate::places::{Places, SEED, mix};
use crate::worth::Worth;
use ap_stream::{FRONT_MAX, Front, is_bare};
use ap_symbol::{Bytes, Memory, is_white};
use std::alloc::Global;

/// The most steps that are kept.
const STEPS_MAX: usize = 131072;

/// The most bytes that their keys and texts may have.
const BYTES_MAX: usize = 16777216;

/// The most bytes of a key.
pub(crate) const KEY_MAX: usize = 256;

/// The number of places for keys.
const PLACES: usize = 262144;

/// The hash of an open key has this mark at its end.
const OPEN: u32 = 256;

/// A step by the bytes at the front of a piece: so many of them are its key, and it uses so many.
/// Where the key is open, a byte comes behind it that may end a word, and it doesn't matter which.
#[derive(Clone, Copy)]
pub(crate) struct FrontKey {
    pub(crate) size: usize,
    pub(crate) count: usize,
    pub(crate) any_ending: bool,
}

/// Where a kept step stands: the first of its bytes, how many of them are its key, and how many
/// behind those are what it wrote. It used so many bytes, and its key may be open.
#[derive(Clone, Copy)]
pub(crate) struct Mark {
    first: u32,
    size: u16,
    wrote: u16,
    count: u16,
    any_ending: bool,
}

/// The steps that are kept by bytes, each of which was an item: their keys and texts in one list,
/// and a mark for each step. Where few steps are recalled, only some are kept.
#[derive(Drop)]
pub(crate) struct FrontSteps {
    pub(crate) marks: Vec<Mark>,
    pub(crate) bytes: Vec<u8>,
    places: Places,
    worth: Worth,
    pub(crate) spaces: bool,
}

/// Whether the byte may stand behind an open key: white space, a full stop or a comma.
fn is_ending(byte: u8) -> bool
    ensures { result ≡ ending_test byte }
{
    is_white(byte as char) || byte == b'.' || byte == b','
}

/// Whether the bytes are the same. They are few, so that a loop is faster than the library's call.
fn are_same(a: &[u8], b: &[u8]) -> bool
    ensures { result ≡ true → a.now ≡ b.now }
{
    if a.len() != b.len() {
        return false;
    }
    for at in 0..a.len() {
        if a[at] != b[at] {
            return false;
        }
    }
    true
}

/// How many bytes of the piece decide the step under this key, if they do: the key, what comes
/// behind an open one, and one more where white space is the last, since a blank is over only at
/// the byte behind it.
fn seen_by(key: &[u8], any_ending: bool, piece: &[u8]) -> Option<usize>
    ensures { IfSome result (FitsStep key.now any_ending piece.now) }
{
    let size = key.len();
    if size == 0 || size > KEY_MAX || piece.len() <= size {
        return None;
    }
    if !are_same(&piece[..size], key) {
        return None;
    }
    if any_ending {
        if !is_ending(piece[size]) {
            return None;
        }
        return behind(piece, size, size);
    }
    behind(piece, 0, size - 1)
}

/// The number of bytes up to this one, and one more where it is white space, if each byte from the
/// first one on is an item.
fn behind(piece: &[u8], first: usize, last: usize) -> Option<usize>
    requires order { first ≤ last }
    requires few { last ≤ 256 }
    requires within { last < length piece.now }
    ensures { IfSome result (EndsBare piece.now first last) }
{
    let seen = if is_white(piece[last] as char) {
        last + 2
    } else {
        last + 1
    };
    if piece.len() < seen || !is_bare(&piece[first..seen]) {
        return None;
    }
    Some(seen)
}

/// The step with this key and this text, if it is that of the bytes. Its text is appended.
pub(crate) fn front_of(
    key: &[u8],
    text: &[u8],
    count: usize,
    any_ending: bool,
    piece: &[u8],
    into: &mut Bytes,
) -> Result<Option<Front>, Memory>
    ensures gave { IfOk result (λ found. IfSome found (λ front. (lexicon : Lexicon)
        (sensitive : Bool) →
        IsFrontStep lexicon sensitive (step_of key.now text.now count any_ending) →
        IsFront lexicon sensitive piece.now front.used front.seen into.old into.new)) }
    ensures short { OnOk result (length into.new < length into.old + FRONT_MAX) }
    ensures none { result ≡ Ok None → into.new ≡ into.old }
{
    let Some(seen) = seen_by(key, any_ending, piece) else {
        return Ok(None);
    };
    if text.len() >= FRONT_MAX || count == 0 || count > seen {
        return Ok(None);
    }
    into.extend(text)?;
    Ok(Some(Front { used: count, seen }))
}

/// Writes the places of a key: those of its fronts behind the first byte that is no letter, and its
/// own.
fn point(places: &mut Places, key: &[u8], any_ending: bool, number: u32) {
    let mut hash = SEED;
    let mut met = false;
    for i in 0..key.len() {
        hash = mix(hash, u32::from(key[i]));
        met = met || !key[i].is_ascii_alphabetic();
        if met {
            places.set(hash, number, !any_ending && i == key.len() - 1);
        }
    }
    if any_ending {
        places.set(mix(hash, OPEN), number, true);
    }
}

/// Whether the step copies a space, whatever comes behind it.
fn is_space(key: &[u8], text: &[u8], count: usize, any_ending: bool) -> bool
    ensures { result ≡ true → IsSpaceStep (step_of key.now text.now count any_ending) }
{
    count == 1 && !any_ending && are_same(key, b" ") && are_same(text, b" ")
}

/// Whether it is known that a space is copied, where it was before, or the step tells it.
fn knows_space(before: bool, key: &[u8], text: &[u8], count: usize, any_ending: bool) -> bool
    ensures { result ≡ true →
        (before ≡ true) ⊎ IsSpaceStep (step_of key.now text.now count any_ending) }
{
    before || is_space(key, text, count, any_ending)
}

/// Whether the first byte is a letter of the twenty-six.
fn begins_word(piece: &[u8]) -> bool {
    match piece.first() {
        None => false,
        Some(byte) => byte.is_ascii_alphabetic(),
    }
}

impl FrontSteps {
    pub(crate) fn new(alloc: Global) -> FrontSteps
        ensures { (lexicon : Lexicon) (sensitive : Bool) → AreFrontSteps lexicon sensitive result }
    {
        FrontSteps {
            marks: Vec::new(alloc),
            bytes: Vec::new(alloc),
            places: Places::new(alloc),
            worth: Worth::new(),
            spaces: false,
        }
    }

    /// The step that the bytes may begin with.
    fn hinted(&self, piece: &[u8]) -> Option<usize> {
        let mut hash = SEED;
        let mut met = false;
        for i in 0..piece.len().min(KEY_MAX) {
            let byte = piece[i];
            if !byte.is_ascii_alphabetic() {
                met = true;
                if i > 0 && is_ending(byte) {
                    if let Some(place) = self.places.find(mix(hash, OPEN)) {
                        return Some(place.number());
                    }
                }
            }
            hash = mix(hash, u32::from(byte));
            if met {
                let place = self.places.find(hash)?;
                if place.is_whole() {
                    return Some(place.number());
                }
            }
        }
        None
    }

    /// The step with this mark, if it is that of the bytes. Its text is appended.
    fn front_at(&self, mark: Mark, piece: &[u8], into: &mut Bytes) -> Result<Option<Front>, Memory>
        ensures gave { IfOk result (λ found. IfSome found (λ front. (lexicon : Lexicon)
            (sensitive : Bool) → IsHeld lexicon sensitive self.now.bytes.items mark →
            IsFront lexicon sensitive piece.now front.used front.seen into.old into.new)) }
        ensures short { OnOk result (length into.new < length into.old + FRONT_MAX) }
        ensures none { result ≡ Ok None → into.new ≡ into.old }
    {
        let first = mark.first as usize;
        let middle = first + mark.size as usize;
        let end = middle + mark.wrote as usize;
        if end > self.bytes.len() {
            return Ok(None);
        }
        let key = &self.bytes[first..middle];
        let text = &self.bytes[middle..end];
        front_of(key, text, mark.count as usize, mark.any_ending, piece, into)
    }

    /// The step at the front of the bytes, if it is looked for and kept. Its text is appended.
    pub(crate) fn recall(&mut self, piece: &[u8], into: &mut Bytes) -> Result<Option<Front>, Memory>
        ensures marks { self.new.marks ≡ self.old.marks }
        ensures bytes { self.new.bytes ≡ self.old.bytes }
        ensures spaces { self.new.spaces ≡ self.old.spaces }
        ensures gave { IfOk result (λ found. IfSome found (λ front. (lexicon : Lexicon)
            (sensitive : Bool) → AreFrontSteps lexicon sensitive self.old →
            IsFront lexicon sensitive piece.now front.used front.seen into.old into.new)) }
        ensures short { OnOk result (length into.new < length into.old + FRONT_MAX) }
        ensures none { result ≡ Ok None → into.new ≡ into.old }
    {
        if begins_word(piece) && !self.worth.is_asked() {
            return Ok(None);
        }
        let Some(at) = self.hinted(piece) else {
            return Ok(None);
        };
        if at >= self.marks.len() {
            return Ok(None);
        }
        let found = self.front_at(self.marks[at], piece, into)?;
        if let Some(front) = found {
            self.worth.count_asked(front.used);
        }
        Ok(found)
    }

    /// Whether the bytes begin with a space that is copied. It may be told that the first two of
    /// them are items.
    pub(crate) fn copies_space(&self, piece: &[u8], told: bool) -> bool
        ensures copied { result ≡ true → (told ≡ true → bare_run (take 2 piece.now) ≡ true) →
            (lexicon : Lexicon) (sensitive : Bool) → AreFrontSteps lexicon sensitive self.now →
            (before : List ℕ) →
            IsFront lexicon sensitive piece.now 1 2 before (before ++ 32 ∷ []) }
        ensures long { result ≡ true → 2 ≤ length piece.now }
    {
        if !self.spaces || piece.len() < 2 || piece[0] != b' ' {
            return false;
        }
        told || is_bare(&piece[..2])
    }

    /// Whether each step that is searched is kept.
    pub(crate) fn is_dense(&self) -> bool {
        self.worth.is_dense()
    }

    /// Forgets all, where there is no room for a step of so many bytes.
    fn make_room(&mut self, size: usize) -> Result<(), Memory>
        requires { size ≤ 65535 }
        ensures { (lexicon : Lexicon) (sensitive : Bool) →
            AreFrontSteps lexicon sensitive self.old → AreFrontSteps lexicon sensitive self.new }
    {
        if self.marks.len() >= STEPS_MAX || self.bytes.len() + size > BYTES_MAX {
            self.marks.clear();
            self.bytes.clear();
            self.places.free(PLACES)?;
        }
        if self.places.count() < PLACES {
            self.places.free(PLACES)?;
            self.marks.reserve_exact(STEPS_MAX)?;
        }
        Ok(())
    }

    /// Keeps a step, where there is room, unless no such step is recalled.
    fn add(&mut self, key: &[u8], text: &[u8], count: usize, any_ending: bool) -> Result<(), Memory>
        ensures { (lexicon : Lexicon) (sensitive : Bool) →
            IsFrontStep lexicon sensitive (step_of key.now text.now count any_ending) →
            AreFrontSteps lexicon sensitive self.old → AreFrontSteps lexicon sensitive self.new }
    {
        if key.len() > KEY_MAX || text.len() >= FRONT_MAX || count > KEY_MAX {
            return Ok(());
        }
        self.make_room(key.len() + text.len())?;
        let held = self.marks.len();
        let first = self.bytes.len();
        if held >= STEPS_MAX || first > BYTES_MAX {
            return Ok(());
        }
        let spaces = knows_space(self.spaces, key, text, count, any_ending);
        self.bytes.extend_from_slice(key)?;
        self.bytes.extend_from_slice(text)?;
        self.marks.push(Mark {
            first: first as u32,
            size: key.len() as u16,
            wrote: text.len() as u16,
            count: count as u16,
            any_ending,
        })?;
        point(&mut self.places, key, any_ending, held as u32);
        self.spaces = spaces;
        Ok(())
    }

    /// Keeps a step, if it is worth it and there is memory.
    pub(crate) fn keep(&mut self, key: &[u8], text: &[u8], count: usize, any_ending: bool)
        ensures { (lexicon : Lexicon) (sensitive : Bool) →
            IsFrontStep lexicon sensitive (step_of key.now text.now count any_ending) →
            AreFrontSteps lexicon sensitive self.old → AreFrontSteps lexicon sensitive self.new }
    {
        if self.worth.is_worth() {
            let _ = self.add(key, text, count, any_ending);
        }
    }
}
