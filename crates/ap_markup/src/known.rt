//! What was read before, so that what comes again is shared.
ghost use Rattle.std.specs.Prelude.{◌≡◌, IfOk, IsTrue};
ghost use Rattle.ap_markup.specs.Decoding.{text_of};

use crate::attribute::{Attribute, Attributes};
use crate::decoding::decoded;
use crate::texts::has_bytes;
use ap_symbol::{Memory, Text};
use std::alloc::Global;

/// How many texts are known, and how many lists of attributes.
const PLACES: usize = 1024;

/// Texts and lists of attributes that were read before. Each stands at the place that its hash
/// gives, until another comes there.
#[derive(Drop)]
pub struct Known {
    texts: Vec<Text>,
    lists: Vec<Attributes>,
}

/// The hash of bytes after others of this hash.
fn hash_bytes(hash: u64, bytes: &[u8]) -> u64 {
    let mut hash = hash;
    for b in bytes {
        hash = hash.wrapping_mul(31).wrapping_add(*b as u64);
    }
    hash
}

/// The hash of characters after others of this hash.
fn hash_text(hash: u64, text: &[char]) -> u64 {
    let mut hash = hash;
    for c in text {
        hash = hash.wrapping_mul(31).wrapping_add(*c as u64);
    }
    hash
}

fn hash_attributes(given: &[Attribute]) -> u64 {
    let mut hash = 0;
    for a in given {
        hash = hash_text(hash_text(hash, a.name.as_slice()), a.value.as_slice());
    }
    hash
}

/// The place of a hash, by its upper bits too.
fn place_of(hash: u64) -> usize {
    ((hash ^ (hash >> 10)) % PLACES as u64) as usize
}

/// Whether the bytes are ASCII, and spell these characters.
fn spells(bytes: &[u8], text: &[char]) -> bool
    ensures { IsTrue result → text.now ≡ text_of bytes.now }
{
    has_bytes(bytes, text) && bytes.is_ascii()
}

/// Whether two texts are the same.
fn is_same_text(a: &[char], b: &[char]) -> bool
    ensures { IsTrue result → a.now ≡ b.now }
{
    a == b
}

/// Whether two attributes are the same.
fn is_same(a: &Attribute, b: &Attribute) -> bool
    ensures { IsTrue result → a.now ≡ b.now }
{
    is_same_text(a.name.as_slice(), b.name.as_slice())
        && is_same_text(a.value.as_slice(), b.value.as_slice())
}

/// Whether two lists of attributes are the same.
fn are_same(a: &[Attribute], b: &[Attribute]) -> bool
    ensures { IsTrue result → a.now ≡ b.now }
{
    let mut rest = b;
    'given: for one in a {
        let Some((other, more)) = rest.split_first() else {
            return false;
        };
        if !is_same(one, other) {
            return false;
        }
        rest = more;
    }
    rest.is_empty()
}

impl Known {
    /// Nothing, and no room to keep anything.
    pub fn none(alloc: Global) -> Known {
        Known {
            texts: Vec::new(alloc),
            lists: Vec::new(alloc),
        }
    }

    /// Room for `PLACES` texts and as many lists.
    pub fn new(alloc: Global) -> Result<Known, Memory> {
        let mut texts = Vec::with_capacity(alloc, PLACES)?;
        let mut lists = Vec::with_capacity(alloc, PLACES)?;
        let none = Attributes::from_vec(alloc, Vec::new(alloc))?;
        for _ in 0..PLACES {
            texts.push(Text::new(alloc))?;
            lists.push(none.copy()?)?;
        }
        Ok(Known { texts, lists })
    }

    /// The same text, which stays known: that of before, where it is known already.
    fn keep(&mut self, at: usize, text: Text) -> Result<Text, Memory>
        ensures { IfOk result (λ kept. kept ≡ text) }
    {
        let Some(place) = self.texts.get_mut(at) else {
            return Ok(text);
        };
        if is_same_text(place.as_slice(), text.as_slice()) {
            return place.copy();
        }
        *place = text.copy()?;
        Ok(text)
    }

    /// The characters that the bytes spell in UTF-8. Very short texts stand in their values, and
    /// long ones seldom come again.
    pub fn text(&mut self, alloc: Global, bytes: &[u8]) -> Result<Text, Memory>
        ensures { IfOk result (λ made. made ≡ text_of bytes.now) }
    {
        if bytes.len() < 4 || 64 < bytes.len() {
            return decoded(alloc, bytes);
        }
        let at = place_of(hash_bytes(0, bytes));
        if let Some(known) = self.texts.get(at) {
            if spells(bytes, known.as_slice()) {
                return known.copy();
            }
        }
        let made = decoded(alloc, bytes)?;
        self.keep(at, made)
    }

    /// The list of these attributes.
    pub fn attributes(&mut self, alloc: Global, given: Vec<Attribute>) -> Result<Attributes, Memory>
        ensures { IfOk result (λ made. made ≡ given.items) }
    {
        let at = place_of(hash_attributes(&given));
        if let Some(known) = self.lists.get(at) {
            if are_same(known.as_slice(), &given) {
                return known.copy();
            }
        }
        let made = Attributes::from_vec(alloc, given)?;
        if let Some(place) = self.lists.get_mut(at) {
            *place = made.copy()?;
        }
        Ok(made)
    }
}
