//! Places by which words and units that were met before are found. A place is a hint alone: what it
//! leads to is compared with what is sought.
ghost use Rattle.std.specs.Prelude.{◌≡◌, bytes_eq};

use ap_symbol::Memory;

/// The number of places; so many words, or units, are kept at most.
pub(crate) const PLACES: usize = 65536;

/// The most bytes of a word, or of a unit, that is kept, so that what is kept stays small.
pub(crate) const KEY_MAX: usize = 256;

/// Nothing has this number.
const NO_NUMBER: u32 = 4294967295;

/// One number of four bytes.
fn joined(a: u8, b: u8, c: u8, d: u8) -> u64 {
    u64::from(a) | u64::from(b) << 8 | u64::from(c) << 16 | u64::from(d) << 24
}

/// A number with one more in it, from which the one before is turned away.
fn mixed(number: u64, more: u64) -> u64 {
    (number.rotate_left(23) ^ more).wrapping_mul(11400714819323198485)
}

/// A number of the bytes, four at a time.
fn number_of(bytes: &[u8]) -> u64 {
    let mut number: u64 = bytes.len() as u64;
    let mut rest = bytes;
    while let [a, b, c, d, more @ ..] = rest {
        number = mixed(number, joined(*a, *b, *c, *d));
        rest = more;
    }
    last_of(number, rest)
}

/// A number with the last bytes in it.
fn last_of(number: u64, bytes: &[u8]) -> u64 {
    let mut number = number;
    for byte in bytes {
        number = mixed(number, u64::from(*byte));
    }
    number
}

/// The place of what has these bytes: by the upper half of their number.
pub(crate) fn key_place(key: &[u8]) -> usize {
    (number_of(key) >> 32) as usize % PLACES
}

/// Whether two lists of bytes are equal.
pub(crate) fn is_same(a: &[u8], b: &[u8]) -> bool
    ensures { result ≡ bytes_eq a.now b.now }
{
    a == b
}

/// Frees all places.
pub(crate) fn free_places(places: &mut Vec<u32>) -> Result<(), Memory> {
    places.clear();
    for _ in 0..PLACES {
        places.push(NO_NUMBER)?;
    }
    Ok(())
}

/// Writes a number at a place.
pub(crate) fn set_place(places: &mut [u32], at: usize, number: u32) {
    if at < places.len() {
        places[at] = number;
    }
}
