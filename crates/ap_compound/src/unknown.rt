ghost use Rattle.std.specs.Prelude.{◌≡◌, ◌<◌, ◌++◌, ◌∷◌, ℕ, List, length, true, false, OnOk};
ghost use Rattle.std.specs.List.{flat_map};
ghost use Rattle.ap_symbol.specs.Fitting.{lists_fit};
ghost use Rattle.ap_stream.specs.Spelling.{slashed, unit_bytes};
ghost use Rattle.ap_compound.specs.Works.{is_unknown, is_starred, words_by};

use ap_stream::{Names, Unit};
use ap_symbol::{Bytes, Memory, Symbol, Word, fits};

/// Whether two lists of symbols are equal.
fn are_same(a: &[Symbol], b: &[Symbol]) -> bool
    ensures { result ≡ lists_fit true a.now b.now }
{
    if a.len() != b.len() {
        return false;
    }
    for at in 0..a.len() {
        if !fits(&a[at], &b[at], true) {
            return false;
        }
    }
    true
}

/// Whether a reading is Star followed by the surface.
fn is_starred(reading: &[Symbol], surface: &[Symbol]) -> bool
    ensures { result ≡ is_starred reading.now surface.now }
{
    match reading {
        [Symbol::Star, word @ ..] => are_same(word, surface),
        _ => false,
    }
}

/// Whether a unit of these words has one reading, which is Star followed by its surface.
pub(crate) fn is_unknown(words: &[Word]) -> bool
    ensures { result ≡ is_unknown words.now }
{
    match words {
        [surface, reading] => is_starred(reading.symbols(), surface.symbols()),
        _ => false,
    }
}

/// Whether a unit may be an unknown word, as far as the bytes of its first reading tell.
pub(crate) fn may_be_unknown(unit: &Unit) -> bool
    ensures { result ≡ false → is_unknown unit.now ≡ false }
{
    match unit.bytes_at(1) {
        None => true,
        Some(bytes) => begins_with_star(bytes),
    }
}

fn begins_with_star(bytes: &[u8]) -> bool
    ensures { result ≡ false → (rest : List ℕ) → bytes.now ≡ 42 ∷ rest → ⊥ }
{
    match bytes {
        [first, ..] => *first == b'*',
        [] => false,
    }
}

fn push_slashed(words: &[Word], into: &mut Bytes) -> Result<(), Memory>
    ensures { OnOk result (into.new ≡ into.old ++ flat_map slashed words.now) }
{
    for word in words {
        into.extend(b"/")?;
        into.extend(word.rendered())?;
    }
    Ok(())
}

/// Appends the unit of a word and others behind it.
fn write_unit(first: &Word, others: &[Word], into: &mut Bytes) -> Result<(), Memory>
    ensures { OnOk result (into.new ≡ into.old ++ unit_bytes (first.now ∷ others.now)) }
{
    into.extend(b"^")?;
    into.extend(first.rendered())?;
    push_slashed(others, into)?;
    into.extend(b"$")
}

/// Appends the unit of these words.
fn write_words(words: &[Word], into: &mut Bytes) -> Result<(), Memory>
    ensures { OnOk result (into.new ≡ into.old ++ unit_bytes words.now) }
{
    match words {
        [] => into.extend(b"^$"),
        [first, others @ ..] => write_unit(first, others, into),
    }
}

/// Appends the unit of the first of these words and the readings, or where there are none the unit
/// of the words as they are.
pub(crate) fn write_explained(
    words: &[Word],
    readings: &[Word],
    into: &mut Bytes,
) -> Result<(), Memory>
    requires { 0 < length words.now }
    ensures { OnOk result (into.new ≡ into.old ++ unit_bytes (words_by words.now readings.now)) }
{
    if readings.is_empty() {
        return write_words(words, into);
    }
    match words {
        [] => Ok(()),
        [surface, ..] => write_unit(surface, readings, into),
    }
}

/// Appends a unit as it is.
pub(crate) fn write_copy(names: &mut Names, unit: &Unit, into: &mut Bytes) -> Result<(), Memory>
    ensures { OnOk result (into.new ≡ into.old ++ unit_bytes unit.now) }
{
    if let Some(bytes) = unit.spelled() {
        return into.extend(bytes);
    }
    let words = unit.words(names)?;
    write_words(words.as_slice(), into)
}
