ghost use Rattle.std.specs.Prelude.{◌≡◌, ◌++◌, ◌∷◌, [], true, false, OnOk, IfOk};
ghost use Rattle.ap_symbol.specs.Kinds.{is_marked as marked_test};
ghost use Rattle.ap_passes.specs.Passes.{spaced};
ghost use Rattle.ap_passes.specs.Splitting.{split};

use crate::moving::move_invariable;
use crate::parts::{parts_of, write_parts};
use crate::places::{Sought, place_of};
use crate::units::write_one;
use ap_symbol::{Bytes, Memory, Symbol, Word, Words, is_marked};
use std::alloc::Global;

/// Whether a word surely stays as it is: it begins with `*` or `@`, or it has a symbol and neither
/// a Join nor a Queue.
fn stays(symbols: &[Symbol]) -> bool
    ensures whole { result ≡ true → split symbols.now ≡ symbols.now ∷ [] }
    ensures open { result ≡ false → marked_test symbols.now ≡ false }
{
    if is_marked(symbols) {
        return true;
    }
    if symbols.is_empty() {
        return false;
    }
    place_of(symbols, 0, Sought::Joint) == symbols.len()
}

/// The list of this word alone.
fn alone(alloc: Global, word: &Word) -> Result<Words, Memory>
    ensures { IfOk result (λ made. made ≡ word.now ∷ []) }
{
    let mut words = Words::new(alloc);
    words.push(word.copy(alloc)?)?;
    Ok(words)
}

/// The words that pretransfer makes of a word (the Apertium stream format).
///
/// A word that begins with `*` or `@` stays as it is. In another word the invariable part runs from
/// the first Queue to the next tag, the next Join or the end; where a tag stands before it, it is
/// moved in front of the first tag. Then the word is split at each Join that has a tag somewhere
/// before it. Empty words are left out. The error means want of memory.
pub fn split_word(alloc: Global, word: &Word) -> Result<Words, Memory>
    ensures { IfOk result (λ made. made ≡ split word.now) }
{
    if stays(word.symbols()) {
        return alone(alloc, word);
    }
    let mut whole = Word::new(alloc);
    if move_invariable(alloc, word, &mut whole)? {
        return parts_of(alloc, &whole);
    }
    parts_of(alloc, word)
}

/// Appends the words that pretransfer makes of a word as units, with one space between. `whole` and
/// `part` are room for words.
pub(crate) fn write_split(
    alloc: Global,
    word: &Word,
    whole: &mut Word,
    part: &mut Word,
    into: &mut Bytes,
) -> Result<(), Memory>
    ensures { OnOk result (into.new ≡ into.old ++ spaced (split word.now)) }
{
    if stays(word.symbols()) {
        return write_one(word, into);
    }
    if move_invariable(alloc, word, whole)? {
        return write_parts(alloc, whole, part, into);
    }
    write_parts(alloc, word, part, into)
}
