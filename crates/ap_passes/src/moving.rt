ghost use Rattle.std.specs.Prelude.{◌≡◌, ◌≤◌, ◌++◌, length, nat_lt, ◌&&◌, true, false, OnOk};
ghost use Rattle.ap_passes.specs.Splitting.{between, tag_place, queue_place, is_moved, moved};

use crate::places::{Sought, place_of};
use ap_symbol::{Memory, Word};
use std::alloc::Global;

/// Appends the symbols of a word from one place up to, and without, another.
pub(crate) fn push_between(
    alloc: Global,
    word: &Word,
    from: usize,
    to: usize,
    into: &mut Word,
) -> Result<(), Memory>
    requires order { from ≤ to }
    requires within { to ≤ length word.now }
    ensures { OnOk result (into.new ≡ into.old ++ between from to word.now) }
{
    let symbols = word.symbols();
    for at in from..to {
        into.push(symbols[at].copy(alloc)?)?;
    }
    Ok(())
}

/// Whether the first Queue of so many symbols is there, behind a first tag. Both are places.
fn is_behind(tag: usize, queue: usize, len: usize) -> bool
    ensures { result ≡ (nat_lt tag queue && nat_lt queue len) }
{
    tag < queue && queue < len
}

/// Makes of `into` the word with its invariable part in front of its first tag. The places are
/// those of the first tag and of the first Queue.
fn move_part(
    alloc: Global,
    word: &Word,
    tag: usize,
    queue: usize,
    into: &mut Word,
) -> Result<(), Memory>
    requires tag { tag ≡ tag_place word.now }
    requires queue { queue ≡ queue_place word.now }
    requires moves { is_moved word.now ≡ true }
    ensures { OnOk result (into.new ≡ moved word.now) }
{
    let end = place_of(word.symbols(), queue + 1, Sought::PartEnd);
    into.clear();
    push_between(alloc, word, 0, tag, into)?;
    push_between(alloc, word, queue, end, into)?;
    push_between(alloc, word, tag, queue, into)?;
    push_between(alloc, word, end, word.len(), into)
}

/// Makes of `into` the word with its invariable part moved, and answers true, where there is one
/// behind a tag.
pub(crate) fn move_invariable(alloc: Global, word: &Word, into: &mut Word) -> Result<bool, Memory>
    ensures moves { result ≡ Ok true → into.new ≡ moved word.now }
    ensures stays { result ≡ Ok false → moved word.now ≡ word.now }
{
    let tag = place_of(word.symbols(), 0, Sought::Tag);
    let queue = place_of(word.symbols(), 0, Sought::Queue);
    if is_behind(tag, queue, word.len()) {
        move_part(alloc, word, tag, queue, into)?;
        return Ok(true);
    }
    Ok(false)
}
