ghost use Rattle.std.specs.Prelude.{◌≡◌, ◌+◌, ◌<◌, ◌≤◌, List, [], ◌∷◌, ◌++◌, length, true, OnOk, IfOk};
ghost use Rattle.std.specs.List.{filter};
ghost use Rattle.ap_symbol.specs.declared.symbol.Symbol.{Symbol};
ghost use Rattle.ap_passes.specs.Passes.{spaced};
ghost use Rattle.ap_passes.specs.Splitting.{between, is_filled, parts, parts_from};
ghost use Rattle.ap_passes.specs.Writing.{following};

use crate::moving::push_between;
use crate::places::{Sought, is_join, place_of};
use crate::units::write_one;
use ap_symbol::{Bytes, Memory, Word, Words};
use std::alloc::Global;

/// Appends a part of a word to the list, unless it is empty.
fn push_part(
    alloc: Global,
    word: &Word,
    from: usize,
    to: usize,
    words: &mut Words,
) -> Result<(), Memory>
    requires order { from ≤ to }
    requires within { to ≤ length word.now }
    ensures { OnOk result (words.new ≡ words.old
        ++ filter is_filled (between from to word.now ∷ [])) }
{
    if from == to {
        return Ok(());
    }
    words.push(word.part(alloc, from, to)?)
}

/// Takes the symbol at a place: a Join ends the part that began at `from`. Answers where the
/// part that has begun now begins.
fn take_symbol(
    alloc: Global,
    word: &Word,
    from: usize,
    at: usize,
    words: &mut Words,
) -> Result<usize, Memory>
    requires order { from ≤ at }
    requires within { at < length word.now }
    ensures rest { IfOk result
        (λ next. words.new ++ filter is_filled (parts_from next (at + 1) word.now) ≡ words.old
        ++ filter is_filled (parts_from from at word.now)) }
    ensures order { IfOk result (λ next. next ≤ at + 1) }
{
    if is_join(&word.symbols()[at]) {
        push_part(alloc, word, from, at, words)?;
        return Ok(at + 1);
    }
    Ok(from)
}

/// The words into which a word is split: at each Join that has a tag somewhere before it. Empty
/// ones are left out.
pub(crate) fn parts_of(alloc: Global, word: &Word) -> Result<Words, Memory>
    ensures { IfOk result (λ made. made ≡ filter is_filled (parts word.now)) }
{
    let mut words = Words::new(alloc);
    let mut from = 0;
    let first = place_of(word.symbols(), 0, Sought::Tag);
    for at in first..word.len() {
        from = take_symbol(alloc, word, from, at, &mut words)?;
    }
    push_part(alloc, word, from, word.len(), &mut words)?;
    Ok(words)
}

/// Appends a word as a unit, behind a space where a unit stands before.
fn write_behind(behind: bool, word: &Word, into: &mut Bytes) -> Result<(), Memory>
    ensures { OnOk result ((words : List (List Symbol)) → into.new ++ following true words
        ≡ into.old ++ following behind (word.now ∷ words)) }
{
    if behind {
        into.extend(b" ")?;
        return write_one(word, into);
    }
    write_one(word, into)
}

/// Appends a part of a word as a unit, unless it is empty: behind a space, where a unit stands
/// before. Answers whether one stands there now. `part` is room for a word.
fn write_part(
    alloc: Global,
    word: &Word,
    from: usize,
    to: usize,
    behind: bool,
    part: &mut Word,
    into: &mut Bytes,
) -> Result<bool, Memory>
    requires order { from ≤ to }
    requires within { to ≤ length word.now }
    ensures { IfOk result (λ now. (words : List (List Symbol)) → into.new ++ following now words
        ≡ into.old ++ following behind
        (filter is_filled (between from to word.now ∷ []) ++ words)) }
{
    if from == to {
        return Ok(behind);
    }
    part.clear();
    push_between(alloc, word, from, to, part)?;
    write_behind(behind, part, into)?;
    Ok(true)
}

/// Where the part that has begun begins, and whether a unit stands before it.
#[derive(Clone, Copy)]
struct Begun {
    from: usize,
    behind: bool,
}

/// Takes the symbol at a place: a Join ends the part that has begun. Answers which one has begun
/// now.
fn write_symbol(
    alloc: Global,
    word: &Word,
    begun: Begun,
    at: usize,
    part: &mut Word,
    into: &mut Bytes,
) -> Result<Begun, Memory>
    requires order { begun.from ≤ at }
    requires within { at < length word.now }
    ensures rest { IfOk result
        (λ now. into.new ++ following now.behind
        (filter is_filled (parts_from now.from (at + 1) word.now)) ≡ into.old
        ++ following begun.behind (filter is_filled (parts_from begun.from at word.now))) }
    ensures order { IfOk result (λ now. now.from ≤ at + 1) }
{
    if is_join(&word.symbols()[at]) {
        let behind = write_part(alloc, word, begun.from, at, begun.behind, part, into)?;
        return Ok(Begun {
            from: at + 1,
            behind,
        });
    }
    Ok(begun)
}

/// Appends the words into which a word is split as units, with one space between. `part` is room
/// for a word.
pub(crate) fn write_parts(
    alloc: Global,
    word: &Word,
    part: &mut Word,
    into: &mut Bytes,
) -> Result<(), Memory>
    ensures { OnOk result (into.new ≡ into.old ++ spaced (filter is_filled (parts word.now))) }
{
    let mut begun = Begun {
        from: 0,
        behind: false,
    };
    let tag = place_of(word.symbols(), 0, Sought::Tag);
    for at in tag..word.len() {
        begun = write_symbol(alloc, word, begun, at, part, into)?;
    }
    let _behind = write_part(
        alloc,
        word,
        begun.from,
        word.len(),
        begun.behind,
        part,
        into,
    )?;
    Ok(())
}
