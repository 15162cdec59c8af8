ghost use Rattle.std.specs.Prelude.{◌≡◌, ◌<◌, [], Bool, List, suc, ℕ, map, take, length, IfOk, OnOk};
ghost use Rattle.std.specs.List.{filter};
ghost use Rattle.ap_symbol.specs.declared.symbol.Symbol.{Symbol};
ghost use Rattle.ap_live.specs.Lexicon.{lexicon_of};
ghost use Rattle.ap_live.specs.Readings.{any_words};
ghost use Rattle.ap_live.specs.SectionLives.{AreLive};
ghost use Rattle.ap_compound.specs.Places.{words_at, IsRow};
ghost use Rattle.ap_compound.specs.Splits.{left_parts, right_parts};
ghost use Rattle.ap_compound.specs.Tags.{tag_of, holds, bare};

use crate::tags::{Part, bare, holds};
use ap_fst::{Compiled, Kind2};
use ap_live::{LiveSections, push_kind};
use ap_symbol::{Case, Memory, Symbol, Word, Words};
use std::alloc::Global;

/// The right words of any kind that entries read in the symbols so far.
fn any_words(alloc: Global, compiled: &Compiled, lives: &LiveSections) -> Result<Vec<Word>, Memory>
    ensures { IfOk result (λ words. (sensitive : Bool) (symbols : List Symbol) →
        AreLive compiled.now sensitive symbols lives.now →
        words.items ≡ any_words (lexicon_of compiled.now sensitive) symbols) }
{
    let mut words = Vec::new(alloc);
    push_kind(
        alloc,
        compiled,
        lives,
        Kind2::Standard,
        Case::Low,
        &mut words,
    )?;
    push_kind(
        alloc,
        compiled,
        lives,
        Kind2::Inconditional,
        Case::Low,
        &mut words,
    )?;
    push_kind(
        alloc,
        compiled,
        lives,
        Kind2::Postblank,
        Case::Low,
        &mut words,
    )?;
    push_kind(
        alloc,
        compiled,
        lives,
        Kind2::Preblank,
        Case::Low,
        &mut words,
    )?;
    Ok(words)
}

/// Those of the words that hold the tag of a sort of parts, without the tags of parts.
fn parts_among(alloc: Global, words: &[Word], part: Part) -> Result<Words, Memory>
    ensures { IfOk result (λ made. made ≡ map bare (filter (holds (tag_of part)) words.now)) }
{
    let mut made = Words::new(alloc);
    for word in words {
        if holds(word.symbols(), part) {
            made.push(bare(alloc, word)?)?;
        }
    }
    Ok(made)
}

/// What the left parts of the symbols so far give.
fn left_parts(alloc: Global, compiled: &Compiled, lives: &LiveSections) -> Result<Words, Memory>
    ensures { IfOk result (λ words. (sensitive : Bool) (symbols : List Symbol) →
        AreLive compiled.now sensitive symbols lives.now →
        words ≡ left_parts (lexicon_of compiled.now sensitive) symbols) }
{
    let words = any_words(alloc, compiled, lives)?;
    parts_among(alloc, words.as_slice(), Part::Left)
}

/// What the right parts of the symbols so far give.
fn right_parts(alloc: Global, compiled: &Compiled, lives: &LiveSections) -> Result<Words, Memory>
    ensures { IfOk result (λ words. (sensitive : Bool) (symbols : List Symbol) →
        AreLive compiled.now sensitive symbols lives.now →
        words ≡ right_parts (lexicon_of compiled.now sensitive) symbols) }
{
    let words = any_words(alloc, compiled, lives)?;
    parts_among(alloc, words.as_slice(), Part::Right)
}

/// What the left parts at the front of some symbols give, by their number of symbols. The live sets
/// go over all the symbols.
fn lefts_of(
    alloc: Global,
    compiled: &Compiled,
    sensitive: bool,
    lives: &mut LiveSections,
    symbols: &[Symbol],
) -> Result<Vec<Words>, Memory>
    requires { AreLive compiled.now sensitive [] lives.old }
    ensures lefts { IfOk result (λ lefts. (k : ℕ) → k < length symbols.now → words_at lefts.items k
        ≡ left_parts (lexicon_of compiled.now sensitive) (take (suc k) symbols.now)) }
    ensures lives { OnOk result (AreLive compiled.now sensitive symbols.now lives.new) }
{
    let mut lefts = Vec::new(alloc);
    for symbol in symbols {
        lives.step(compiled, symbol, sensitive)?;
        lefts.push(left_parts(alloc, compiled, lives)?)?;
    }
    Ok(lefts)
}

/// What parts at the front of some symbols give: the left parts by their number of symbols, and the
/// right parts that are all the symbols.
pub(crate) fn row_of(
    alloc: Global,
    compiled: &Compiled,
    sensitive: bool,
    lives: &mut LiveSections,
    symbols: &[Symbol],
) -> Result<(Vec<Words>, Words), Memory>
    requires { AreLive compiled.now sensitive [] lives.old }
    ensures row { IfOk result (λ made. IsRow (lexicon_of compiled.now sensitive) symbols.now
        made.0.items made.1) }
    ensures lives { OnOk result (AreLive compiled.now sensitive [] lives.new) }
{
    let lefts = lefts_of(alloc, compiled, sensitive, lives, symbols)?;
    let rights = right_parts(alloc, compiled, lives)?;
    lives.cut(0);
    Ok((lefts, rights))
}
