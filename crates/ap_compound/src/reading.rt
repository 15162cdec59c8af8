ghost use Rattle.std.specs.Prelude.{◌≡◌, [], true, List, map, IfOk, OnOk};
ghost use Rattle.std.specs.List.{list_all};
ghost use Rattle.ap_symbol.specs.Lists.{IsIn};
ghost use Rattle.ap_symbol.specs.Recasing.{carry_lem};
ghost use Rattle.ap_symbol.specs.Words.{AreProper};
ghost use Rattle.ap_symbol.specs.declared.symbol.Symbol.{Symbol};
ghost use Rattle.ap_live.specs.Found.{in_order};
ghost use Rattle.ap_live.specs.Lexicon.{lexicon_of};
ghost use Rattle.ap_live.specs.Readings.{carried};
ghost use Rattle.ap_live.specs.SectionLives.{AreLive};
ghost use Rattle.ap_compound.specs.Splits.{is_letter, may_split, compound_readings};

use crate::exploring::explored;
use crate::listing::{words_are_proper, words_listed};
use ap_fst::Compiled;
use ap_live::{LiveSections, case_carried, sort_words};
use ap_symbol::{Case, Memory, Symbol, Word, Words, carry, one_rendering};
use std::alloc::Global;

/// The most symbols that a surface may have to be split.
const SURFACE_MAX: usize = 256;

fn is_letter(symbol: &Symbol) -> bool
    ensures { result ≡ is_letter symbol.now }
{
    matches!(symbol, Symbol::Letter(_))
}

/// Whether there are letters alone.
fn are_letters(symbols: &[Symbol]) -> bool
    ensures { result ≡ list_all is_letter symbols.now }
{
    symbols.iter().all(|symbol| is_letter(symbol))
}

fn may_split(surface: &[Symbol]) -> bool
    ensures { result ≡ may_split surface.now }
{
    surface.len() <= SURFACE_MAX && are_letters(surface)
}

/// The words with this case carried to each.
fn carried_all(alloc: Global, case: Case, words: &[Word]) -> Result<Vec<Word>, Memory>
    ensures { IfOk result (λ made. made.items ≡ map (carry_lem case) words.now) }
{
    let mut made = Vec::new(alloc);
    for word in words {
        made.push(carry(alloc, word, case)?)?;
    }
    Ok(made)
}

/// The words with the case of what was seen carried to each, in order, each once.
fn carried_words(
    alloc: Global,
    sensitive: bool,
    seen: &[Symbol],
    words: &[Word],
) -> Result<Words, Memory>
    ensures value { IfOk result (λ made. made
        ≡ in_order (map (carried sensitive seen.now) words.now)) }
    ensures proper { IfOk result (λ made. (w : List Symbol) →
        IsIn w (map (carried sensitive seen.now) words.now) → AreProper w) }
{
    let case = case_carried(sensitive, seen);
    let mut made = carried_all(alloc, case, words)?;
    words_are_proper(made.as_slice());
    sort_words(&mut made);
    Ok(Words::from_vec(made))
}

/// The readings of a surface that may be split, as a compound.
fn split_readings(
    alloc: Global,
    compiled: &Compiled,
    sensitive: bool,
    lives: &mut LiveSections,
    surface: &[Symbol],
) -> Result<Words, Memory>
    requires live { AreLive compiled.now sensitive [] lives.old }
    requires letters { may_split surface.now ≡ true }
    ensures value { IfOk result (λ words. words
        ≡ compound_readings (lexicon_of compiled.now sensitive) sensitive surface.now) }
    ensures lives { OnOk result (AreLive compiled.now sensitive [] lives.new) }
{
    one_rendering();
    let places = explored(alloc, compiled, sensitive, lives, surface)?;
    let words = words_listed(alloc, places.as_slice())?;
    let made = carried_words(alloc, sensitive, surface, words.as_slice())?;
    Ok(made)
}

/// The readings of a surface as a compound. The live sets stand before the first symbol, and do so
/// again afterwards.
pub(crate) fn readings_from(
    alloc: Global,
    compiled: &Compiled,
    sensitive: bool,
    lives: &mut LiveSections,
    surface: &[Symbol],
) -> Result<Words, Memory>
    requires { AreLive compiled.now sensitive [] lives.old }
    ensures value { IfOk result (λ words. words
        ≡ compound_readings (lexicon_of compiled.now sensitive) sensitive surface.now) }
    ensures lives { OnOk result (AreLive compiled.now sensitive [] lives.new) }
{
    if !may_split(surface) {
        return Ok(Words::new(alloc));
    }
    split_readings(alloc, compiled, sensitive, lives, surface)
}
