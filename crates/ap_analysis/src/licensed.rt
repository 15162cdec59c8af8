ghost use Rattle.std.specs.Prelude.{◌≡◌, ℕ, Bool, List, ◌++◌, map, OnOk, IfOk};
ghost use Rattle.ap_symbol.specs.Recasing.{carry_lem};
ghost use Rattle.ap_live.specs.Lexicon.{lexicon_of};
ghost use Rattle.ap_live.specs.SectionLives.{AreLive};
ghost use Rattle.ap_analysis.specs.Licence.{standard_words, surface};
ghost use Rattle.ap_analysis.specs.Analysis.{readings_at};
ghost use Rattle.ap_analysis.specs.Surfaces.{IsSeen};

use crate::items::begins_alphabetic;
use crate::surface::seen_case;
use ap_fst::{Compiled, Kind2};
use ap_live::{LiveSections, push_kind, sort_words};
use ap_stream::Read;
use ap_symbol::{Case, Memory, Word, case_keeps_words};
use std::alloc::Global;

/// Appends what standard entries read, with this case carried to each: they read only where no
/// alphabetic character comes next.
fn push_standard(
    alloc: Global,
    compiled: &Compiled,
    lives: &LiveSections,
    reads: &[Read],
    count: usize,
    case: Case,
    into: &mut Vec<Word>,
) -> Result<(), Memory>
    ensures { OnOk result ((sensitive : Bool) →
        AreLive compiled.now sensitive (surface reads.now count) lives.now →
        into.new.items ≡ into.old.items
        ++ map (carry_lem case) (standard_words (lexicon_of compiled.now sensitive)
        reads.now count)) }
{
    if begins_alphabetic(compiled, reads, count) {
        Ok(())
    } else {
        push_kind(alloc, compiled, lives, Kind2::Standard, case, into)
    }
}

/// The readings of the first so many items, at which the live sets stand. The word has their
/// surface, unless they are small letters.
pub(crate) fn readings(
    alloc: Global,
    compiled: &Compiled,
    sensitive: bool,
    lives: &LiveSections,
    reads: &[Read],
    count: usize,
    small: bool,
    seen: &Word,
) -> Result<Vec<Word>, Memory>
    requires lives { AreLive compiled.now sensitive (surface reads.now count) lives.now }
    requires seen { (piece : List ℕ) × IsSeen piece reads.now count small seen.now }
    ensures { IfOk result (λ words. words.items
        ≡ readings_at (lexicon_of compiled.now sensitive) sensitive reads.now count) }
{
    let case = seen_case(sensitive, small, seen);
    let mut words = Vec::new(alloc);
    push_standard(alloc, compiled, lives, reads, count, case, &mut words)?;
    push_kind(
        alloc,
        compiled,
        lives,
        Kind2::Inconditional,
        case,
        &mut words,
    )?;
    push_kind(alloc, compiled, lives, Kind2::Postblank, case, &mut words)?;
    push_kind(alloc, compiled, lives, Kind2::Preblank, case, &mut words)?;
    case_keeps_words();
    let _ = compiled.alphabet();
    sort_words(&mut words);
    Ok(words)
}
