ghost use Rattle.std.specs.Prelude.{◌≡◌, ◌<◌, ℕ, Bool, List, Ok, OnOk, IfOk, length, map, true};
ghost use Rattle.std.specs.List.{flat_map};
ghost use Rattle.ap_symbol.specs.Lists.{IsIn};
ghost use Rattle.ap_symbol.specs.Recasing.{carry_lem};
ghost use Rattle.ap_symbol.specs.Words.{AreProper};
ghost use Rattle.ap_symbol.specs.declared.symbol.Symbol.{Symbol};
ghost use Rattle.ap_stream.specs.Spelling.{slashed};
ghost use Rattle.ap_stream.specs.declared.TheConstants.{UNIT_MAX};
ghost use Rattle.ap_live.specs.Lexicon.{lexicon_of};
ghost use Rattle.ap_live.specs.Readings.{AddsSome};
ghost use Rattle.ap_live.specs.SectionLives.{AreLive};
ghost use Rattle.ap_analysis.specs.Licence.{standard_words, surface};
ghost use Rattle.ap_analysis.specs.Analysis.{readings_at};
ghost use Rattle.ap_analysis.specs.Surfaces.{IsSeen};

use crate::items::begins_alphabetic;
use crate::surface::seen_case;
use ap_fst::{Compiled, Kind2};
use ap_live::{LiveSections, are_told_longer, push_some};
use ap_stream::{Read, UNIT_MAX};
use ap_symbol::{Case, Memory, Word, case_keeps_words, one_rendering};
use std::alloc::Global;

/// Bytes of readings, each with its slash, that are more than a unit may have.
const TOO_MANY: usize = UNIT_MAX + 1;

/// Appends some of what standard entries read, with this case carried to each: they read only where
/// no alphabetic character comes next.
fn push_some_standard(
    alloc: Global,
    compiled: &Compiled,
    lives: &LiveSections,
    reads: &[Read],
    count: usize,
    case: Case,
    into: &mut Vec<Word>,
) -> Result<(), Memory>
    ensures { OnOk result ((sensitive : Bool) →
        AreLive compiled.now sensitive (surface reads.now count) lives.now → AddsSome
        (map (carry_lem case) (standard_words (lexicon_of compiled.now sensitive) reads.now count))
        into.old.items into.new.items) }
{
    if begins_alphabetic(compiled, reads, count) {
        Ok(())
    } else {
        push_some(
            alloc,
            compiled,
            lives,
            Kind2::Standard,
            case,
            TOO_MANY,
            into,
        )
    }
}

/// Some of the readings of the first so many items, at which the live sets stand: of each kind about
/// as many as a unit has room for, where there may be more than a few thousand, and else none. One
/// may stand twice.
fn some_readings(
    alloc: Global,
    compiled: &Compiled,
    sensitive: bool,
    lives: &LiveSections,
    reads: &[Read],
    count: usize,
    small: bool,
    seen: &Word,
) -> Result<Vec<Word>, Memory>
    requires lives { AreLive compiled.now sensitive (surface reads.now count) lives.now }
    requires seen { (piece : List ℕ) × IsSeen piece reads.now count small seen.now }
    ensures some { IfOk result (λ words. (w : List Symbol) → IsIn w words.items →
        IsIn w (readings_at (lexicon_of compiled.now sensitive) sensitive reads.now count)) }
    ensures proper { IfOk result (λ words. (w : List Symbol) → IsIn w words.items → AreProper w) }
{
    let case = seen_case(sensitive, small, seen);
    let room = TOO_MANY;
    let mut words = Vec::new(alloc);
    let some = &mut words;
    push_some_standard(alloc, compiled, lives, reads, count, case, some)?;
    push_some(
        alloc,
        compiled,
        lives,
        Kind2::Inconditional,
        case,
        room,
        some,
    )?;
    push_some(alloc, compiled, lives, Kind2::Postblank, case, room, some)?;
    push_some(alloc, compiled, lives, Kind2::Preblank, case, room, some)?;
    case_keeps_words();
    one_rendering();
    let _ = compiled.alphabet();
    Ok(words)
}

/// Whether some of the readings of the first so many items, at which the live sets stand, show that
/// all of them have more bytes than a unit may have. So a word that has too many of them is told,
/// and not all are made. Where it isn't told, they may have more bytes all the same.
pub(crate) fn is_told_too_long(
    alloc: Global,
    compiled: &Compiled,
    sensitive: bool,
    lives: &LiveSections,
    reads: &[Read],
    count: usize,
    small: bool,
    seen: &Word,
) -> Result<bool, Memory>
    requires lives { AreLive compiled.now sensitive (surface reads.now count) lives.now }
    requires seen { (piece : List ℕ) × IsSeen piece reads.now count small seen.now }
    ensures { result ≡ Ok true → UNIT_MAX < length (flat_map slashed
        (readings_at (lexicon_of compiled.now sensitive) sensitive reads.now count)) }
{
    let words = some_readings(alloc, compiled, sensitive, lives, reads, count, small, seen)?;
    Ok(are_told_longer(words, UNIT_MAX))
}
