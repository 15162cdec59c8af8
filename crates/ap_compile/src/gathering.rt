ghost use Rattle.std.specs.Prelude.{◌≡◌, ◌-◌, ◌∷◌, ◌++◌, ◌⊎◌, ◌↔◌, ◌≤◌, [], List, length, take, true, IsTrue, IfOk, slice_get};
ghost use Rattle.std.specs.List.{list_all};
ghost use Rattle.std.specs.Option.{option_copied};
ghost use Rattle.ap_dix.specs.Derivation.{Label as EntryLabel, Derives};
ghost use Rattle.ap_dix.specs.declared.dictionary.Dictionary.{Dictionary as Lexicon};
ghost use Rattle.ap_dix.specs.declared.dictionary.EntryPart.{EntryPart as LexiconPart};
ghost use Rattle.ap_fst.specs.Paths.{Accepts, IsEither};
ghost use Rattle.ap_fst.specs.declared.label.Label.{Label};
ghost use Rattle.ap_compile.specs.Drafts.{IsCut, IsDraftOf, Any, Spells, AreDrafts, AreDraftedParts, is_drafted_entry, is_drafted_part};
ghost use Rattle.ap_compile.specs.Gatherings.{Tells, IsGrown, endings, shared, Gathers, IsPlainDraft, IsPlainGathering, IsGatheringOf, SpellsFrom};

use crate::drafts::{is_entry_kept, part_draft, parts_draft};
use crate::places::{Place, places_by_ending};
use ap_dix::{Direction, Entry, EntryPart};
use ap_fst::Draft;
use ap_symbol::{Memory, Word, one_rendering};
use std::alloc::Global;

/// A part that entries share at their end, and the draft of what stands before it in those that are
/// gathered. A level in which no entry is gathered yet is new.
#[derive(Drop)]
struct Level<'a> {
    ending: &'a EntryPart,
    fronts: Draft,
    is_new: bool,
}

/// Entries that are gathered by the parts that they end with: the draft of those that are done
/// with, and levels for those that end alike, from the last part inwards. A part that is shared is
/// drafted once, when its level is closed.
#[derive(Drop)]
struct Gathering<'a> {
    made: Draft,
    levels: Vec<Level<'a>>,
}

fn is_same_word(a: &Word, b: &Word) -> bool
    ensures { result ≡ true → a.now ≡ b.now }
{
    let _ = a.symbols();
    let _ = b.symbols();
    one_rendering();
    a.rendered() == b.rendered()
}

/// Whether the parts surely are equal.
fn is_same_part(a: &EntryPart, b: &EntryPart) -> bool
    ensures { result ≡ true → a.now ≡ b.now }
{
    match (a, b) {
        (EntryPart::Paradigm(m), EntryPart::Paradigm(n)) => *m == *n,
        (EntryPart::Identity(v), EntryPart::Identity(w)) => is_same_word(v, w),
        (EntryPart::Pair(v, w), EntryPart::Pair(x, y)) => is_same_word(v, x) && is_same_word(w, y),
        _ => false,
    }
}

/// What stands before the first paradigm among the parts, and the rest, which other entries may
/// share.
fn split_tail(parts: &[EntryPart]) -> (&[EntryPart], &[EntryPart])
    ensures { parts.now ≡ result.0.now ++ result.1.now }
{
    for at in 0..parts.len() {
        if matches!(parts[at], EntryPart::Paradigm(_)) {
            return parts.split_at(at);
        }
    }
    (parts, &[])
}

/// How many of the levels, from the outermost on, are the last parts of these.
fn agreed(levels: &[Level<'_>], parts: &[EntryPart]) -> usize
    ensures most { result ≤ length levels.now }
    ensures front { (front : List LexiconPart)
        × (parts.now ≡ front ++ shared [] (take result (endings levels.now))) }
{
    let mut rest = parts;
    for count in 0..levels.len() {
        let Some((last, front)) = rest.split_last() else {
            return count;
        };
        if !is_same_part(levels[count].ending, last) {
            return count;
        }
        rest = front;
    }
    levels.len()
}

/// Accepts the strings of both. Into a new level's draft, which has no moves, the other is not
/// copied: it takes that one's place.
fn with_fronts(fronts: Draft, more: Draft, is_new: bool) -> Result<Draft, Memory>
    ensures { IfOk result (λ made. (w : List Label) → Accepts made w ↔ IsEither fronts more w) }
{
    if is_new {
        let made = more.either(fronts)?;
        return Ok(made);
    }
    let made = fronts.either(more)?;
    Ok(made)
}

/// Labels more, before the shared parts of the innermost level; where there is no level, among
/// those that are done with.
fn with_more<'a>(gathering: Gathering<'a>, more: Draft) -> Result<Gathering<'a>, Memory>
    ensures { IfOk result (λ all. IsGrown gathering.entry more all) }
{
    let Gathering { made, mut levels } = gathering;
    let Some(level) = levels.pop() else {
        let made = made.either(more)?;
        return Ok(Gathering { made, levels });
    };
    let Level {
        ending,
        fronts,
        is_new,
    } = level;
    let fronts = with_fronts(fronts, more, is_new)?;
    levels.push(Level {
        ending,
        fronts,
        is_new: false,
    })?;
    Ok(Gathering { made, levels })
}

/// What a level accepts: what stands before its part, and then what that derives.
fn closed(
    alloc: Global,
    direction: Direction,
    drafts: &[Option<Draft>],
    level: Level<'_>,
) -> Result<Draft, Memory>
    requires { IsTrue (is_drafted_part drafts.now level.ending.now) }
    ensures { IfOk result (λ made. (d : Lexicon) → AreDrafts d direction drafts.now →
        IsPlainDraft level.entry.fronts →
        IsDraftOf (IsCut (Tells level.entry.fronts)
        (Derives d direction (level.entry.ending.now ∷ []))) made) }
{
    let Level {
        ending,
        fronts,
        is_new: _,
    } = level;
    let part = part_draft(alloc, direction, drafts, ending)?;
    let made = fronts.join(part)?;
    Ok(made)
}

/// The same strings gathered, with the innermost level closed.
fn with_last_closed<'a>(
    alloc: Global,
    direction: Direction,
    drafts: &[Option<Draft>],
    gathering: Gathering<'a>,
) -> Result<Gathering<'a>, Memory>
    requires { AreDraftedParts drafts.now (endings gathering.levels.items) }
    ensures same { IfOk result (λ all. (d : Lexicon) → AreDrafts d direction drafts.now →
        IsPlainGathering gathering.entry →
        IsGatheringOf d direction (Gathers d direction gathering.entry) all) }
    ensures endings { IfOk result (λ all. endings all.levels.items
        ≡ take (length gathering.entry.levels.items - 1) (endings gathering.entry.levels.items)) }
{
    let Gathering { made, mut levels } = gathering;
    let Some(level) = levels.pop() else {
        return Ok(Gathering { made, levels });
    };
    let more = closed(alloc, direction, drafts, level)?;
    let all = with_more(Gathering { made, levels }, more)?;
    Ok(all)
}

/// The same strings gathered, with all levels closed but so many of the outermost.
fn closed_to<'a>(
    alloc: Global,
    direction: Direction,
    drafts: &[Option<Draft>],
    gathering: Gathering<'a>,
    count: usize,
) -> Result<Gathering<'a>, Memory>
    requires drafted { AreDraftedParts drafts.now (endings gathering.levels.items) }
    requires count { count ≤ length gathering.levels.items }
    ensures same { IfOk result (λ all. (d : Lexicon) → AreDrafts d direction drafts.now →
        IsPlainGathering gathering.entry →
        IsGatheringOf d direction (Gathers d direction gathering.entry) all) }
    ensures endings { IfOk result (λ all. endings all.levels.items
        ≡ take count (endings gathering.entry.levels.items)) }
{
    let more = gathering.levels.len() - count;
    let mut all = gathering;
    for _ in 0..more {
        all = with_last_closed(alloc, direction, drafts, all)?;
    }
    Ok(all)
}

/// The same strings gathered, with one level more.
fn with_level<'a>(
    alloc: Global,
    gathering: Gathering<'a>,
    ending: &'a EntryPart,
) -> Result<Gathering<'a>, Memory>
    ensures same { IfOk result (λ all. (d : Lexicon) (direction : Direction) →
        IsPlainGathering gathering.entry →
        IsGatheringOf d direction (Gathers d direction gathering.entry) all) }
    ensures endings { IfOk result (λ all. endings all.levels.items
        ≡ endings gathering.entry.levels.items ++ ending.now ∷ []) }
{
    let Gathering { made, mut levels } = gathering;
    let fronts = Draft::nothing(alloc)?;
    levels.push(Level {
        ending,
        fronts,
        is_new: true,
    })?;
    Ok(Gathering { made, levels })
}

/// The same strings gathered, with further levels, so that these parts are those that are shared.
fn opened_to<'a>(
    alloc: Global,
    gathering: Gathering<'a>,
    tail: &'a [EntryPart],
) -> Result<Gathering<'a>, Memory>
    requires { (front : List LexiconPart)
        × (tail.now ≡ front ++ shared [] (endings gathering.levels.items)) }
    ensures same { IfOk result (λ all. (d : Lexicon) (direction : Direction) →
        IsPlainGathering gathering.entry →
        IsGatheringOf d direction (Gathers d direction gathering.entry) all) }
    ensures shared { IfOk result (λ all. shared [] (endings all.levels.items) ≡ tail.now) }
{
    let first = gathering.levels.len();
    let mut all = gathering;
    for at in first..tail.len() {
        let ending = &tail[tail.len() - 1 - at];
        all = with_level(alloc, all, ending)?;
    }
    Ok(all)
}

/// An entry more is gathered, if it is kept.
fn with_entry<'a>(
    alloc: Global,
    direction: Direction,
    drafts: &[Option<Draft>],
    gathering: Gathering<'a>,
    entry: &'a Entry,
) -> Result<Gathering<'a>, Memory>
    requires entry { IsTrue (is_drafted_entry drafts.now entry.now) }
    requires drafted { AreDraftedParts drafts.now (endings gathering.levels.items) }
    ensures drafted { IfOk result
        (λ all. AreDraftedParts drafts.now (endings all.levels.items)) }
    ensures strings { IfOk result (λ all. (d : Lexicon) → AreDrafts d direction drafts.now →
        IsPlainGathering gathering.entry →
        IsGatheringOf d direction (λ w. Gathers d direction gathering.entry w
        ⊎ Spells d direction entry.now w) all) }
{
    if !is_entry_kept(direction, entry) {
        return Ok(gathering);
    }
    let (front, tail) = split_tail(entry.parts.as_slice());
    let count = agreed(gathering.levels.as_slice(), tail);
    let rest = closed_to(alloc, direction, drafts, gathering, count)?;
    let ready = opened_to(alloc, rest, tail)?;
    let more = parts_draft(alloc, direction, drafts, front)?;
    let all = with_more(ready, more)?;
    Ok(all)
}

/// The entry of a number, if there is one.
fn entry_at(entries: &[Entry], at: usize) -> Option<&Entry>
    ensures { option_copied result ≡ slice_get entries.now at }
{
    entries.get(at)
}

/// The entry at a place more is gathered.
fn with_place<'a>(
    alloc: Global,
    direction: Direction,
    drafts: &[Option<Draft>],
    entries: &'a [Entry],
    gathering: Gathering<'a>,
    place: &Place,
) -> Result<Gathering<'a>, Memory>
    requires entries { IsTrue (list_all (is_drafted_entry drafts.now) entries.now) }
    requires drafted { AreDraftedParts drafts.now (endings gathering.levels.items) }
    ensures drafted { IfOk result
        (λ all. AreDraftedParts drafts.now (endings all.levels.items)) }
    ensures strings { IfOk result (λ all. (d : Lexicon) → AreDrafts d direction drafts.now →
        IsPlainGathering gathering.entry →
        IsGatheringOf d direction (λ w. Gathers d direction gathering.entry w
        ⊎ SpellsFrom d direction entries.now place.now w) all) }
{
    match entry_at(entries, place.entry) {
        None => Ok(gathering),
        Some(entry) => with_entry(alloc, direction, drafts, gathering, entry),
    }
}

/// The entries at these places, gathered one after another.
fn gathered<'a>(
    alloc: Global,
    direction: Direction,
    drafts: &[Option<Draft>],
    entries: &'a [Entry],
    places: &[Place],
) -> Result<Gathering<'a>, Memory>
    requires { IsTrue (list_all (is_drafted_entry drafts.now) entries.now) }
    ensures drafted { IfOk result
        (λ all. AreDraftedParts drafts.now (endings all.levels.items)) }
    ensures strings { IfOk result (λ all. (d : Lexicon) → AreDrafts d direction drafts.now →
        IsGatheringOf d direction (Any (SpellsFrom d direction entries.now) places.now) all) }
{
    let mut gathering = Gathering {
        made: Draft::nothing(alloc)?,
        levels: Vec::new(alloc),
    };
    for place in places {
        gathering = with_place(alloc, direction, drafts, entries, gathering, place)?;
    }
    Ok(gathering)
}

/// Accepts what the kept ones of these entries derive. Entries whose last parts agree, from a first
/// paradigm on, share one draft of each part.
pub fn entries_draft(
    alloc: Global,
    direction: Direction,
    drafts: &[Option<Draft>],
    entries: &[Entry],
) -> Result<Draft, Memory>
    requires { IsTrue (list_all (is_drafted_entry drafts.now) entries.now) }
    ensures { IfOk result (λ made. (d : Lexicon) → AreDrafts d direction drafts.now →
        IsDraftOf (Any (Spells d direction) entries.now) made) }
{
    let places = places_by_ending(alloc, entries)?;
    let gathering = gathered(alloc, direction, drafts, entries, places.as_slice())?;
    let Gathering { made, levels: _ } = closed_to(alloc, direction, drafts, gathering, 0)?;
    Ok(made)
}
