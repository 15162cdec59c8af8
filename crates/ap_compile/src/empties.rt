ghost use Rattle.std.specs.Prelude.{◌≡◌, ◌↔◌, [], ◌∷◌, length, IsTrue, IfOk, List};
ghost use Rattle.std.specs.List.{list_all};
ghost use Rattle.std.specs.Option.{MatchOption};
ghost use Rattle.ap_dix.specs.Derivation.{left_word, facing, paired};
ghost use Rattle.ap_dix.specs.Soundness.{is_sound_part, is_sound_entry, IsSound};
ghost use Rattle.ap_dix.specs.declared.dictionary.Dictionary.{Dictionary as Lexicon};
ghost use Rattle.ap_compile.specs.Empties.{IsSilent, IsEmptyEntry, HasEmptyEntry, AreEmpties, IsFirstEmpty, section_entries};

use crate::drafts::is_entry_kept;
use crate::expressions::has_empty;
use ap_dix::{Dictionary, Direction, Entry, EntryPart, Section};
use ap_symbol::{Memory, Word};
use std::alloc::Global;

/// Whether the input side of two words is empty in the direction.
fn reads_nothing(direction: Direction, left: &Word, right: &Word) -> bool
    ensures { IsTrue result ↔ (left_word (facing direction (paired left.now right.now)) ≡ []) }
{
    match direction {
        Direction::Lr => left.is_empty(),
        Direction::Rl => right.is_empty(),
    }
}

/// Whether the part derives labels with an empty input side. The list says it of the paradigms.
fn is_part_silent(direction: Direction, empties: &[bool], part: &EntryPart) -> bool
    requires { IsTrue (is_sound_part (length empties.now) part.now) }
    ensures { (d : Lexicon) → AreEmpties d direction empties.now →
        IsTrue result ↔ IsSilent d direction (part.now ∷ []) }
{
    match part {
        EntryPart::Identity(word) => reads_nothing(direction, word, word),
        EntryPart::Pair(left, right) => reads_nothing(direction, left, right),
        EntryPart::Paradigm(n) => empties[*n],
        EntryPart::Expression(expression, _) => has_empty(expression.tree()),
    }
}

fn are_parts_silent(direction: Direction, empties: &[bool], parts: &[EntryPart]) -> bool
    requires { IsTrue (list_all (is_sound_part (length empties.now)) parts.now) }
    ensures { (d : Lexicon) → AreEmpties d direction empties.now →
        IsTrue result ↔ IsSilent d direction parts.now }
{
    for part in parts {
        if !is_part_silent(direction, empties, part) {
            return false;
        }
    }
    true
}

fn is_entry_empty(direction: Direction, empties: &[bool], entry: &Entry) -> bool
    requires { IsTrue (is_sound_entry (length empties.now) entry.now) }
    ensures { (d : Lexicon) → AreEmpties d direction empties.now →
        IsTrue result ↔ IsEmptyEntry d direction entry.now }
{
    is_entry_kept(direction, entry) && are_parts_silent(direction, empties, entry.parts.as_slice())
}

/// The line of the first of the entries that is kept and derives labels with an empty input side.
fn first_empty_entry(direction: Direction, empties: &[bool], entries: &[Entry]) -> Option<u64>
    requires { IsTrue (list_all (is_sound_entry (length empties.now)) entries.now) }
    ensures { (d : Lexicon) → AreEmpties d direction empties.now →
        MatchOption result (HasEmptyEntry d direction entries.now → ⊥)
        (λ line. IsFirstEmpty d direction entries.now line) }
{
    for entry in entries {
        if is_entry_empty(direction, empties, entry) {
            return Some(entry.line);
        }
    }
    None
}

/// For each paradigm whether it has such an entry.
fn paradigm_empties(
    alloc: Global,
    direction: Direction,
    dictionary: &Dictionary,
) -> Result<Vec<bool>, Memory>
    requires { IsSound dictionary.now }
    ensures empties { IfOk result (λ empties. AreEmpties dictionary.now direction empties.items) }
    ensures count { IfOk result (λ empties. length empties.items ≡ length dictionary.now.pardefs) }
{
    let mut empties = Vec::new(alloc);
    for pardef in dictionary.pardefs.as_slice() {
        let first = first_empty_entry(direction, empties.as_slice(), pardef.entries.as_slice());
        empties.push(first.is_some())?;
    }
    Ok(empties)
}

fn first_empty_in(direction: Direction, empties: &[bool], sections: &[Section]) -> Option<u64>
    requires { IsTrue (list_all
        (λ (section : Section). list_all (is_sound_entry (length empties.now)) section.entries)
        sections.now) }
    ensures { (d : Lexicon) → AreEmpties d direction empties.now →
        MatchOption result (HasEmptyEntry d direction (section_entries sections.now) → ⊥)
        (λ line. IsFirstEmpty d direction (section_entries sections.now) line) }
{
    for section in sections {
        if let Some(line) = first_empty_entry(direction, empties, section.entries.as_slice()) {
            return Some(line);
        }
    }
    None
}

/// The line of the first section entry, in the order of the file, that is kept in the direction and
/// derives labels with an empty input side.
pub fn first_empty(
    alloc: Global,
    direction: Direction,
    dictionary: &Dictionary,
) -> Result<Option<u64>, Memory>
    requires { IsSound dictionary.now }
    ensures { IfOk result (λ first. MatchOption first
        (HasEmptyEntry dictionary.now direction (section_entries dictionary.now.sections) → ⊥)
        (λ line. IsFirstEmpty dictionary.now direction
        (section_entries dictionary.now.sections) line)) }
{
    let empties = paradigm_empties(alloc, direction, dictionary)?;
    Ok(first_empty_in(
        direction,
        empties.as_slice(),
        dictionary.sections.as_slice(),
    ))
}
