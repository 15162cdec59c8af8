ghost use Rattle.std.specs.Prelude.{◌≡◌, ◌<◌, ◌∷◌, [], List, ℕ, length, max, IsTrue, IfOk, Some as something, slice_get};
ghost use Rattle.std.specs.List.{list_all};
ghost use Rattle.ap_dix.specs.Derivation.{Derives, paired, facing, is_kept};
ghost use Rattle.ap_dix.specs.Soundness.{is_entry_symbol};
ghost use Rattle.ap_dix.specs.declared.dictionary.Dictionary.{Dictionary as Lexicon};
ghost use Rattle.ap_compile.specs.Labels.{label_of, IsEntryWord};
ghost use Rattle.ap_compile.specs.Drafts.{IsDraftOf, AreDrafts, has_draft, is_drafted_part};

use crate::expressions::expression_draft;
use ap_dix::{Direction, Entry, EntryPart};
use ap_fst::{Draft, Label};
use ap_symbol::{Memory, Symbol, Word};
use std::alloc::Global;

fn symbol_at(alloc: Global, word: &[Symbol], at: usize) -> Result<Option<Symbol>, Memory>
    ensures { IfOk result (λ made. made ≡ slice_get word.now at) }
{
    match word.get(at) {
        None => Ok(None),
        Some(symbol) => Ok(Some(symbol.copy(alloc)?)),
    }
}

fn label_at(alloc: Global, left: &[Symbol], right: &[Symbol], at: usize) -> Result<Label, Memory>
    ensures { IfOk result (λ made. made ≡ label_of left.now right.now at) }
{
    Ok(Label {
        left: symbol_at(alloc, left, at)?,
        right: symbol_at(alloc, right, at)?,
    })
}

fn longer(left: &[Symbol], right: &[Symbol]) -> usize
    ensures { result ≡ length (paired left.now right.now) }
{
    if left.len() < right.len() {
        right.len()
    } else {
        left.len()
    }
}

/// Accepts the symbols of two words position by position, the longer word's rest with nothing.
fn words_draft(alloc: Global, left: &[Symbol], right: &[Symbol]) -> Result<Draft, Memory>
    requires left { IsEntryWord left.now }
    requires right { IsEntryWord right.now }
    ensures { IfOk result (λ made. IsDraftOf (λ w. w ≡ paired left.now right.now) made) }
{
    let mut made = Draft::empty(alloc)?;
    for at in 0..longer(left, right) {
        let label = label_at(alloc, left, right, at)?;
        made = made.join(Draft::letter(alloc, label)?)?;
    }
    Ok(made)
}

/// The same with the words in each other's place where the direction is from right to left.
fn faced_draft(
    alloc: Global,
    direction: Direction,
    left: &Word,
    right: &Word,
) -> Result<Draft, Memory>
    requires left { IsTrue (list_all is_entry_symbol left.now) }
    requires right { IsTrue (list_all is_entry_symbol right.now) }
    ensures { IfOk result (λ made. IsDraftOf
        (λ w. w ≡ facing direction (paired left.now right.now)) made) }
{
    match direction {
        Direction::Lr => words_draft(alloc, left.symbols(), right.symbols()),
        Direction::Rl => words_draft(alloc, right.symbols(), left.symbols()),
    }
}

/// The draft of the paradigm of that number.
fn draft_at(drafts: &[Option<Draft>], n: usize) -> &Draft
    requires { IsTrue (has_draft drafts.now n) }
    ensures { slice_get drafts.now n ≡ something (something result.now) }
{
    match drafts.get(n) {
        Some(Some(draft)) => draft,
        _ => unreachable!(),
    }
}

/// Accepts what this part derives.
pub fn part_draft(
    alloc: Global,
    direction: Direction,
    drafts: &[Option<Draft>],
    part: &EntryPart,
) -> Result<Draft, Memory>
    requires { IsTrue (is_drafted_part drafts.now part.now) }
    ensures { IfOk result (λ made. (d : Lexicon) → AreDrafts d direction drafts.now →
        IsDraftOf (Derives d direction (part.now ∷ [])) made) }
{
    match part {
        EntryPart::Identity(word) => faced_draft(alloc, direction, word, word),
        EntryPart::Pair(left, right) => faced_draft(alloc, direction, left, right),
        EntryPart::Paradigm(n) => {
            let draft = draft_at(drafts, *n);
            draft.copy(alloc)
        }
        EntryPart::Expression(expression, _) => expression_draft(alloc, expression.tree()),
    }
}

/// Accepts what these parts derive. Each use of a paradigm gets a copy of its own.
pub fn parts_draft(
    alloc: Global,
    direction: Direction,
    drafts: &[Option<Draft>],
    parts: &[EntryPart],
) -> Result<Draft, Memory>
    requires { IsTrue (list_all (is_drafted_part drafts.now) parts.now) }
    ensures { IfOk result (λ made. (d : Lexicon) → AreDrafts d direction drafts.now →
        IsDraftOf (Derives d direction parts.now) made) }
{
    let mut made = Draft::empty(alloc)?;
    for part in parts {
        made = made.join(part_draft(alloc, direction, drafts, part)?)?;
    }
    Ok(made)
}

/// Whether the entry is kept in the direction: it is not ignored, and its side lets it.
pub fn is_entry_kept(direction: Direction, entry: &Entry) -> bool
    ensures { result ≡ is_kept direction entry.now }
{
    !entry.ignored && entry.side.takes(direction)
}
