ghost use Rattle.std.specs.Prelude.{◌≡◌, ℕ, IfOk, Err};
ghost use Rattle.ap_compile.specs.declared.compiling.CompileRefusal.TheVariants.{EmptySide};
ghost use Rattle.ap_min.specs.Canonical.{IsCanonical};
ghost use Rattle.ap_dix.specs.Soundness.{IsSound};
ghost use Rattle.ap_fst.specs.Sections.{IsSection};
ghost use Rattle.ap_compile.specs.Compiling.{AcceptsStrings, IsCompiledFrom, way_of};
ghost use Rattle.ap_compile.specs.Drafts.{AreDrafts, AreDraftedSections};
ghost use Rattle.ap_compile.specs.Empties.{HasEmptyEntry, IsFirstEmpty, section_entries};

use crate::alphabet::closure;
use crate::empties::first_empty;
use crate::paradigms::paradigm_drafts;
use crate::sections::section;
use ap_dix::{Dictionary, Direction, Kind};
use ap_fst::{Compiled, Draft, Fst, Way, empty_cycle_law};
use ap_symbol::Memory;
use std::alloc::Global;
use thiserror::Error;

/// Why a dictionary is not compiled.
#[derive(Clone, Copy, Debug, PartialEq, Eq, Error)]
pub enum CompileRefusal {
    /// A kept entry of a section derives an empty input side; the line is that of the first such
    /// entry.
    #[error("an entry on line {line} has an empty input side")]
    EmptySide { line: u64 },
    /// Want of memory.
    #[error("out of memory")]
    Memory,
}

impl From<Memory> for CompileRefusal {
    ghost use Rattle.std.specs.Prelude.{◌≡◌};
    ghost use Rattle.ap_compile.specs.declared.compiling.CompileRefusal.TheVariants.{Memory as no_memory};

    ghost from_gives = { λ _ e. e ≡ no_memory };

    fn from(_e: Memory) -> CompileRefusal {
        CompileRefusal::Memory
    }
}

fn compiled_section(
    alloc: Global,
    direction: Direction,
    dictionary: &Dictionary,
    drafts: &[Option<Draft>],
    kind: Kind,
) -> Result<Fst, Memory>
    requires sound { IsSound dictionary.now }
    requires drafts { AreDrafts dictionary.now direction drafts.now }
    requires drafted { AreDraftedSections drafts.now dictionary.now.sections }
    requires none { HasEmptyEntry dictionary.now direction
        (section_entries dictionary.now.sections) → ⊥ }
    ensures strings { IfOk result (λ fst. AcceptsStrings dictionary.now direction kind fst) }
    ensures section { IfOk result (λ fst. IsSection fst) }
    ensures canonical { IfOk result (λ fst. IsCanonical fst) }
{
    empty_cycle_law();
    let fst = section(alloc, direction, dictionary, drafts, kind)?;
    let _states = fst.states();
    Ok(fst)
}

fn way_of(direction: Direction) -> Way
    ensures { result ≡ way_of direction }
{
    match direction {
        Direction::Lr => Way::Lr,
        Direction::Rl => Way::Rl,
    }
}

fn compiled(
    alloc: Global,
    dictionary: &Dictionary,
    direction: Direction,
) -> Result<Compiled, Memory>
    requires sound { IsSound dictionary.now }
    requires none { HasEmptyEntry dictionary.now direction
        (section_entries dictionary.now.sections) → ⊥ }
    ensures { IfOk result (λ made. IsCompiledFrom dictionary.now direction made) }
{
    let alphabet = closure(alloc, &dictionary.alphabet)?;
    let drafts = paradigm_drafts(alloc, direction, dictionary)?;
    let drafts = drafts.as_slice();
    let standard = compiled_section(alloc, direction, dictionary, drafts, Kind::Standard)?;
    let inconditional = compiled_section(
        alloc,
        direction,
        dictionary,
        drafts,
        Kind::Inconditional,
    )?;
    let postblank = compiled_section(alloc, direction, dictionary, drafts, Kind::Postblank)?;
    let preblank = compiled_section(alloc, direction, dictionary, drafts, Kind::Preblank)?;
    let way = way_of(direction);
    Ok(Compiled::new(alphabet, way, standard, inconditional, postblank, preblank))
}

/// The dictionary as four transducers, one for each kind of section, in a direction. Each is the
/// canonical one of exactly the label strings that the kept entries of its sections derive (the
/// Apertium dictionary format), so that none with at most one edge per state and label has fewer
/// states; from right to left the sides of each label change places. The alphabet is the
/// dictionary's, closed under case partners, in ascending order, and the compiled dictionary tells
/// the direction. It is refused exactly where a kept entry of a section derives labels with an
/// empty input side, but for want of memory.
pub fn compile(
    alloc: Global,
    dictionary: &Dictionary,
    direction: Direction,
) -> Result<Compiled, CompileRefusal>
    requires { IsSound dictionary.now }
    ensures made { IfOk result (λ made. IsCompiledFrom dictionary.now direction made) }
    ensures none { IfOk result
        (λ made. HasEmptyEntry dictionary.now direction
        (section_entries dictionary.now.sections) → ⊥) }
    ensures refused { (line : ℕ) → result ≡ Err (EmptySide line) →
        IsFirstEmpty dictionary.now direction (section_entries dictionary.now.sections) line }
{
    match first_empty(alloc, direction, dictionary)? {
        Some(line) => Err(CompileRefusal::EmptySide { line }),
        None => Ok(compiled(alloc, dictionary, direction)?),
    }
}
