ghost use Rattle.std.specs.Prelude.{◌≡◌, ◌+◌, ◌^◌, ◌<◌, IfOk, IfErr};
ghost use Rattle.std.specs.Option.{MatchOption};
ghost use Rattle.ap_fst.specs.Silence.{HasNoEmptyCycle};
ghost use Rattle.ap_binary.specs.Refusals.{IfFault};
ghost use Rattle.ap_binary.specs.Lines.{line_after};
ghost use Rattle.ap_binary.specs.Spelling.{AreWithin, IsFine, IsFaultOf, IsFirstIn, in_order, IsSpelled, AreSpelled, Spells, IsFirstFault};

use crate::file::{File, read_file};
use crate::refusal::{BinaryFault, BinaryKind, BinaryRefusal};
use crate::sections::{Sections, Written};
use ap_fst::{Compiled, Fst, empty_cycle, empty_side, trimmed};
use ap_symbol::Memory;
use std::alloc::Global;

/// The fault of the first edge of a section that lies on a cycle of edges with an empty left side.
fn cycle_fault(alloc: Global, section: &Written) -> Result<Option<BinaryFault>, Memory>
    requires { line_after section.now < 2 ^ 64 }
    ensures { IfOk result (λ found. MatchOption found (HasNoEmptyCycle section.now.fst)
        (λ f. IsFaultOf section.now f)) }
{
    match empty_cycle(alloc, &section.fst)? {
        None => Ok(None),
        Some(place) => Ok(Some(BinaryFault {
            kind: BinaryKind::EmptyCycle,
            line: section.line + 1 + place as u64,
        })),
    }
}

/// The fault of a section without such a cycle that accepts a label string with an empty left word.
fn side_fault(alloc: Global, section: &Written) -> Result<Option<BinaryFault>, Memory>
    requires { HasNoEmptyCycle section.now.fst }
    ensures { IfOk result (λ found. MatchOption found (IsFine section.now)
        (λ f. IsFaultOf section.now f)) }
{
    if empty_side(alloc, &section.fst)? {
        return Ok(Some(BinaryFault {
            kind: BinaryKind::EmptySide,
            line: section.line,
        }));
    }
    Ok(None)
}

fn section_fault(alloc: Global, section: &Written) -> Result<Option<BinaryFault>, Memory>
    requires { line_after section.now < 2 ^ 64 }
    ensures { IfOk result (λ found. MatchOption found (IsFine section.now)
        (λ f. IsFaultOf section.now f)) }
{
    match cycle_fault(alloc, section)? {
        Some(fault) => Ok(Some(fault)),
        None => side_fault(alloc, section),
    }
}

/// A section, trimmed, or its fault. As it was read it is let go.
fn trimmed_section(alloc: Global, section: Written) -> Result<Fst, BinaryRefusal>
    requires { line_after section < 2 ^ 64 }
    ensures spelled { IfOk result (λ fst. IsSpelled section fst) }
    ensures fault { IfErr result (λ e. IfFault e (λ f. IsFaultOf section f)) }
{
    match section_fault(alloc, &section)? {
        Some(fault) => Err(BinaryRefusal::Fault(fault)),
        None => Ok(trimmed(alloc, section.fst)?),
    }
}

/// The sections of a compiled dictionary.
#[derive(Debug, Drop)]
pub(crate) struct Trimmed {
    pub standard: Fst,
    pub inconditional: Fst,
    pub postblank: Fst,
    pub preblank: Fst,
}

/// The sections, trimmed, or the fault of the first that has one.
fn trimmed_sections(alloc: Global, sections: Sections) -> Result<Trimmed, BinaryRefusal>
    requires { AreWithin sections }
    ensures spelled { IfOk result (λ made. AreSpelled sections made) }
    ensures fault { IfErr result (λ e. IfFault e (λ f. IsFirstIn (in_order sections) f)) }
{
    let standard = trimmed_section(alloc, sections.standard)?;
    let inconditional = trimmed_section(alloc, sections.inconditional)?;
    let postblank = trimmed_section(alloc, sections.postblank)?;
    let preblank = trimmed_section(alloc, sections.preblank)?;
    Ok(Trimmed {
        standard,
        inconditional,
        postblank,
        preblank,
    })
}

/// Reads a compiled dictionary: the text that `write_compiled` writes. Its first line is `LTC1`,
/// and then no direction is told, or `LTC2`, and then the second is `way lr` or `way rl`. Its lines
/// end with a line feed; its numbers are decimal without leading zeros; a side is `-` for none, `L`
/// and a code point, `T` and the name of a tag, or `B`, `J`, `Q` or `A` for a mark; the alphabet
/// ascends, is closed under case partners and holds no white space; edges are in strictly ascending
/// order by the state that they leave, the label and the state that they enter, and final states
/// ascend.
///
/// The refusal is `Fault` exactly where the text spells no compiled dictionary, and then it is its
/// first fault. Faults of lines come first, in the order of the lines: BadHeader where the first
/// line is neither `LTC1` nor `LTC2`; BadLine where a line isn't of its form or order or is
/// missing, and where something follows the last; OutOfRange where a state isn't below the number
/// of states, this number is 0, or a number is over 2 ^ 64 - 1. On one line BadLine comes first.
/// Then for each section in order come EmptyCycle, on the line of its first edge on a cycle of
/// edges with an empty left side, and EmptySide, on the section's own line, where it accepts a
/// label string with an empty left word. It is `Memory` for want of memory alone, which is taken by
/// the lines that are there, and not by the numbers that they claim.
///
/// Each section is held trimmed.
pub fn read_compiled(alloc: Global, text: &[u8]) -> Result<Compiled, BinaryRefusal>
    ensures spells { IfOk result (λ c. Spells text.now c) }
    ensures fault { IfErr result (λ e. IfFault e (λ f. IsFirstFault text.now f)) }
{
    let File {
        way,
        alphabet,
        sections,
    } = read_file(alloc, text)?;
    let made = trimmed_sections(alloc, sections)?;
    let Trimmed {
        standard,
        inconditional,
        postblank,
        preblank,
    } = made;
    Ok(Compiled::new(alphabet, way, standard, inconditional, postblank, preblank))
}
