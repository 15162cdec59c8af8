ghost use Rattle.std.specs.Prelude.{◌≡◌, ◌+◌, ◌^◌, ◌<◌, ◌≤◌, length, IfOk};
ghost use Rattle.ap_binary.specs.Lines.{Tells, section_in, sections_in, line_after};
ghost use Rattle.ap_binary.specs.Spelling.{AreWithin};

use crate::lines::{edges, finals, head_line};
use crate::refusal::BinaryRefusal;
use ap_fst::{Fst, Kind2};
use std::alloc::Global;

/// A section as a file has it, with the line on which it begins.
#[derive(Debug, Drop)]
pub(crate) struct Written {
    pub fst: Fst,
    pub line: u64,
}

/// The sections of a file.
#[derive(Debug, Drop)]
pub(crate) struct Sections {
    pub standard: Written,
    pub inconditional: Written,
    pub postblank: Written,
    pub preblank: Written,
}

/// The section of a kind from this line on. Memory is taken by its lines, and not by the number of
/// states that it claims.
#[tactic(auto, unfolding(crate::specs::Lines::section_in))]
fn read_section<'a>(
    alloc: Global,
    kind: Kind2,
    line: u64,
    bytes: &'a [u8],
) -> Result<(Written, &'a [u8]), BinaryRefusal>
    requires { line + length bytes.now < 2 ^ 64 }
    ensures gives { Tells (λ x. (x.0, x.1.now)) result (section_in kind line bytes.now) }
    ensures lines { IfOk result (λ x. line_after x.0 + length x.1.now ≤ line + length bytes.now) }
{
    let (counts, rest) = head_line(kind, line, bytes)?;
    let (edges, rest) = edges(alloc, counts.edges, counts.states, line + 1, rest)?;
    let after = line + 1 + counts.edges;
    let (finals, rest) = finals(alloc, counts.finals, counts.states, after, rest)?;
    let fst = Fst::build(counts.states as usize, edges, finals);
    Ok((Written { fst, line }, rest))
}

/// The line behind a section.
pub(crate) fn line_after(section: &Written) -> u64
    requires { line_after section.now < 2 ^ 64 }
    ensures { result ≡ line_after section.now }
{
    section.line + 1 + section.fst.edges().len() as u64 + section.fst.finals().len() as u64
}

/// The sections from this line on, in the order of their kinds.
#[tactic(auto, unfolding(crate::specs::Lines::sections_in))]
pub(crate) fn read_sections<'a>(
    alloc: Global,
    line: u64,
    bytes: &'a [u8],
) -> Result<(Sections, &'a [u8]), BinaryRefusal>
    requires { line + length bytes.now < 2 ^ 64 }
    ensures gives { Tells (λ x. (x.0, x.1.now)) result (sections_in line bytes.now) }
    ensures lines { IfOk result
        (λ x. line_after x.0.preblank + length x.1.now ≤ line + length bytes.now) }
    ensures within { IfOk result (λ x. AreWithin x.0) }
{
    let (standard, rest) = read_section(alloc, Kind2::Standard, line, bytes)?;
    let line = line_after(&standard);
    let (inconditional, rest) = read_section(alloc, Kind2::Inconditional, line, rest)?;
    let line = line_after(&inconditional);
    let (postblank, rest) = read_section(alloc, Kind2::Postblank, line, rest)?;
    let line = line_after(&postblank);
    let (preblank, rest) = read_section(alloc, Kind2::Preblank, line, rest)?;
    let sections = Sections {
        standard,
        inconditional,
        postblank,
        preblank,
    };
    Ok((sections, rest))
}
