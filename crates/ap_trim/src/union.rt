ghost use Rattle.std.specs.Prelude.{◌↔◌, List, IfOk};
ghost use Rattle.ap_fst.specs.Paths.{Accepts};
ghost use Rattle.ap_fst.specs.Sections.{section_of};
ghost use Rattle.ap_fst.specs.Walks.{AcceptsLabels};
ghost use Rattle.ap_fst.specs.declared.label.Label.{Label};
ghost use Rattle.ap_trim.specs.Reading.{IsUnion};

use ap_fst::{Compiled, Draft, Fst, Kind2, without_empty};
use ap_symbol::Memory;
use std::alloc::Global;

/// A draft of a section.
fn section_draft(alloc: Global, compiled: &Compiled, kind: Kind2) -> Result<Draft, Memory>
    ensures { IfOk result (λ made. (labels : List Label) → Accepts made labels ↔
        AcceptsLabels (section_of compiled.now kind) labels) }
{
    let draft = Draft::of(alloc, compiled.section(kind))?;
    Ok(draft)
}

/// A transducer that accepts what the sections accept, of whatever kind.
pub(crate) fn union_of(alloc: Global, compiled: &Compiled) -> Result<Fst, Memory>
    ensures { IfOk result (λ fst. IsUnion compiled.now fst) }
{
    let standard = section_draft(alloc, compiled, Kind2::Standard)?;
    let inconditional = section_draft(alloc, compiled, Kind2::Inconditional)?;
    let postblank = section_draft(alloc, compiled, Kind2::Postblank)?;
    let preblank = section_draft(alloc, compiled, Kind2::Preblank)?;
    let first = standard.either(inconditional)?;
    let second = first.either(postblank)?;
    let all = second.either(preblank)?;
    let fst = without_empty(alloc, &all)?;
    Ok(fst)
}
