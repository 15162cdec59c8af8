ghost use Rattle.std.specs.Prelude.{◌↔◌, List, IfOk};
ghost use Rattle.ap_fst.specs.Paths.{Accepts};
ghost use Rattle.ap_fst.specs.Walks.{AcceptsLabels};
ghost use Rattle.ap_fst.specs.declared.label.Label.{Label};
ghost use Rattle.ap_min.specs.Canonical.{IsCanonical};

use ap_det::{Dfst, determinise};
use ap_fst::{Draft, Fst, trim, without_empty};
use ap_min::minimise;
use ap_symbol::Memory;
use std::alloc::Global;

/// A transducer without empty moves. The draft is let go.
fn quiet(alloc: Global, draft: Draft) -> Result<Fst, Memory>
    ensures { IfOk result (λ fst. (w : List Label) → AcceptsLabels fst w ↔ Accepts draft w) }
{
    let fst = without_empty(alloc, &draft)?;
    Ok(fst)
}

/// The same, trimmed. What it is made from is let go.
fn useful(alloc: Global, draft: Draft) -> Result<Fst, Memory>
    ensures { IfOk result (λ fst. (w : List Label) → AcceptsLabels fst w ↔ Accepts draft w) }
{
    let fst = quiet(alloc, draft)?;
    let made = trim(alloc, &fst)?;
    Ok(made)
}

/// The same with at most one edge per state and label. What it is made from is let go.
fn determined(alloc: Global, draft: Draft) -> Result<Dfst, Memory>
    ensures { IfOk result (λ one. (w : List Label) → AcceptsLabels one w ↔ Accepts draft w) }
{
    let fst = useful(alloc, draft)?;
    let one = determinise(alloc, &fst)?;
    Ok(one)
}

/// The canonical transducer of what a draft accepts. Each step lets go what it is made from, so
/// that at most two forms are held at a time. The error means want of memory.
pub fn canonical_form(alloc: Global, draft: Draft) -> Result<Fst, Memory>
    ensures same { IfOk result (λ fst. (w : List Label) → AcceptsLabels fst w ↔ Accepts draft w) }
    ensures canonical { IfOk result (λ fst. IsCanonical fst) }
{
    let one = determined(alloc, draft)?;
    let small = minimise(alloc, &one)?;
    Ok(small.into_fst())
}
