ghost use Rattle.std.specs.Prelude.{◌≡◌, ◌↔◌, ℕ, IsTrue, IfOk};
ghost use Rattle.ap_fst.specs.Lists.{IsIn};
ghost use Rattle.ap_fst.specs.Silence.{HasEmptySide};

use crate::arcs::silent_arcs;
use crate::fst::Fst;
use crate::graph::{StateSet, reach};
use ap_symbol::Memory;
use std::alloc::Global;

fn holds_one_of(set: &StateSet, states: &[usize]) -> bool
    ensures { IsTrue result ↔ ((s : ℕ) × (IsIn s states.now × IsIn s set.now)) }
{
    for state in states {
        if set.contains(*state) {
            return true;
        }
    }
    false
}

/// Whether a label string with an empty left word is accepted. It is linear in the edges, but for
/// the look-ups of states, and takes memory by the edges and not by the number of states.
pub fn empty_side(alloc: Global, fst: &Fst) -> Result<bool, Memory>
    ensures { IfOk result (λ answer. IsTrue answer ↔ HasEmptySide fst.now) }
{
    let arcs = silent_arcs(alloc, fst.edges())?;
    let reached = reach(alloc, arcs.as_slice(), &[0])?;
    let answer = holds_one_of(&reached, fst.finals());
    Ok(answer)
}
