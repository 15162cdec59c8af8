ghost use Rattle.std.specs.Prelude.{◌≡◌, ◌↔◌, ℕ, None, IfOk, OnOk};
ghost use Rattle.ap_fst.specs.Graphs.{Grows};
ghost use Rattle.ap_fst.specs.Lists.{IsIn};
ghost use Rattle.ap_trim.specs.Reading.{LeavesBy, Quietly};

use crate::reading::add_by;
use crate::states::States;
use ap_fst::Fst;
use ap_symbol::Memory;
use std::alloc::Global;

fn add_states(states: &mut States, more: &[usize]) -> Result<(), Memory>
    ensures { OnOk result (Grows states.old more.now states.new) }
{
    for state in more {
        states.add(*state)?;
    }
    Ok(())
}

/// The states to which edges from a state with an empty left side lead.
fn quiet_targets(alloc: Global, fst: &Fst, state: usize) -> Result<Vec<usize>, Memory>
    ensures { IfOk result (λ targets. (t : ℕ) → IsIn t targets.items ↔
        LeavesBy fst.now state None t) }
{
    let mut targets = Vec::new(alloc);
    add_by(fst, state, None, &mut targets)?;
    Ok(targets)
}

/// These states and all that are reached from them over edges with an empty left side.
fn reached(alloc: Global, fst: &Fst, starts: &[usize]) -> Result<States, Memory>
    ensures { IfOk result (λ states. (s : ℕ) → IsIn s states ↔ Quietly fst.now starts.now s) }
{
    let mut states = States::new(alloc);
    add_states(&mut states, starts)?;
    let mut at = 0;
    'states: while let Some(state) = states.get(at) {
        let targets = quiet_targets(alloc, fst, state)?;
        add_states(&mut states, targets.as_slice())?;
        at += 1;
    }
    Ok(states)
}

/// The same in ascending order, so that equal sets are equal lists.
pub(crate) fn closed(alloc: Global, fst: &Fst, starts: &[usize]) -> Result<Vec<usize>, Memory>
    ensures { IfOk result (λ set. (s : ℕ) → IsIn s set.items ↔ Quietly fst.now starts.now s) }
{
    let states = reached(alloc, fst, starts)?;
    let mut set = Vec::from_slice(alloc, states.as_slice())?;
    set.sort_unstable();
    Ok(set)
}
