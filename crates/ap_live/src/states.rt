ghost use Rattle.std.specs.Prelude.{◌↔◌, ℕ, length, IfSome};
ghost use Rattle.ap_fst.specs.Lists.{IsIn};
ghost use Rattle.ap_live.specs.Reached.{AreStatesOf};

use crate::nodes::Node;
use crate::rows::sort_states;
use std::alloc::Global;

/// So many states of a section are listed, at most, each counted as often as it is there.
const MOST_STATES: usize = 64;

/// The states of the nodes from a place on, in order, each once; none where they are too many, or
/// there is no memory for them.
pub(crate) fn states_from(alloc: Global, nodes: &[Node], low: usize) -> Option<Vec<usize>>
    ensures { IfSome result (λ states.
        AreStatesOf nodes.now low (length nodes.now) states.items) }
{
    if MOST_STATES < nodes.len().saturating_sub(low) {
        return None;
    }
    let mut states = Vec::new(alloc);
    for at in low..nodes.len() {
        let Ok(()) = states.push(nodes[at].state) else {
            return None;
        };
    }
    sort_states(&mut states);
    Some(states)
}

/// These states in order, each once; none where they are too many, or there is no memory for them.
pub(crate) fn states_of(alloc: Global, given: &[usize]) -> Option<Vec<usize>>
    ensures { IfSome result (λ states. (s : ℕ) → IsIn s states.items ↔ IsIn s given.now) }
{
    if MOST_STATES < given.len() {
        return None;
    }
    let Ok(mut states) = Vec::from_slice(alloc, given) else {
        return None;
    };
    sort_states(&mut states);
    Some(states)
}
