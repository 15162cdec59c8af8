ghost use Rattle.std.specs.Prelude.{◌≡◌, ◌↔◌, ◌++◌, ℕ, List, Some, IsTrue, slice_get, IfOk, OnOk};
ghost use Rattle.std.specs.List.{flat_map};
ghost use Rattle.std.specs.Ordering.{nat_cmp};
ghost use Rattle.ap_fst.specs.Lists.{IsIn, Ascends};
ghost use Rattle.ap_fst.specs.Graphs.{place_of, AddsCommon, IsSharedAt, AreBelow};
ghost use Rattle.ap_fst.specs.Removal.{AddsWhere};
ghost use Rattle.ap_fst.specs.Machines.{IsMachine};
ghost use Rattle.ap_fst.specs.Walks.{AcceptsLabels};
ghost use Rattle.ap_fst.specs.Trimming.{IsUseful, IsTrimmed, IsTrimOf, trimmed_to, kept_edge, kept_state};
ghost use Rattle.ap_fst.specs.declared.label.Label.{Label};

use crate::arcs::{backward_arcs, forward_arcs};
use crate::fst::Fst;
use crate::graph::{StateSet, reach};
use crate::label::{Edge, Edges, Finals};
use ap_symbol::Memory;
use std::alloc::Global;

fn add_common(a: &StateSet, b: &StateSet, at: usize, both: &mut Vec<usize>) -> Result<(), Memory>
    ensures { OnOk result (AddsCommon a.now b.now at both.old.items both.new.items) }
{
    let Some(state) = a.get(at) else {
        return Ok(());
    };
    if !b.contains(state) {
        return Ok(());
    }
    both.push(state)?;
    Ok(())
}

/// The states that are in both, in the order of the first.
fn both_listed(alloc: Global, a: &StateSet, b: &StateSet) -> Result<Vec<usize>, Memory>
    ensures { IfOk result (λ both. (s : ℕ) → IsIn s both.items ↔ IsIn s a.now × IsIn s b.now) }
{
    let mut both = Vec::with_capacity(alloc, a.len())?;
    for at in 0..a.len() {
        add_common(a, b, at, &mut both)?;
    }
    Ok(both)
}

fn add_if_shared(
    a: &StateSet,
    b: &StateSet,
    state: usize,
    both: &mut Vec<usize>,
) -> Result<(), Memory>
    ensures { OnOk result (AddsWhere (IsSharedAt a.now b.now state) both.old.items both.new.items) }
{
    if !a.contains(state) {
        return Ok(());
    }
    if !b.contains(state) {
        return Ok(());
    }
    both.push(state)?;
    Ok(())
}

/// The states below a bound that are in both, ascending.
fn both_below(alloc: Global, a: &StateSet, b: &StateSet, bound: usize) -> Result<Vec<usize>, Memory>
    ensures { IfOk result (λ both. AreBelow a.now b.now bound both.items) }
{
    let mut both = Vec::with_capacity(alloc, a.len())?;
    for state in 0..bound {
        add_if_shared(a, b, state, &mut both)?;
    }
    Ok(both)
}

/// The states that are in both: ascending where the first has a bound.
fn both_lists(alloc: Global, a: &StateSet, b: &StateSet) -> Result<Vec<usize>, Memory>
    ensures { IfOk result (λ both. (s : ℕ) → IsIn s both.items ↔ IsIn s a.now × IsIn s b.now) }
{
    let Some(bound) = a.bound() else {
        return both_listed(alloc, a, b);
    };
    let both = both_below(alloc, a, b, bound)?;
    Ok(both)
}

/// The states that are in both, ascending.
fn common_states(alloc: Global, a: &StateSet, b: &StateSet) -> Result<Vec<usize>, Memory>
    ensures ascend { IfOk result (λ both. Ascends nat_cmp both.items) }
    ensures exactly { IfOk result (λ both. (s : ℕ) → IsIn s both.items ↔ IsIn s a.now
        × IsIn s b.now) }
{
    let mut both = both_lists(alloc, a, b)?;
    both.sort_unstable();
    both.dedup();
    Ok(both)
}

/// The states that are reached from the start and reach a final one, ascending.
fn useful_states(alloc: Global, fst: &Fst) -> Result<Vec<usize>, Memory>
    ensures ascend { IfOk result (λ states. Ascends nat_cmp states.items) }
    ensures exactly { IfOk result (λ states. (s : ℕ) → IsIn s states.items ↔ IsUseful fst.now s) }
    ensures sound { IfOk result (λ states. IsMachine fst.now) }
{
    let edges = fst.edges();
    let arcs = forward_arcs(alloc, edges)?;
    let ahead = reach(alloc, arcs.as_slice(), &[0])?;
    let turned = backward_arcs(alloc, edges)?;
    let behind = reach(alloc, turned.as_slice(), fst.finals())?;
    let states = common_states(alloc, &ahead, &behind)?;
    Ok(states)
}

fn stands_at_own_place(states: &[usize], state: usize) -> bool
    ensures { IsTrue result → slice_get states.now state ≡ Some state }
{
    if state >= states.len() {
        return false;
    }
    states[state] == state
}

/// The new number of a state: its own where it stands at its own place, and else by halving.
fn number_of(states: &[usize], state: usize) -> Option<usize>
    requires { Ascends nat_cmp states.now }
    ensures { result ≡ place_of states.now state }
{
    if stands_at_own_place(states, state) {
        return Some(state);
    }
    states.binary_search(&state).ok()
}

fn add_edge(alloc: Global, states: &[usize], edge: &Edge, into: &mut Edges) -> Result<(), Memory>
    requires { Ascends nat_cmp states.now }
    ensures { OnOk result (into.new ≡ into.old ++ kept_edge states.now edge.now) }
{
    let Some(from) = number_of(states, edge.from) else {
        return Ok(());
    };
    let Some(to) = number_of(states, edge.to) else {
        return Ok(());
    };
    let label = edge.label.copy(alloc)?;
    into.push(Edge { from, label, to })
}

fn kept_edges(alloc: Global, states: &[usize], edges: &[Edge]) -> Result<Edges, Memory>
    requires { Ascends nat_cmp states.now }
    ensures { IfOk result (λ kept. kept ≡ flat_map (kept_edge states.now) edges.now) }
{
    let mut kept = Edges::from_vec(Vec::with_capacity(alloc, edges.len())?);
    for edge in edges {
        add_edge(alloc, states, edge, &mut kept)?;
    }
    Ok(kept)
}

fn add_final(states: &[usize], state: usize, into: &mut Finals) -> Result<(), Memory>
    requires { Ascends nat_cmp states.now }
    ensures { OnOk result (into.new ≡ into.old ++ kept_state states.now state) }
{
    match number_of(states, state) {
        None => Ok(()),
        Some(number) => into.push(number),
    }
}

fn kept_finals(alloc: Global, states: &[usize], finals: &[usize]) -> Result<Finals, Memory>
    requires { Ascends nat_cmp states.now }
    ensures { IfOk result (λ kept. kept ≡ flat_map (kept_state states.now) finals.now) }
{
    let mut kept = Finals::new(alloc);
    for state in finals {
        add_final(states, *state, &mut kept)?;
    }
    Ok(kept)
}

/// What is left of the transducer where these states stay.
fn left_of(alloc: Global, fst: &Fst, states: &[usize]) -> Result<Fst, Memory>
    requires ascend { Ascends nat_cmp states.now }
    ensures { IfOk result (λ made. made ≡ trimmed_to states.now fst.now) }
{
    let edges = kept_edges(alloc, states, fst.edges())?;
    let finals = kept_finals(alloc, states, fst.finals())?;
    Ok(Fst::build(states.len().max(1), edges, finals))
}

/// The transducer without the states that are not reached from the start or reach no final one, and
/// without their edges. The states that stay are numbered in their old order, so a trimmed
/// transducer is given back as it is. The label strings stay the same. Memory is taken by the edges
/// and final states, not by the number of states.
pub fn trim(alloc: Global, fst: &Fst) -> Result<Fst, Memory>
    ensures same { IfOk result (λ made. (labels : List Label) → AcceptsLabels made labels
        ↔ AcceptsLabels fst.now labels) }
    ensures trimmed { IfOk result (λ made. IsTrimmed made) }
    ensures exact { IfOk result (λ made. IsTrimOf fst.now made) }
    ensures unchanged { IfOk result (λ made. IsTrimmed fst.now → made ≡ fst.now) }
{
    let states = useful_states(alloc, fst)?;
    left_of(alloc, fst, states.as_slice())
}

/// The same of a transducer that is handed over. Where each of its states is useful it is given back
/// as it is, and none of its edges is copied.
pub fn trimmed(alloc: Global, fst: Fst) -> Result<Fst, Memory>
    ensures same { IfOk result (λ made. (labels : List Label) → AcceptsLabels made labels
        ↔ AcceptsLabels fst labels) }
    ensures trimmed { IfOk result (λ made. IsTrimmed made) }
    ensures exact { IfOk result (λ made. IsTrimOf fst made) }
    ensures unchanged { IfOk result (λ made. IsTrimmed fst → made ≡ fst) }
{
    let states = useful_states(alloc, &fst)?;
    if states.len() == fst.states() {
        return Ok(fst);
    }
    left_of(alloc, &fst, states.as_slice())
}
