ghost use Rattle.std.specs.Prelude.{◌≡◌, ◌↔◌, ◌<◌, ℕ, IsTrue, IfOk, true, slice_get, length, map, nat_eq};
ghost use Rattle.std.specs.Option.{MatchOption, IfSome, option_copied};
ghost use Rattle.std.specs.List.{filter};
ghost use Rattle.std.specs.List.Sorted.{IsNonDecreasingBy};
ghost use Rattle.ap_fst.specs.Lists.{IsIn};
ghost use Rattle.ap_fst.specs.Graphs.{arc_from, forward};
ghost use Rattle.ap_fst.specs.Machines.{Machine, IsMachine};
ghost use Rattle.ap_fst.specs.Trimming.{IsTrimmed};
ghost use Rattle.indexmap.specs.IndexMap.{get};
ghost use Rattle.ap_fst.specs.Silence.{is_silent, HasNumbers, KeepsUp, Rises, RiseBefore, IsOnEmptyCycle, IsFirstOnEmptyCycle, HasNoEmptyCycle, HasBoundedRuns, SilentWalk};
ghost use Rattle.ap_fst.specs.declared.label.Edge.{Edge};

use crate::arcs::silent_arcs;
use crate::components::component_numbers;
use crate::fst::Fst;
use crate::graph::{Arc, reach_near};
use crate::label::Edge;
use ap_symbol::Memory;
use indexmap::IndexMap;
use std::alloc::Global;

/// The numbers of the states that an edge leaves and enters.
fn numbers_at(numbers: &IndexMap<usize, usize>, edge: &Edge) -> Option<(usize, usize)>
    ensures { IfSome result (λ r. HasNumbers (get nat_eq numbers.now) edge.now r.0 r.1) }
{
    let from = numbers.get(&edge.from)?;
    let to = numbers.get(&edge.to)?;
    Some((*from, *to))
}

fn edge_keeps_up(numbers: &IndexMap<usize, usize>, edge: &Edge) -> bool
    ensures { IsTrue result → is_silent edge.now ≡ true →
        KeepsUp (get nat_eq numbers.now) edge.now }
{
    if edge.label.left.is_some() {
        return true;
    }
    let Some((from, to)) = numbers_at(numbers, edge) else {
        return false;
    };
    from <= to
}

/// Whether no edge with an empty left side leads to a state with a lower number.
fn all_keep_up(numbers: &IndexMap<usize, usize>, edges: &[Edge]) -> bool
    ensures { IsTrue result → (e : Edge) → IsIn e edges.now → is_silent e ≡ true →
        KeepsUp (get nat_eq numbers.now) e }
{
    for edge in edges {
        if !edge_keeps_up(numbers, edge) {
            return false;
        }
    }
    true
}

fn edge_rises(numbers: &IndexMap<usize, usize>, edge: &Edge) -> bool
    ensures { IsTrue result → is_silent edge.now ≡ true → Rises (get nat_eq numbers.now) edge.now }
{
    if edge.label.left.is_some() {
        return true;
    }
    let Some((from, to)) = numbers_at(numbers, edge) else {
        return false;
    };
    from < to
}

/// The place of the first edge with an empty left side that doesn't lead to a higher number.
fn first_level(numbers: &IndexMap<usize, usize>, edges: &[Edge]) -> Option<usize>
    ensures { MatchOption result (RiseBefore (get nat_eq numbers.now) edges.now (length edges.now))
        (λ j. RiseBefore (get nat_eq numbers.now) edges.now j) }
{
    for (at, edge) in edges.iter().enumerate() {
        if !edge_rises(numbers, edge) {
            return Some(at);
        }
    }
    None
}

fn edge_at(edges: &[Edge], at: usize) -> Option<&Edge>
    ensures { option_copied result ≡ slice_get edges.now at }
{
    edges.get(at)
}

fn is_on_cycle(alloc: Global, arcs: &[Arc], edges: &[Edge], at: usize) -> Result<bool, Memory>
    requires arcs { arcs.now ≡ map forward (filter is_silent edges.now) }
    requires sorted { IsNonDecreasingBy arc_from arcs.now }
    ensures { IfOk result (λ answer. IsTrue answer ↔ IsOnEmptyCycle edges.now at) }
{
    let Some(edge) = edge_at(edges, at) else {
        return Ok(false);
    };
    if edge.label.left.is_some() {
        return Ok(false);
    }
    let reached = reach_near(alloc, arcs, &[edge.to])?;
    let answer = reached.contains(edge.from);
    Ok(answer)
}

fn first_on_cycle(alloc: Global, arcs: &[Arc], edges: &[Edge]) -> Result<Option<usize>, Memory>
    requires arcs { arcs.now ≡ map forward (filter is_silent edges.now) }
    requires sorted { IsNonDecreasingBy arc_from arcs.now }
    ensures { IfOk result (λ answer. MatchOption answer ((j : ℕ) → IsOnEmptyCycle edges.now j → ⊥)
        (λ j. IsFirstOnEmptyCycle edges.now j)) }
{
    for at in 0..edges.len() {
        if is_on_cycle(alloc, arcs, edges, at)? {
            return Ok(Some(at));
        }
    }
    Ok(None)
}

/// The first edge on a cycle, by the numbers of the states: an edge to a higher number lies on no
/// cycle where none leads to a lower one, so the first that leads to the same number is tried
/// alone. Where the numbers don't serve, it is found by a search from each edge.
fn first_by_numbers(
    alloc: Global,
    numbers: &IndexMap<usize, usize>,
    arcs: &[Arc],
    edges: &[Edge],
) -> Result<Option<usize>, Memory>
    requires arcs { arcs.now ≡ map forward (filter is_silent edges.now) }
    requires sorted { IsNonDecreasingBy arc_from arcs.now }
    ensures { IfOk result (λ answer. MatchOption answer ((j : ℕ) → IsOnEmptyCycle edges.now j → ⊥)
        (λ j. IsFirstOnEmptyCycle edges.now j)) }
{
    if !all_keep_up(numbers, edges) {
        return first_on_cycle(alloc, arcs, edges);
    }
    let Some(at) = first_level(numbers, edges) else {
        return Ok(None);
    };
    if is_on_cycle(alloc, arcs, edges, at)? {
        return Ok(Some(at));
    }
    first_on_cycle(alloc, arcs, edges)
}

/// The place in `edges` of the first edge that lies on a cycle of edges with an empty left side.
/// It is linear in the edges, but for the look-ups of states, and takes memory by the edges and not
/// by the number of states.
pub fn empty_cycle(alloc: Global, fst: &Fst) -> Result<Option<usize>, Memory>
    ensures { IfOk result (λ answer. MatchOption answer (HasNoEmptyCycle fst.now)
        (λ j. IsFirstOnEmptyCycle fst.now.edges j)) }
{
    let edges = fst.edges();
    let arcs = silent_arcs(alloc, edges)?;
    let numbers = component_numbers(alloc, arcs.as_slice())?;
    let answer = first_by_numbers(alloc, &numbers, arcs.as_slice(), edges)?;
    Ok(answer)
}

/// The law on empty cycles. A trimmed transducer has no cycle of edges with an empty left side
/// exactly where some number bounds how many labels with an empty left side follow one another in
/// its label strings. Without such a cycle, a walk over such edges has fewer edges than there are
/// states.
pub fn empty_cycle_law()
    ensures runs { (m : Machine) → IsMachine m → IsTrimmed m →
        (HasNoEmptyCycle m ↔ HasBoundedRuns m) }
    ensures walks { (m : Machine) → IsMachine m → HasNoEmptyCycle m → (s n t : ℕ) →
        SilentWalk m.edges s n t → s < m.states → n < m.states }
{}
