ghost use Rattle.std.specs.Prelude.{◌≡◌, ◌↔◌, ℕ, IfOk, OnOk};
ghost use Rattle.std.specs.List.Sorted.{IsPermutation};
ghost use Rattle.ap_fst.specs.Lists.{IsIn};
ghost use Rattle.ap_fst.specs.Removal.{AddsWhere};
ghost use Rattle.ap_det.specs.Exits.{exit_cmp, place_cmp, edge_at, IsPlaceOf, IsPlaceFrom, RisesByLabel};

use ap_fst::{Edge, Fst, compare_labels};
use ap_symbol::Memory;
use std::alloc::Global;
use std::cmp::Ordering;

/// Compares edges by label, then by the state that they enter.
fn compare_exits(a: &Edge, b: &Edge) -> Ordering
    ensures { result ≡ exit_cmp a.now b.now }
{
    match compare_labels(&a.label, &b.label) {
        Ordering::Equal => a.to.cmp(&b.to),
        other => other,
    }
}

fn compare_places(edges: &[Edge], a: usize, b: usize) -> Ordering
    ensures { result ≡ place_cmp edges.now a b }
{
    match (edges.get(a), edges.get(b)) {
        (None, None) => Ordering::Equal,
        (None, Some(_)) => Ordering::Less,
        (Some(_), None) => Ordering::Greater,
        (Some(first), Some(second)) => compare_exits(first, second),
    }
}

fn sort_places(edges: &[Edge], places: &mut Vec<usize>)
    ensures permutation { IsPermutation places.old.items places.new.items }
    ensures rises { RisesByLabel (edge_at edges.now places.new.items) }
{
    places.sort_unstable_by(|a, b| compare_places(edges, *a, *b));
}

fn fill(begins: &mut Vec<usize>, upto: usize, place: usize) -> Result<(), Memory> {
    for _ in begins.len()..upto {
        begins.push(place)?;
    }
    Ok(())
}

/// For each state a guess where its edges begin, which is tested where it is used.
pub(crate) fn begins_of(alloc: Global, fst: &Fst) -> Result<Vec<usize>, Memory> {
    let mut begins = Vec::with_capacity(alloc, fst.states())?;
    for (place, edge) in fst.edges().iter().enumerate() {
        fill(&mut begins, edge.from.saturating_add(1), place)?;
    }
    fill(&mut begins, fst.states(), fst.edges().len())?;
    Ok(begins)
}

fn guess_at(begins: &[usize], state: usize) -> usize {
    match begins.get(state) {
        None => 0,
        Some(place) => *place,
    }
}

/// Adds the places of the edges that leave a state.
fn add_places(
    fst: &Fst,
    begins: &[usize],
    state: usize,
    places: &mut Vec<usize>,
) -> Result<(), Memory>
    ensures { OnOk result (AddsWhere (IsPlaceOf fst.now.edges state) places.old.items
        places.new.items) }
{
    let guess = guess_at(begins, state);
    let (low, high) = fst.span_near(state, guess);
    for place in low..high {
        places.push(place)?;
    }
    Ok(())
}

fn gathered(alloc: Global, fst: &Fst, begins: &[usize], set: &[usize]) -> Result<Vec<usize>, Memory>
    ensures { IfOk result (λ places. (p : ℕ) →
        IsIn p places.items ↔ IsPlaceFrom fst.now.edges set.now p) }
{
    let mut places = Vec::new(alloc);
    for state in set {
        add_places(fst, begins, *state, &mut places)?;
    }
    Ok(places)
}

/// The places of the edges that leave these states, by label and then by the state that they enter.
pub(crate) fn places_from(
    alloc: Global,
    fst: &Fst,
    begins: &[usize],
    set: &[usize],
) -> Result<Vec<usize>, Memory>
    ensures exactly { IfOk result (λ places. (p : ℕ) →
        IsIn p places.items ↔ IsPlaceFrom fst.now.edges set.now p) }
    ensures rises { IfOk result (λ places. RisesByLabel (edge_at fst.now.edges places.items)) }
{
    let mut places = gathered(alloc, fst, begins, set)?;
    sort_places(fst.edges(), &mut places);
    Ok(places)
}
