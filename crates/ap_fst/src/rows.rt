ghost use Rattle.std.specs.Prelude.{◌≡◌, ◌++◌, [], ℕ, IsTrue, Some, false, map, nat_eq, slice_get, IfOk, OnOk};
ghost use Rattle.std.specs.Option.{IfSome};
ghost use Rattle.std.specs.List.Sorted.{IsPermutation};
ghost use Rattle.ap_fst.specs.Lists.{IsIn};
ghost use Rattle.ap_fst.specs.Graphs.{arc_to, arcs_at};
ghost use Rattle.ap_fst.specs.Removal.{is_quiet};
ghost use Rattle.indexmap.specs.IndexMap.{get};
ghost use Rattle.ap_fst.specs.Covering.{AreArcsOf, AreLeads, IsLike, IsLikeBefore, IsHeld, AddsUnlessLike, IsRow, KeepsOn, AreKept, AreRows, GoesOn};
ghost use Rattle.ap_fst.specs.declared.draft.Move.{Move};

use crate::covering::{MoveArcs, covers};
use crate::draft::Move;
use crate::graph::{Arc, StateSet, add_targets};
use crate::numbering::Numbering;
use crate::order::compare_labels;
use crate::removal::move_at;
use ap_symbol::Memory;
use indexmap::IndexMap;
use std::alloc::Global;
use std::cmp::Ordering;

/// Rows of states: places of the labelled moves that follow the state.
pub(crate) type Rows = IndexMap<usize, Vec<usize>>;

/// How long a row is that is taken wherever it is met.
const SHORT: usize = 8;

pub(crate) fn number_at(numbers: &[usize], at: usize) -> Option<usize>
    ensures { result ≡ slice_get numbers.now at }
{
    numbers.get(at).copied()
}

/// Whether what follows a state is to be found once: several empty moves leave it, and it is not
/// entered by one alone from a state that several leave. Behind such a state one search comes to it.
fn is_shared(arcs: &MoveArcs, state: usize) -> bool {
    if arcs.quiet_from(state).len() <= 1 {
        return false;
    }
    match arcs.entering(state) {
        [only] => arcs.quiet_from(only.to).len() <= 1,
        _ => true,
    }
}

/// The state that is kept for the move at a place: its lead if it has a label, and else the hub of
/// the state that it enters, where what follows that is to be found once.
fn kept_at(moves: &[Move], arcs: &MoveArcs, leads: &[usize], at: usize) -> Option<usize>
    ensures { (m : Move) (s : ℕ) → slice_get moves.now at ≡ Some m → is_quiet m ≡ false →
        slice_get leads.now at ≡ Some s → result ≡ Some s }
{
    let Some(next) = move_at(moves, at) else {
        return None;
    };
    if next.label.is_some() {
        return number_at(leads, at);
    }
    if is_shared(arcs, next.to) {
        return Some(arcs.hub(next.to));
    }
    None
}

fn add_kept(
    moves: &[Move],
    arcs: &MoveArcs,
    leads: &[usize],
    at: usize,
    kept: &mut Numbering,
) -> Result<(), Memory>
    ensures { OnOk result (KeepsOn moves.now leads.now at kept.old kept.new) }
{
    let Some(state) = kept_at(moves, arcs, leads, at) else {
        return Ok(());
    };
    kept.add(state)?;
    Ok(())
}

/// The start, and the leads of labelled moves. The place of a state is its new number. The hubs of
/// some states that several empty moves leave are kept too, so that what follows them is found once.
pub(crate) fn kept_states(
    alloc: Global,
    start: usize,
    moves: &[Move],
    arcs: &MoveArcs,
    leads: &[usize],
) -> Result<Numbering, Memory>
    ensures { IfOk result (λ kept. AreKept moves.now leads.now start kept) }
{
    let mut kept = Numbering::of(alloc, start)?;
    for at in 0..moves.len() {
        add_kept(moves, arcs, leads, at, &mut kept)?;
    }
    Ok(kept)
}

/// The row of a state, where it is known and short or the first that is taken.
fn row_at(rows: &Rows, state: usize, is_first: bool) -> Option<&Vec<usize>>
    ensures { IfSome result (λ row. get nat_eq rows.now state ≡ Some row.now) }
{
    let row = rows.get(&state)?;
    if is_first || row.len() <= SHORT {
        return Some(row);
    }
    None
}

fn add_places(arcs: &[Arc], places: &mut Vec<usize>) -> Result<(), Memory>
    ensures { OnOk result (places.new.items ≡ places.old.items ++ map arc_to arcs.now) }
{
    for arc in arcs {
        places.push(arc.to)?;
    }
    Ok(())
}

/// Adds the places of the labelled moves that leave a state, and the states that its empty moves
/// enter; or else the row of the state.
fn go_on(
    arcs: &MoveArcs,
    rows: &Rows,
    state: usize,
    near: &mut StateSet,
    places: &mut Vec<usize>,
) -> Result<(), Memory>
    ensures { OnOk result (GoesOn arcs.now (get nat_eq rows.now) state near.old near.new
        places.old.items places.new.items) }
{
    if let Some(row) = row_at(rows, state, places.is_empty()) {
        places.extend_from_slice(row.as_slice())?;
        return Ok(());
    }
    add_places(arcs.loud_from(state), places)?;
    add_targets(near, arcs.quiet_from(state))?;
    Ok(())
}

/// Places of the labelled moves that follow a state, found by a search that ends where rows are
/// known.
fn found_places(
    alloc: Global,
    moves: &[Move],
    arcs: &MoveArcs,
    rows: &Rows,
    state: usize,
) -> Result<Vec<usize>, Memory>
    requires arcs { AreArcsOf moves.now arcs.now }
    requires rows { AreRows moves.now arcs.now.finish (get nat_eq rows.now) }
    ensures { IfOk result (λ places. IsRow moves.now arcs.now.finish state places.items) }
{
    let mut near = StateSet::new(alloc, 0)?;
    near.add(state)?;
    let mut places = Vec::new(alloc);
    let mut at = 0;
    'search: while let Some(next) = near.get(at) {
        go_on(arcs, rows, next, &mut near, &mut places)?;
        at += 1;
    }
    Ok(places)
}

fn compare_places(moves: &[Move], a: usize, b: usize) -> Ordering {
    let (Some(first), Some(second)) = (moves.get(a), moves.get(b)) else {
        return a.cmp(&b);
    };
    let (Some(label), Some(other)) = (&first.label, &second.label) else {
        return a.cmp(&b);
    };
    match compare_labels(label, other) {
        Ordering::Equal => a.cmp(&b),
        unequal => unequal,
    }
}

fn sort_places(moves: &[Move], places: &mut Vec<usize>)
    ensures { IsPermutation places.old.items places.new.items }
{
    places.sort_unstable_by(|a, b| compare_places(moves, *a, *b));
}

fn has_label_of(first: &Move, second: &Move) -> bool
    ensures { IsTrue result → first.now.label ≡ second.now.label }
{
    let Some(label) = &first.label else {
        return false;
    };
    let Some(other) = &second.label else {
        return false;
    };
    compare_labels(label, other).is_eq()
}

/// Whether the move at the first place is found to stand for the one at the second.
fn is_like(moves: &[Move], arcs: &MoveArcs, leads: &[usize], p: usize, q: usize) -> bool
    requires arcs { AreArcsOf moves.now arcs.now }
    requires leads { AreLeads moves.now arcs.now.finish leads.now }
    ensures { IsTrue result → IsLike moves.now arcs.now.finish p q }
{
    let Some(first) = move_at(moves, p) else {
        return false;
    };
    let Some(second) = move_at(moves, q) else {
        return false;
    };
    if !has_label_of(first, second) {
        return false;
    }
    let Some(lead) = number_at(leads, p) else {
        return false;
    };
    let Some(other) = number_at(leads, q) else {
        return false;
    };
    covers(arcs, lead, other)
}

/// Whether the move before a place stands for the one there.
fn is_held(moves: &[Move], arcs: &MoveArcs, leads: &[usize], places: &[usize], at: usize) -> bool
    requires arcs { AreArcsOf moves.now arcs.now }
    requires leads { AreLeads moves.now arcs.now.finish leads.now }
    ensures { IsTrue result → IsLikeBefore moves.now arcs.now.finish places.now at }
{
    if at == 0 {
        return false;
    }
    let Some(before) = number_at(places, at - 1) else {
        return false;
    };
    let Some(place) = number_at(places, at) else {
        return false;
    };
    is_like(moves, arcs, leads, before, place)
}

fn add_unless_held(
    moves: &[Move],
    arcs: &MoveArcs,
    leads: &[usize],
    places: &[usize],
    at: usize,
    row: &mut Vec<usize>,
) -> Result<(), Memory>
    requires arcs { AreArcsOf moves.now arcs.now }
    requires leads { AreLeads moves.now arcs.now.finish leads.now }
    ensures { OnOk result (AddsUnlessLike moves.now arcs.now.finish places.now at row.old.items
        row.new.items) }
{
    let Some(place) = number_at(places, at) else {
        return Ok(());
    };
    if is_held(moves, arcs, leads, places, at) {
        return Ok(());
    }
    row.push(place)?;
    Ok(())
}

/// The places but for those for whose moves the ones before stand.
fn without_held(
    alloc: Global,
    moves: &[Move],
    arcs: &MoveArcs,
    leads: &[usize],
    places: &[usize],
) -> Result<Vec<usize>, Memory>
    requires arcs { AreArcsOf moves.now arcs.now }
    requires leads { AreLeads moves.now arcs.now.finish leads.now }
    ensures only { IfOk result (λ row. (p : ℕ) → IsIn p row.items → IsIn p places.now) }
    ensures all { IfOk result (λ row. (p : ℕ) (m : Move) → slice_get moves.now p ≡ Some m →
        IsIn p places.now → IsHeld moves.now arcs.now.finish row.items p) }
{
    let mut row = Vec::new(alloc);
    for at in 0..places.len() {
        add_unless_held(moves, arcs, leads, places, at, &mut row)?;
    }
    Ok(row)
}

/// Places of the labelled moves that leave a state, where no empty move leaves it.
fn own_places(
    alloc: Global,
    moves: &[Move],
    arcs: &MoveArcs,
    state: usize,
) -> Result<Vec<usize>, Memory>
    requires arcs { AreArcsOf moves.now arcs.now }
    requires alone { arcs_at arcs.now.quiet state ≡ [] }
    ensures { IfOk result (λ places. IsRow moves.now arcs.now.finish state places.items) }
{
    let mut places = Vec::new(alloc);
    add_places(arcs.loud_from(state), &mut places)?;
    Ok(places)
}

/// The row of a state: places of labelled moves that follow it, and that stand for all of these.
pub(crate) fn row_of(
    alloc: Global,
    moves: &[Move],
    arcs: &MoveArcs,
    leads: &[usize],
    rows: &Rows,
    state: usize,
) -> Result<Vec<usize>, Memory>
    requires arcs { AreArcsOf moves.now arcs.now }
    requires leads { AreLeads moves.now arcs.now.finish leads.now }
    requires rows { AreRows moves.now arcs.now.finish (get nat_eq rows.now) }
    ensures { IfOk result (λ row. IsRow moves.now arcs.now.finish state row.items) }
{
    if arcs.quiet_from(state).is_empty() {
        return own_places(alloc, moves, arcs, state);
    }
    let mut places = found_places(alloc, moves, arcs, rows, state)?;
    sort_places(moves, &mut places);
    let row = without_held(alloc, moves, arcs, leads, places.as_slice())?;
    Ok(row)
}
