ghost use Rattle.std.specs.Prelude.{◌≡◌, ◌↔◌, ℕ, List, None, map, nat_eq, slice_get, IfOk, OnOk};
ghost use Rattle.std.specs.Option.{option_copied};
ghost use Rattle.std.specs.List.{filter};
ghost use Rattle.std.specs.List.Sorted.{IsNonDecreasingBy, IsPermutation};
ghost use Rattle.std.specs.Ordering.{nat_cmp};
ghost use Rattle.indexmap.specs.IndexMap.{get};
ghost use Rattle.ap_fst.specs.Lists.{IsIn, Ascends};
ghost use Rattle.ap_fst.specs.Order.{edge_cmp};
ghost use Rattle.ap_fst.specs.Graphs.{arc_from};
ghost use Rattle.ap_fst.specs.Paths.{Accepts};
ghost use Rattle.ap_fst.specs.Walks.{AcceptsLabels};
ghost use Rattle.ap_fst.specs.Covering.{AreArcsOf, AreLeads, AreRows};
ghost use Rattle.ap_fst.specs.Exits.{IsMoved, IsMovedBy, AddsEdges, AreEdges, KeepsRow};
ghost use Rattle.ap_fst.specs.Removal.{AddsWhere, is_quiet, move_arc, turned_arc, IsLoudArc, AreLoud, IsNumberIn, AddsFinal};
ghost use Rattle.ap_fst.specs.declared.label.Label.{Label};
ghost use Rattle.ap_fst.specs.declared.label.Edge.{Edge};

use crate::covering::{MoveArcs, leads_of};
use crate::draft::{Draft, Move};
use crate::fst::Fst;
use crate::graph::{Arc, StateSet, sort_arcs};
use crate::label::{Edge, Edges, Finals};
use crate::numbering::Numbering;
use crate::order::compare_edges;
use crate::rows::{Rows, kept_states, number_at, row_of};
use ap_symbol::Memory;
use indexmap::IndexMap;
use std::alloc::Global;

fn quiet_list(alloc: Global, moves: &[Move]) -> Result<Vec<Arc>, Memory>
    ensures { IfOk result (λ arcs. arcs.items ≡ map move_arc (filter is_quiet moves.now)) }
{
    let mut arcs = Vec::new(alloc);
    for next in moves {
        if next.label.is_none() {
            arcs.push(Arc {
                from: next.from,
                to: next.to,
            })?;
        }
    }
    Ok(arcs)
}

/// The moves without a label, in the order of the states that they leave.
pub(crate) fn quiet_arcs(alloc: Global, moves: &[Move]) -> Result<Vec<Arc>, Memory>
    ensures permutation { IfOk result
        (λ arcs. IsPermutation (map move_arc (filter is_quiet moves.now)) arcs.items) }
    ensures sorted { IfOk result (λ arcs. IsNonDecreasingBy arc_from arcs.items) }
{
    let mut arcs = quiet_list(alloc, moves)?;
    sort_arcs(&mut arcs);
    Ok(arcs)
}

fn turned_list(alloc: Global, moves: &[Move]) -> Result<Vec<Arc>, Memory>
    ensures { IfOk result (λ arcs. arcs.items ≡ map turned_arc (filter is_quiet moves.now)) }
{
    let mut arcs = Vec::new(alloc);
    for next in moves {
        if next.label.is_none() {
            arcs.push(Arc {
                from: next.to,
                to: next.from,
            })?;
        }
    }
    Ok(arcs)
}

/// The moves without a label turned round, in the order of the states that they enter.
pub(crate) fn turned_quiet_arcs(alloc: Global, moves: &[Move]) -> Result<Vec<Arc>, Memory>
    ensures permutation { IfOk result
        (λ arcs. IsPermutation (map turned_arc (filter is_quiet moves.now)) arcs.items) }
    ensures sorted { IfOk result (λ arcs. IsNonDecreasingBy arc_from arcs.items) }
{
    let mut arcs = turned_list(alloc, moves)?;
    sort_arcs(&mut arcs);
    Ok(arcs)
}

pub(crate) fn move_at(moves: &[Move], at: usize) -> Option<&Move>
    ensures { option_copied result ≡ slice_get moves.now at }
{
    moves.get(at)
}

fn add_loud(moves: &[Move], at: usize, arcs: &mut Vec<Arc>) -> Result<(), Memory>
    ensures { OnOk result (AddsWhere (IsLoudArc moves.now at) arcs.old.items arcs.new.items) }
{
    let Some(next) = move_at(moves, at) else {
        return Ok(());
    };
    if next.label.is_none() {
        return Ok(());
    }
    arcs.push(Arc {
        from: next.from,
        to: at,
    })?;
    Ok(())
}

fn loud_list(alloc: Global, moves: &[Move]) -> Result<Vec<Arc>, Memory>
    ensures { IfOk result (λ arcs. AreLoud moves.now arcs.items) }
{
    let mut arcs = Vec::new(alloc);
    for at in 0..moves.len() {
        add_loud(moves, at, &mut arcs)?;
    }
    Ok(arcs)
}

/// The labelled moves by place, in the order of the states that they leave.
pub(crate) fn loud_arcs(alloc: Global, moves: &[Move]) -> Result<Vec<Arc>, Memory>
    ensures loud { IfOk result (λ arcs. AreLoud moves.now arcs.items) }
    ensures sorted { IfOk result (λ arcs. IsNonDecreasingBy arc_from arcs.items) }
{
    let mut arcs = loud_list(alloc, moves)?;
    sort_arcs(&mut arcs);
    Ok(arcs)
}

fn add_move(
    alloc: Global,
    moves: &[Move],
    leads: &[usize],
    kept: &Numbering,
    number: usize,
    place: usize,
    edges: &mut Vec<Edge>,
) -> Result<(), Memory>
    ensures { OnOk result (AddsWhere (IsMoved moves.now leads.now kept.now number place)
        edges.old.items edges.new.items) }
{
    let Some(next) = move_at(moves, place) else {
        return Ok(());
    };
    let Some(lead) = number_at(leads, place) else {
        return Ok(());
    };
    let Some(label) = &next.label else {
        return Ok(());
    };
    let Some(to) = kept.place(lead) else {
        return Ok(());
    };
    edges.push(Edge {
        from: number,
        label: label.copy(alloc)?,
        to,
    })?;
    Ok(())
}

fn add_moves_of(
    alloc: Global,
    moves: &[Move],
    leads: &[usize],
    kept: &Numbering,
    number: usize,
    row: &[usize],
    edges: &mut Vec<Edge>,
) -> Result<(), Memory>
    ensures { OnOk result (AddsWhere (IsMovedBy moves.now leads.now kept.now number row.now)
        edges.old.items edges.new.items) }
{
    for place in row {
        add_move(alloc, moves, leads, kept, number, *place, edges)?;
    }
    Ok(())
}

fn no_rows(alloc: Global) -> Rows
    ensures { (s : ℕ) → get nat_eq result s ≡ None }
{
    IndexMap::new(alloc)
}

/// Keeps the row of a state that empty moves leave. Others are found at once.
fn keep_row(rows: &mut Rows, arcs: &MoveArcs, state: usize, row: Vec<usize>) -> Result<(), Memory>
    ensures { OnOk result (KeepsRow (get nat_eq rows.old) (get nat_eq rows.new) state row) }
{
    if arcs.quiet_from(state).is_empty() {
        return Ok(());
    }
    rows.insert(state, row)?;
    Ok(())
}

fn add_number(
    alloc: Global,
    moves: &[Move],
    arcs: &MoveArcs,
    leads: &[usize],
    kept: &Numbering,
    number: usize,
    rows: &mut Rows,
    edges: &mut Vec<Edge>,
) -> Result<(), Memory>
    requires arcs { AreArcsOf moves.now arcs.now }
    requires leads { AreLeads moves.now arcs.now.finish leads.now }
    requires rows { AreRows moves.now arcs.now.finish (get nat_eq rows.now) }
    ensures rows { OnOk result (AreRows moves.now arcs.now.finish (get nat_eq rows.new)) }
    ensures edges { OnOk result (AddsEdges moves.now arcs.now.finish leads.now kept.now number
        edges.old.items edges.new.items) }
{
    let Some(state) = kept.get(number) else {
        return Ok(());
    };
    let row = row_of(alloc, moves, arcs, leads, rows, state)?;
    add_moves_of(alloc, moves, leads, kept, number, row.as_slice(), edges)?;
    keep_row(rows, arcs, state, row)?;
    Ok(())
}

/// Edges of the labelled moves that follow the kept states. What follows in a draft is mostly kept
/// later, so that the rows of later states serve those before them.
fn all_edges(
    alloc: Global,
    moves: &[Move],
    arcs: &MoveArcs,
    leads: &[usize],
    kept: &Numbering,
) -> Result<Vec<Edge>, Memory>
    requires arcs { AreArcsOf moves.now arcs.now }
    requires leads { AreLeads moves.now arcs.now.finish leads.now }
    ensures { IfOk result (λ edges. AreEdges moves.now arcs.now.finish leads.now kept.now
        edges.items) }
{
    let mut rows = no_rows(alloc);
    let mut edges = Vec::new(alloc);
    for back in 0..kept.len() {
        let number = kept.len() - 1 - back;
        add_number(
            alloc, moves, arcs, leads, kept, number, &mut rows, &mut edges,
        )?;
    }
    Ok(edges)
}

/// Puts edges into order, each once.
fn sort_edges(edges: &mut Vec<Edge>)
    ensures ascend { Ascends edge_cmp edges.new.items }
    ensures members { (e : Edge) → IsIn e edges.new.items ↔ IsIn e edges.old.items }
{
    edges.sort_unstable_by(|a, b| compare_edges(a, b));
    edges.dedup_by(|a, b| compare_edges(a, b).is_eq());
}

fn add_final(
    kept: &Numbering,
    back: &StateSet,
    number: usize,
    finals: &mut Finals,
) -> Result<(), Memory>
    ensures { OnOk result (AddsFinal kept.now back.now number finals.old finals.new) }
{
    let Some(state) = kept.get(number) else {
        return Ok(());
    };
    if !back.contains(state) {
        return Ok(());
    }
    finals.push(number)
}

/// The numbers of the states that are among these.
fn final_numbers(alloc: Global, kept: &Numbering, back: &StateSet) -> Result<Finals, Memory>
    ensures ascend { IfOk result (λ finals. Ascends nat_cmp finals) }
    ensures members { IfOk result (λ finals. (n : ℕ) →
        IsIn n finals ↔ IsNumberIn kept.now back.now n) }
{
    let mut finals = Finals::new(alloc);
    for number in 0..kept.len() {
        add_final(kept, back, number, &mut finals)?;
    }
    Ok(finals)
}

/// The transducer of a draft: its label strings are those of the draft. States that only empty
/// moves enter are left out, but for some that several leave. Each of the others gets labelled moves
/// that follow empty ones from it, where an edge is left out if another with its label is found to
/// lead to all that it leads to.
pub fn without_empty(alloc: Global, draft: &Draft) -> Result<Fst, Memory>
    ensures { IfOk result (λ fst. (labels : List Label) → AcceptsLabels fst labels
        ↔ Accepts draft.now labels) }
{
    let moves = draft.moves.as_slice();
    let arcs = MoveArcs::of(alloc, moves, draft.end, draft.states)?;
    let leads = leads_of(alloc, &arcs, moves)?;
    let kept = kept_states(alloc, draft.start, moves, &arcs, leads.as_slice())?;
    let back = arcs.reaching_the_end(alloc)?;
    let mut edges = all_edges(alloc, moves, &arcs, leads.as_slice(), &kept)?;
    sort_edges(&mut edges);
    let finals = final_numbers(alloc, &kept, &back)?;
    Ok(Fst::build(kept.len(), Edges::from_vec(edges), finals))
}
