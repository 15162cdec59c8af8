ghost use Rattle.std.specs.Prelude.{◌≡◌, ◌≢◌, ◌↔◌, ℕ, ◌<◌, ◌≤◌, IsTrue, None, IfOk, OnOk, length};
ghost use Rattle.std.specs.Option.{option_copied};
ghost use Rattle.ap_fst.specs.Lists.{IsIn};
ghost use Rattle.ap_fst.specs.Removal.{AddsWhere};
ghost use Rattle.ap_det.specs.Exits.{edge_at, RisesByLabel, HasLabel, IsGroup, LeadsAt, LeadsWithin, AddsGroup, AddsOuts};

use crate::sets::Sets;
use ap_fst::{Edge, Edges, Label, compare_labels};
use ap_symbol::Memory;
use std::alloc::Global;

/// The edge that the place with a number names.
fn edge_of<'a>(edges: &'a [Edge], places: &[usize], number: usize) -> Option<&'a Edge>
    ensures { option_copied result ≡ edge_at edges.now places.now number }
{
    match places.get(number) {
        None => None,
        Some(place) => edges.get(*place),
    }
}

fn has_label(edges: &[Edge], places: &[usize], number: usize, label: &Label) -> bool
    ensures { IsTrue result ↔ HasLabel (edge_at edges.now places.now) number label.now }
{
    match edge_of(edges, places, number) {
        None => false,
        Some(edge) => compare_labels(&edge.label, label).is_eq(),
    }
}

/// Where the edges with this label end that begin at a number.
fn group_end(edges: &[Edge], places: &[usize], low: usize, label: &Label) -> usize
    requires { low ≤ length places.now }
    ensures group { IsGroup (edge_at edges.now places.now) label.now low result }
    ensures bound { result ≤ length places.now }
{
    let mut high = low;
    'group: while high < places.len() {
        if !has_label(edges, places, high, label) {
            return high;
        }
        high += 1;
    }
    high
}

fn add_target(
    edges: &[Edge],
    places: &[usize],
    number: usize,
    targets: &mut Vec<usize>,
) -> Result<(), Memory>
    ensures { OnOk result (AddsWhere (LeadsAt (edge_at edges.now places.now) number)
        targets.old.items targets.new.items) }
{
    if let Some(edge) = edge_of(edges, places, number) {
        targets.push(edge.to)?;
    }
    Ok(())
}

fn targets_listed(
    alloc: Global,
    edges: &[Edge],
    places: &[usize],
    low: usize,
    high: usize,
) -> Result<Vec<usize>, Memory>
    ensures { IfOk result (λ targets. (t : ℕ) →
        IsIn t targets.items ↔ LeadsWithin (edge_at edges.now places.now) low high t) }
{
    let mut targets = Vec::new(alloc);
    for number in low..high {
        add_target(edges, places, number, &mut targets)?;
    }
    Ok(targets)
}

/// The states to which the edges from low up to high lead, each once where they are in order.
fn targets_of(
    alloc: Global,
    edges: &[Edge],
    places: &[usize],
    low: usize,
    high: usize,
) -> Result<Vec<usize>, Memory>
    ensures { IfOk result (λ targets. (t : ℕ) →
        IsIn t targets.items ↔ LeadsWithin (edge_at edges.now places.now) low high t) }
{
    let mut targets = targets_listed(alloc, edges, places, low, high)?;
    targets.dedup();
    Ok(targets)
}

/// Adds one edge for the edges with the label of the one at a number, and tells where these end.
fn add_group(
    alloc: Global,
    edges: &[Edge],
    places: &[usize],
    from: usize,
    low: usize,
    sets: &mut Sets,
    made: &mut Edges,
) -> Result<usize, Memory>
    requires rises { RisesByLabel (edge_at edges.now places.now) }
    requires there { (k : ℕ) → k < length places.now → edge_at edges.now places.now k ≢ None }
    requires within { low < length places.now }
    ensures group { IfOk result
        (λ high. AddsGroup (edge_at edges.now places.now) from low high sets.old sets.new
        made.old made.new) }
    ensures bound { IfOk result (λ high. high ≤ length places.now) }
{
    let Some(first) = edge_of(edges, places, low) else {
        return Ok(places.len());
    };
    let high = group_end(edges, places, low, &first.label);
    let targets = targets_of(alloc, edges, places, low, high)?;
    let to = sets.number(alloc, targets.as_slice())?;
    let label = first.label.copy(alloc)?;
    made.push(Edge { from, label, to })?;
    Ok(high)
}

/// Adds the edges of the set with a number: one for each label, to the number of the set of the
/// states to which the edges at these places lead by it.
pub(crate) fn add_groups(
    alloc: Global,
    edges: &[Edge],
    places: &[usize],
    from: usize,
    sets: &mut Sets,
    made: &mut Edges,
) -> Result<(), Memory>
    requires rises { RisesByLabel (edge_at edges.now places.now) }
    requires there { (k : ℕ) → k < length places.now → edge_at edges.now places.now k ≢ None }
    ensures { OnOk result (AddsOuts (edge_at edges.now places.now) from (length places.now) sets.old
        sets.new made.old made.new) }
{
    let mut low = 0;
    'groups: while low < places.len() {
        low = add_group(alloc, edges, places, from, low, sets, made)?;
    }
    Ok(())
}
