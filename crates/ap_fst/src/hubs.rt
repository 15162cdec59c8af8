ghost use Rattle.std.specs.Prelude.{◌∷◌, [], List, nat_eq, IfOk, OnOk};
ghost use Rattle.std.specs.List.Sorted.{IsNonDecreasingBy};
ghost use Rattle.indexmap.specs.IndexMap.{get};
ghost use Rattle.ap_fst.specs.Lists.{IsIn};
ghost use Rattle.ap_fst.specs.Graphs.{arc_from, Reaches};
ghost use Rattle.ap_fst.specs.Hubs.{AreHubs, KeepsHubs};
ghost use Rattle.ap_fst.specs.declared.graph.Arc.{Arc};

use crate::components::{component_numbers, numbered_at};
use crate::graph::{Arc, arcs_by};
use ap_symbol::Memory;
use indexmap::IndexMap;
use std::alloc::Global;

/// Hubs of states: one state for all that lie on a cycle with it. The others are their own hubs.
pub(crate) type Hubs = IndexMap<usize, usize>;

pub(crate) fn hub_of(hubs: &Hubs, state: usize) -> usize
    ensures { (arcs : List Arc) → AreHubs arcs (get nat_eq hubs.now) →
        Reaches arcs (result ∷ []) state }
{
    match hubs.get(&state) {
        Some(hub) => *hub,
        None => state,
    }
}

fn has_one_number(numbers: &IndexMap<usize, usize>, arc: &Arc) -> bool {
    match (numbers.get(&arc.from), numbers.get(&arc.to)) {
        (Some(number), Some(other)) => *number == *other,
        _ => false,
    }
}

/// The state that an arc enters gets the hub of the one that it leaves, where both have one number,
/// unless it has one.
fn pass_hub(hubs: &mut Hubs, numbers: &IndexMap<usize, usize>, arc: &Arc) -> Result<(), Memory>
    ensures { OnOk result ((arcs : List Arc) → IsIn arc.now arcs →
        KeepsHubs arcs (get nat_eq hubs.old) (get nat_eq hubs.new)) }
{
    if !has_one_number(numbers, arc) || hubs.contains_key(&arc.to) {
        return Ok(());
    }
    let hub = hub_of(hubs, arc.from);
    hubs.insert(arc.to, hub)?;
    Ok(())
}

/// The same of the arcs in turn.
fn pass_hubs(hubs: &mut Hubs, numbers: &IndexMap<usize, usize>, arcs: &[Arc]) -> Result<(), Memory>
    ensures { OnOk result ((all : List Arc) → ((a : Arc) → IsIn a arcs.now → IsIn a all) →
        KeepsHubs all (get nat_eq hubs.old) (get nat_eq hubs.new)) }
{
    for arc in arcs {
        pass_hub(hubs, numbers, arc)?;
    }
    Ok(())
}

/// The state at a place, if it is the first that got its number.
fn first_at(numbers: &IndexMap<usize, usize>, at: usize) -> Option<usize> {
    let (state, number) = numbers.get_index(at)?;
    if *number == at {
        return Some(*state);
    }
    None
}

/// A state becomes the hub of those with its number that are reached from it over arcs between
/// such.
fn spread_hub(
    hubs: &mut Hubs,
    numbers: &IndexMap<usize, usize>,
    arcs: &[Arc],
    places: &[usize],
    hub: usize,
) -> Result<(), Memory>
    requires { IsNonDecreasingBy arc_from arcs.now }
    ensures { OnOk result (KeepsHubs arcs.now (get nat_eq hubs.old) (get nat_eq hubs.new)) }
{
    let mut at = hubs.len();
    pass_hubs(hubs, numbers, arcs_by(arcs, places, hub))?;
    while let Some(member) = numbered_at(hubs, at) {
        pass_hubs(hubs, numbers, arcs_by(arcs, places, member))?;
        at += 1;
    }
    Ok(())
}

fn no_hubs(alloc: Global) -> Hubs
    ensures { (arcs : List Arc) → AreHubs arcs (get nat_eq result) }
{
    IndexMap::new(alloc)
}

/// Whether one of the arcs leaves a state that some arc enters, and enters one that some arc leaves.
/// Where none does, no arc lies on a cycle. The arcs are those that leave a state, and the same
/// turned round.
fn may_lie_on_cycle(
    leaving: &[Arc],
    leaving_places: &[usize],
    entering: &[Arc],
    entering_places: &[usize],
) -> bool
    requires leaving { IsNonDecreasingBy arc_from leaving.now }
    requires entering { IsNonDecreasingBy arc_from entering.now }
{
    for arc in leaving {
        if !arcs_by(leaving, leaving_places, arc.to).is_empty()
            && !arcs_by(entering, entering_places, arc.from).is_empty()
        {
            return true;
        }
    }
    false
}

/// Numbers of states, the same for two that lie on one cycle of these arcs; none where it is plain
/// that there is no cycle, as in most dictionaries. They are hints: nothing rests on them.
pub(crate) fn cycle_numbers(
    alloc: Global,
    leaving: &[Arc],
    leaving_places: &[usize],
    entering: &[Arc],
    entering_places: &[usize],
) -> Result<IndexMap<usize, usize>, Memory>
    requires leaving { IsNonDecreasingBy arc_from leaving.now }
    requires entering { IsNonDecreasingBy arc_from entering.now }
{
    if may_lie_on_cycle(leaving, leaving_places, entering, entering_places) {
        component_numbers(alloc, leaving)
    } else {
        Ok(IndexMap::new(alloc))
    }
}

/// The hubs of states by numbers, which are the same for two states that lie on one cycle. Each
/// state is reached from its hub over the arcs.
pub(crate) fn hubs_over(
    alloc: Global,
    arcs: &[Arc],
    places: &[usize],
    numbers: &IndexMap<usize, usize>,
) -> Result<Hubs, Memory>
    requires { IsNonDecreasingBy arc_from arcs.now }
    ensures { IfOk result (λ hubs. AreHubs arcs.now (get nat_eq hubs)) }
{
    let mut hubs = no_hubs(alloc);
    for at in 0..numbers.len() {
        if let Some(hub) = first_at(numbers, at) {
            spread_hub(&mut hubs, numbers, arcs, places, hub)?;
        }
    }
    Ok(hubs)
}
