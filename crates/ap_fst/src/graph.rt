ghost use Rattle.std.specs.Prelude.{◌≡◌, ◌<◌, ◌≤◌, ◌^◌, ◌↔◌, ℕ, [], ◌∷◌, IsTrue, nat_lt, nat_le, true, false, length, map, slice_get, IfOk, OnOk};
ghost use Rattle.std.specs.Option.{OnSome, IfSome};
ghost use Rattle.std.specs.List.{AllWithin};
ghost use Rattle.std.specs.List.Sorted.{IsNonDecreasingBy, IsPartitionPoint, IsPermutation};
ghost use Rattle.ap_fst.specs.Lists.{IsIn, IsKeyRange};
ghost use Rattle.ap_fst.specs.Graphs.{arc_from, arc_to, arcs_at, Grows, Reaches};

use ap_symbol::Memory;
use indexmap::IndexSet;
use std::alloc::Global;
use std::marker::Model;

/// A step from a state to a state.
#[derive(Clone, Copy, Debug)]
pub(crate) struct Arc {
    pub(crate) from: usize,
    pub(crate) to: usize,
}

/// Whether no arc leaves a smaller state than the one before it.
fn are_sorted(arcs: &[Arc]) -> bool
    ensures { IsTrue result → IsNonDecreasingBy arc_from arcs.now }
{
    arcs.is_sorted_by(|a, b| a.from <= b.from)
}

/// Sorts the arcs, unless they are sorted as they come, which those of most sections are.
pub(crate) fn sort_arcs(arcs: &mut Vec<Arc>)
    ensures permutation { IsPermutation arcs.old.items arcs.new.items }
    ensures sorted { IsNonDecreasingBy arc_from arcs.new.items }
{
    if are_sorted(arcs.as_slice()) {
        return;
    }
    arcs.sort_unstable_by_key(|a| a.from);
}

/// Where the arcs of a state begin, by halving.
pub(crate) fn low_of(arcs: &[Arc], state: usize) -> usize
    requires { IsNonDecreasingBy arc_from arcs.now }
    ensures point { IsPartitionPoint (λ a. nat_lt (arc_from a) state ≡ true)
        (λ a. nat_lt (arc_from a) state ≡ false) arcs.now result }
    ensures bound { result ≤ length arcs.now }
{
    arcs.partition_point(|a| a.from < state)
}

fn high_of(arcs: &[Arc], state: usize) -> usize
    requires { IsNonDecreasingBy arc_from arcs.now }
    ensures point { IsPartitionPoint (λ a. nat_le (arc_from a) state ≡ true)
        (λ a. nat_le (arc_from a) state ≡ false) arcs.now result }
    ensures bound { result ≤ length arcs.now }
{
    arcs.partition_point(|a| a.from <= state)
}

/// Whether there are so many arcs, and these first ones leave states below this one.
fn leave_below(arcs: &[Arc], state: usize, count: usize) -> bool
    requires { IsNonDecreasingBy arc_from arcs.now }
    ensures within { IsTrue result → count ≤ length arcs.now }
    ensures below { IsTrue result →
        AllWithin (λ a. nat_lt (arc_from a) state ≡ true) arcs.now 0 count }
{
    if count > arcs.len() {
        return false;
    }
    if count == 0 {
        return true;
    }
    arcs[count - 1].from < state
}

/// Whether no arc from this place on leaves a state below this one.
fn none_leaves_below(arcs: &[Arc], state: usize, place: usize) -> bool
    requires { IsNonDecreasingBy arc_from arcs.now }
    ensures { IsTrue result →
        AllWithin (λ a. nat_lt (arc_from a) state ≡ false) arcs.now place (length arcs.now) }
{
    if place >= arcs.len() {
        return true;
    }
    arcs[place].from >= state
}

/// Whether the arcs of a state, and of those above it, begin at a place.
fn begin_at(arcs: &[Arc], state: usize, place: usize) -> bool
    requires { IsNonDecreasingBy arc_from arcs.now }
    ensures point { IsTrue result →
        IsPartitionPoint (λ a. nat_lt (arc_from a) state ≡ true) (λ a. nat_lt (arc_from a) state
        ≡ false) arcs.now place }
    ensures bound { IsTrue result → place ≤ length arcs.now }
{
    if !leave_below(arcs, state, place) {
        return false;
    }
    none_leaves_below(arcs, state, place)
}

fn noted_place(places: &[usize], state: usize) -> usize {
    places.get(state).copied().unwrap_or(0)
}

/// Where the arcs of a state begin: at the place that is noted for it, or else by halving.
fn low_by(arcs: &[Arc], places: &[usize], state: usize) -> usize
    requires { IsNonDecreasingBy arc_from arcs.now }
    ensures point { IsPartitionPoint (λ a. nat_lt (arc_from a) state ≡ true)
        (λ a. nat_lt (arc_from a) state ≡ false) arcs.now result }
    ensures bound { result ≤ length arcs.now }
{
    let place = noted_place(places, state);
    if begin_at(arcs, state, place) {
        return place;
    }
    low_of(arcs, state)
}

/// Where the arcs of a state end: where those of the next one begin.
fn high_by(arcs: &[Arc], places: &[usize], state: usize) -> usize
    requires { IsNonDecreasingBy arc_from arcs.now }
    ensures point { IsPartitionPoint (λ a. nat_le (arc_from a) state ≡ true)
        (λ a. nat_le (arc_from a) state ≡ false) arcs.now result }
    ensures bound { result ≤ length arcs.now }
{
    if state == usize::MAX {
        return high_of(arcs, state);
    }
    low_by(arcs, places, state + 1)
}

/// Where the arcs of a state begin and end.
fn range_by(arcs: &[Arc], places: &[usize], state: usize) -> (usize, usize)
    requires { IsNonDecreasingBy arc_from arcs.now }
    ensures { IsKeyRange arc_from state arcs.now result.0 result.1 }
{
    let low = low_by(arcs, places, state);
    let high = high_by(arcs, places, state);
    (low, high)
}

/// The arcs that leave a state. They are looked for at the places that are noted for states, and
/// by halving where none is noted; what is noted is tested before it is relied on.
pub(crate) fn arcs_by<'a>(arcs: &'a [Arc], places: &[usize], state: usize) -> &'a [Arc]
    requires { IsNonDecreasingBy arc_from arcs.now }
    ensures { result.now ≡ arcs_at arcs.now state }
{
    let (low, high) = range_by(arcs, places, state);
    &arcs[low..high]
}

/// The arcs that leave a state. They are found by halving.
pub(crate) fn arcs_from(arcs: &[Arc], state: usize) -> &[Arc]
    requires { IsNonDecreasingBy arc_from arcs.now }
    ensures { result.now ≡ arcs_at arcs.now state }
{
    arcs_by(arcs, &[], state)
}

/// For each state below the count, how many arcs leave states below it: the place where its arcs
/// begin.
pub(crate) fn first_places(
    alloc: Global,
    arcs: &[Arc],
    count: usize,
) -> Result<Vec<usize>, Memory> {
    let mut places = Vec::with_capacity(alloc, count)?;
    for (at, arc) in arcs.iter().enumerate() {
        let noted = arc.from.saturating_add(1).min(count);
        if noted > places.len() {
            places.resize(noted, at)?;
        }
    }
    places.resize(count, arcs.len())?;
    Ok(places)
}

/// States, each once, in the order in which they came. Whether a state is there is known by its
/// mark, and by hashing where it has none.
#[derive(Debug, Drop)]
pub(crate) struct StateSet {
    states: Vec<usize>,
    marks: Vec<bool>,
    further: IndexSet<usize>,
}

impl Model for StateSet {
    ghost use Rattle.std.specs.Prelude.{List, ℕ};
    ghost use Rattle.ap_fst.specs.Marks.{AreKnown};

    ghost Value = { List ℕ };

    ghost view = { λ s. s.states.items };

    ghost invariant = { λ s. AreKnown s.marks.items s.further.keys s.states.items };
}

impl StateSet {
    /// No state, and marks for the states below this number.
    pub(crate) fn new(alloc: Global, marks: usize) -> Result<StateSet, Memory>
        ensures { IfOk result (λ set. set ≡ []) }
    {
        Ok(StateSet {
            states: Vec::new(alloc),
            marks: vec![in alloc; false; marks]?,
            further: IndexSet::new(alloc),
        })
    }

    pub(crate) fn len(&self) -> usize
        ensures { result ≡ length self.now }
    {
        self.states.len()
    }

    /// The state at a place.
    pub(crate) fn get(&self, at: usize) -> Option<usize>
        ensures value { result ≡ slice_get self.now at }
        ensures bound { OnSome result (at < 2 ^ 63) }
    {
        if at >= self.states.len() {
            return None;
        }
        Some(self.states[at])
    }

    /// A number above all states, where each has a mark.
    pub(crate) fn bound(&self) -> Option<usize>
        ensures { IfSome result (λ bound. (s : ℕ) → IsIn s self.now → s < bound) }
    {
        if self.further.is_empty() {
            return Some(self.marks.len());
        }
        None
    }

    pub(crate) fn contains(&self, state: usize) -> bool
        ensures { IsTrue result ↔ IsIn state self.now }
    {
        if state < self.marks.len() {
            return self.marks[state];
        }
        self.further.contains(&state)
    }

    /// Adds a state, unless it is there.
    pub(crate) fn add(&mut self, state: usize) -> Result<(), Memory>
        ensures { OnOk result (Grows self.old (state ∷ []) self.new) }
    {
        if self.contains(state) {
            return Ok(());
        }
        self.states.push(state)?;
        if state < self.marks.len() {
            self.marks[state] = true;
            return Ok(());
        }
        if let Err(failed) = self.further.insert(state) {
            self.states.pop();
            return Err(failed.into());
        }
        Ok(())
    }
}

fn add_states(set: &mut StateSet, states: &[usize]) -> Result<(), Memory>
    ensures { OnOk result (Grows set.old states.now set.new) }
{
    for state in states {
        set.add(*state)?;
    }
    Ok(())
}

pub(crate) fn add_targets(set: &mut StateSet, arcs: &[Arc]) -> Result<(), Memory>
    ensures { OnOk result (Grows set.old (map arc_to arcs.now) set.new) }
{
    for arc in arcs {
        set.add(arc.to)?;
    }
    Ok(())
}

/// Adds these states to a set that is empty, and all that are reached from them over the arcs.
fn reach_into(
    mut set: StateSet,
    arcs: &[Arc],
    places: &[usize],
    starts: &[usize],
) -> Result<StateSet, Memory>
    requires empty { set ≡ [] }
    requires sorted { IsNonDecreasingBy arc_from arcs.now }
    ensures { IfOk result (λ set. (s : ℕ) → IsIn s set ↔ Reaches arcs.now starts.now s) }
{
    add_states(&mut set, starts)?;
    let mut at = 0;
    while let Some(state) = set.get(at) {
        add_targets(&mut set, arcs_by(arcs, places, state))?;
        at += 1;
    }
    Ok(set)
}

/// The states that are reached from these over the arcs. It is linear in the arcs and starts, and
/// takes memory by their number, where the states are numbered below it; others are looked up.
pub(crate) fn reach(alloc: Global, arcs: &[Arc], starts: &[usize]) -> Result<StateSet, Memory>
    requires { IsNonDecreasingBy arc_from arcs.now }
    ensures { IfOk result (λ set. (s : ℕ) → IsIn s set ↔ Reaches arcs.now starts.now s) }
{
    let count = arcs.len().saturating_add(starts.len()).saturating_add(1);
    let set = StateSet::new(alloc, count)?;
    let places = first_places(alloc, arcs, count)?;
    let reached = reach_into(set, arcs, places.as_slice(), starts)?;
    Ok(reached)
}

/// The same, for one of many searches over the same arcs: it takes time and memory by what it
/// reaches alone, and looks up each state.
pub(crate) fn reach_near(alloc: Global, arcs: &[Arc], starts: &[usize]) -> Result<StateSet, Memory>
    requires { IsNonDecreasingBy arc_from arcs.now }
    ensures { IfOk result (λ set. (s : ℕ) → IsIn s set ↔ Reaches arcs.now starts.now s) }
{
    let set = StateSet::new(alloc, 0)?;
    let reached = reach_into(set, arcs, &[], starts)?;
    Ok(reached)
}
