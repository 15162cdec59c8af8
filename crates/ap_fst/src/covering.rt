ghost use Rattle.std.specs.Prelude.{◌≡◌, ◌↔◌, [], ◌∷◌, ℕ, List, IsTrue, IfOk};
ghost use Rattle.std.specs.Option.{IfSome};
ghost use Rattle.ap_fst.specs.Lists.{IsIn};
ghost use Rattle.ap_fst.specs.Graphs.{arcs_at, Reaches};
ghost use Rattle.ap_fst.specs.Quiet.{Quiet};
ghost use Rattle.ap_fst.specs.Covering.{AreArcsOf, AreEntering, AreFollowedBy, IsLeadingToAny, AreCoveringBy, Covers, IsPassedOn, IsLead, AreLeads};
ghost use Rattle.ap_fst.specs.declared.graph.Arc.{Arc};
ghost use Rattle.ap_fst.specs.declared.draft.Move.{Move};

use crate::draft::Move;
use crate::graph::{Arc, StateSet, arcs_by, first_places, reach};
use crate::hubs::{Hubs, cycle_numbers, hub_of, hubs_over};
use crate::removal::{loud_arcs, quiet_arcs, turned_quiet_arcs};
use ap_symbol::Memory;
use std::alloc::Global;
use std::marker::Model;

/// How many arcs of a state are looked at, where finding out more would only save time.
const FEW: usize = 4;

/// The arcs of the moves of a draft, found by the state that they leave: empty moves, the same
/// turned round, and labelled moves by place; and hubs, one for the states that lie on cycles of
/// empty moves with one another: from which empty moves lead to a state, and to which they lead
/// from it.
#[derive(Debug, Drop)]
pub(crate) struct MoveArcs {
    quiet: Vec<Arc>,
    quiet_places: Vec<usize>,
    entering: Vec<Arc>,
    entering_places: Vec<usize>,
    loud: Vec<Arc>,
    loud_places: Vec<usize>,
    fronts: Hubs,
    backs: Hubs,
    finish: usize,
}

impl Model for MoveArcs {
    ghost use Rattle.std.specs.Prelude.{nat_eq};
    ghost use Rattle.indexmap.specs.IndexMap.{get};
    ghost use Rattle.ap_fst.specs.Covering.{ArcLists, AreInOrder};

    ghost Value = { ArcLists };

    ghost view = { λ a. record {
      quiet = a.quiet.items;
      entering = a.entering.items;
      loud = a.loud.items;
      finish = a.finish;
    } };

    ghost invariant = { λ a. AreInOrder
        (record {
          quiet = a.quiet.items;
          entering = a.entering.items;
          loud = a.loud.items;
          finish = a.finish;
        })
        (get nat_eq a.fronts) (get nat_eq a.backs) };
}

impl MoveArcs {
    /// The arcs of these moves between so many states, of a draft that ends in a state.
    pub(crate) fn of(
        alloc: Global,
        moves: &[Move],
        finish: usize,
        states: usize,
    ) -> Result<MoveArcs, Memory>
        ensures arcs { IfOk result (λ made. AreArcsOf moves.now made) }
        ensures finish { IfOk result (λ made. made.finish ≡ finish) }
    {
        let quiet = quiet_arcs(alloc, moves)?;
        let entering = turned_quiet_arcs(alloc, moves)?;
        let loud = loud_arcs(alloc, moves)?;
        let quiet_places = first_places(alloc, quiet.as_slice(), states)?;
        let entering_places = first_places(alloc, entering.as_slice(), states)?;
        let loud_places = first_places(alloc, loud.as_slice(), states)?;
        let numbers = cycle_numbers(
            alloc,
            quiet.as_slice(),
            quiet_places.as_slice(),
            entering.as_slice(),
            entering_places.as_slice(),
        )?;
        let fronts = hubs_over(alloc, quiet.as_slice(), quiet_places.as_slice(), &numbers)?;
        let backs = hubs_over(
            alloc,
            entering.as_slice(),
            entering_places.as_slice(),
            &numbers,
        )?;
        Ok(MoveArcs {
            quiet,
            quiet_places,
            entering,
            entering_places,
            loud,
            loud_places,
            fronts,
            backs,
            finish,
        })
    }

    /// The empty moves that leave a state.
    pub(crate) fn quiet_from(&self, state: usize) -> &[Arc]
        ensures { result.now ≡ arcs_at self.now.quiet state }
    {
        arcs_by(self.quiet.as_slice(), self.quiet_places.as_slice(), state)
    }

    /// The empty moves that enter a state, turned round.
    pub(crate) fn entering(&self, state: usize) -> &[Arc]
        ensures { result.now ≡ arcs_at self.now.entering state }
    {
        arcs_by(
            self.entering.as_slice(),
            self.entering_places.as_slice(),
            state,
        )
    }

    /// The labelled moves that leave a state, by place.
    pub(crate) fn loud_from(&self, state: usize) -> &[Arc]
        ensures { result.now ≡ arcs_at self.now.loud state }
    {
        arcs_by(self.loud.as_slice(), self.loud_places.as_slice(), state)
    }

    /// The states from which empty moves lead to the end.
    pub(crate) fn reaching_the_end(&self, alloc: Global) -> Result<StateSet, Memory>
        ensures { IfOk result (λ back. (s : ℕ) →
            IsIn s back ↔ Reaches self.now.entering (self.now.finish ∷ []) s) }
    {
        reach(alloc, self.entering.as_slice(), &[self.finish])
    }

    /// A state from which empty moves lead to this one.
    fn front(&self, state: usize) -> usize
        ensures { (moves : List Move) → AreArcsOf moves self.now → Quiet moves result state }
    {
        hub_of(&self.fronts, state)
    }

    /// A state to which empty moves lead from this one.
    fn back(&self, state: usize) -> usize
        ensures { (moves : List Move) → AreArcsOf moves self.now → Quiet moves state result }
    {
        hub_of(&self.backs, state)
    }

    /// Whether empty moves lead from the first state to a hub, and from this to the second.
    fn have_one_hub(&self, from: usize, to: usize) -> bool
        ensures { (moves : List Move) → AreArcsOf moves self.now → IsTrue result →
            Quiet moves from to }
    {
        self.back(from) == self.front(to)
    }

    /// The hub of a state, where it lies on a cycle with it, or the state itself.
    pub(crate) fn hub(&self, state: usize) -> usize
        ensures { (moves : List Move) → AreArcsOf moves self.now →
            IsLead moves self.now.finish state result }
    {
        let hub = self.back(state);
        if self.have_one_hub(hub, state) {
            return hub;
        }
        state
    }

    /// Whether empty moves alone leave the state, and few of them, and it is not the end.
    fn is_passed_on(&self, state: usize) -> bool
        ensures { IsTrue result → IsPassedOn self.now state }
    {
        if state == self.finish {
            return false;
        }
        if !self.loud_from(state).is_empty() {
            return false;
        }
        self.quiet_from(state).len() <= FEW
    }
}

/// The first few of these.
fn few(arcs: &[Arc]) -> &[Arc]
    ensures { (a : Arc) → IsIn a result.now → IsIn a arcs.now }
{
    let count = arcs.len().min(FEW);
    &arcs[..count]
}

fn is_entered(all: &[Arc], state: usize) -> bool
    ensures { IsTrue result → AreEntering all.now state }
{
    for arc in all {
        if arc.to == state {
            return true;
        }
    }
    false
}

/// Whether the states are the same, or have one hub, or one empty move is found from the first to
/// the second.
fn is_next(arcs: &MoveArcs, from: usize, to: usize) -> bool
    ensures { (moves : List Move) → AreArcsOf moves arcs.now → IsTrue result →
        Quiet moves from to }
{
    if from == to {
        return true;
    }
    if arcs.have_one_hub(from, to) {
        return true;
    }
    is_entered(few(arcs.entering(to)), from)
}

fn is_next_to_any(arcs: &MoveArcs, all: &[Arc], to: usize) -> bool
    ensures { (moves : List Move) → AreArcsOf moves arcs.now → IsTrue result →
        AreFollowedBy moves all.now to }
{
    for arc in all {
        if is_next(arcs, arc.to, to) {
            return true;
        }
    }
    false
}

/// The same from the state to one of those that these arcs enter.
fn is_next_before_any(arcs: &MoveArcs, from: usize, all: &[Arc]) -> bool
    ensures { (moves : List Move) → AreArcsOf moves arcs.now → IsTrue result →
        IsLeadingToAny moves from all.now }
{
    for arc in all {
        if is_next(arcs, from, arc.to) {
            return true;
        }
    }
    false
}

/// The same of at most two empty moves: one of a few that leave the first state, or one of a few
/// that enter the second. Few enter it even where many leave the first, as at the start of a choice.
fn is_near(arcs: &MoveArcs, from: usize, to: usize) -> bool
    ensures { (moves : List Move) → AreArcsOf moves arcs.now → IsTrue result →
        Quiet moves from to }
{
    if is_next(arcs, from, to) {
        return true;
    }
    if is_next_to_any(arcs, few(arcs.quiet_from(from)), to) {
        return true;
    }
    is_next_before_any(arcs, from, few(arcs.entering(to)))
}

fn is_near_any(arcs: &MoveArcs, all: &[Arc], to: usize) -> bool
    ensures { (moves : List Move) → AreArcsOf moves arcs.now → IsTrue result →
        AreFollowedBy moves all.now to }
{
    for arc in all {
        if is_near(arcs, arc.to, to) {
            return true;
        }
    }
    false
}

/// The same of at most three empty moves.
fn is_followed(arcs: &MoveArcs, from: usize, to: usize) -> bool
    ensures { (moves : List Move) → AreArcsOf moves arcs.now → IsTrue result →
        Quiet moves from to }
{
    if is_next(arcs, from, to) {
        return true;
    }
    is_near_any(arcs, few(arcs.quiet_from(from)), to)
}

/// Whether empty moves are found from the state to all that these arcs enter.
fn is_followed_by_all(arcs: &MoveArcs, from: usize, all: &[Arc]) -> bool
    ensures { (moves : List Move) → AreArcsOf moves arcs.now → IsTrue result → (a : Arc) →
        IsIn a all.now → Quiet moves from a.to }
{
    for arc in all {
        if !is_followed(arcs, from, arc.to) {
            return false;
        }
    }
    true
}

/// Whether what leads to the end from the second state is found to lead there from the first: empty
/// moves lead to the second, or to all states to which it is passed on. A few are looked at.
pub(crate) fn covers(arcs: &MoveArcs, first: usize, second: usize) -> bool
    ensures { (moves : List Move) → AreArcsOf moves arcs.now → IsTrue result →
        Covers moves arcs.now.finish first second }
{
    if first == second {
        return true;
    }
    if arcs.quiet_from(first).is_empty() {
        return false;
    }
    if is_followed(arcs, first, second) {
        return true;
    }
    if !arcs.is_passed_on(second) {
        return false;
    }
    is_followed_by_all(arcs, first, arcs.quiet_from(second))
}

/// The first state that one of these arcs enters and that covers a state.
fn first_covering(arcs: &MoveArcs, all: &[Arc], state: usize) -> Option<usize>
    ensures { (moves : List Move) → AreArcsOf moves arcs.now →
        IfSome result (λ found. AreCoveringBy moves arcs.now.finish all.now state found) }
{
    for arc in all {
        if covers(arcs, arc.to, state) {
            return Some(arc.to);
        }
    }
    None
}

/// The state that covers this one of those to which it is passed on, or the state itself.
fn passed_lead(arcs: &MoveArcs, state: usize) -> usize
    ensures { (moves : List Move) → AreArcsOf moves arcs.now →
        IsLead moves arcs.now.finish state result }
{
    if !arcs.is_passed_on(state) {
        return state;
    }
    let Some(found) = first_covering(arcs, arcs.quiet_from(state), state) else {
        return state;
    };
    found
}

/// A state that may stand for this one: the hub of the one that covers it. One that no empty move
/// leaves stands for itself.
fn lead(arcs: &MoveArcs, state: usize) -> usize
    ensures { (moves : List Move) → AreArcsOf moves arcs.now →
        IsLead moves arcs.now.finish state result }
{
    if arcs.quiet_from(state).is_empty() {
        return state;
    }
    arcs.hub(passed_lead(arcs, state))
}

/// For each move a state that may stand for the one that it enters.
pub(crate) fn leads_of(alloc: Global, arcs: &MoveArcs, moves: &[Move]) -> Result<Vec<usize>, Memory>
    requires { AreArcsOf moves.now arcs.now }
    ensures { IfOk result (λ leads. AreLeads moves.now arcs.now.finish leads.items) }
{
    let mut leads = Vec::with_capacity(alloc, moves.len())?;
    for next in moves {
        leads.push(lead(arcs, next.to))?;
    }
    Ok(leads)
}
