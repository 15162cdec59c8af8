ghost use Rattle.std.specs.Prelude.{◌≡◌, ◌<◌, ◌↔◌, IsTrue, nat_lt, nat_le, ◌≤◌, ◌-◌, ◌==◌, length, slice_index_or, true, false};
ghost use Rattle.std.specs.List.{filter};
ghost use Rattle.std.specs.Option.{option_copied};
ghost use Rattle.std.specs.Ordering.{nat_cmp};
ghost use Rattle.std.specs.List.Sorted.{IsNonDecreasingBy, IsPartitionPoint};
ghost use Rattle.ap_fst.specs.Lists.{IsIn, IsKeyRange, IsLow, Ascends};
ghost use Rattle.ap_fst.specs.Machines.{edge_from, edges_of, IsSpan, IsSpanBy};
ghost use Rattle.ap_fst.specs.Order.{left_place};
ghost use Rattle.ap_fst.specs.declared.label.Edge.{Edge};

use crate::label::{Edge, Edges, Finals};
use crate::order::compare_left;
use ap_symbol::Symbol;
use std::marker::Model;

/// Edges among which an end is looked for first: most states have no more with one left side.
const NEAR: usize = 8;

fn low_of(edges: &[Edge], state: usize) -> usize
    requires { IsNonDecreasingBy edge_from edges.now }
    ensures point { IsPartitionPoint (λ e. nat_lt (edge_from e) state ≡ true)
        (λ e. nat_lt (edge_from e) state ≡ false) edges.now result }
    ensures bound { result ≤ length edges.now }
{
    edges.partition_point(|e| e.from < state)
}

fn high_of(edges: &[Edge], state: usize) -> usize
    requires { IsNonDecreasingBy edge_from edges.now }
    ensures point { IsPartitionPoint (λ e. nat_le (edge_from e) state ≡ true)
        (λ e. nat_le (edge_from e) state ≡ false) edges.now result }
    ensures bound { result ≤ length edges.now }
{
    edges.partition_point(|e| e.from <= state)
}

/// The same point, looked for among the first few edges before the rest.
fn near_high_of(edges: &[Edge], state: usize) -> usize
    requires { IsNonDecreasingBy edge_from edges.now }
    ensures point { IsPartitionPoint (λ e. nat_le (edge_from e) state ≡ true)
        (λ e. nat_le (edge_from e) state ≡ false) edges.now result }
    ensures bound { result ≤ length edges.now }
{
    let near = edges.len().min(NEAR);
    let high = high_of(&edges[..near], state);
    if high < near {
        return high;
    }
    near + high_of(&edges[near..], state)
}

/// Where the edges of a state begin and end: the beginning by halving, the end from there on.
fn range_of(edges: &[Edge], state: usize) -> (usize, usize)
    requires { IsNonDecreasingBy edge_from edges.now }
    ensures { IsKeyRange edge_from state edges.now result.0 result.1 }
{
    let low = low_of(edges, state);
    let more = near_high_of(&edges[low..], state);
    (low, low + more)
}

fn is_below(edges: &[Edge], state: usize, at: usize) -> bool
    requires { at ≤ length edges.now }
    ensures { IsTrue result → 0 < at → (d : Edge) →
        edge_from (slice_index_or edges.now (at - 1) d) < state }
{
    if at == 0 {
        return true;
    }
    edges[at - 1].from < state
}

fn is_above(edges: &[Edge], state: usize, at: usize) -> bool
    ensures { IsTrue result → at < length edges.now → (d : Edge) →
        state ≤ edge_from (slice_index_or edges.now at d) }
{
    if at >= edges.len() {
        return true;
    }
    edges[at].from >= state
}

/// Whether the edges from this place on are all that leave the state or a later one.
fn is_low(edges: &[Edge], state: usize, at: usize) -> bool
    requires { IsNonDecreasingBy edge_from edges.now }
    ensures { IsTrue result → IsLow edge_from state edges.now at }
{
    if at > edges.len() {
        return false;
    }
    if !is_below(edges, state, at) {
        return false;
    }
    is_above(edges, state, at)
}

/// Where the edges of a state begin: at the guess if it is right, else by halving.
fn low_near(edges: &[Edge], state: usize, guess: usize) -> usize
    requires { IsNonDecreasingBy edge_from edges.now }
    ensures point { IsPartitionPoint (λ e. nat_lt (edge_from e) state ≡ true)
        (λ e. nat_lt (edge_from e) state ≡ false) edges.now result }
    ensures bound { result ≤ length edges.now }
{
    if is_low(edges, state, guess) {
        return guess;
    }
    low_of(edges, state)
}

/// Where the edges of a state begin and end, with a guess where they begin.
fn range_near(edges: &[Edge], state: usize, guess: usize) -> (usize, usize)
    requires { IsNonDecreasingBy edge_from edges.now }
    ensures { IsKeyRange edge_from state edges.now result.0 result.1 }
{
    let low = low_near(edges, state, guess);
    let more = near_high_of(&edges[low..], state);
    (low, low + more)
}

fn part_of(edges: &[Edge], state: usize) -> &[Edge]
    requires { IsNonDecreasingBy edge_from edges.now }
    ensures { result.now ≡ filter (λ e. edge_from e == state) edges.now }
{
    let (low, high) = range_of(edges, state);
    &edges[low..high]
}

fn low_by(edges: &[Edge], state: usize, left: Option<&Symbol>) -> usize
    requires { IsNonDecreasingBy (left_place state (option_copied left)) edges.now }
    ensures point { IsPartitionPoint (λ e. nat_lt (left_place state (option_copied left.entry) e) 1
        ≡ true) (λ e. nat_lt (left_place state (option_copied left.entry) e) 1 ≡ false)
        edges.now result }
    ensures bound { result ≤ length edges.now }
{
    edges.partition_point(|e| compare_left(e, state, left).is_lt())
}

fn high_by(edges: &[Edge], state: usize, left: Option<&Symbol>) -> usize
    requires { IsNonDecreasingBy (left_place state (option_copied left)) edges.now }
    ensures point { IsPartitionPoint (λ e. nat_le (left_place state (option_copied left.entry) e) 1
        ≡ true) (λ e. nat_le (left_place state (option_copied left.entry) e) 1 ≡ false)
        edges.now result }
    ensures bound { result ≤ length edges.now }
{
    edges.partition_point(|e| compare_left(e, state, left).is_le())
}

/// The same point, looked for among the first few edges before the rest.
fn near_high_by(edges: &[Edge], state: usize, left: Option<&Symbol>) -> usize
    requires { IsNonDecreasingBy (left_place state (option_copied left)) edges.now }
    ensures point { IsPartitionPoint (λ e. nat_le (left_place state (option_copied left.entry) e) 1
        ≡ true) (λ e. nat_le (left_place state (option_copied left.entry) e) 1 ≡ false)
        edges.now result }
    ensures bound { result ≤ length edges.now }
{
    let near = edges.len().min(NEAR);
    let high = high_by(&edges[..near], state, left);
    if high < near {
        return high;
    }
    near + high_by(&edges[near..], state, left)
}

/// Where the edges of a state with this left side begin and end: the beginning by halving, the end
/// from there on.
fn range_by(edges: &[Edge], state: usize, left: Option<&Symbol>) -> (usize, usize)
    requires { IsNonDecreasingBy (left_place state (option_copied left)) edges.now }
    ensures { IsKeyRange (left_place state (option_copied left.entry)) 1 edges.now
        result.0 result.1 }
{
    let low = low_by(edges, state, left);
    let more = near_high_by(&edges[low..], state, left);
    (low, low + more)
}

fn is_listed(states: &[usize], state: usize) -> bool
    requires { Ascends nat_cmp states.now }
    ensures { IsTrue result ↔ IsIn state states.now }
{
    states.binary_search(&state).is_ok()
}

/// A transducer. State 0 is the start; edges and final states are kept in strictly ascending order.
#[derive(Debug, Drop)]
pub struct Fst {
    states: usize,
    edges: Edges,
    finals: Finals,
}

impl Model for Fst {
    ghost use Rattle.ap_fst.specs.Machines.{Machine, IsMachine};

    ghost Value = { Machine };

    ghost view = { λ f. record { states = f.states; edges = f.edges; finals = f.finals } };

    ghost invariant = { λ f. IsMachine
        (record { states = f.states; edges = f.edges; finals = f.finals }) };
}

impl Fst {
    ghost use Rattle.ap_fst.specs.Machines.{Machine, IsMachine};

    /// The transducer of these parts. It takes no memory.
    pub fn build(states: usize, edges: Edges, finals: Finals) -> Fst
        requires { IsMachine (record { states = states; edges = edges; finals = finals }) }
        ensures { result ≡ record { states = states; edges = edges; finals = finals } }
    {
        Fst {
            states,
            edges,
            finals,
        }
    }

    /// The number of states.
    pub fn states(&self) -> usize
        ensures value { result ≡ self.now.states }
        ensures sound { IsMachine self.now }
    {
        self.states
    }

    /// All edges, in their order.
    pub fn edges(&self) -> &[Edge]
        ensures value { result.now ≡ self.now.edges }
        ensures sound { IsMachine self.now }
    {
        self.edges.as_slice()
    }

    /// The final states, in their order.
    pub fn finals(&self) -> &[usize]
        ensures value { result.now ≡ self.now.finals }
        ensures sound { IsMachine self.now }
    {
        self.finals.as_slice()
    }

    /// The edges that leave a state, in their order. They are found by halving.
    pub fn edges_from(&self, state: usize) -> &[Edge]
        ensures value { result.now ≡ edges_of self.now state }
        ensures sound { IsMachine self.now }
    {
        part_of(self.edges.as_slice(), state)
    }

    /// The places in `edges` from the first up to the second that hold the edges of a state.
    pub fn span(&self, state: usize) -> (usize, usize)
        ensures span { IsSpan self.now.edges state result.0 result.1 }
        ensures sound { IsMachine self.now }
    {
        range_of(self.edges.as_slice(), state)
    }

    /// The same places, found at once where the guess of the first is right. A wrong guess costs
    /// time alone.
    pub fn span_near(&self, state: usize, guess: usize) -> (usize, usize)
        ensures span { IsSpan self.now.edges state result.0 result.1 }
        ensures sound { IsMachine self.now }
    {
        range_near(self.edges.as_slice(), state, guess)
    }

    /// The places in `edges` from the first up to the second that hold the edges of a state with
    /// this left side, or with an empty one. They are found by halving.
    pub fn span_by(&self, state: usize, left: Option<&Symbol>) -> (usize, usize)
        ensures span { IsSpanBy self.now.edges state (option_copied left.entry) result.0 result.1 }
        ensures sound { IsMachine self.now }
    {
        range_by(self.edges.as_slice(), state, left)
    }

    /// Whether the state is final. It is found by halving.
    pub fn is_final(&self, state: usize) -> bool
        ensures holds { IsTrue result ↔ IsIn state self.now.finals }
        ensures sound { IsMachine self.now }
    {
        is_listed(self.finals.as_slice(), state)
    }
}
