ghost use Rattle.std.specs.Prelude.{◌≡◌, ℕ, ◌∷◌, List, OnOk, IfOk, IfSome, Some, take, true};
ghost use Rattle.ap_fst.specs.Lists.{IsIn};
ghost use Rattle.ap_live.specs.Fitting.{Input};
ghost use Rattle.ap_live.specs.Outlines.{IsOutline};
ghost use Rattle.ap_live.specs.Outputs.{IsOutput, WritesWords};
ghost use Rattle.ap_live.specs.Rows.{AreRows};
ghost use Rattle.ap_live.specs.SomeWays.{AreSomeOutputs};
ghost use Rattle.ap_live.specs.Spreads.{arrival, arrival_to};
ghost use Rattle.ap_live.specs.Trails.{Way};
ghost use Rattle.std.specs.List.Sorted.{IsNonDecreasingBy};

use crate::along::word_along;
use crate::arrivals::{Arrival, arrivals_at};
use crate::backward::{edge_at, is_silent};
use crate::held::HeldRow;
use crate::outline::Outline;
use ap_fst::Fst;
use ap_symbol::{Memory, Word};
use std::alloc::Global;

/// Where the rows have fewer edges than this beyond one for each state, no state is reached along
/// more than a few thousand ways, since each edge more at most doubles them.
const BRANCHES: usize = 12;

/// So many ways back from an end are followed at most.
const MOST_WAYS: usize = 1_048_576;

/// So many edges are gone back by at most to the next way. Rows lead back to the start from
/// wherever they are, so that it is mostly a few.
const MOST_STEPS: usize = 1_073_741_824;

/// A state on a way back from an end: its row, the place of the edge behind it on the way, and by
/// how many of the edges that lead to it was gone back.
#[derive(Clone, Copy, Debug)]
pub struct Spot {
    pub row: usize,
    pub state: usize,
    pub place: usize,
    pub tried: usize,
}

/// Whether more than a few thousand ways may lead to a state.
pub(crate) fn may_be_many(rows: &[HeldRow]) -> bool {
    let mut branches: usize = 0;
    for row in rows {
        let links = row.taken().len().saturating_add(row.silent().len());
        branches = branches.saturating_add(links.saturating_sub(row.states().len()));
    }
    branches >= BRANCHES
}

/// The state of a row that the edge at a place leaves.
fn spot_at(fst: &Fst, row: usize, place: usize) -> Option<Spot> {
    let edge = edge_at(fst.edges(), place)?;
    Some(Spot {
        row,
        state: edge.from,
        place,
        tried: 0,
    })
}

/// The state before this one by the next of the edges that lead to it, if there is one more.
fn spot_before(fst: &Fst, rows: &[HeldRow], spot: Spot) -> Option<Spot> {
    let row = rows.get(spot.row)?;
    let silent = arrivals_at(row.silent(), spot.state);
    if spot.tried < silent.len() {
        return spot_at(fst, spot.row, silent[spot.tried].edge);
    }
    let taken = arrivals_at(row.taken(), spot.state);
    let link = taken.get(spot.tried - silent.len())?;
    spot_at(fst, spot.row.saturating_sub(1), link.edge)
}

/// Goes back from the last of these states by the next edge, or lets the state go where there is
/// none. Answers whether the start is reached.
fn go_back(fst: &Fst, rows: &[HeldRow], spots: &mut Vec<Spot>) -> Result<bool, Memory> {
    let Some(spot) = spots.pop() else {
        return Ok(false);
    };
    let Some(before) = spot_before(fst, rows, spot) else {
        return Ok(false);
    };
    spots.push(Spot {
        tried: spot.tried.saturating_add(1),
        ..spot
    })?;
    spots.push(before)?;
    Ok(before.row == 0 && before.state == 0)
}

/// Makes of these states those of the next way back from the first of them to the start, and
/// answers whether there is one.
fn find_way(fst: &Fst, rows: &[HeldRow], spots: &mut Vec<Spot>) -> Result<bool, Memory> {
    for _ in 0..MOST_STEPS {
        if spots.is_empty() {
            return Ok(false);
        }
        if go_back(fst, rows, spots)? {
            return Ok(true);
        }
    }
    Ok(false)
}

/// The places of the edges between these states, the last first.
fn places_of(alloc: Global, spots: &[Spot]) -> Result<Vec<usize>, Memory> {
    let mut places = Vec::with_capacity(alloc, spots.len())?;
    for at in 1..spots.len() {
        places.push(spots[at].place)?;
    }
    Ok(places)
}

/// Whether one of the edges leads to the state, and stands at this place.
fn has_link(links: &[Arrival], state: usize, place: usize) -> bool
    requires { IsNonDecreasingBy arrival_to links.now }
    ensures { result ≡ true → IsIn (arrival state place) links.now }
{
    for link in arrivals_at(links, state) {
        if link.edge == place && link.to == state {
            return true;
        }
    }
    false
}

/// Goes on from a state of a row by the edge at a place, if the rows have it: the row and the state
/// that it leads to.
fn go_on(
    fst: &Fst,
    rows: &[HeldRow],
    row: usize,
    state: usize,
    place: usize,
) -> Option<(usize, usize)>
    ensures { (next to : ℕ) → result ≡ Some (next, to) → (seen : List Input) (places : List ℕ) →
        AreRows fst.now.edges seen rows.now → Way fst.now.edges (take row seen) state places →
        Way fst.now.edges (take next seen) to (place ∷ places) }
{
    let edge = edge_at(fst.edges(), place)?;
    if edge.from != state {
        return None;
    }
    if is_silent(edge) {
        return Some((row, edge.to));
    }
    if row >= rows.len() {
        return None;
    }
    let next = rows.get(row + 1)?;
    if !has_link(next.taken(), edge.to, place) {
        return None;
    }
    Some((row + 1, edge.to))
}

/// Whether the edges at these places, the last first, lead along the rows to a final state of the
/// last one.
fn is_way(fst: &Fst, rows: &[HeldRow], places: &[usize]) -> bool
    ensures { result ≡ true → (seen : List Input) → AreRows fst.now.edges seen rows.now →
        (s : ℕ) × (Way fst.now.edges seen s places.now × IsIn s fst.now.finals) }
{
    let mut row = 0;
    let mut state = 0;
    let mut at = places.len();
    while at > 0 {
        at -= 1;
        let Some((next, to)) = go_on(fst, rows, row, state, places[at]) else {
            return false;
        };
        row = next;
        state = to;
    }
    if row != rows.len().saturating_sub(1) {
        return false;
    }
    fst.is_final(state)
}

/// The word that the edges at these places write, the last first, if they lead along the rows to a
/// final state of the last one.
fn word_of_way(
    alloc: Global,
    fst: &Fst,
    outline: &Outline,
    rows: &[HeldRow],
    places: Vec<usize>,
) -> Result<Option<Word>, Memory>
    requires { WritesWords fst.now }
    ensures { IfOk result (λ found. IfSome found (λ word. IsOutline fst.now.edges outline.now →
        (seen : List Input) → AreRows fst.now.edges seen rows.now → IsOutput fst.now seen word)) }
{
    if !is_way(fst, rows, places.as_slice()) {
        return Ok(None);
    }
    let word = word_along(alloc, fst, outline, places)?;
    Ok(Some(word))
}

/// Appends the word of a way, and answers how many of so many bytes are left behind it and one more.
fn push_way(
    alloc: Global,
    fst: &Fst,
    outline: &Outline,
    rows: &[HeldRow],
    spots: &[Spot],
    room: usize,
    words: &mut Vec<Word>,
) -> Result<usize, Memory>
    requires writes { WritesWords fst.now }
    requires some { AreSomeOutputs fst.now outline.now rows.now words.old.items }
    ensures { OnOk result (AreSomeOutputs fst.now outline.now rows.now words.new.items) }
{
    let places = places_of(alloc, spots)?;
    let Some(word) = word_of_way(alloc, fst, outline, rows, places)? else {
        return Ok(room);
    };
    let left = room.saturating_sub(word.rendered().len().saturating_add(1));
    words.push(word)?;
    Ok(left)
}

/// Appends the words of ways back from an end, as long as there is room for their bytes. Answers
/// how much is left.
fn push_back_from(
    alloc: Global,
    fst: &Fst,
    outline: &Outline,
    rows: &[HeldRow],
    end: Spot,
    room: usize,
    words: &mut Vec<Word>,
) -> Result<usize, Memory>
    requires writes { WritesWords fst.now }
    requires some { AreSomeOutputs fst.now outline.now rows.now words.old.items }
    ensures { OnOk result (AreSomeOutputs fst.now outline.now rows.now words.new.items) }
{
    let mut room = room;
    let mut spots = Vec::new(alloc);
    spots.push(end)?;
    for _ in 0..MOST_WAYS {
        if room == 0 || !find_way(fst, rows, &mut spots)? {
            return Ok(room);
        }
        room = push_way(alloc, fst, outline, rows, spots.as_slice(), room, words)?;
    }
    Ok(room)
}

/// Appends the words of ways back from a state of the last row, if it is final.
fn push_ending(
    alloc: Global,
    fst: &Fst,
    outline: &Outline,
    rows: &[HeldRow],
    state: usize,
    room: usize,
    words: &mut Vec<Word>,
) -> Result<usize, Memory>
    requires writes { WritesWords fst.now }
    requires some { AreSomeOutputs fst.now outline.now rows.now words.old.items }
    ensures { OnOk result (AreSomeOutputs fst.now outline.now rows.now words.new.items) }
{
    if !fst.is_final(state) {
        return Ok(room);
    }
    let end = Spot {
        row: rows.len().saturating_sub(1),
        state,
        place: 0,
        tried: 0,
    };
    push_back_from(alloc, fst, outline, rows, end, room, words)
}

/// Some of the outputs that these rows lead to, as many as there is room for their bytes or one
/// more, where there may be more than a few thousand; and else none. One may stand twice.
pub(crate) fn some_back(
    alloc: Global,
    fst: &Fst,
    outline: &Outline,
    rows: &[HeldRow],
    room: usize,
) -> Result<Vec<Word>, Memory>
    requires { WritesWords fst.now }
    ensures { IfOk result (λ words. AreSomeOutputs fst.now outline.now rows.now words.items) }
{
    let mut room = room;
    let mut words = Vec::new(alloc);
    let Some(last) = rows.last() else {
        return Ok(words);
    };
    if !may_be_many(rows) {
        return Ok(words);
    }
    for state in last.states() {
        room = push_ending(alloc, fst, outline, rows, *state, room, &mut words)?;
    }
    Ok(words)
}
