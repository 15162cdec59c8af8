ghost use Rattle.std.specs.Prelude.{◌≡◌, ◌<◌, All, IsTrue, IfOk, OnOk, true, false, length, slice_index};
ghost use Rattle.ap_min.specs.Automaton.{IsCoarse};
ghost use Rattle.ap_min.specs.Rows.{AreRows, automaton_of};
ghost use Rattle.ap_min.specs.Settled.{IsOpen, LeadHome, AreSettled, IsSettled, IsFull};

use crate::numbering::Numbering;
use crate::refine::make_key;
use crate::rows::Row;
use std::alloc::{AllocError, Global};

/// A state in which a walk in depth stands, and the place of the arc by which it goes on from there.
#[derive(Clone, Copy)]
struct Stop {
    state: usize,
    next: usize,
}

/// A walk in depth: which states it entered, those in which it stands, and those that it finished.
#[derive(Drop)]
struct Descent {
    entered: Vec<bool>,
    path: Vec<Stop>,
    finished: Vec<usize>,
}

impl Descent {
    /// Enters a state, unless it was entered before.
    fn enter(&mut self, state: usize) -> Result<(), AllocError> {
        if let Some(entered) = self.entered.get_mut(state) {
            if !*entered {
                *entered = true;
                self.path.push(Stop { state, next: 0 })?;
            }
        }
        Ok(())
    }

    /// Follows the next arc of the last state of the path, or finishes the state where no arc is
    /// left.
    fn go_on(&mut self, rows: &[Row]) -> Result<(), AllocError> {
        let Some(Stop { state, next }) = self.path.pop() else {
            return Ok(());
        };
        let Some(row) = rows.get(state) else {
            return Ok(());
        };
        let Some(arc) = row.arcs.get(next) else {
            self.finished.push(state)?;
            return Ok(());
        };
        let next = next.saturating_add(1);
        self.path.push(Stop { state, next })?;
        self.enter(arc.to)
    }
}

/// How many turns a walk in depth over the rows takes at most: one for each arc and each state.
fn turns_of(rows: &[Row]) -> usize {
    let mut turns = rows.len();
    for row in rows {
        turns = turns.saturating_add(row.arcs.len());
    }
    turns
}

/// The states, each behind those that it leads to, where it reaches no cycle. What it gives is
/// tested before it is relied on.
fn finish_order(alloc: Global, rows: &[Row]) -> Result<Vec<usize>, AllocError> {
    let mut descent = Descent {
        entered: vec![in alloc; false; rows.len()]?,
        path: Vec::new(alloc),
        finished: Vec::new(alloc),
    };
    descent.enter(0)?;
    for _ in 0..turns_of(rows) {
        descent.go_on(rows)?;
    }
    Ok(descent.finished)
}

/// Whether an arc of the row leads to a state that is not settled.
fn is_open(row: &Row, groups: &[usize]) -> bool
    requires { All (λ arc. arc.to < length groups.now) row.now.arcs.items }
    ensures open { result ≡ true → IsOpen groups.now row.now.arcs.items }
    ensures home { result ≡ false → LeadHome groups.now row.now.arcs.items }
{
    for arc in &row.arcs {
        if groups[arc.to] == 0 {
            return true;
        }
    }
    false
}

/// Settles a state, where all that it leads to are settled.
fn settle(
    alloc: Global,
    rows: &[Row],
    state: usize,
    numbering: &mut Numbering,
    groups: &mut Vec<usize>,
) -> Result<(), AllocError>
    requires rows { AreRows rows.now (length rows.now) }
    requires settled { AreSettled rows.now numbering.old groups.old.items }
    ensures { OnOk result (AreSettled rows.now numbering.new groups.new.items) }
{
    if state >= rows.len() {
        return Ok(());
    }
    if groups[state] > 0 {
        return Ok(());
    }
    if is_open(&rows[state], groups.as_slice()) {
        return Ok(());
    }
    let mut key = Vec::new(alloc);
    make_key(&mut key, &rows[state], groups.as_slice())?;
    let group = numbering.number(alloc, key.as_slice())?;
    groups[state] = group;
    Ok(())
}

/// The states of the order settled in turn, where they can be.
fn settled_groups(alloc: Global, rows: &[Row], order: &[usize]) -> Result<Vec<usize>, AllocError>
    requires rows { AreRows rows.now (length rows.now) }
    ensures { IfOk result (λ groups. IsSettled rows.now groups.items) }
{
    let mut numbering = Numbering::new(alloc);
    let none: [usize; 0] = [];
    let _ = numbering.number(alloc, &none)?;
    let mut groups = vec![in alloc; 0usize; rows.len()]?;
    for state in order {
        settle(alloc, rows, *state, &mut numbering, &mut groups)?;
    }
    Ok(groups)
}

fn stays_open(row: &Row, groups: &[usize], state: usize) -> bool
    requires within { state < length groups.now }
    requires arcs { All (λ arc. arc.to < length groups.now) row.now.arcs.items }
    ensures { IsTrue result → slice_index groups.now state ≡ 0 →
        IsOpen groups.now row.now.arcs.items }
{
    groups[state] > 0 || is_open(row, groups)
}

/// Whether no more can be settled.
fn is_full(rows: &[Row], groups: &[usize]) -> bool
    requires rows { AreRows rows.now (length rows.now) }
    requires long { length groups.now ≡ length rows.now }
    ensures { IsTrue result → IsFull rows.now groups.now }
{
    for (state, row) in rows.iter().enumerate() {
        if !stays_open(row, groups, state) {
            return false;
        }
    }
    true
}

/// Groups to begin with: those of the states that reach no cycle, which are known at once, and one
/// for all others. Where the order doesn't serve, all have one group.
pub(crate) fn first_groups(alloc: Global, rows: &[Row]) -> Result<Vec<usize>, AllocError>
    requires rows { AreRows rows.now (length rows.now) }
    requires start { 0 < length rows.now }
    ensures long { IfOk result (λ groups. length groups.items ≡ length rows.now) }
    ensures coarse { IfOk result (λ groups. IsCoarse (automaton_of rows.now) groups.items) }
{
    let order = finish_order(alloc, rows)?;
    let groups = settled_groups(alloc, rows, order.as_slice())?;
    if is_full(rows, groups.as_slice()) {
        return Ok(groups);
    }
    let none = vec![in alloc; 0usize; rows.len()]?;
    Ok(none)
}
