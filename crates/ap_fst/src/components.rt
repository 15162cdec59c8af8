ghost use Rattle.std.specs.Prelude.{◌<◌, ◌^◌, IfOk};
ghost use Rattle.std.specs.Option.{OnSome};
ghost use Rattle.std.specs.List.Sorted.{IsNonDecreasingBy};
ghost use Rattle.ap_fst.specs.Graphs.{arc_from};

use crate::graph::{Arc, StateSet, arcs_from, low_of, sort_arcs};
use ap_symbol::Memory;
use indexmap::IndexMap;
use std::alloc::Global;

/// A state in which a descent stands, and the place of the arc by which it goes on from there.
#[derive(Clone, Copy, Debug)]
struct Stop {
    state: usize,
    next: usize,
}

/// A walk in depth over arcs: the states that it entered, those in which it stands, and those that
/// it finished, in the order in which it finished them.
#[derive(Debug, Drop)]
struct Descent {
    entered: StateSet,
    path: Vec<Stop>,
    finished: Vec<usize>,
}

impl Descent {
    /// A walk that has entered no state, with marks for the states below this number.
    fn new(alloc: Global, marks: usize) -> Result<Descent, Memory> {
        Ok(Descent {
            entered: StateSet::new(alloc, marks)?,
            path: Vec::new(alloc),
            finished: Vec::new(alloc),
        })
    }

    /// Enters a state, unless it was entered before.
    fn enter(&mut self, arcs: &[Arc], state: usize) -> Result<(), Memory>
        requires { IsNonDecreasingBy arc_from arcs.now }
    {
        if self.entered.contains(state) {
            return Ok(());
        }
        self.entered.add(state)?;
        let next = low_of(arcs, state);
        self.path.push(Stop { state, next })?;
        Ok(())
    }

    /// Follows the next arc of the last state of the path, or finishes the state where no arc is
    /// left.
    fn go_on(&mut self, arcs: &[Arc]) -> Result<(), Memory>
        requires { IsNonDecreasingBy arc_from arcs.now }
    {
        let Some(Stop { state, next }) = self.path.pop() else {
            return Ok(());
        };
        if next < arcs.len() && arcs[next].from == state {
            self.path.push(Stop {
                state,
                next: next + 1,
            })?;
            return self.enter(arcs, arcs[next].to);
        }
        self.finished.push(state)?;
        Ok(())
    }

    /// Finishes a state and all that are reached from it. Each turn takes an arc or finishes a
    /// state, and each arc leads to one state: so the turns suffice.
    fn finish(&mut self, arcs: &[Arc], state: usize) -> Result<(), Memory>
        requires { IsNonDecreasingBy arc_from arcs.now }
    {
        self.enter(arcs, state)?;
        for _ in 0..arcs.len().saturating_mul(3) {
            if self.path.is_empty() {
                return Ok(());
            }
            self.go_on(arcs)?;
        }
        Ok(())
    }
}

/// The states of the arcs, in the order in which walks in depth finish them.
fn finish_order(alloc: Global, arcs: &[Arc]) -> Result<Vec<usize>, Memory>
    requires { IsNonDecreasingBy arc_from arcs.now }
{
    let mut descent = Descent::new(alloc, arcs.len().saturating_add(1))?;
    for arc in arcs {
        descent.finish(arcs, arc.from)?;
    }
    Ok(descent.finished)
}

fn turned(alloc: Global, arcs: &[Arc]) -> Result<Vec<Arc>, Memory>
    ensures { IfOk result (λ made. IsNonDecreasingBy arc_from made.items) }
{
    let mut made = Vec::with_capacity(alloc, arcs.len())?;
    for arc in arcs {
        made.push(Arc {
            from: arc.to,
            to: arc.from,
        })?;
    }
    sort_arcs(&mut made);
    Ok(made)
}

/// Gives a number to a state, unless it has one.
fn give_number(
    numbers: &mut IndexMap<usize, usize>,
    state: usize,
    number: usize,
) -> Result<(), Memory> {
    if !numbers.contains_key(&state) {
        numbers.insert(state, number)?;
    }
    Ok(())
}

fn give_numbers(
    numbers: &mut IndexMap<usize, usize>,
    arcs: &[Arc],
    number: usize,
) -> Result<(), Memory> {
    for arc in arcs {
        give_number(numbers, arc.to, number)?;
    }
    Ok(())
}

/// The state that was given the number at a place.
pub(crate) fn numbered_at(numbers: &IndexMap<usize, usize>, at: usize) -> Option<usize>
    ensures { OnSome result (at < 2 ^ 63) }
{
    if at >= numbers.len() {
        return None;
    }
    let (state, _) = numbers.get_index(at)?;
    Some(*state)
}

/// Gives the next number to a state and to all that are reached from it over the arcs, but for
/// those that have one.
fn spread_number(
    numbers: &mut IndexMap<usize, usize>,
    arcs: &[Arc],
    state: usize,
) -> Result<(), Memory>
    requires { IsNonDecreasingBy arc_from arcs.now }
{
    let number = numbers.len();
    give_number(numbers, state, number)?;
    let mut at = number;
    while let Some(member) = numbered_at(numbers, at) {
        give_numbers(numbers, arcs_from(arcs, member), number)?;
        at += 1;
    }
    Ok(())
}

/// A number for each state of the arcs: the same for two states that lie on one cycle, and never
/// lower behind an arc than before it. What it gives is tested before it is relied on. The states
/// are finished by walks in depth; from the last one finished on, each number spreads against the
/// arcs, over states that have none yet.
pub(crate) fn component_numbers(
    alloc: Global,
    arcs: &[Arc],
) -> Result<IndexMap<usize, usize>, Memory>
    requires { IsNonDecreasingBy arc_from arcs.now }
{
    let finished = finish_order(alloc, arcs)?;
    let entering = turned(alloc, arcs)?;
    let mut numbers = IndexMap::new(alloc);
    for state in finished.iter().rev() {
        spread_number(&mut numbers, entering.as_slice(), *state)?;
    }
    Ok(numbers)
}
