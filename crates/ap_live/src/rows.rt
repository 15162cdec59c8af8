ghost use Rattle.std.specs.Prelude.{◌≡◌, ◌<◌, ◌≤◌, ◌-◌, ℕ, [], List, IfOk, OnOk, IsTrue, ◌↔◌, nat_eq, true, false, Option, Some, None, slice_get, length};
ghost use Rattle.std.specs.List.{IsDistinct};
ghost use Rattle.std.specs.List.Sorted.{IsNonDecreasingBy};
ghost use Rattle.std.specs.Option.{option_copied};
ghost use Rattle.ap_fst.specs.declared.label.Edge.{Edge};
ghost use Rattle.ap_fst.specs.Lists.{Ascends, IsIn};
ghost use Rattle.ap_fst.specs.Machines.{IsSpan};
ghost use Rattle.ap_fst.specs.Order.{edge_cmp};
ghost use Rattle.ap_live.specs.Rows.{IsFirst, IsNext, IsOrdered, IsVoid, Tells};
ghost use Rattle.ap_live.specs.declared.rows.Row.{Row};
ghost use Rattle.ap_live.specs.Fitting.{Input, pick_of, picks};
ghost use Rattle.ap_symbol.specs.declared.symbol.Symbol.{Symbol};
ghost use Rattle.ap_symbol.specs.declared.symbol.Symbol.TheVariants.{Letter};
ghost use Rattle.ap_live.specs.Outlines.{IsCoded, IsOutline};
ghost use Rattle.ap_live.specs.Spreads.{Adds, with_state, SpreadOne, Spread, Closed, AnyPlace, IsPlace, HasLeft, IsOther, arrival_to};

use crate::arrivals::{Arrival, sort_arrivals};
use crate::outline::{Outline, letter_code, low_of, span_in};
use crate::picking::{Pick, is_letter, is_picked, other_symbol};
use ap_fst::{Edge, Fst};
use ap_symbol::{Memory, Symbol};
use std::alloc::Global;

/// Among so few edges of a state those that fit a mark are looked for one by one, and among more by
/// halving.
const FEW: usize = 24;

fn add_state(states: &mut Vec<usize>, state: usize) -> Result<(), Memory>
    ensures { OnOk result (states.new.items ≡ with_state states.old.items state) }
{
    if !states.contains(&state) {
        states.push(state)?;
    }
    Ok(())
}

/// Adds a state that a picked edge leads to. Over edges with an empty left side it is added once;
/// else `sort_states` drops what is there twice.
fn enter(states: &mut Vec<usize>, state: usize, pick: Pick<'_>) -> Result<(), Memory>
    ensures { OnOk result (Adds (pick_of pick.entry) states.old.items state states.new.items) }
{
    match pick {
        Pick::Silent => {
            add_state(states, state)?;
            Ok(())
        }
        Pick::Fitting(_, _) => {
            states.push(state)?;
            Ok(())
        }
    }
}

/// Puts states into order, each once.
pub(crate) fn sort_states(states: &mut Vec<usize>)
    ensures members { (s : ℕ) → IsIn s states.new.items ↔ IsIn s states.old.items }
    ensures distinct { IsDistinct nat_eq states.new.items }
{
    if states.len() < 2 {
        return;
    }
    states.sort_unstable();
    states.dedup();
}

/// Adds a state that a picked edge leads to, with the edge's place.
fn add_arrival(
    to: usize,
    edge: usize,
    pick: Pick<'_>,
    states: &mut Vec<usize>,
    links: &mut Vec<Arrival>,
) -> Result<(), Memory>
    ensures { OnOk result ((edges : List Edge) (e : Edge) → slice_get edges edge ≡ Some e →
        e.to ≡ to → picks (pick_of pick.entry) e ≡ true
        → SpreadOne edges (pick_of pick.entry) e.from (IsPlace edge) states.old.items
        links.old.items states.new.items links.new.items) }
{
    links.push(Arrival { to, edge })?;
    enter(states, to, pick)?;
    Ok(())
}

/// Adds what an edge leads to, if it is picked.
fn try_edge(
    edge: &Edge,
    place: usize,
    pick: Pick<'_>,
    other: Option<&Symbol>,
    states: &mut Vec<usize>,
    links: &mut Vec<Arrival>,
) -> Result<(), Memory>
    requires { (i : Input) → pick_of pick ≡ Some i → IsOther i (option_copied other) }
    ensures { OnOk result ((edges : List Edge) → slice_get edges place ≡ Some edge.now
        → SpreadOne edges (pick_of pick.entry) edge.now.from (IsPlace place) states.old.items
        links.old.items states.new.items links.new.items) }
{
    if !is_picked(edge, pick, other) {
        return Ok(());
    }
    add_arrival(edge.to, place, pick, states, links)?;
    Ok(())
}

/// Adds what one state reaches by the edges with this left side, which are picked. They are found
/// by halving over all edges.
fn spread_left(
    fst: &Fst,
    from: usize,
    left: Option<&Symbol>,
    pick: Pick<'_>,
    states: &mut Vec<usize>,
    links: &mut Vec<Arrival>,
) -> Result<(), Memory>
    requires { (e : Edge) → e.label.left ≡ option_copied left → picks (pick_of pick) e ≡ true }
    ensures { OnOk result (SpreadOne fst.now.edges (pick_of pick.entry) from
        (HasLeft fst.now.edges (option_copied left.entry)) states.old.items links.old.items
        states.new.items links.new.items) }
{
    let edges = fst.edges();
    let (first, last) = fst.span_by(from, left);
    for at in first..last {
        add_arrival(edges[at].to, at, pick, states, links)?;
    }
    Ok(())
}

/// Adds what a state's edges lead to, from this place up to the last, whose left sides have this
/// code, which are picked. They stand side by side.
fn spread_coded(
    outline: &Outline,
    low: usize,
    last: usize,
    code: u32,
    pick: Pick<'_>,
    states: &mut Vec<usize>,
    links: &mut Vec<Arrival>,
) -> Result<(), Memory>
    requires { last ≤ length outline.now.entries.items }
    ensures { OnOk result ((edges : List Edge) (from first : ℕ) (left : Option Symbol) →
        IsCoded edges outline.now (pick_of pick.entry) from first last low code left
        → SpreadOne edges (pick_of pick.entry) from (HasLeft edges left) states.old.items
        links.old.items states.new.items links.new.items) }
{
    let entries = outline.entries.as_slice();
    for place in low..last {
        let entry = entries[place];
        if entry.left != code {
            return Ok(());
        }
        add_arrival(entry.to as usize, place, pick, states, links)?;
    }
    Ok(())
}

/// Adds what a state's edges, which are at these places, lead to that have this letter on the left,
/// and are picked.
fn spread_letter(
    outline: &Outline,
    first: usize,
    last: usize,
    codes: u32,
    letter: char,
    pick: Pick<'_>,
    states: &mut Vec<usize>,
    links: &mut Vec<Arrival>,
) -> Result<(), Memory>
    requires last { last ≤ length outline.now.entries.items }
    requires picks { (e : Edge) → e.label.left ≡ Some (Letter letter) →
        picks (pick_of pick) e ≡ true }
    ensures { OnOk result ((edges : List Edge) (from : ℕ) → IsOutline edges outline.now →
        Ascends edge_cmp edges → IsSpan edges from first last
        → SpreadOne edges (pick_of pick.entry) from (HasLeft edges (Some (Letter letter)))
        states.old.items links.old.items states.new.items links.new.items) }
{
    let code = letter_code(letter);
    let low = low_of(outline.entries.as_slice(), first, last, codes, code);
    spread_coded(outline, low, last, code, pick, states, links)
}

/// Adds what one state reaches by the edges with this left symbol, which are picked.
fn spread_symbol(
    fst: &Fst,
    outline: &Outline,
    from: usize,
    symbol: &Symbol,
    pick: Pick<'_>,
    states: &mut Vec<usize>,
    links: &mut Vec<Arrival>,
) -> Result<(), Memory>
    requires { (e : Edge) → e.label.left ≡ Some symbol.now → picks (pick_of pick) e ≡ true }
    ensures { OnOk result (IsOutline fst.now.edges outline.now →
        SpreadOne fst.now.edges (pick_of pick.entry) from
        (HasLeft fst.now.edges (Some symbol.now)) states.old.items links.old.items
        states.new.items links.new.items) }
{
    let _ = fst.states();
    if let Symbol::Letter(letter) = symbol {
        if let Some((first, last, codes)) = span_in(outline, from) {
            return spread_letter(outline, first, last, codes, *letter, pick, states, links);
        }
    }
    spread_left(fst, from, Some(symbol), pick, states, links)
}

/// Adds what one state reaches by the edges whose left symbol is the input, or the other that fits
/// it.
fn spread_fitting(
    fst: &Fst,
    outline: &Outline,
    from: usize,
    pick: Pick<'_>,
    input: &Symbol,
    other: Option<&Symbol>,
    states: &mut Vec<usize>,
    links: &mut Vec<Arrival>,
) -> Result<(), Memory>
    requires { (i : Input) × (pick_of pick ≡ Some i) × (i.symbol ≡ input.now)
        × IsOther i (option_copied other) }
    ensures { OnOk result (IsOutline fst.now.edges outline.now →
        SpreadOne fst.now.edges (pick_of pick.entry) from AnyPlace
        states.old.items links.old.items states.new.items links.new.items) }
{
    spread_symbol(fst, outline, from, input, pick, states, links)?;
    match other {
        None => Ok(()),
        Some(symbol) => {
            spread_symbol(fst, outline, from, symbol, pick, states, links)?;
            Ok(())
        }
    }
}

/// Adds what one state reaches by its edges with an empty left side. They come before its others,
/// so that one look tells where there is none.
fn spread_silently(
    fst: &Fst,
    outline: &Outline,
    from: usize,
    states: &mut Vec<usize>,
    links: &mut Vec<Arrival>,
) -> Result<(), Memory>
    ensures { OnOk result (IsOutline fst.now.edges outline.now →
        SpreadOne fst.now.edges None from AnyPlace states.old.items
        links.old.items states.new.items links.new.items) }
{
    let _ = fst.states();
    match span_in(outline, from) {
        None => spread_left(fst, from, None, Pick::Silent, states, links),
        Some((first, last, _)) => {
            spread_coded(outline, first, last, 0, Pick::Silent, states, links)
        }
    }
}

/// Adds what the edges at these places lead to that are picked.
fn spread_few(
    fst: &Fst,
    first: usize,
    last: usize,
    pick: Pick<'_>,
    other: Option<&Symbol>,
    states: &mut Vec<usize>,
    links: &mut Vec<Arrival>,
) -> Result<(), Memory>
    requires { (i : Input) → pick_of pick ≡ Some i → IsOther i (option_copied other) }
    ensures { OnOk result ((from : ℕ) → IsSpan fst.now.edges from first last →
        SpreadOne fst.now.edges (pick_of pick.entry) from AnyPlace states.old.items
        links.old.items states.new.items links.new.items) }
{
    let edges = fst.edges();
    let last = last.min(edges.len());
    for place in first..last {
        try_edge(&edges[place], place, pick, other, states, links)?;
    }
    Ok(())
}

/// Adds what one state reaches by the edges that are picked. Where it has many edges, they are
/// found by halving.
fn spread_mark(
    fst: &Fst,
    outline: &Outline,
    from: usize,
    pick: Pick<'_>,
    input: &Symbol,
    other: Option<&Symbol>,
    states: &mut Vec<usize>,
    links: &mut Vec<Arrival>,
) -> Result<(), Memory>
    requires { (i : Input) × (pick_of pick ≡ Some i) × (i.symbol ≡ input.now)
        × IsOther i (option_copied other) }
    ensures { OnOk result (IsOutline fst.now.edges outline.now →
        SpreadOne fst.now.edges (pick_of pick.entry) from AnyPlace
        states.old.items links.old.items states.new.items links.new.items) }
{
    if let Some((first, last, _)) = span_in(outline, from) {
        if last <= first.saturating_add(FEW) {
            return spread_few(fst, first, last, pick, other, states, links);
        }
    }
    spread_fitting(fst, outline, from, pick, input, other, states, links)
}

/// Adds what one state reaches by the edges that are picked. `other` is the symbol that fits the
/// input beside the input itself.
fn spread_from(
    fst: &Fst,
    outline: &Outline,
    from: usize,
    pick: Pick<'_>,
    other: Option<&Symbol>,
    states: &mut Vec<usize>,
    links: &mut Vec<Arrival>,
) -> Result<(), Memory>
    requires { (i : Input) → pick_of pick ≡ Some i → IsOther i (option_copied other) }
    ensures { OnOk result (IsOutline fst.now.edges outline.now →
        SpreadOne fst.now.edges (pick_of pick.entry) from AnyPlace
        states.old.items links.old.items states.new.items links.new.items) }
{
    match pick {
        Pick::Silent => spread_silently(fst, outline, from, states, links),
        Pick::Fitting(input, _) => {
            if is_letter(input) {
                spread_fitting(fst, outline, from, pick, input, other, states, links)?;
                return Ok(());
            }
            spread_mark(fst, outline, from, pick, input, other, states, links)?;
            Ok(())
        }
    }
}

/// Adds what these states reach by the edges that are picked.
fn spread(
    fst: &Fst,
    outline: &Outline,
    froms: &[usize],
    pick: Pick<'_>,
    other: Option<&Symbol>,
    states: &mut Vec<usize>,
    links: &mut Vec<Arrival>,
) -> Result<(), Memory>
    requires { (i : Input) → pick_of pick ≡ Some i → IsOther i (option_copied other) }
    ensures { OnOk result (IsOutline fst.now.edges outline.now →
        Spread fst.now.edges (pick_of pick.entry) froms.now states.old.items
        links.old.items states.new.items links.new.items) }
{
    for from in froms {
        spread_from(fst, outline, *from, pick, other, states, links)?;
    }
    Ok(())
}

/// Adds all that these states reach by edges with an empty left side.
fn close(
    fst: &Fst,
    outline: &Outline,
    states: &mut Vec<usize>,
    links: &mut Vec<Arrival>,
) -> Result<(), Memory>
    requires distinct { IsDistinct nat_eq states.old.items }
    requires below { IsOutline fst.now.edges outline.now → (s : ℕ) → IsIn s states.old.items →
        s < fst.now.states }
    ensures { OnOk result (IsOutline fst.now.edges outline.now →
        Closed fst.now.edges states.old.items links.old.items states.new.items links.new.items) }
{
    for at in 0..fst.states() {
        if states.len() <= at {
            return Ok(());
        }
        let from = states[at];
        spread_silently(fst, outline, from, states, links)?;
    }
    Ok(())
}

/// The states reached after so many inputs, each once, the edges by which each was reached, and
/// whether one of the states is final. Edges that took the last input and edges with an empty left
/// side stand apart.
#[derive(Debug, Drop)]
pub struct Row {
    pub states: Vec<usize>,
    pub taken: Vec<Arrival>,
    pub silent: Vec<Arrival>,
    pub ends: bool,
}

fn holds_final(fst: &Fst, states: &[usize]) -> bool
    ensures { IsTrue result ↔ ((s : ℕ) × (IsIn s states.now × IsIn s fst.now.finals)) }
{
    for state in states {
        if fst.is_final(*state) {
            return true;
        }
    }
    false
}

/// A row with no state and no edge, which takes no memory.
pub(crate) fn no_row(alloc: Global) -> Row
    ensures void { IsVoid result }
    ensures order { IsOrdered result }
    ensures ends { result.ends ≡ false }
{
    Row {
        states: Vec::new(alloc),
        taken: Vec::new(alloc),
        silent: Vec::new(alloc),
        ends: false,
    }
}

/// Goes on from the states of a row, and the edges that took an input, to all that edges with an
/// empty left side lead to. What else the row holds is room alone.
fn close_row(fst: &Fst, outline: &Outline, row: &mut Row) -> Result<(), Memory>
    requires distinct { IsDistinct nat_eq row.old.states.items }
    requires below { IsOutline fst.now.edges outline.now → (s : ℕ) →
        IsIn s row.old.states.items → s < fst.now.states }
    requires order { IsNonDecreasingBy arrival_to row.old.taken.items }
    ensures taken { OnOk result (row.new.taken.items ≡ row.old.taken.items) }
    ensures closed { OnOk result (IsOutline fst.now.edges outline.now →
        Closed fst.now.edges row.old.states.items [] row.new.states.items row.new.silent.items) }
    ensures order { OnOk result (IsOrdered row.new) }
    ensures told { OnOk result (Tells fst.now.finals row.new) }
{
    row.silent.clear();
    close(fst, outline, &mut row.states, &mut row.silent)?;
    sort_arrivals(&mut row.silent);
    row.ends = holds_final(fst, row.states.as_slice());
    Ok(())
}

/// Makes a row that after one input more. What it holds is room alone.
pub(crate) fn fill_row(
    fst: &Fst,
    outline: &Outline,
    last: &[usize],
    pick: Pick<'_>,
    row: &mut Row,
) -> Result<(), Memory>
    ensures next { OnOk result (IsOutline fst.now.edges outline.now →
        IsNext fst.now.edges (pick_of pick.entry) last.now row.new) }
    ensures order { OnOk result (IsOrdered row.new) }
    ensures told { OnOk result (Tells fst.now.finals row.new) }
{
    let _ = fst.states();
    row.states.clear();
    row.taken.clear();
    if last.is_empty() {
        row.silent.clear();
        row.ends = false;
        return Ok(());
    }
    let other = other_symbol(pick);
    let partner = other.as_ref();
    spread(
        fst,
        outline,
        last,
        pick,
        partner,
        &mut row.states,
        &mut row.taken,
    )?;
    sort_states(&mut row.states);
    sort_arrivals(&mut row.taken);
    close_row(fst, outline, row)?;
    Ok(())
}

/// The row before any input.
pub(crate) fn first_row(alloc: Global, fst: &Fst, outline: &Outline) -> Result<Row, Memory>
    ensures first { IfOk result (λ row. IsOutline fst.now.edges outline.now →
        IsFirst fst.now.edges row) }
    ensures order { IfOk result (λ row. IsOrdered row) }
    ensures told { IfOk result (λ row. Tells fst.now.finals row) }
{
    let _ = fst.states();
    let mut row = no_row(alloc);
    row.states.push(0)?;
    close_row(fst, outline, &mut row)?;
    Ok(row)
}
