ghost use Rattle.std.specs.Prelude.{◌≡◌, ◌↔◌, ℕ, false, IfOk, OnOk, slice_get};
ghost use Rattle.std.specs.Option.{option_copied};
ghost use Rattle.ap_symbol.specs.declared.symbol.Symbol.TheVariants.{Letter};
ghost use Rattle.ap_fst.specs.Lists.{IsIn};
ghost use Rattle.ap_fst.specs.Removal.{AddsWhere};
ghost use Rattle.ap_det.specs.Exits.{LeadsAt, LeadsWithin};
ghost use Rattle.ap_live.specs.Spreads.{IsOther};
ghost use Rattle.ap_trim.specs.Reading.{LeavesBy, FitsFrom, FitsTo};

use ap_fst::{Edge, Fst};
use ap_symbol::{Memory, Symbol, lower};
use std::alloc::Global;

fn edge_at(edges: &[Edge], place: usize) -> Option<&Edge>
    ensures { option_copied result ≡ slice_get edges.now place }
{
    edges.get(place)
}

/// Adds the state that the edge at a place enters.
fn add_target(edges: &[Edge], place: usize, targets: &mut Vec<usize>) -> Result<(), Memory>
    ensures { OnOk result (AddsWhere (LeadsAt (slice_get edges.now) place) targets.old.items
        targets.new.items) }
{
    if let Some(edge) = edge_at(edges, place) {
        targets.push(edge.to)?;
    }
    Ok(())
}

/// Adds the states that the edges from low up to high enter.
fn add_span(edges: &[Edge], low: usize, high: usize, targets: &mut Vec<usize>) -> Result<(), Memory>
    ensures { OnOk result (AddsWhere (LeadsWithin (slice_get edges.now) low high) targets.old.items
        targets.new.items) }
{
    for place in low..high {
        add_target(edges, place, targets)?;
    }
    Ok(())
}

/// Adds the states to which edges from a state with this left side lead.
pub(crate) fn add_by(
    fst: &Fst,
    state: usize,
    left: Option<&Symbol>,
    targets: &mut Vec<usize>,
) -> Result<(), Memory>
    ensures { OnOk result (AddsWhere (LeavesBy fst.now state (option_copied left.entry))
        targets.old.items targets.new.items) }
{
    let (low, high) = fst.span_by(state, left);
    add_span(fst.edges(), low, high, targets)?;
    Ok(())
}

/// The lower partner of a letter, where it is another letter.
fn lower_other(c: char) -> Option<Symbol>
    ensures { IsOther (record { symbol = Letter c; sensitive = false }) result }
{
    let small = lower(c);
    if small == c {
        return None;
    }
    Some(Symbol::Letter(small))
}

/// What fits a symbol beside the symbol itself: the lower partner of an upper letter.
fn other_case(symbol: &Symbol) -> Option<Symbol>
    ensures { IsOther (record { symbol = symbol.now; sensitive = false }) result }
{
    match symbol {
        Symbol::Letter(c) => lower_other(*c),
        _ => None,
    }
}

/// Adds the states to which edges from a state lead whose left side fits the symbol. `other` is
/// what fits it beside the symbol itself.
fn add_fitting(
    fst: &Fst,
    state: usize,
    symbol: &Symbol,
    other: Option<&Symbol>,
    targets: &mut Vec<usize>,
) -> Result<(), Memory>
    requires { IsOther (record { symbol = symbol.now; sensitive = false }) (option_copied other) }
    ensures { OnOk result (AddsWhere (FitsFrom fst.now symbol.now state) targets.old.items
        targets.new.items) }
{
    add_by(fst, state, Some(symbol), targets)?;
    match other {
        None => Ok(()),
        Some(small) => {
            add_by(fst, state, Some(small), targets)?;
            Ok(())
        }
    }
}

/// The states to which edges from these states lead whose left side fits the symbol.
fn targets_by(
    alloc: Global,
    fst: &Fst,
    set: &[usize],
    symbol: &Symbol,
    other: Option<&Symbol>,
) -> Result<Vec<usize>, Memory>
    requires { IsOther (record { symbol = symbol.now; sensitive = false }) (option_copied other) }
    ensures { IfOk result (λ targets. (t : ℕ) → IsIn t targets.items ↔
        FitsTo fst.now set.now symbol.now t) }
{
    let mut targets = Vec::new(alloc);
    for state in set {
        add_fitting(fst, *state, symbol, other, &mut targets)?;
    }
    Ok(targets)
}

/// The same, where upper case in the symbol fits lower case in the transducer.
pub(crate) fn targets_of(
    alloc: Global,
    fst: &Fst,
    set: &[usize],
    symbol: &Symbol,
) -> Result<Vec<usize>, Memory>
    ensures { IfOk result (λ targets. (t : ℕ) → IsIn t targets.items ↔
        FitsTo fst.now set.now symbol.now t) }
{
    let other = other_case(symbol);
    targets_by(alloc, fst, set, symbol, other.as_ref())
}
