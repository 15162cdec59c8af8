ghost use Rattle.std.specs.Prelude.{◌⊎◌, length, drop, ◌∷◌, ◌≡◌, ◌<◌, ◌≤◌, ◌++◌, [], List, IfOk, OnOk, IsTrue, Some, slice_get, ◌↔◌, true, false};
ghost use Rattle.std.specs.Option.{option_to_list, option_copied};
ghost use Rattle.ap_fst.specs.Lists.{IsIn};
ghost use Rattle.ap_live.specs.Fitting.{Input, is_empty_side};
ghost use Rattle.ap_live.specs.Tails.{IsBack, IsBackMany, AddsBack, AreFinals, AreBacks};
ghost use Rattle.ap_fst.specs.declared.label.Edge.{Edge};
ghost use Rattle.ap_fst.specs.Silence.{HasNoEmptyCycle};
ghost use Rattle.ap_live.specs.Rows.{AreRows};
ghost use Rattle.ap_live.specs.Spreads.{arrival_to};
ghost use Rattle.ap_live.specs.Outputs.{WritesWords};
ghost use Rattle.std.specs.List.{list_all};
ghost use Rattle.std.specs.List.Sorted.{IsNonDecreasingBy};
ghost use Rattle.ap_symbol.specs.Words.{is_word_symbol};
ghost use Rattle.ap_symbol.specs.declared.symbol.Symbol.{Symbol};

use crate::arrivals::{Arrival, arrivals_at};
use crate::held::HeldRow;
use crate::items::{Item, Items, Symbols, push_right};
use ap_fst::{Edge, Fst, empty_cycle_law};
use ap_symbol::{Memory, Sequence, Symbol};
use std::alloc::Global;
use std::mem;

/// For so many symbols more than there are rows, as for tags, an output has room from its first.
const SPARE: usize = 8;

/// A copy with room for so many symbols, and for one more than there are at least. One of no symbol
/// takes no memory.
pub(crate) fn copy_symbols(alloc: Global, symbols: &Symbols, room: usize) -> Result<Symbols, Memory>
    ensures { IfOk result (λ made. made ≡ symbols.now) }
{
    let symbols = symbols.as_slice();
    if symbols.is_empty() {
        return Ok(Sequence::new(alloc));
    }
    let room = room.max(symbols.len().saturating_add(1));
    let mut made = Vec::with_capacity(alloc, room)?;
    for symbol in symbols {
        made.push(symbol.copy(alloc)?)?;
    }
    Ok(Sequence::from_vec(made))
}

/// The item before an edge, where this is the output behind it.
pub(crate) fn item_before(
    alloc: Global,
    edge: &Edge,
    back: Symbols,
    room: usize,
) -> Result<Item, Memory>
    ensures { IfOk result (λ made. made
        ≡ record { state = edge.now.from; back = back ++ option_to_list edge.now.label.right }) }
{
    let mut back = back;
    push_right(alloc, &edge.label.right, room, &mut back)?;
    Ok(Item {
        state: edge.from,
        back,
    })
}

pub(crate) fn is_silent(edge: &Edge) -> bool
    ensures { result ≡ is_empty_side edge.now.label.left }
{
    match &edge.label.left {
        None => true,
        Some(_) => false,
    }
}

pub(crate) fn edge_at(edges: &[Edge], at: usize) -> Option<&Edge>
    ensures { option_copied result ≡ slice_get edges.now at }
{
    edges.get(at)
}

/// Whether an edge of this sort leads to the item's state, and is the one by which it was reached.
pub(crate) fn leads(edge: &Edge, link: Arrival, item: &Item, silent: bool) -> bool
    ensures { IsTrue result ↔ ((item.now.state ≡ edge.now.to) × (link.to ≡ edge.now.to)
        × (is_empty_side edge.now.label.left ≡ silent)) }
{
    edge.to == item.state && edge.to == link.to && is_silent(edge) == silent
}

/// Adds the item before one item by one link, if its edge has a left symbol.
fn add_link(
    alloc: Global,
    fst: &Fst,
    link: Arrival,
    item: &Item,
    room: usize,
    found: &mut Items,
) -> Result<(), Memory>
    ensures { OnOk result (AddsBack fst.now.edges false (link ∷ []) (item.now ∷ [])
        found.old found.new) }
{
    let Some(edge) = edge_at(fst.edges(), link.edge) else {
        return Ok(());
    };
    if !leads(edge, link, item, false) {
        return Ok(());
    }
    let back = copy_symbols(alloc, &item.back, room)?;
    found.add(item_before(alloc, edge, back, room)?)?;
    Ok(())
}

/// Adds the item before one item by one link, if its edge has a left symbol. The item's output is
/// taken over and not copied.
fn move_link(
    alloc: Global,
    fst: &Fst,
    link: Arrival,
    item: Item,
    room: usize,
    found: &mut Items,
) -> Result<(), Memory>
    ensures { OnOk result (AddsBack fst.now.edges false (link ∷ []) (item ∷ [])
        found.old found.new) }
{
    let Some(edge) = edge_at(fst.edges(), link.edge) else {
        return Ok(());
    };
    if !leads(edge, link, &item, false) {
        return Ok(());
    }
    found.add(item_before(alloc, edge, item.back, room)?)?;
    Ok(())
}

/// Adds the items before one item, by these links.
fn add_links(
    alloc: Global,
    fst: &Fst,
    links: &[Arrival],
    item: &Item,
    room: usize,
    found: &mut Items,
) -> Result<(), Memory>
    ensures { OnOk result (AddsBack fst.now.edges false links.now (item.now ∷ [])
        found.old found.new) }
{
    for link in links {
        add_link(alloc, fst, *link, item, room, found)?;
    }
    Ok(())
}

/// Adds the items before one item, by those of these links that lead to its state and whose edges
/// have a left symbol. The last of them takes over the item's output.
fn move_before(
    alloc: Global,
    fst: &Fst,
    links: &[Arrival],
    item: Item,
    room: usize,
    found: &mut Items,
) -> Result<(), Memory>
    requires { IsNonDecreasingBy arrival_to links.now }
    ensures { OnOk result (AddsBack fst.now.edges false links.now (item ∷ []) found.old found.new) }
{
    let here = arrivals_at(links, item.state);
    let Some((last, others)) = here.split_last() else {
        return Ok(());
    };
    add_links(alloc, fst, others, &item, room, found)?;
    move_link(alloc, fst, *last, item, room, found)
}

/// Goes back from these items by edges with a left symbol. The items before them take their place.
/// The other list, which is empty before and after, lends its memory.
fn backward(
    alloc: Global,
    fst: &Fst,
    links: &[Arrival],
    room: usize,
    items: &mut Items,
    found: &mut Items,
) -> Result<(), Memory>
    requires order { IsNonDecreasingBy arrival_to links.now }
    requires none { found.old ≡ [] }
    ensures back { OnOk result (IsBack fst.now.edges false links.now items.old items.new) }
    ensures none { OnOk result (found.new ≡ []) }
{
    while let Some(item) = items.pop() {
        move_before(alloc, fst, links, item, room, found)?;
    }
    mem::swap(items, found);
    Ok(())
}

/// Adds the item before one of the items by one link, if its edge has an empty left side.
fn add_silent_link(
    alloc: Global,
    fst: &Fst,
    link: Arrival,
    room: usize,
    items: &mut Items,
    at: usize,
) -> Result<(), Memory>
    ensures { OnOk result ((item : Item) → slice_get items.old at ≡ Some item →
        AddsBack fst.now.edges true (link ∷ []) (item ∷ []) items.old items.new) }
{
    let Some(edge) = edge_at(fst.edges(), link.edge) else {
        return Ok(());
    };
    let Some(item) = items.get(at) else {
        return Ok(());
    };
    if !leads(edge, link, item, true) {
        return Ok(());
    }
    let back = copy_symbols(alloc, &item.back, room)?;
    items.add(item_before(alloc, edge, back, room)?)?;
    Ok(())
}

/// Adds the items before one of the items, by these links.
fn add_silent_links(
    alloc: Global,
    fst: &Fst,
    links: &[Arrival],
    room: usize,
    items: &mut Items,
    at: usize,
) -> Result<(), Memory>
    ensures { OnOk result ((item : Item) → slice_get items.old at ≡ Some item →
        AddsBack fst.now.edges true links.now (item ∷ []) items.old items.new) }
{
    for link in links {
        add_silent_link(alloc, fst, *link, room, items, at)?;
    }
    Ok(())
}

/// Adds the items before one of the items, by those of these links that lead to its state.
fn add_before(
    alloc: Global,
    fst: &Fst,
    links: &[Arrival],
    room: usize,
    items: &mut Items,
    at: usize,
) -> Result<(), Memory>
    requires { IsNonDecreasingBy arrival_to links.now }
    ensures { OnOk result ((item : Item) → slice_get items.old at ≡ Some item →
        AddsBack fst.now.edges true links.now (item ∷ []) items.old items.new) }
{
    let Some(item) = items.get(at) else {
        return Ok(());
    };
    let here = arrivals_at(links, item.state);
    add_silent_links(alloc, fst, here, room, items, at)
}

/// Adds the items before those from this place on, by edges with an empty left side.
fn add_round(
    alloc: Global,
    fst: &Fst,
    links: &[Arrival],
    room: usize,
    items: &mut Items,
    from: usize,
) -> Result<(), Memory>
    requires order { IsNonDecreasingBy arrival_to links.now }
    requires there { from ≤ length items.old }
    ensures { OnOk result (AddsBack fst.now.edges true links.now (drop from items.old)
        items.old items.new) }
{
    let end = items.len();
    for at in from..end {
        add_before(alloc, fst, links, room, items, at)?;
    }
    Ok(())
}

/// Adds all that these links lead back to, round after round.
fn rounds_back(
    alloc: Global,
    fst: &Fst,
    links: &[Arrival],
    room: usize,
    items: &mut Items,
) -> Result<(), Memory>
    requires no_cycle { HasNoEmptyCycle fst.now }
    requires order { IsNonDecreasingBy arrival_to links.now }
    requires below { (x : Item) → IsIn x items.old → x.state < fst.now.states }
    ensures { OnOk result (IsBackMany fst.now.edges links.now items.old items.new) }
{
    let mut from: usize = 0;
    let mut round: usize = 0;
    let _ = fst.states();
    empty_cycle_law();
    'rounds: while from < items.len() {
        let end = items.len();
        add_round(alloc, fst, links, room, items, from)?;
        from = end;
        round += 1;
    }
    Ok(())
}

/// Adds all that edges with an empty left side lead back to. Most rows have none.
fn close_back(
    alloc: Global,
    fst: &Fst,
    links: &[Arrival],
    room: usize,
    items: &mut Items,
) -> Result<(), Memory>
    requires no_cycle { HasNoEmptyCycle fst.now }
    requires order { IsNonDecreasingBy arrival_to links.now }
    requires below { (x : Item) → IsIn x items.old → x.state < fst.now.states }
    ensures { OnOk result (IsBackMany fst.now.edges links.now items.old items.new) }
{
    if links.is_empty() {
        return Ok(());
    }
    rounds_back(alloc, fst, links, room, items)
}

/// The final ones of these states, with an empty output.
pub(crate) fn final_items(alloc: Global, fst: &Fst, states: &[usize]) -> Result<Items, Memory>
    ensures { IfOk result (λ items. AreFinals fst.now states.now items) }
{
    let mut items = Vec::new(alloc);
    for state in states {
        if fst.is_final(*state) {
            items.push(Item {
                state: *state,
                back: Sequence::new(alloc),
            })?;
        }
    }
    Items::from_vec(alloc, items)
}

fn add_start(backs: &mut Vec<Symbols>, item: Item) -> Result<(), Memory>
    ensures { OnOk result ((back : List Symbol) → IsIn back backs.new.items
        ↔ (IsIn back backs.old.items ⊎ (record { state = 0; back = back } ≡ item))) }
{
    let Item { state, back } = item;
    if state != 0 {
        return Ok(());
    }
    backs.push(back)?;
    Ok(())
}

/// The outputs of the items at the start.
pub(crate) fn at_start(alloc: Global, items: Vec<Item>) -> Result<Vec<Symbols>, Memory>
    ensures { IfOk result (λ backs. (back : List Symbol) →
        IsIn back backs.items ↔ IsIn (record { state = 0; back = back }) items.items) }
{
    let mut backs = Vec::with_capacity(alloc, items.len())?;
    for item in items {
        add_start(&mut backs, item)?;
    }
    Ok(backs)
}

/// The outputs of these rows, each last symbol first.
fn outputs_back(alloc: Global, fst: &Fst, rows: &[HeldRow]) -> Result<Vec<Symbols>, Memory>
    requires no_cycle { HasNoEmptyCycle fst.now }
    requires writes { WritesWords fst.now }
    requires some { 0 < length rows.now }
    ensures outputs { IfOk result (λ backs. (seen : List Input) →
        AreRows fst.now.edges seen rows.now → AreBacks fst.now seen backs.items) }
    ensures words { IfOk result (λ backs. (back : List Symbol) → IsIn back backs.items →
        IsTrue (list_all is_word_symbol back)) }
{
    let _ = fst.states();
    let mut at = rows.len() - 1;
    let room = rows.len().saturating_add(SPARE);
    let last = &rows[at];
    let mut items = final_items(alloc, fst, last.states())?;
    let mut found = Items::new(alloc);
    rounds_back(alloc, fst, last.silent(), room, &mut items)?;
    while at > 0 {
        let row = &rows[at];
        backward(alloc, fst, row.taken(), room, &mut items, &mut found)?;
        at -= 1;
        let earlier = &rows[at];
        close_back(alloc, fst, earlier.silent(), room, &mut items)?;
    }
    at_start(alloc, items.into_vec())
}

/// The same, and none where there is no row.
pub(crate) fn backs_of(alloc: Global, fst: &Fst, rows: &[HeldRow]) -> Result<Vec<Symbols>, Memory>
    requires no_cycle { HasNoEmptyCycle fst.now }
    requires writes { WritesWords fst.now }
    ensures outputs { IfOk result (λ backs. (seen : List Input) →
        AreRows fst.now.edges seen rows.now → AreBacks fst.now seen backs.items) }
    ensures words { IfOk result (λ backs. (back : List Symbol) → IsIn back backs.items →
        IsTrue (list_all is_word_symbol back)) }
{
    if rows.is_empty() {
        return Ok(Vec::new(alloc));
    }
    outputs_back(alloc, fst, rows)
}
