ghost use Rattle.std.specs.Prelude.{◌⊎◌, ◌≡◌, ◌≢◌, ◌↔◌, ◌≤◌, ◌<◌, true, Ok, List, ◌∷◌, ◌++◌, [], length, IfOk, IfSome, OnOk, IsTrue, reverse};
ghost use Rattle.std.specs.List.{list_all};
ghost use Rattle.std.specs.List.Sorted.{IsNonDecreasingBy};
ghost use Rattle.std.specs.declared.cmp.Ordering.TheVariants.{Greater};
ghost use Rattle.ap_symbol.specs.Recasing.{carry_lem};
ghost use Rattle.ap_symbol.specs.Rendering.{word_cmp};
ghost use Rattle.ap_symbol.specs.Words.{is_word_symbol};
ghost use Rattle.ap_fst.specs.Lists.{IsIn};
ghost use Rattle.ap_live.specs.Fitting.{Input};
ghost use Rattle.ap_live.specs.Least.{AreLeast, ClosesLeast, EndsNoLater, HoldLeast, IsMatched, Thins};
ghost use Rattle.ap_live.specs.Outputs.{WritesWords};
ghost use Rattle.ap_live.specs.Rows.{AreRows};
ghost use Rattle.ap_live.specs.Spreads.{arrival_to};
ghost use Rattle.ap_live.specs.Tails.{AddsBack, IsBack};
ghost use Rattle.ap_live.specs.declared.items.Item.{Item};

use crate::arrivals::{Arrival, arrivals_at};
use crate::backward::{at_start, copy_symbols, edge_at, final_items, item_before, leads};
use crate::held::HeldRow;
use crate::items::{Item, Symbols};
use crate::wording::{word_of, words_of};
use ap_fst::Fst;
use ap_symbol::{Case, Memory, Word, carry, compare};
use std::alloc::Global;

/// For so many symbols more than there are rows, as for tags, an output has room from its first.
const SPARE: usize = 8;

/// The word of an end, whose last symbol comes first.
fn end_word(alloc: Global, end: &Symbols) -> Result<Word, Memory>
    requires { IsTrue (list_all is_word_symbol end.now) }
    ensures { IfOk result (λ word. word ≡ reverse end.now) }
{
    let copied = copy_symbols(alloc, end, 0)?;
    word_of(alloc, copied)
}

/// Whether a word doesn't stand behind another in the order of words.
fn is_no_later(a: &Word, b: &Word) -> bool
    ensures { result ≡ true → word_cmp a.now b.now ≢ Greater }
{
    !compare(a, b).is_gt()
}

/// The same with a case carried to both.
fn is_carried_no_later(alloc: Global, case: Case, a: &Word, b: &Word) -> Result<bool, Memory>
    ensures { result ≡ Ok true →
        word_cmp (carry_lem case a.now) (carry_lem case b.now) ≢ Greater }
{
    let first = carry(alloc, a, case)?;
    let second = carry(alloc, b, case)?;
    Ok(is_no_later(&first, &second))
}

/// Whether the first of two ends stands behind the second in no word, whatever stands before both,
/// once the case is carried. The first letter may stand before them or in them.
fn ends_no_later(alloc: Global, case: Case, a: &Symbols, b: &Symbols) -> Result<bool, Memory>
    requires a { IsTrue (list_all is_word_symbol a.now) }
    requires b { IsTrue (list_all is_word_symbol b.now) }
    ensures { result ≡ Ok true → EndsNoLater case a.now b.now }
{
    let first = end_word(alloc, a)?;
    let second = end_word(alloc, b)?;
    match case {
        Case::Low => Ok(is_no_later(&first, &second)),
        Case::All => is_carried_no_later(alloc, case, &first, &second),
        Case::First => {
            if !is_no_later(&first, &second) {
                return Ok(false);
            }
            is_carried_no_later(alloc, case, &first, &second)
        }
    }
}

/// Whether one of the last items, which have this one's state, has an end that is no later.
fn is_matched(alloc: Global, case: Case, items: &[Item], item: &Item) -> Result<bool, Memory>
    requires items { (x : Item) → IsIn x items.now → IsTrue (list_all is_word_symbol x.back) }
    requires item { IsTrue (list_all is_word_symbol item.now.back) }
    ensures { result ≡ Ok true → IsMatched case items.now item.now }
{
    let mut at = items.len();
    while at > 0 {
        at -= 1;
        let other = &items[at];
        if other.state != item.state {
            return Ok(false);
        }
        if ends_no_later(alloc, case, &other.back, &item.back)? {
            return Ok(true);
        }
    }
    Ok(false)
}

/// Adds an item, unless one that is there matches it.
fn keep(alloc: Global, case: Case, item: Item, kept: &mut Vec<Item>) -> Result<(), Memory>
    requires kept { (x : Item) → IsIn x kept.old.items →
        IsTrue (list_all is_word_symbol x.back) }
    requires item { IsTrue (list_all is_word_symbol item.back) }
    ensures more { OnOk result ((x : Item) → IsIn x kept.old.items → IsIn x kept.new.items) }
    ensures only { OnOk result ((x : Item) → IsIn x kept.new.items →
        IsIn x kept.old.items ⊎ (x ≡ item)) }
    ensures matched { OnOk result (IsMatched case kept.new.items item) }
{
    if is_matched(alloc, case, kept.as_slice(), &item)? {
        return Ok(());
    }
    kept.push(item)?;
    Ok(())
}

/// Of these items, from the last on, each that none before it matches.
fn thin_back(alloc: Global, case: Case, items: Vec<Item>) -> Result<Vec<Item>, Memory>
    requires { (x : Item) → IsIn x items.items → IsTrue (list_all is_word_symbol x.back) }
    ensures { IfOk result (λ kept. Thins case items.items kept.items) }
{
    let mut items = items;
    let mut kept = Vec::new(alloc);
    while let Some(item) = items.pop() {
        keep(alloc, case, item, &mut kept)?;
    }
    Ok(kept)
}

/// Puts items into the order of their states.
fn sort_items(items: &mut Vec<Item>)
    ensures { (x : Item) → IsIn x items.new.items ↔ IsIn x items.old.items }
{
    items.sort_unstable_by_key(|x| x.state);
}

/// Items of these in the order of their states, which match each of them: of one state mostly one.
fn thin(alloc: Global, case: Case, items: Vec<Item>) -> Result<Vec<Item>, Memory>
    requires { (x : Item) → IsIn x items.items → IsTrue (list_all is_word_symbol x.back) }
    ensures { IfOk result (λ kept. Thins case items.items kept.items) }
{
    let mut sorted = items;
    sort_items(&mut sorted);
    let kept = thin_back(alloc, case, sorted)?;
    thin_back(alloc, case, kept)
}

/// Adds the item before one item by one link, if its edge is of this sort.
fn push_link(
    alloc: Global,
    fst: &Fst,
    link: Arrival,
    silent: bool,
    item: &Item,
    room: usize,
    found: &mut Vec<Item>,
) -> Result<(), Memory>
    ensures { OnOk result (AddsBack fst.now.edges silent (link ∷ []) (item.now ∷ [])
        found.old.items found.new.items) }
{
    let Some(edge) = edge_at(fst.edges(), link.edge) else {
        return Ok(());
    };
    if !leads(edge, link, item, silent) {
        return Ok(());
    }
    let back = copy_symbols(alloc, &item.back, room)?;
    found.push(item_before(alloc, edge, back, room)?)?;
    Ok(())
}

/// Adds the items before one item, by these links.
fn push_links(
    alloc: Global,
    fst: &Fst,
    links: &[Arrival],
    silent: bool,
    item: &Item,
    room: usize,
    found: &mut Vec<Item>,
) -> Result<(), Memory>
    ensures { OnOk result (AddsBack fst.now.edges silent links.now (item.now ∷ [])
        found.old.items found.new.items) }
{
    for link in links {
        push_link(alloc, fst, *link, silent, item, room, found)?;
    }
    Ok(())
}

/// Adds the items before one item, by those of these links that lead to its state.
fn push_before(
    alloc: Global,
    fst: &Fst,
    links: &[Arrival],
    silent: bool,
    item: &Item,
    room: usize,
    found: &mut Vec<Item>,
) -> Result<(), Memory>
    requires { IsNonDecreasingBy arrival_to links.now }
    ensures { OnOk result (AddsBack fst.now.edges silent links.now (item.now ∷ [])
        found.old.items found.new.items) }
{
    let here = arrivals_at(links, item.state);
    push_links(alloc, fst, here, silent, item, room, found)
}

/// The items before these, by links of this sort.
fn all_before(
    alloc: Global,
    fst: &Fst,
    links: &[Arrival],
    silent: bool,
    items: &[Item],
    room: usize,
) -> Result<Vec<Item>, Memory>
    requires { IsNonDecreasingBy arrival_to links.now }
    ensures { IfOk result (λ found. IsBack fst.now.edges silent links.now items.now found.items) }
{
    let mut found = Vec::new(alloc);
    for item in items {
        push_before(alloc, fst, links, silent, item, room, &mut found)?;
    }
    Ok(found)
}

/// How many of the items, which stand in the order of their states, have no later state.
fn count_to(items: &[Item], state: usize) -> usize
    ensures { result ≤ length items.now }
{
    items.partition_point(|x| x.state <= state)
}

/// Whether one of the first items, which stand in the order of their states, matches each of the
/// others.
fn are_matched(alloc: Global, case: Case, items: &[Item], others: &[Item]) -> Result<bool, Memory>
    requires items { (x : Item) → IsIn x items.now → IsTrue (list_all is_word_symbol x.back) }
    requires others { (x : Item) → IsIn x others.now → IsTrue (list_all is_word_symbol x.back) }
    ensures { result ≡ Ok true → (x : Item) → IsIn x others.now → IsMatched case items.now x }
{
    for other in others {
        let count = count_to(items, other.state);
        if !is_matched(alloc, case, &items[..count], other)? {
            return Ok(false);
        }
    }
    Ok(true)
}

/// Items of these and of others, which match each of them.
fn thin_both(
    alloc: Global,
    case: Case,
    items: Vec<Item>,
    others: Vec<Item>,
) -> Result<Vec<Item>, Memory>
    requires items { (x : Item) → IsIn x items.items → IsTrue (list_all is_word_symbol x.back) }
    requires others { (x : Item) → IsIn x others.items →
        IsTrue (list_all is_word_symbol x.back) }
    ensures { IfOk result (λ kept. Thins case (items.items ++ others.items) kept.items) }
{
    let mut all = items;
    let mut more = others;
    all.append(&mut more)?;
    thin(alloc, case, all)
}

/// Items that these links lead back to from the given ones, by edges with an empty left side: they
/// match all that they lead back to, of one state mostly one item. None where so many rounds as
/// there are links, and one, don't tell it.
fn close_least(
    alloc: Global,
    fst: &Fst,
    links: &[Arrival],
    case: Case,
    room: usize,
    items: Vec<Item>,
) -> Result<Option<Vec<Item>>, Memory>
    requires order { IsNonDecreasingBy arrival_to links.now }
    requires writes { WritesWords fst.now }
    requires clean { (x : Item) → IsIn x items.items → IsTrue (list_all is_word_symbol x.back) }
    ensures closes { IfOk result (λ found. IfSome found (λ kept.
        ClosesLeast fst.now.edges links.now case items.items kept.items)) }
    ensures clean { IfOk result (λ found. IfSome found (λ kept. (x : Item) →
        IsIn x kept.items → IsTrue (list_all is_word_symbol x.back))) }
{
    let mut kept = thin(alloc, case, items)?;
    for _ in 0..links.len().saturating_add(1) {
        let before = all_before(alloc, fst, links, true, kept.as_slice(), room)?;
        if are_matched(alloc, case, kept.as_slice(), before.as_slice())? {
            return Ok(Some(kept));
        }
        kept = thin_both(alloc, case, kept, before)?;
    }
    Ok(None)
}

/// Ends that the rows lead back to at the start, of which one is no later than any other, or none
/// where that isn't told.
fn least_back(
    alloc: Global,
    fst: &Fst,
    case: Case,
    rows: &[HeldRow],
) -> Result<Option<Vec<Item>>, Memory>
    requires writes { WritesWords fst.now }
    requires some { 0 < length rows.now }
    ensures least { IfOk result (λ found. IfSome found (λ items. (seen : List Input) →
        AreRows fst.now.edges seen rows.now → AreLeast fst.now case [] seen items.items)) }
    ensures clean { IfOk result (λ found. IfSome found (λ items. (x : Item) →
        IsIn x items.items → IsTrue (list_all is_word_symbol x.back))) }
{
    let mut at = rows.len() - 1;
    let room = rows.len().saturating_add(SPARE);
    let last = &rows[at];
    let finals = final_items(alloc, fst, last.states())?.into_vec();
    let Some(mut items) = close_least(alloc, fst, last.silent(), case, room, finals)? else {
        return Ok(None);
    };
    while at > 0 {
        let taken = rows[at].taken();
        let before = all_before(alloc, fst, taken, false, items.as_slice(), room)?;
        at -= 1;
        let silent = rows[at].silent();
        let Some(closed) = close_least(alloc, fst, silent, case, room, before)? else {
            return Ok(None);
        };
        items = closed;
    }
    Ok(Some(items))
}

/// Outputs that these rows lead to, of which one is no later than any other once the case is
/// carried, or none where that isn't told.
pub(crate) fn least_words(
    alloc: Global,
    fst: &Fst,
    case: Case,
    rows: &[HeldRow],
) -> Result<Option<Vec<Word>>, Memory>
    requires { WritesWords fst.now }
    ensures { IfOk result (λ found. IfSome found (λ words. (seen : List Input) →
        AreRows fst.now.edges seen rows.now → HoldLeast fst.now case seen words.items)) }
{
    if rows.is_empty() {
        return Ok(None);
    }
    let Some(items) = least_back(alloc, fst, case, rows)? else {
        return Ok(None);
    };
    let backs = at_start(alloc, items)?;
    let words = words_of(alloc, backs)?;
    Ok(Some(words))
}
