ghost use Rattle.std.specs.Prelude.{◌≡◌, ◌<◌, ◌++◌, ◌∷◌, [], None, IfOk, OnOk, IsTrue, Some, length, slice_get};
ghost use Rattle.std.specs.Option.{option_copied, option_to_list};
ghost use Rattle.ap_fst.specs.Lists.{IsIn};
ghost use Rattle.ap_live.specs.Tails.{Merges};

use crate::picking::is_symbol;
use ap_symbol::{Memory, Sequence, Symbol};
use std::alloc::Global;
use std::marker::Model;

/// The symbols of an output, the last first.
pub(crate) type Symbols = Sequence<Symbol>;

/// Among so few items an equal one is looked for one by one, and among more by its code.
const FEW: usize = 16;

/// What codes are multiplied by, an odd number with its bits spread.
const SPREAD: usize = 0x9E37_79B9_7F4A_7C15;

/// A state, and an output from it to the end, its last symbol first.
#[derive(Debug, Drop)]
pub struct Item {
    pub state: usize,
    pub back: Symbols,
}

/// Gives an output without a symbol room for so many.
fn reserve(alloc: Global, back: &mut Symbols, room: usize) -> Result<(), Memory>
    ensures { OnOk result (back.new ≡ back.old) }
{
    if !back.is_empty() {
        return Ok(());
    }
    let made = Vec::with_capacity(alloc, room)?;
    *back = Sequence::from_vec(made);
    Ok(())
}

/// Appends what an edge writes to an output, which goes back. Where it has no symbol yet it gets
/// room for so many.
pub(crate) fn push_right(
    alloc: Global,
    right: &Option<Symbol>,
    room: usize,
    back: &mut Symbols,
) -> Result<(), Memory>
    ensures { OnOk result (back.new ≡ back.old ++ option_to_list right.now) }
{
    match right {
        None => Ok(()),
        Some(symbol) => {
            reserve(alloc, back, room)?;
            back.push(symbol.copy(alloc)?)?;
            Ok(())
        }
    }
}

/// Items, of which an equal one isn't added again. Contracts see the list.
///
/// Where there are more than a few, each has its slot: the first that was free from its code on. A
/// slot has one more than the item's place, or 0. It is checked when it is used, so that a wrong
/// one costs time alone.
#[derive(Debug, Drop)]
pub(crate) struct Items {
    list: Vec<Item>,
    slots: Vec<usize>,
}

impl Model for Items {
    ghost use Rattle.std.specs.Prelude.{List};
    ghost use Rattle.ap_live.specs.declared.items.Item.{Item};

    ghost Value = { List Item };

    ghost view = { λ i. i.list.items };
}

fn is_same_output(a: &[Symbol], b: &[Symbol]) -> bool
    ensures { IsTrue result → a.now ≡ b.now }
{
    if a.len() != b.len() {
        return false;
    }
    for at in 0..a.len() {
        if !is_symbol(&a[at], &b[at]) {
            return false;
        }
    }
    true
}

fn is_same(a: &Item, b: &Item) -> bool
    ensures { IsTrue result → a.now ≡ b.now }
{
    a.state == b.state && is_same_output(a.back.as_slice(), b.back.as_slice())
}

/// Whether one of the items is equal.
fn is_listed(items: &[Item], item: &Item) -> bool
    ensures { IsTrue result → IsIn item.now items.now }
{
    for other in items {
        if is_same(other, item) {
            return true;
        }
    }
    false
}

/// Whether the item at a place is equal.
fn is_at(items: &[Item], at: usize, item: &Item) -> bool
    ensures { IsTrue result → IsIn item.now items.now }
{
    match items.get(at) {
        None => false,
        Some(other) => is_same(other, item),
    }
}

fn mixed(code: usize, more: usize) -> usize {
    code.wrapping_mul(SPREAD).wrapping_add(more)
}

fn text_code(code: usize, text: &str) -> usize {
    let mut code = code;
    for byte in text.as_bytes() {
        code = mixed(code, *byte as usize);
    }
    code
}

pub(crate) fn symbol_code(code: usize, symbol: &Symbol) -> usize {
    match symbol {
        Symbol::Letter(c) => mixed(code, *c as usize),
        Symbol::Tag(name) => text_code(code, name.text()),
        _ => mixed(code, 1),
    }
}

/// A number that is the same for equal items, and mostly another one for others.
fn code_of(item: &Item) -> usize {
    let mut code = item.state;
    for symbol in item.back.as_slice() {
        code = symbol_code(code, symbol);
    }
    code
}

/// Whether one of the items is equal, by the slots from its code on.
fn is_slotted(items: &[Item], slots: &[usize], item: &Item) -> bool
    ensures { IsTrue result → IsIn item.now items.now }
{
    let code = code_of(item);
    for step in 0..slots.len() {
        let place = slots[code.wrapping_add(step) % slots.len()];
        if place == 0 {
            return false;
        }
        if is_at(items, place - 1, item) {
            return true;
        }
    }
    false
}

/// Puts a place into the first free slot from the code on.
fn put(slots: &mut Vec<usize>, code: usize, place: usize) {
    for step in 0..slots.len() {
        let slot = code.wrapping_add(step) % slots.len();
        if slots[slot] == 0 {
            slots[slot] = place;
            return;
        }
    }
}

/// So many free slots.
fn clear(slots: &mut Vec<usize>, count: usize) -> Result<(), Memory> {
    slots.clear();
    for _ in 0..count {
        slots.push(0)?;
    }
    Ok(())
}

/// Makes the slots anew, four for each item.
fn slot_all(items: &[Item], slots: &mut Vec<usize>) -> Result<(), Memory> {
    clear(slots, items.len().saturating_mul(4))?;
    for at in 0..items.len() {
        put(slots, code_of(&items[at]), at.saturating_add(1));
    }
    Ok(())
}

/// Gives the last item its slot, if there are more than a few. Where it is the first one beyond, or
/// slots become scarce, all are made anew.
fn slot_last(items: &[Item], slots: &mut Vec<usize>) -> Result<(), Memory> {
    let count = items.len();
    let Some(last) = items.last() else {
        return Ok(());
    };
    if count <= FEW {
        return Ok(());
    }
    if count == FEW + 1 || slots.len() / 2 < count {
        return slot_all(items, slots);
    }
    put(slots, code_of(last), count);
    Ok(())
}

impl Items {
    pub(crate) fn new(alloc: Global) -> Items
        ensures { result ≡ [] }
    {
        Items {
            list: Vec::new(alloc),
            slots: Vec::new(alloc),
        }
    }

    /// The items of a vector.
    pub(crate) fn from_vec(alloc: Global, list: Vec<Item>) -> Result<Items, Memory>
        ensures { IfOk result (λ made. made ≡ list.items) }
    {
        let mut slots = Vec::new(alloc);
        if FEW < list.len() {
            slot_all(list.as_slice(), &mut slots)?;
        }
        Ok(Items { list, slots })
    }

    /// The number of items.
    pub(crate) fn len(&self) -> usize
        ensures { result ≡ length self.now }
    {
        self.list.len()
    }

    /// The item at a place.
    pub(crate) fn get(&self, at: usize) -> Option<&Item>
        ensures { option_copied result ≡ slice_get self.now at }
    {
        self.list.get(at)
    }

    fn holds(&self, item: &Item) -> bool
        ensures { IsTrue result → IsIn item.now self.now }
    {
        let items = self.list.as_slice();
        if items.len() <= FEW {
            return is_listed(items, item);
        }
        is_slotted(items, self.slots.as_slice(), item)
    }

    /// Adds an item, unless an equal one is there.
    pub(crate) fn add(&mut self, item: Item) -> Result<(), Memory>
        ensures { OnOk result (Merges self.old item self.new) }
    {
        if self.list.is_empty() {
            self.list.push(item)?;
            return Ok(());
        }
        if self.holds(&item) {
            return Ok(());
        }
        self.list.push(item)?;
        slot_last(self.list.as_slice(), &mut self.slots)?;
        Ok(())
    }

    /// Takes the last item away.
    pub(crate) fn pop(&mut self) -> Option<Item>
        ensures some { (item : Item) → result ≡ Some item → self.old ≡ self.new ++ item ∷ [] }
        ensures none { result ≡ None → (self.old ≡ []) × (self.new ≡ []) }
    {
        self.list.pop()
    }

    /// A vector of the items.
    pub(crate) fn into_vec(self) -> Vec<Item>
        ensures { result.items ≡ self }
    {
        let Items { list, .. } = self;
        list
    }
}
