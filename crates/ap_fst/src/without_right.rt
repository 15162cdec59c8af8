ghost use Rattle.std.specs.Prelude.{◌≡◌, bytes_eq, map, IfOk};
ghost use Rattle.std.specs.Option.{option_and_then};
ghost use Rattle.ap_fst.specs.Without.{is_that_tag, side_without, left_of_label, move_without};

use crate::draft::Move;
use crate::label::Label;
use ap_symbol::{Memory, Symbol, TagName};
use std::alloc::Global;

fn is_same_name(a: &TagName, b: &TagName) -> bool
    ensures { result ≡ bytes_eq a.now b.now }
{
    a.text() == b.text()
}

fn is_that_tag(symbol: &Symbol, tag: &TagName) -> bool
    ensures { result ≡ is_that_tag tag.now symbol.now }
{
    match symbol {
        Symbol::Tag(name) => is_same_name(name, tag),
        _ => false,
    }
}

/// A side with that tag left out.
fn side_without(side: Option<Symbol>, tag: &TagName) -> Option<Symbol>
    ensures { result ≡ side_without tag.now side }
{
    let Some(symbol) = side else {
        return None;
    };
    if is_that_tag(&symbol, tag) {
        return None;
    }
    Some(symbol)
}

/// What is left of a label: none where both its sides are then empty.
fn left_of_label(label: Label, tag: &TagName) -> Option<Label>
    ensures { result ≡ left_of_label tag.now label }
{
    let Label { left, right } = label;
    let label = Label {
        left,
        right: side_without(right, tag),
    };
    if !label.has_side() {
        return None;
    }
    Some(label)
}

fn left_of_any(label: Option<Label>, tag: &TagName) -> Option<Label>
    ensures { result ≡ option_and_then (left_of_label tag.now) label }
{
    match label {
        None => None,
        Some(label) => left_of_label(label, tag),
    }
}

/// The moves with that tag left out of the right sides of their labels. A move whose label has no
/// side then is empty.
pub(crate) fn moves_without(
    alloc: Global,
    moves: Vec<Move>,
    tag: &TagName,
) -> Result<Vec<Move>, Memory>
    ensures { IfOk result (λ made. made.items ≡ map (move_without tag.now) moves.items) }
{
    let mut made = Vec::new(alloc);
    for next in moves {
        let Move { from, label, to } = next;
        let label = left_of_any(label, tag);
        made.push(Move { from, label, to })?;
    }
    Ok(made)
}
