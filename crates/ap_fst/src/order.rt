ghost use Rattle.std.specs.Prelude.{◌≡◌, Some};
ghost use Rattle.std.specs.Ordering.{nat_cmp};
ghost use Rattle.std.specs.Option.{option_copied};
ghost use Rattle.std.specs.Cmp.Lexicographic.{slice_cmp};
ghost use Rattle.ap_fst.specs.Order.{side_class, side_text, side_cmp, label_cmp, edge_cmp, left_cmp};

use crate::label::{Edge, Label};
use ap_symbol::Symbol;
use std::cmp::Ordering;

fn class_of(side: Option<&Symbol>) -> u8
    ensures { result ≡ side_class (option_copied side.entry) }
{
    match side {
        None => 0,
        Some(Symbol::Letter(_)) => 1,
        Some(Symbol::Tag(_)) => 2,
        Some(Symbol::Blank) => 3,
        Some(Symbol::Join) => 4,
        Some(Symbol::Queue) => 5,
        Some(Symbol::Alarm) => 6,
        Some(Symbol::Star) => 7,
        Some(Symbol::At) => 8,
    }
}

/// Compares two letters or two tags.
fn compare_texts(a: &Symbol, b: &Symbol) -> Ordering
    requires { side_class (Some a.now) ≡ side_class (Some b.now) }
    ensures { result ≡ slice_cmp nat_cmp (side_text (Some a.now)) (side_text (Some b.now)) }
{
    match (a, b) {
        (Symbol::Letter(c), Symbol::Letter(d)) => (*c as u32).cmp(&(*d as u32)),
        (Symbol::Tag(m), Symbol::Tag(n)) => m.text().as_bytes().cmp(&n.text().as_bytes()),
        _ => Ordering::Equal,
    }
}

fn compare_sides(a: Option<&Symbol>, b: Option<&Symbol>) -> Ordering
    ensures { result ≡ side_cmp (option_copied a.entry) (option_copied b.entry) }
{
    let (first, second) = (class_of(a), class_of(b));
    if first != second {
        return first.cmp(&second);
    }
    match (a, b) {
        (Some(a), Some(b)) => compare_texts(a, b),
        _ => Ordering::Equal,
    }
}

/// The order of labels: by the left side, then by the right. A side without a symbol comes first,
/// then letters by code point, tags by the bytes of the name, and the marks.
pub fn compare_labels(a: &Label, b: &Label) -> Ordering
    ensures { result ≡ label_cmp a.now b.now }
{
    match compare_sides(a.left.as_ref(), b.left.as_ref()) {
        Ordering::Equal => compare_sides(a.right.as_ref(), b.right.as_ref()),
        other => other,
    }
}

/// The order of edges: by the state that they leave, then by the label, as `compare_labels` has it,
/// then by the state that they enter.
pub fn compare_edges(a: &Edge, b: &Edge) -> Ordering
    ensures { result ≡ edge_cmp a.now b.now }
{
    if a.from != b.from {
        return a.from.cmp(&b.from);
    }
    match compare_labels(&a.label, &b.label) {
        Ordering::Equal => a.to.cmp(&b.to),
        other => other,
    }
}

/// How an edge stands to the edges of a state with this left side, in the order of edges.
pub(crate) fn compare_left(edge: &Edge, state: usize, left: Option<&Symbol>) -> Ordering
    ensures { result ≡ left_cmp edge.now state (option_copied left.entry) }
{
    if edge.from != state {
        return edge.from.cmp(&state);
    }
    compare_sides(edge.label.left.as_ref(), left)
}
