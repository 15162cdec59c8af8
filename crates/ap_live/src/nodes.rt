ghost use Rattle.std.specs.Prelude.{◌≡◌, ◌<◌, ◌≤◌, ℕ, List, None, OnOk, Ok, Option, Some, true, length, slice_get};
ghost use Rattle.std.specs.Option.{option_copied};
ghost use Rattle.ap_symbol.specs.declared.symbol.Symbol.{Symbol};
ghost use Rattle.ap_symbol.specs.declared.symbol.Symbol.TheVariants.{Letter};
ghost use Rattle.ap_fst.specs.Lists.{Ascends};
ghost use Rattle.ap_fst.specs.Machines.{IsSpan};
ghost use Rattle.ap_fst.specs.Order.{edge_cmp};
ghost use Rattle.ap_fst.specs.declared.label.Edge.{Edge};
ghost use Rattle.ap_live.specs.Fitting.{Input, pick_of, picks};
ghost use Rattle.ap_live.specs.Outlines.{AreCodes, IsCoded, IsOutline};
ghost use Rattle.ap_live.specs.Spreads.{AnyPlace, HasLeft, IsOther};
ghost use Rattle.ap_live.specs.Trails.{AddsNodes, Grows};

use crate::outline::{Outline, code_of_input, has_code, letter_code, low_of, may_have, span_in};
use crate::picking::{Pick, is_picked};
use ap_fst::{Edge, Fst};
use ap_symbol::{Memory, Symbol};

/// Among so few edges of a state a tag or a mark is looked for one by one, and among more by
/// halving.
const FEW: usize = 24;

/// A way from the start to a state: the place of its last edge, and the node of what comes before
/// it. The first node stands for the start.
#[derive(Clone, Copy, Debug)]
pub struct Node {
    pub state: usize,
    pub edge: usize,
    pub back: usize,
}

/// Adds a node behind one for each of a state's edges, from this place up to the last, whose left
/// sides have this code, which are picked. They stand side by side.
fn push_coded(
    outline: &Outline,
    low: usize,
    last: usize,
    code: u32,
    back: usize,
    nodes: &mut Vec<Node>,
) -> Result<(), Memory>
    requires { last ≤ length outline.now.entries.items }
    ensures grown { Grows nodes.old.items nodes.new.items }
    ensures added { OnOk result ((edges : List Edge) (pick : Option Input) (from first : ℕ)
        (left : Option Symbol) → IsCoded edges outline.now pick from first last low code left →
        AddsNodes edges pick from (HasLeft edges left) back nodes.old.items nodes.new.items) }
{
    let entries = outline.entries.as_slice();
    for place in low..last {
        let entry = entries[place];
        if entry.left != code {
            return Ok(());
        }
        nodes.push(Node {
            state: entry.to as usize,
            edge: place,
            back,
        })?;
    }
    Ok(())
}

/// Adds a node behind one for each of a state's edges, which are at these places, that have this
/// letter on the left, and are picked.
fn push_letter(
    outline: &Outline,
    first: usize,
    last: usize,
    codes: u32,
    letter: char,
    back: usize,
    nodes: &mut Vec<Node>,
) -> Result<(), Memory>
    requires { last ≤ length outline.now.entries.items }
    ensures grown { Grows nodes.old.items nodes.new.items }
    ensures added { OnOk result ((edges : List Edge) (pick : Option Input) (from : ℕ) →
        IsOutline edges outline.now → Ascends edge_cmp edges → IsSpan edges from first last →
        AreCodes edges first last codes →
        ((e : Edge) → e.label.left ≡ Some (Letter letter) → picks pick e ≡ true) →
        AddsNodes edges pick from (HasLeft edges (Some (Letter letter))) back
        nodes.old.items nodes.new.items) }
{
    let code = letter_code(letter);
    if !may_have(codes, code) {
        return Ok(());
    }
    let low = low_of(outline.entries.as_slice(), first, last, codes, code);
    push_coded(outline, low, last, code, back, nodes)
}

/// Adds a node behind one for each of a state's edges, which are at these places, with an empty
/// left side.
fn push_silent(
    outline: &Outline,
    first: usize,
    last: usize,
    codes: u32,
    back: usize,
    nodes: &mut Vec<Node>,
) -> Result<(), Memory>
    requires { last ≤ length outline.now.entries.items }
    ensures grown { Grows nodes.old.items nodes.new.items }
    ensures added { OnOk result ((edges : List Edge) (from : ℕ) → IsOutline edges outline.now →
        Ascends edge_cmp edges → IsSpan edges from first last → AreCodes edges first last codes →
        AddsNodes edges None from AnyPlace back nodes.old.items nodes.new.items) }
{
    if !may_have(codes, 0) {
        return Ok(());
    }
    push_coded(outline, first, last, 0, back, nodes)
}

/// Adds a node behind one for each of a state's edges, which are at these places, that is picked.
fn push_picked(
    edges: &[Edge],
    first: usize,
    last: usize,
    pick: Pick<'_>,
    other: Option<&Symbol>,
    back: usize,
    nodes: &mut Vec<Node>,
) -> Result<(), Memory>
    requires { (i : Input) → pick_of pick ≡ Some i → IsOther i (option_copied other) }
    ensures grown { Grows nodes.old.items nodes.new.items }
    ensures added { OnOk result ((from : ℕ) → IsSpan edges.now from first last → AddsNodes
        edges.now (pick_of pick.entry) from AnyPlace back nodes.old.items nodes.new.items) }
{
    let last = last.min(edges.len());
    for place in first..last {
        let edge = &edges[place];
        if is_picked(edge, pick, other) {
            nodes.push(Node {
                state: edge.to,
                edge: place,
                back,
            })?;
        }
    }
    Ok(())
}

/// Adds a node behind one for each of a state's edges with this left symbol, which are found by
/// halving over all edges.
fn push_found(
    fst: &Fst,
    from: usize,
    left: &Symbol,
    back: usize,
    nodes: &mut Vec<Node>,
) -> Result<(), Memory>
    ensures grown { Grows nodes.old.items nodes.new.items }
    ensures added { OnOk result ((pick : Option Input) → ((e : Edge) → e.label.left ≡ Some left.now →
        picks pick e ≡ true) → AddsNodes fst.now.edges pick from
        (HasLeft fst.now.edges (Some left.now)) back nodes.old.items nodes.new.items) }
{
    let edges = fst.edges();
    let (first, last) = fst.span_by(from, Some(left));
    for place in first..last {
        let edge = &edges[place];
        nodes.push(Node {
            state: edge.to,
            edge: place,
            back,
        })?;
    }
    Ok(())
}

/// Adds a node behind one for each of a state's edges, which are at these places, that have this
/// tag or mark on the left. Mostly there is none; where the state has many edges, they are found by
/// halving.
fn push_mark(
    fst: &Fst,
    outline: &Outline,
    from: usize,
    first: usize,
    last: usize,
    codes: u32,
    input: &Symbol,
    sensitive: bool,
    back: usize,
    nodes: &mut Vec<Node>,
) -> Result<(), Memory>
    requires within { last ≤ length outline.now.entries.items }
    requires other { IsOther (record { symbol = input.now; sensitive = sensitive }) None }
    ensures grown { Grows nodes.old.items nodes.new.items }
    ensures added { OnOk result (IsOutline fst.now.edges outline.now →
        IsSpan fst.now.edges from first last → AddsNodes fst.now.edges
        (Some (record { symbol = input.now; sensitive = sensitive })) from AnyPlace back
        nodes.old.items nodes.new.items) }
{
    let edges = fst.edges();
    let code = code_of_input(input);
    let low = low_of(outline.entries.as_slice(), first, last, codes, code);
    if !has_code(outline.entries.as_slice(), low, last, code) {
        return Ok(());
    }
    if last > first.saturating_add(FEW) {
        return push_found(fst, from, input, back, nodes);
    }
    let pick = Pick::Fitting(input, sensitive);
    push_picked(edges, first, last, pick, None, back, nodes)
}

/// Adds a node behind one for each of a state's edges, which are at these places, that fit an input.
/// `other` is the symbol that fits it beside the input itself.
fn push_fitting(
    fst: &Fst,
    outline: &Outline,
    from: usize,
    first: usize,
    last: usize,
    codes: u32,
    input: &Symbol,
    sensitive: bool,
    other: Option<&Symbol>,
    back: usize,
    nodes: &mut Vec<Node>,
) -> Result<(), Memory>
    requires within { last ≤ length outline.now.entries.items }
    requires other { IsOther (record { symbol = input.now; sensitive = sensitive })
        (option_copied other) }
    ensures grown { Grows nodes.old.items nodes.new.items }
    ensures added { OnOk result (IsOutline fst.now.edges outline.now →
        IsSpan fst.now.edges from first last → AreCodes fst.now.edges first last codes →
        AddsNodes fst.now.edges (Some (record { symbol = input.now; sensitive = sensitive })) from
        AnyPlace back nodes.old.items nodes.new.items) }
{
    let edges = fst.edges();
    match (input, other) {
        (Symbol::Letter(letter), None) => {
            push_letter(outline, first, last, codes, *letter, back, nodes)
        }
        (Symbol::Letter(letter), Some(Symbol::Letter(small))) => {
            push_letter(outline, first, last, codes, *letter, back, nodes)?;
            push_letter(outline, first, last, codes, *small, back, nodes)
        }
        (_, None) => push_mark(
            fst, outline, from, first, last, codes, input, sensitive, back, nodes,
        ),
        _ => {
            let pick = Pick::Fitting(input, sensitive);
            push_picked(edges, first, last, pick, other, back, nodes)
        }
    }
}

/// Adds the nodes behind this one, by its state's edges that fit an input, and answers whether they
/// were found: not where the outline doesn't have them all.
pub(crate) fn enter(
    fst: &Fst,
    outline: &Outline,
    at: usize,
    input: &Symbol,
    sensitive: bool,
    other: Option<&Symbol>,
    nodes: &mut Vec<Node>,
) -> Result<bool, Memory>
    requires within { at < length nodes.old.items }
    requires other { IsOther (record { symbol = input.now; sensitive = sensitive })
        (option_copied other) }
    ensures grown { Grows nodes.old.items nodes.new.items }
    ensures entered { result ≡ Ok true → IsOutline fst.now.edges outline.now → (x : Node) →
        slice_get nodes.old.items at ≡ Some x → AddsNodes fst.now.edges
        (Some (record { symbol = input.now; sensitive = sensitive })) x.state AnyPlace at
        nodes.old.items nodes.new.items }
{
    let from = nodes[at].state;
    let Some((first, last, codes)) = span_in(outline, from) else {
        return Ok(false);
    };
    push_fitting(
        fst, outline, from, first, last, codes, input, sensitive, other, at, nodes,
    )?;
    Ok(true)
}

/// Adds the nodes behind this one, by its state's edges with an empty left side, and answers
/// whether they were found: not where the outline doesn't have them all.
pub(crate) fn enter_silently(
    fst: &Fst,
    outline: &Outline,
    at: usize,
    nodes: &mut Vec<Node>,
) -> Result<bool, Memory>
    requires { at < length nodes.old.items }
    ensures grown { Grows nodes.old.items nodes.new.items }
    ensures entered { result ≡ Ok true → IsOutline fst.now.edges outline.now → (x : Node) →
        slice_get nodes.old.items at ≡ Some x → AddsNodes fst.now.edges None x.state AnyPlace at
        nodes.old.items nodes.new.items }
{
    let _ = fst.states();
    let Some((first, last, codes)) = span_in(outline, nodes[at].state) else {
        return Ok(false);
    };
    push_silent(outline, first, last, codes, at, nodes)?;
    Ok(true)
}
