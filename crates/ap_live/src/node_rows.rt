ghost use Rattle.std.specs.Prelude.{◌≡◌, ◌≤◌, ◌++◌, ◌∷◌, ℕ, [], List, None, Ok, Some, true, length};
ghost use Rattle.std.specs.Option.{option_copied};
ghost use Rattle.ap_live.specs.Fitting.{Input};
ghost use Rattle.ap_live.specs.Outlines.{IsOutline};
ghost use Rattle.ap_live.specs.Spreads.{IsOther};
ghost use Rattle.ap_live.specs.Trails.{AreWays, Grows, Spreads};

use crate::nodes::{Node, enter, enter_silently};
use crate::outline::Outline;
use crate::picking::{Pick, other_symbol};
use ap_fst::Fst;
use ap_symbol::{Memory, Symbol};

/// So many nodes the edges with an empty left side may be followed from, after each input, so that
/// ways that grow in number are left to rows of states.
const MOST_NODES: usize = 4_096;

/// Adds the nodes behind those from the first place up to the second, by edges that fit an input,
/// and answers whether they were found.
fn enter_all(
    fst: &Fst,
    outline: &Outline,
    low: usize,
    high: usize,
    input: &Symbol,
    sensitive: bool,
    other: Option<&Symbol>,
    nodes: &mut Vec<Node>,
) -> Result<bool, Memory>
    requires within { high ≤ length nodes.old.items }
    requires rises { low ≤ high }
    requires other { IsOther (record { symbol = input.now; sensitive = sensitive })
        (option_copied other) }
    ensures grown { Grows nodes.old.items nodes.new.items }
    ensures entered { result ≡ Ok true → IsOutline fst.now.edges outline.now → Spreads
        fst.now.edges (Some (record { symbol = input.now; sensitive = sensitive })) low high
        nodes.old.items nodes.new.items }
{
    for at in low..high {
        if !enter(fst, outline, at, input, sensitive, other, nodes)? {
            return Ok(false);
        }
    }
    Ok(true)
}

/// Adds the nodes behind those from this place on, those that are added too, by edges with an empty
/// left side, and answers whether they were found and are not too many.
fn close_nodes(
    fst: &Fst,
    outline: &Outline,
    low: usize,
    nodes: &mut Vec<Node>,
) -> Result<bool, Memory>
    requires { low ≤ length nodes.old.items }
    ensures grown { Grows nodes.old.items nodes.new.items }
    ensures closed { result ≡ Ok true → IsOutline fst.now.edges outline.now → Spreads
        fst.now.edges None low (length nodes.new.items) nodes.old.items nodes.new.items }
{
    for at in low..low.saturating_add(MOST_NODES) {
        if nodes.len() <= at {
            return Ok(true);
        }
        if !enter_silently(fst, outline, at, nodes)? {
            return Ok(false);
        }
    }
    Ok(false)
}

/// Adds the nodes of the row after one input more behind those of the last row, which begin at this
/// place, and answers whether they were found and are not too many.
pub(crate) fn add_nodes(
    fst: &Fst,
    outline: &Outline,
    low: usize,
    input: &Symbol,
    sensitive: bool,
    nodes: &mut Vec<Node>,
) -> Result<bool, Memory>
    requires { low ≤ length nodes.old.items }
    ensures grown { Grows nodes.old.items nodes.new.items }
    ensures added { result ≡ Ok true → IsOutline fst.now.edges outline.now → (seen : List Input) →
        AreWays fst.now.edges nodes.old.items seen low (length nodes.old.items) → AreWays
        fst.now.edges nodes.new.items (seen ++ record { symbol = input.now; sensitive = sensitive }
        ∷ []) (length nodes.old.items) (length nodes.new.items) }
{
    let high = nodes.len();
    let other = other_symbol(Pick::Fitting(input, sensitive));
    if !enter_all(
        fst,
        outline,
        low,
        high,
        input,
        sensitive,
        other.as_ref(),
        nodes,
    )? {
        return Ok(false);
    }
    close_nodes(fst, outline, high, nodes)
}

/// Adds the nodes before any input, where there are none, and answers whether they were found and
/// are not too many.
pub(crate) fn first_nodes(
    fst: &Fst,
    outline: &Outline,
    nodes: &mut Vec<Node>,
) -> Result<bool, Memory>
    requires { nodes.old.items ≡ [] }
    ensures { result ≡ Ok true → IsOutline fst.now.edges outline.now → AreWays fst.now.edges
        nodes.new.items [] 0 (length nodes.new.items) }
{
    nodes.push(Node {
        state: 0,
        edge: 0,
        back: 0,
    })?;
    close_nodes(fst, outline, 0, nodes)
}
