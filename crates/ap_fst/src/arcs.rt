ghost use Rattle.std.specs.Prelude.{◌≡◌, ◌<◌, IfOk, map, nat_eq};
ghost use Rattle.std.specs.List.{filter};
ghost use Rattle.std.specs.List.Sorted.{IsNonDecreasingBy, IsPermutation};
ghost use Rattle.ap_fst.specs.Graphs.{arc_from, forward, backward};
ghost use Rattle.ap_fst.specs.Silence.{is_silent};

use crate::graph::{Arc, sort_arcs};
use crate::label::Edge;
use ap_symbol::Memory;
use std::alloc::Global;

/// The edges without their labels.
pub(crate) fn forward_arcs(alloc: Global, edges: &[Edge]) -> Result<Vec<Arc>, Memory>
    ensures { IfOk result (λ arcs. arcs.items ≡ map forward edges.now) }
{
    let mut arcs = Vec::with_capacity(alloc, edges.len())?;
    for edge in edges {
        arcs.push(Arc {
            from: edge.from,
            to: edge.to,
        })?;
    }
    Ok(arcs)
}

fn turned_arcs(alloc: Global, edges: &[Edge]) -> Result<Vec<Arc>, Memory>
    ensures { IfOk result (λ arcs. arcs.items ≡ map backward edges.now) }
{
    let mut arcs = Vec::with_capacity(alloc, edges.len())?;
    for edge in edges {
        arcs.push(Arc {
            from: edge.to,
            to: edge.from,
        })?;
    }
    Ok(arcs)
}

/// The edges turned round.
pub(crate) fn backward_arcs(alloc: Global, edges: &[Edge]) -> Result<Vec<Arc>, Memory>
    ensures permutation { IfOk result (λ arcs. IsPermutation (map backward edges.now) arcs.items) }
    ensures sorted { IfOk result (λ arcs. IsNonDecreasingBy arc_from arcs.items) }
{
    let mut arcs = turned_arcs(alloc, edges)?;
    sort_arcs(&mut arcs);
    Ok(arcs)
}

/// The edges with an empty left side.
pub(crate) fn silent_arcs(alloc: Global, edges: &[Edge]) -> Result<Vec<Arc>, Memory>
    ensures { IfOk result (λ arcs. arcs.items ≡ map forward (filter is_silent edges.now)) }
{
    let mut arcs = Vec::new(alloc);
    for edge in edges {
        if edge.label.left.is_none() {
            arcs.push(Arc {
                from: edge.from,
                to: edge.to,
            })?;
        }
    }
    Ok(arcs)
}
