ghost use Rattle.std.specs.Prelude.{◌≡◌, ◌+◌, ◌^◌, ◌<◌, ◌++◌, map, IfOk, OnOk};
ghost use Rattle.ap_fst.specs.Redrafting.{edge_move, end_move, draft_moves};

use crate::draft::Move;
use crate::fst::Fst;
use crate::label::Edge;
use ap_symbol::Memory;
use std::alloc::Global;

fn add_edges(alloc: Global, edges: &[Edge], moves: &mut Vec<Move>) -> Result<(), Memory>
    ensures { OnOk result (moves.new.items ≡ moves.old.items ++ map edge_move edges.now) }
{
    for edge in edges {
        let label = edge.label.copy(alloc)?;
        moves.push(Move {
            from: edge.from,
            label: Some(label),
            to: edge.to,
        })?;
    }
    Ok(())
}

fn add_ends(finals: &[usize], end: usize, moves: &mut Vec<Move>) -> Result<(), Memory>
    ensures { OnOk result (moves.new.items ≡ moves.old.items ++ map (end_move end) finals.now) }
{
    for state in finals {
        moves.push(Move {
            from: *state,
            label: None,
            to: end,
        })?;
    }
    Ok(())
}

/// The moves of a draft that accepts what the transducer accepts. Its start and its end are the two
/// states behind those of the transducer.
pub(crate) fn moves_of(alloc: Global, fst: &Fst) -> Result<Vec<Move>, Memory>
    requires { fst.now.states + 1 < 2 ^ 64 }
    ensures { IfOk result (λ made. made.items ≡ draft_moves fst.now) }
{
    let states = fst.states();
    let count = fst.edges().len().saturating_add(fst.finals().len());
    let mut moves = Vec::with_capacity(alloc, count.saturating_add(1))?;
    moves.push(Move {
        from: states,
        label: None,
        to: 0,
    })?;
    add_edges(alloc, fst.edges(), &mut moves)?;
    add_ends(fst.finals(), states + 1, &mut moves)?;
    Ok(moves)
}
