ghost use Rattle.std.specs.Prelude.{◌≡◌, ◌+◌, ◌^◌, ◌<◌, ◌≤◌, length, IfOk, None};
ghost use Rattle.std.specs.Option.{option_copied};
ghost use Rattle.ap_binary.specs.declared.refusal.BinaryKind.TheVariants.{BadLine, OutOfRange};
ghost use Rattle.ap_binary.specs.declared.refusal.BinaryRefusal.TheVariants.{Fault};
ghost use Rattle.ap_binary.specs.Lines.{Tells, fault, follows, is_within, judged_edge, edge_line, edges_in, judged_final, final_line, finals_in, counts_of, head_line};

use crate::heads::{Counts, Head};
use crate::pieces::{edge, final_state, head};
use crate::refusal::{BinaryFault, BinaryKind, BinaryRefusal, CutError};
use ap_fst::{Edge, Edges, Finals, Kind2, compare_edges};
use std::alloc::Global;
use std::cmp::Ordering;

pub(crate) fn bad_line(line: u64) -> BinaryRefusal
    ensures { result ≡ Fault (fault BadLine line) }
{
    BinaryRefusal::Fault(BinaryFault {
        kind: BinaryKind::BadLine,
        line,
    })
}

fn out_of_range(line: u64) -> BinaryRefusal
    ensures { result ≡ Fault (fault OutOfRange line) }
{
    BinaryRefusal::Fault(BinaryFault {
        kind: BinaryKind::OutOfRange,
        line,
    })
}

fn follows(before: Option<&Edge>, edge: &Edge) -> bool
    ensures { result ≡ follows (option_copied before.entry) edge.now }
{
    match before {
        None => true,
        Some(before) => compare_edges(before, edge).is_lt(),
    }
}

fn is_within(states: u64, edge: &Edge) -> bool
    ensures { result ≡ is_within states edge.now }
{
    (edge.from as u64) < states && (edge.to as u64) < states
}

fn judged_edge<'a>(
    states: u64,
    before: Option<&Edge>,
    line: u64,
    edge: Edge,
    rest: &'a [u8],
) -> Result<(Edge, &'a [u8]), BinaryRefusal>
    ensures gives { Tells (λ x. (x.0, x.1.now)) result
        (judged_edge states (option_copied before.entry) line (edge, rest.now)) }
    ensures rest { IfOk result (λ x. x.1.now ≡ rest.now) }
{
    if !follows(before, &edge) {
        return Err(bad_line(line));
    }
    if !is_within(states, &edge) {
        return Err(out_of_range(line));
    }
    Ok((edge, rest))
}

/// The line of an edge, which stands behind `before`.
#[tactic(auto, unfolding(crate::specs::Lines::edge_line))]
fn edge_line<'a>(
    alloc: Global,
    states: u64,
    before: Option<&Edge>,
    line: u64,
    bytes: &'a [u8],
) -> Result<(Edge, &'a [u8]), BinaryRefusal>
    ensures gives { Tells (λ x. (x.0, x.1.now)) result
        (edge_line states (option_copied before.entry) line bytes.now) }
    ensures shorter { IfOk result (λ x. length x.1.now < length bytes.now) }
{
    match edge(alloc, bytes) {
        Ok((edge, rest)) => judged_edge(states, before, line, edge, rest),
        Err(CutError::Bad) => Err(bad_line(line)),
        Err(CutError::Memory) => Err(BinaryRefusal::Memory),
    }
}

/// So many lines of edges from this line on. Memory is taken by the lines that are there.
pub(crate) fn edges<'a>(
    alloc: Global,
    count: u64,
    states: u64,
    line: u64,
    bytes: &'a [u8],
) -> Result<(Edges, &'a [u8]), BinaryRefusal>
    requires { line + length bytes.now < 2 ^ 64 }
    ensures gives { Tells (λ x. (x.0, x.1.now)) result (edges_in count states None line bytes.now) }
    ensures lines { IfOk result (λ x. count + length x.1.now ≤ length bytes.now) }
{
    let mut found = Edges::new(alloc);
    let mut rest = bytes;
    'edges: for k in 0..count {
        let before = found.as_slice().last();
        let (edge, after) = edge_line(alloc, states, before, line + k, rest)?;
        found.push(edge)?;
        rest = after;
    }
    Ok((found, rest))
}

fn judged_final<'a>(
    states: u64,
    least: u64,
    line: u64,
    state: usize,
    rest: &'a [u8],
) -> Result<(usize, &'a [u8]), BinaryRefusal>
    ensures gives { Tells (λ x. (x.0, x.1.now)) result
        (judged_final states least line (state, rest.now)) }
    ensures rest { IfOk result (λ x. x.1.now ≡ rest.now) }
    ensures within { IfOk result (λ x. x.0 < states) }
{
    if (state as u64) < least {
        return Err(bad_line(line));
    }
    if state as u64 >= states {
        return Err(out_of_range(line));
    }
    Ok((state, rest))
}

/// The line of a final state, which is no less than `least`.
#[tactic(auto, unfolding(crate::specs::Lines::final_line))]
fn final_line<'a>(
    states: u64,
    least: u64,
    line: u64,
    bytes: &'a [u8],
) -> Result<(usize, &'a [u8]), BinaryRefusal>
    ensures gives { Tells (λ x. (x.0, x.1.now)) result (final_line states least line bytes.now) }
    ensures shorter { IfOk result (λ x. length x.1.now < length bytes.now) }
    ensures within { IfOk result (λ x. x.0 < states) }
{
    match final_state(bytes) {
        Ok((state, rest)) => judged_final(states, least, line, state, rest),
        Err(CutError::Bad) => Err(bad_line(line)),
        Err(CutError::Memory) => Err(BinaryRefusal::Memory),
    }
}

/// So many lines of final states from this line on. Memory is taken by the lines that are there.
pub(crate) fn finals<'a>(
    alloc: Global,
    count: u64,
    states: u64,
    line: u64,
    bytes: &'a [u8],
) -> Result<(Finals, &'a [u8]), BinaryRefusal>
    requires { line + length bytes.now < 2 ^ 64 }
    ensures gives { Tells (λ x. (x.0, x.1.now)) result (finals_in count states 0 line bytes.now) }
    ensures lines { IfOk result (λ x. count + length x.1.now ≤ length bytes.now) }
{
    let mut found = Finals::new(alloc);
    let mut least = 0;
    let mut rest = bytes;
    'finals: for k in 0..count {
        let (state, after) = final_line(states, least, line + k, rest)?;
        found.push(state)?;
        least = state as u64 + 1;
        rest = after;
    }
    Ok((found, rest))
}

fn counts_of(line: u64, head: Head) -> Result<Counts, BinaryRefusal>
    ensures { Tells (λ x. x) result (counts_of line head.states head.edges head.finals) }
{
    let (Some(states), Some(edges), Some(finals)) = (head.states, head.edges, head.finals) else {
        return Err(out_of_range(line));
    };
    if states == 0 {
        return Err(out_of_range(line));
    }
    Ok(Counts {
        states,
        edges,
        finals,
    })
}

/// The first line of a section of this kind.
#[tactic(auto, unfolding(crate::specs::Lines::head_line))]
pub(crate) fn head_line(
    kind: Kind2,
    line: u64,
    bytes: &[u8],
) -> Result<(Counts, &[u8]), BinaryRefusal>
    ensures gives { Tells (λ x. (x.0, x.1.now)) result (head_line kind line bytes.now) }
    ensures shorter { IfOk result (λ x. length x.1.now < length bytes.now) }
    ensures some { IfOk result (λ x. 0 < x.0.states) }
{
    match head(kind, bytes) {
        Ok((head, rest)) => {
            let counts = counts_of(line, head)?;
            Ok((counts, rest))
        }
        Err(CutError::Bad) => Err(bad_line(line)),
        Err(CutError::Memory) => Err(BinaryRefusal::Memory),
    }
}
