ghost use Rattle.std.specs.Prelude.{◌≡◌, ◌++◌, IfOk, OnOk, IsTrue, reverse, slice_get};
ghost use Rattle.ap_symbol.specs.Words.{AreProper};
ghost use Rattle.ap_fst.specs.Lists.{IsIn};
ghost use Rattle.ap_fst.specs.declared.label.Edge.{Edge};
ghost use Rattle.ap_live.specs.Heads.{written, written_by};
ghost use Rattle.ap_live.specs.Outlines.{IsOutline};
ghost use Rattle.ap_live.specs.Outputs.{WritesWords, is_word_side};

use crate::backward::edge_at;
use crate::outline::{Outline, letter_of, place_of, right_at};
use crate::wording::SYMBOL_BYTES;
use ap_fst::{Edge, Fst};
use ap_symbol::{Memory, Symbol, Word};
use std::alloc::Global;

/// Appends what the edge at a place writes, as it tells itself.
fn push_right(alloc: Global, edges: &[Edge], place: usize, word: &mut Word) -> Result<(), Memory>
    requires { (e : Edge) → IsIn e edges.now → IsTrue (is_word_side e.label.right) }
    ensures { OnOk result (word.new ≡ word.old ++ written_by (slice_get edges.now place)) }
{
    match edge_at(edges, place) {
        None => Ok(()),
        Some(edge) => match &edge.label.right {
            None => Ok(()),
            Some(symbol) => word.push(symbol.copy(alloc)?),
        },
    }
}

/// Appends what the edge at a place writes. The outline tells a letter, and that there is nothing;
/// else the edge itself is read, which takes longer, since edges take much room.
fn push_written(
    alloc: Global,
    edges: &[Edge],
    outline: &Outline,
    place: usize,
    word: &mut Word,
) -> Result<(), Memory>
    requires { (e : Edge) → IsIn e edges.now → IsTrue (is_word_side e.label.right) }
    ensures { OnOk result (IsOutline edges.now outline.now → word.new ≡ word.old
        ++ written_by (slice_get edges.now place)) }
{
    if place >= edges.len() {
        return Ok(());
    }
    let code = right_at(outline, place);
    if code == 0 {
        return Ok(());
    }
    match letter_of(code) {
        Some(letter) => word.push(Symbol::Letter(letter)),
        None => push_right(alloc, edges, place_of(code, place), word),
    }
}

/// The word that the edges at these places write, the last first.
pub(crate) fn word_along(
    alloc: Global,
    fst: &Fst,
    outline: &Outline,
    places: Vec<usize>,
) -> Result<Word, Memory>
    requires { WritesWords fst.now }
    ensures is { IfOk result (λ word. IsOutline fst.now.edges outline.now → word ≡ reverse
        (written fst.now.edges places.items)) }
    ensures proper { IfOk result (λ word. AreProper word) }
{
    let edges = fst.edges();
    let len = places.len();
    let mut places = places;
    let mut word = Word::with_capacity(alloc, len, len.saturating_mul(SYMBOL_BYTES))?;
    while let Some(place) = places.pop() {
        push_written(alloc, edges, outline, place, &mut word)?;
    }
    let _ = word.symbols();
    Ok(word)
}
