ghost use Rattle.std.specs.Prelude.{◌↔◌, ◌∷◌, [], IsTrue, IfOk, OnOk};
ghost use Rattle.ap_det.specs.Determinism.{IsDeterministic};
ghost use Rattle.ap_trim.specs.Products.{HasSight, AddsFinal, AddsOuts, IsGoodPair};
ghost use Rattle.ap_trim.specs.Sections.{IsKeptOf};

use crate::pairs::{Pair, Pairs};
use crate::sets::Sets;
use crate::stepping::{begin, is_good, step};
use crate::watch::Watch;
use ap_fst::{Edge, Edges, Finals, Fst};
use ap_symbol::Memory;
use std::alloc::Global;

fn is_good_pair(mono: &Fst, bilingual: &Fst, sets: &Sets, pair: Pair) -> bool
    requires { HasSight sets.now pair.watch }
    ensures { IsTrue result ↔ IsGoodPair mono.now bilingual.now sets.now pair }
{
    mono.is_final(pair.state) && is_good(bilingual, sets, pair.watch)
}

/// Adds the number of a pair to the final ones where its state is final and the word is kept there.
fn add_final(
    mono: &Fst,
    bilingual: &Fst,
    sets: &Sets,
    pair: Pair,
    number: usize,
    finals: &mut Finals,
) -> Result<(), Memory>
    requires { HasSight sets.now pair.watch }
    ensures { OnOk result (AddsFinal mono.now bilingual.now sets.now pair number finals.old
        finals.new) }
{
    if is_good_pair(mono, bilingual, sets, pair) {
        return finals.push(number);
    }
    Ok(())
}

/// Adds the edge of a pair's number that comes of an edge of its state.
fn add_out(
    alloc: Global,
    bilingual: &Fst,
    exit: &Edge,
    watch: Watch,
    from: usize,
    sets: &mut Sets,
    pairs: &mut Pairs,
    edges: &mut Edges,
) -> Result<(), Memory>
    requires { HasSight sets.old watch }
    ensures { OnOk result (AddsOuts bilingual.now watch from (exit.now ∷ []) sets.old sets.new
        pairs.old pairs.new edges.old edges.new) }
{
    let watch = step(alloc, bilingual, &exit.label.right, watch, sets)?;
    let state = exit.to;
    let to = pairs.number(Pair { state, watch })?;
    let label = exit.label.copy(alloc)?;
    edges.push(Edge { from, label, to })?;
    Ok(())
}

/// Adds the edges of a pair's number, one for each of these edges from its state.
fn add_outs(
    alloc: Global,
    bilingual: &Fst,
    exits: &[Edge],
    watch: Watch,
    from: usize,
    sets: &mut Sets,
    pairs: &mut Pairs,
    edges: &mut Edges,
) -> Result<(), Memory>
    requires { HasSight sets.old watch }
    ensures { OnOk result (AddsOuts bilingual.now watch from exits.now sets.old sets.new pairs.old
        pairs.new edges.old edges.new) }
{
    for exit in exits {
        add_out(alloc, bilingual, exit, watch, from, sets, pairs, edges)?;
    }
    Ok(())
}

/// The label strings of a section of an analyser whose right word is kept. A state of the result is
/// a state of the section with what is known of the right word; pairs are numbered in the order in
/// which they are met, so only what is reached is there.
pub(crate) fn product(alloc: Global, mono: &Fst, bilingual: &Fst) -> Result<Fst, Memory>
    requires { IsDeterministic mono.now }
    ensures { IfOk result (λ made. IsKeptOf mono.now bilingual.now made) }
{
    let _states = mono.states();
    let mut sets = Sets::new(alloc);
    let watch = begin(alloc, bilingual, &mut sets)?;
    let mut pairs = Pairs::new(alloc);
    let _ = pairs.number(Pair { state: 0, watch })?;
    let mut edges = Edges::new(alloc);
    let mut finals = Finals::new(alloc);
    let mut number = 0;
    'pairs: while number < pairs.len() {
        let pair = pairs.get(number);
        add_final(mono, bilingual, &sets, pair, number, &mut finals)?;
        let exits = mono.edges_from(pair.state);
        add_outs(
            alloc, bilingual, exits, pair.watch, number, &mut sets, &mut pairs, &mut edges,
        )?;
        number += 1;
    }
    Ok(Fst::build(pairs.len(), edges, finals))
}
