ghost use Rattle.std.specs.Prelude.{◌↔◌, List, IfOk};
ghost use Rattle.ap_fst.specs.Trimming.{IsTrimmed};
ghost use Rattle.ap_fst.specs.Walks.{AcceptsLabels};
ghost use Rattle.ap_fst.specs.declared.label.Label.{Label};
ghost use Rattle.ap_det.specs.Determinism.{IsDeterministic};

use crate::dfst::Dfst;
use crate::ends::add_final;
use crate::groups::add_groups;
use crate::places::{begins_of, places_from};
use crate::sets::Sets;
use ap_fst::{Edges, Finals, Fst};
use ap_symbol::Memory;
use std::alloc::Global;

/// The same label strings, with at most one edge per state and label. A state of the result is a
/// set of states that some labels lead to; sets are numbered in the order in which they are met, so
/// only states that are reached are there, and what was trimmed stays trimmed. Their number may
/// double with each state, so want of memory, which is the only error, may come early. A transducer
/// that has at most one edge per state and label already takes about the time of a copy.
pub fn determinise(alloc: Global, fst: &Fst) -> Result<Dfst, Memory>
    ensures same { IfOk result (λ made. (labels : List Label) → AcceptsLabels made labels
        ↔ AcceptsLabels fst.now labels) }
    ensures one { IfOk result (λ made. IsDeterministic made) }
    ensures trimmed { IfOk result (λ made. IsTrimmed fst.now → IsTrimmed made) }
{
    let exits = fst.edges();
    let begins = begins_of(alloc, fst)?;
    let mut sets = Sets::new(alloc);
    let _ = sets.number(alloc, &[0])?;
    let mut edges = Edges::new(alloc);
    let mut finals = Finals::new(alloc);
    let mut number = 0;
    'sets: while number < sets.len() {
        add_final(fst, sets.get(number), number, &mut finals)?;
        let places = places_from(alloc, fst, &begins, sets.get(number))?;
        add_groups(
            alloc,
            exits,
            places.as_slice(),
            number,
            &mut sets,
            &mut edges,
        )?;
        number += 1;
    }
    Ok(Dfst::of(Fst::build(sets.len(), edges, finals)))
}
