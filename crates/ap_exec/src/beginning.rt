//! What a run of a rule begins with.
ghost use Rattle.std.specs.Prelude.{◌≡◌, ◌++◌, [], map, length, IfOk, OnOk, is_some};
ghost use Rattle.ap_rules.specs.Views.{plain_rules};
ghost use Rattle.ap_exec.specs.Acting.{definitions_of, action_of, shown, shown_chunk, units_in};
ghost use Rattle.ap_exec.specs.Beginning.{chunk_in, lead_in, from_first};
ghost use Rattle.ap_exec.specs.Held.{word_in};
ghost use Rattle.ap_exec.specs.Stacks.{body_of};
ghost use Rattle.ap_exec.specs.States.{definitions};

use crate::lent::{Held, Lent};
use crate::matched::{Matched, MatchedUnit};
use crate::spare::Spare;
use crate::state::World;
use crate::values::append;
use ap_rules::{Rules, Statement};
use ap_symbol::{Memory, Word};
use std::alloc::Global;

/// What rules define, and what their variables hold.
pub(crate) fn world_of<'a>(rules: &'a Rules, vars: &'a [Word]) -> World<'a>
    ensures definitions { definitions result ≡ definitions_of (plain_rules rules.now) }
    ensures vars { result.vars.now ≡ vars.now }
    ensures macros { result.macros.now ≡ rules.now.macros.items }
{
    World {
        form: rules.form,
        attributes: rules.attributes.as_slice(),
        lists: rules.lists.as_slice(),
        macros: &rules.macros,
        vars,
    }
}

/// The action of a rule, or none where there is no rule of that number.
pub(crate) fn action_of(rules: &Rules, n: usize) -> &[Statement]
    ensures { body_of result.now ≡ action_of (plain_rules rules.now) n }
{
    match rules.rules.get(n) {
        None => &[],
        Some(rule) => &rule.action,
    }
}

/// A word with another one behind it.
fn joined(alloc: Global, head: &Word, queue: &Word) -> Result<Word, Memory>
    ensures { IfOk result (λ made. made ≡ head.now ++ queue.now) }
{
    let mut made = head.copy(alloc)?;
    append(alloc, queue.symbols(), &mut made)?;
    Ok(made)
}

/// The target of a unit, which is copied only where its queue isn't empty.
fn target_of<'a>(alloc: Global, unit: &'a MatchedUnit) -> Result<Held<'a>, Memory>
    ensures { IfOk result (λ held. word_in held ≡ unit.now.head ++ unit.now.queue) }
{
    if unit.queue.is_empty() {
        Ok(Held::Lent(&unit.head))
    } else {
        let made = joined(alloc, &unit.head, &unit.queue)?;
        Ok(Held::Made(made))
    }
}

/// A unit of the match.
fn lend<'a>(alloc: Global, unit: &'a MatchedUnit) -> Result<Lent<'a>, Memory>
    ensures { IfOk result (λ lent. lent ≡ shown unit.now) }
{
    let target = target_of(alloc, unit)?;
    let content = unit.content.as_slice();
    Ok(Lent::new(Held::Lent(&unit.source), target, unit.head.len(), content))
}

/// The chunk of postchunk as a unit.
fn lend_chunk<'a>(alloc: Global, name: &'a Word) -> Lent<'a>
    ensures { result ≡ shown_chunk name.now }
{
    Lent::new(
        Held::Made(Word::new(alloc)),
        Held::Lent(name),
        name.len(),
        &[],
    )
}

/// The chunk, where there is one.
fn chunk_of<'a>(alloc: Global, chunk: &'a Option<Word>) -> Result<Vec<Lent<'a>>, Memory>
    ensures { IfOk result (λ units. units.items ≡ chunk_in chunk.now) }
{
    let mut units = Vec::new(alloc);
    match chunk {
        None => Ok(units),
        Some(name) => {
            units.push(lend_chunk(alloc, name))?;
            Ok(units)
        }
    }
}

/// The units of a match by number.
pub(crate) fn units_of<'a>(alloc: Global, matched: &'a Matched) -> Result<Vec<Lent<'a>>, Memory>
    ensures { IfOk result (λ units. units.items ≡ units_in matched.now.chunk matched.now.units) }
{
    let mut lent = chunk_of(alloc, &matched.chunk)?;
    'units: for unit in matched.units.as_slice() {
        lent.push(lend(alloc, unit)?)?;
    }
    Ok(lent)
}

/// What stands at the positions, where there are so many units, with the chunk or without.
pub(crate) fn positions_of(
    alloc: Global,
    has_chunk: bool,
    count: usize,
    spare: &mut Spare,
) -> Result<Vec<Option<usize>>, Memory>
    ensures { IfOk result (λ positions. positions.items ≡ lead_in has_chunk ++ from_first count) }
{
    let mut positions = spare.take_places(alloc);
    if !has_chunk {
        positions.push(None)?;
    }
    'numbers: for number in 0..count {
        positions.push(Some(number))?;
    }
    Ok(positions)
}
