//! What values give.
ghost use Rattle.std.specs.Prelude.{◌≡◌, ◌≤◌, ◌++◌, ◌-◌, [], length, slice_get, true, Ok, IfSome, OnOk};
ghost use Rattle.std.specs.Option.{option_copied};
ghost use Rattle.ap_symbol.specs.Rendering.{rendering};
ghost use Rattle.ap_symbol.specs.Words.{AreProper};
ghost use Rattle.ap_rules.specs.Plain.{concat, get_case_from, values_of};
ghost use Rattle.ap_rules.specs.Views.{plain_value, plain_values};
ghost use Rattle.ap_exec.specs.Parts.{word_on, span_of, cut, clip_of};
ghost use Rattle.ap_exec.specs.Results.{Gives, seen};
ghost use Rattle.ap_exec.specs.States.{sight, overlaid, fresh_in};
ghost use Rattle.ap_stream.specs.declared.TheConstants.{UNIT_MAX};
ghost use Rattle.ap_exec.specs.Units.{var_at};
ghost use Rattle.ap_exec.specs.Values.{sized, bounded, case_word, value_of, joined_of, appended};

use crate::clips::{case_at, clip_of, part_at, part_on, side_in, unit_at};
use crate::lent::Lent;
use crate::refusal::ExecRefusal;
use crate::sizes::are_short;
use crate::spare::Spare;
use crate::state::View;
use ap_rules::{Clip, ClipPart, Concat, DefAttr, GetCaseFrom, Side, Value};
use ap_stream::UNIT_MAX;
use ap_symbol::{Case, Memory, Symbol, Word, case_of_symbols, recase};
use std::alloc::Global;

/// Appends symbols of a word.
pub(crate) fn append(alloc: Global, symbols: &[Symbol], into: &mut Word) -> Result<(), Memory>
    requires { AreProper symbols.now }
    ensures { OnOk result (into.new ≡ into.old ++ symbols.now) }
{
    for symbol in symbols {
        into.push(symbol.copy(alloc)?)?;
    }
    Ok(())
}

/// Tests what was appended behind so many bytes.
#[tactic(auto, unfolding(crate::specs::Values::sized))]
fn bound(before: usize, into: &Word) -> Result<(), ExecRefusal>
    ensures { Gives (λ x. x) result (sized (length (rendering into.now) - before) tt) }
{
    if into.rendered().len().saturating_sub(before) > UNIT_MAX {
        return Err(ExecRefusal::ValueTooLong);
    }
    Ok(())
}

/// Appends symbols of a word as a value.
#[tactic(auto, using(crate::proofs::Bounds::bounds), unfolding(crate::specs::Values::sized))]
fn push_symbols(alloc: Global, symbols: &[Symbol], into: &mut Word) -> Result<(), ExecRefusal>
    requires { AreProper symbols.now }
    ensures { Gives (λ _. into.new) result (seen (λ w. into.old ++ w) (bounded symbols.now)) }
{
    let before = into.rendered().len();
    append(alloc, symbols, into)?;
    bound(before, into)
}

fn old_var<'a>(vars: &'a [Word], n: usize) -> &'a [Symbol]
    ensures value { result.now ≡ var_at (slice_get vars.now n) }
    ensures proper { AreProper result.now }
{
    match vars.get(n) {
        None => &[],
        Some(word) => word.symbols(),
    }
}

fn fresh_at<'a>(fresh: &'a [Option<Word>], n: usize) -> Option<&'a Word>
    ensures { option_copied result ≡ fresh_in (slice_get fresh.now n) }
{
    match fresh.get(n) {
        None => None,
        Some(word) => word.as_ref(),
    }
}

/// What a variable holds, of which some have new values.
pub(crate) fn var_at<'a>(vars: &'a [Word], fresh: &'a [Option<Word>], n: usize) -> &'a [Symbol]
    ensures value { result.now ≡ var_at (slice_get (overlaid vars.now fresh.now) n) }
    ensures proper { AreProper result.now }
{
    match fresh_at(fresh, n) {
        None => old_var(vars, n),
        Some(word) => { if n < vars.len() { word.symbols() } else { &[] } }
    }
}

/// Appends the word that says a case.
fn push_case(alloc: Global, case: Case, into: &mut Word) -> Result<(), ExecRefusal>
    ensures { Gives (λ _. into.new) result (seen (λ w. into.old ++ w) (bounded (case_word case))) }
{
    match case {
        Case::Low => push_symbols(alloc, &[Symbol::Letter('a'), Symbol::Letter('a')], into),
        Case::First => push_symbols(alloc, &[Symbol::Letter('A'), Symbol::Letter('a')], into),
        Case::All => push_symbols(alloc, &[Symbol::Letter('A'), Symbol::Letter('A')], into),
    }
}

/// Appends what a value gives.
#[tactic(auto, using(crate::proofs::Trees::views))]
#[cycle(push)]
pub(crate) fn push_value(
    alloc: Global,
    view: &View<'_, '_>,
    value: &Value,
    into: &mut Word,
) -> Result<(), ExecRefusal>
    ensures { Gives (λ _. into.new) result
        (seen (λ w. into.old ++ w) (value_of (sight view.now) (plain_value value.now))) }
{
    match value {
        Value::Clip(clip) => push_symbols(alloc, clip_of(&*view, clip), into),
        Value::Lit(lit) => push_symbols(alloc, lit.v.symbols(), into),
        Value::LitTag(tags) => push_symbols(alloc, tags.v.symbols(), into),
        Value::Var(var) => push_symbols(alloc, var_at(view.world.vars, view.fresh, var.n), into),
        Value::GetCaseFrom(held) => push_recased(alloc, &*view, held, into),
        Value::CaseOf(of) => {
            let part = part_at(&*view, of.pos, of.part, of.side, true);
            push_case(alloc, case_of_symbols(part), into)
        }
        Value::Concat(held) => push_concat(alloc, &*view, held, into),
        Value::B(_) => push_symbols(alloc, &[Symbol::Blank], into),
    }
}

#[cycle(push)]
fn push_concat(
    alloc: Global,
    view: &View<'_, '_>,
    held: &Concat,
    into: &mut Word,
) -> Result<(), ExecRefusal>
    ensures { Gives (λ _. into.new) result
        (seen (λ w. into.old ++ w)
        (value_of (sight view.now) (concat (values_of (plain_values held.now.values.items))))) }
{
    let before = into.rendered().len();
    push_values(alloc, &*view, &held.values, into)?;
    bound(before, into)
}

#[cycle(push)]
fn push_recased(
    alloc: Global,
    view: &View<'_, '_>,
    held: &GetCaseFrom,
    into: &mut Word,
) -> Result<(), ExecRefusal>
    ensures { Gives (λ _. into.new) result
        (seen (λ w. into.old ++ w)
        (value_of (sight view.now)
        (get_case_from held.now.pos (plain_value held.now.value.value)))) }
{
    let mut made = Word::new(alloc);
    push_value(alloc, &*view, &held.value, &mut made)?;
    let word = recase(alloc, &made, case_at(&*view, held.pos))?;
    push_symbols(alloc, word.symbols(), into)
}

/// Appends what values give, one after another.
#[cycle(push)]
pub(crate) fn push_values(
    alloc: Global,
    view: &View<'_, '_>,
    values: &[Value],
    into: &mut Word,
) -> Result<(), ExecRefusal>
    ensures { Gives (λ _. into.new) result
        (seen (λ w. into.old ++ w)
        (joined_of (sight view.now) (values_of (plain_values values.now)))) }
{
    'values: for value in values {
        push_value(alloc, &*view, value, into)?;
    }
    Ok(())
}

/// The symbols, where they aren't too long for a value.
#[tactic(auto, unfolding(crate::specs::Values::sized))]
fn bounded(symbols: &[Symbol]) -> Result<&[Symbol], ExecRefusal>
    ensures { Gives (λ s. s.now) result (bounded symbols.now) }
{
    if are_short(symbols) {
        Ok(symbols)
    } else {
        Err(ExecRefusal::ValueTooLong)
    }
}

/// The symbols of a word, unless it is too long for a value.
#[tactic(auto, unfolding(crate::specs::Values::sized))]
fn short_word(word: &Word) -> Option<&[Symbol]>
    ensures value { IfSome result (λ s. bounded word.now ≡ Ok s.now) }
    ensures proper { IfSome result (λ s. AreProper s.now) }
{
    if word.rendered().len() > UNIT_MAX {
        return None;
    }
    Some(word.symbols())
}

/// Whether the word on a side of a unit isn't too long for a value.
fn is_short_on(side: Side, unit: &Lent<'_>) -> bool
    ensures { result ≡ true → length (rendering (word_on side true unit.now)) ≤ UNIT_MAX }
{
    match side {
        Side::Source => unit.source().rendered().len() <= UNIT_MAX,
        Side::Target => unit.target().rendered().len() <= UNIT_MAX,
    }
}

/// A part of the word on a side of a unit, where that word isn't too long for a value.
#[tactic(auto, using(crate::proofs::Whole::part_is_short))]
fn short_part<'a>(
    attributes: &[DefAttr],
    part: ClipPart,
    side: Side,
    queue: bool,
    unit: &'a Lent<'_>,
) -> Option<&'a [Symbol]>
    ensures value { IfSome result (λ s. bounded (cut
        (span_of attributes.now part (word_on side queue unit.now)) (word_on side queue unit.now))
        ≡ Ok s.now) }
    ensures proper { IfSome result (λ s. AreProper s.now) }
{
    if is_short_on(side, unit) {
        return Some(part_on(attributes, part, side, queue, unit));
    }
    None
}

/// What a clip without a link gives, where the word that it reads isn't too long for a value.
fn short_clip<'a>(view: &View<'a, '_>, clip: &Clip) -> Option<&'a [Symbol]>
    ensures value { IfSome result (λ s. bounded (clip_of (sight view.now) clip.now) ≡ Ok s.now) }
    ensures proper { IfSome result (λ s. AreProper s.now) }
{
    if clip.link_to.is_some() {
        return None;
    }
    match unit_at(view.positions, view.units, clip.pos) {
        None => None,
        Some(unit) => {
            let side = side_in(view.world.form, clip.side);
            short_part(view.world.attributes, clip.part, side, clip.queue, unit)
        }
    }
}

/// What a value gives, where that is a part of what there is and isn't too long for certain.
pub(crate) fn direct<'a>(view: &View<'a, '_>, value: &'a Value) -> Option<&'a [Symbol]>
    ensures value { IfSome result
        (λ s. value_of (sight view.now) (plain_value value.now) ≡ Ok s.now) }
    ensures proper { IfSome result (λ s. AreProper s.now) }
{
    match value {
        Value::Clip(clip) => short_clip(&*view, clip),
        Value::Lit(lit) => short_word(&lit.v),
        Value::LitTag(tags) => short_word(&tags.v),
        _ => None,
    }
}

/// What a value gives: a part of what there is, or else what is made in the empty word.
pub(crate) fn read<'a>(
    alloc: Global,
    view: View<'a, '_>,
    value: &'a Value,
    made: &'a mut Word,
) -> Result<&'a [Symbol], ExecRefusal>
    requires { made.old ≡ [] }
    ensures { Gives (λ s. s.now) result (value_of (sight view.entry) (plain_value value.now)) }
{
    match value {
        Value::Clip(clip) => bounded(clip_of(&view, clip)),
        Value::Lit(lit) => bounded(lit.v.symbols()),
        Value::LitTag(tags) => bounded(tags.v.symbols()),
        Value::Var(var) => bounded(var_at(view.world.vars, view.fresh, var.n)),
        _ => {
            push_value(alloc, &view, value, made)?;
            Ok(made.symbols())
        }
    }
}

/// The word, where it isn't too long for a value.
#[tactic(auto, unfolding(crate::specs::Values::sized))]
fn whole_bound(word: Word) -> Result<Word, ExecRefusal>
    ensures { Gives (λ w. w) result (bounded word) }
{
    if word.rendered().len() > UNIT_MAX {
        return Err(ExecRefusal::ValueTooLong);
    }
    Ok(word)
}

/// A variable with what values give behind it.
pub(crate) fn append_to(
    alloc: Global,
    view: &View<'_, '_>,
    spare: &mut Spare,
    n: usize,
    values: &[Value],
) -> Result<Word, ExecRefusal>
    ensures { Gives (λ w. w) result
        (appended (sight view.now) n (values_of (plain_values values.now))) }
{
    let mut word = spare.take(alloc)?;
    append(alloc, var_at(view.world.vars, view.fresh, n), &mut word)?;
    push_values(alloc, &*view, values, &mut word)?;
    whole_bound(word)
}
