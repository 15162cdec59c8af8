//! Whether a condition holds.
ghost use Rattle.std.specs.Prelude.{◌≡◌};
ghost use Rattle.ap_rules.specs.Plain.{conditions_of};
ghost use Rattle.ap_rules.specs.Views.{plain_comparison, plain_membership, plain_condition, plain_conditions};
ghost use Rattle.ap_exec.specs.Comparing.{compared_some};
ghost use Rattle.ap_exec.specs.Conditions.{words_of, compares, compares_some, holds, all_hold, one_holds};
ghost use Rattle.ap_exec.specs.Results.{Gives};
ghost use Rattle.ap_exec.specs.States.{sight};

use crate::comparing::{Way, compared, compared_some};
use crate::refusal::ExecRefusal;
use crate::state::View;
use crate::values::{direct, read};
use ap_rules::{Comparison, Condition, DefList, Membership};
use ap_symbol::{Symbol, Word};
use std::alloc::Global;

/// Compares values of which some may have to be made.
fn compares_made(
    alloc: Global,
    view: &View<'_, '_>,
    way: Way,
    held: &Comparison,
) -> Result<bool, ExecRefusal>
    ensures { Gives (λ b. b) result (compares way (sight view.now) (plain_comparison held.now)) }
{
    let mut first = Word::new(alloc);
    let mut second = Word::new(alloc);
    let a = read(alloc, *view, &held.first, &mut first)?;
    let b = read(alloc, *view, &held.second, &mut second)?;
    Ok(compared(way, held.caseless, a, b))
}

/// Compares values. Nothing is made where both are parts of what there is.
fn compares(
    alloc: Global,
    view: &View<'_, '_>,
    way: Way,
    held: &Comparison,
) -> Result<bool, ExecRefusal>
    ensures { Gives (λ b. b) result (compares way (sight view.now) (plain_comparison held.now)) }
{
    match (direct(&*view, &held.first), direct(&*view, &held.second)) {
        (Some(a), Some(b)) => Ok(compared(way, held.caseless, a, b)),
        _ => compares_made(alloc, &*view, way, held),
    }
}

fn is_listed(way: Way, caseless: bool, word: &[Symbol], lists: &[DefList], n: usize) -> bool
    ensures { result ≡ compared_some way caseless word.now (words_of lists.now n) }
{
    match lists.get(n) {
        None => false,
        Some(list) => compared_some(way, caseless, word, list.items.as_slice()),
    }
}

/// Compares a value that may have to be made with a list.
fn compares_some_made(
    alloc: Global,
    view: &View<'_, '_>,
    way: Way,
    held: &Membership,
) -> Result<bool, ExecRefusal>
    ensures { Gives (λ b. b) result
        (compares_some way (sight view.now) (plain_membership held.now)) }
{
    let mut made = Word::new(alloc);
    let word = read(alloc, *view, &held.value, &mut made)?;
    Ok(is_listed(way, held.caseless, word, view.world.lists, held.list))
}

/// Compares a value with a list. Nothing is made where it is a part of what there is.
fn compares_some(
    alloc: Global,
    view: &View<'_, '_>,
    way: Way,
    held: &Membership,
) -> Result<bool, ExecRefusal>
    ensures { Gives (λ b. b) result
        (compares_some way (sight view.now) (plain_membership held.now)) }
{
    match direct(&*view, &held.value) {
        Some(word) => Ok(is_listed(way, held.caseless, word, view.world.lists, held.list)),
        None => compares_some_made(alloc, &*view, way, held),
    }
}

/// Whether a condition holds. What no longer decides isn't read.
#[tactic(auto, using(crate::proofs::Trees::views))]
#[cycle(hold)]
pub(crate) fn holds(
    alloc: Global,
    view: &View<'_, '_>,
    condition: &Condition,
) -> Result<bool, ExecRefusal>
    ensures { Gives (λ b. b) result (holds (sight view.now) (plain_condition condition.now)) }
{
    match condition {
        Condition::And(held) => all_hold(alloc, &*view, &held.conditions),
        Condition::Or(held) => one_holds(alloc, &*view, &held.conditions),
        Condition::Not(held) => Ok(!holds(alloc, &*view, &held.condition)?),
        Condition::Equal(held) => compares(alloc, &*view, Way::Equals, held),
        Condition::BeginsWith(held) => compares(alloc, &*view, Way::Begins, held),
        Condition::EndsWith(held) => compares(alloc, &*view, Way::Ends, held),
        Condition::ContainsSubstring(held) => compares(alloc, &*view, Way::Contains, held),
        Condition::In(held) => compares_some(alloc, &*view, Way::Equals, held),
        Condition::BeginsWithList(held) => compares_some(alloc, &*view, Way::Begins, held),
        Condition::EndsWithList(held) => compares_some(alloc, &*view, Way::Ends, held),
    }
}

#[cycle(hold)]
fn all_hold(
    alloc: Global,
    view: &View<'_, '_>,
    conditions: &[Condition],
) -> Result<bool, ExecRefusal>
    ensures { Gives (λ b. b) result
        (all_hold (sight view.now) (conditions_of (plain_conditions conditions.now))) }
{
    'conditions: for condition in conditions {
        if !holds(alloc, &*view, condition)? {
            return Ok(false);
        }
    }
    Ok(true)
}

#[cycle(hold)]
fn one_holds(
    alloc: Global,
    view: &View<'_, '_>,
    conditions: &[Condition],
) -> Result<bool, ExecRefusal>
    ensures { Gives (λ b. b) result
        (one_holds (sight view.now) (conditions_of (plain_conditions conditions.now))) }
{
    'conditions: for condition in conditions {
        if holds(alloc, &*view, condition)? {
            return Ok(true);
        }
    }
    Ok(false)
}
