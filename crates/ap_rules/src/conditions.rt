ghost use Rattle.std.specs.Prelude.{◌≡◌, IfOk, false};
ghost use Rattle.std.specs.Option.{option_map};
ghost use Rattle.ap_markup.specs.View.{tag_of};
ghost use Rattle.ap_markup.specs.Views.{pairs};
ghost use Rattle.ap_rules.specs.Children.{children_in, children_of};
ghost use Rattle.ap_rules.specs.Conditions as read;
ghost use Rattle.ap_rules.specs.Plain.{all_of, one_of, conditions_of};
ghost use Rattle.ap_rules.specs.Scopes.{scope};
ghost use Rattle.ap_rules.specs.Values.{values};
ghost use Rattle.ap_rules.specs.Views.{plain_comparison, plain_membership, plain_condition, plain_conditions, plain_values};

use crate::children::{find, next_element};
use crate::condition::{And, Comparison, Condition, Membership, Not, Or};
use crate::value::Value;
use crate::values::{Scope, is_value, values};
use ap_markup::{Attribute, Node, Part, is_named, name_of, value_of};
use ap_symbol::Memory;
use std::alloc::Global;

/// `caseless="yes"`.
fn is_caseless(given: &[Attribute]) -> bool
    ensures { result ≡ read.is_caseless (pairs given.now) }
{
    is_value("yes", value_of("caseless", given))
}

/// Two values, in order.
fn compared(given: &[Attribute], mut inner: Vec<Value>) -> Option<Comparison>
    ensures { option_map plain_comparison result
        ≡ read.comparison (pairs given.now) (plain_values inner.items) }
{
    if inner.len() != 2 {
        return None;
    }
    let second = inner.pop()?;
    let first = inner.pop()?;
    Some(Comparison {
        caseless: is_caseless(given),
        first,
        second,
    })
}

/// A value, and a list.
fn listed(given: &[Attribute], mut inner: Vec<Value>, list: Option<usize>) -> Option<Membership>
    ensures { option_map plain_membership result
        ≡ read.membership (pairs given.now) (plain_values inner.items) list }
{
    if inner.len() != 1 {
        return None;
    }
    let value = inner.pop()?;
    let list = list?;
    Some(Membership {
        caseless: is_caseless(given),
        value,
        list,
    })
}

/// The number of the list that is named among the parts.
fn list_in(s: Scope<'_, '_>, parts: &[Part]) -> Option<usize>
    ensures { result ≡ read.list_in (scope s.entry) (children_in parts.now) }
{
    match find("list", parts) {
        None => None,
        Some(node) => s.names.lists.number_of(name_of(node)),
    }
}

fn comparison(alloc: Global, s: Scope<'_, '_>, node: &Node) -> Result<Option<Comparison>, Memory>
    ensures { IfOk result (λ made. option_map plain_comparison made
        ≡ read.comparison (pairs node.now.attributes)
        (values (scope s.entry) false (children_of node.now))) }
{
    let inner = values(alloc, s, false, &node.parts)?;
    Ok(compared(node.attributes.as_slice(), inner))
}

fn membership(alloc: Global, s: Scope<'_, '_>, node: &Node) -> Result<Option<Membership>, Memory>
    ensures { IfOk result (λ made. option_map plain_membership made
        ≡ read.membership (pairs node.now.attributes)
        (values (scope s.entry) false (children_of node.now))
        (read.list_in (scope s.entry) (children_of node.now))) }
{
    let inner = values(alloc, s, false, &node.parts)?;
    Ok(listed(node.attributes.as_slice(), inner, list_in(s, &node.parts)))
}

/// A condition without conditions in it.
fn simple_condition(
    alloc: Global,
    s: Scope<'_, '_>,
    node: &Node,
) -> Result<Option<Condition>, Memory>
    ensures { IfOk result (λ made. option_map plain_condition made
        ≡ read.simple_condition (scope s.entry) (tag_of node.now) (children_of node.now)) }
{
    if is_named("equal", node) {
        return Ok(comparison(alloc, s, node)?.map(Condition::Equal));
    }
    if is_named("begins-with", node) {
        return Ok(comparison(alloc, s, node)?.map(Condition::BeginsWith));
    }
    if is_named("ends-with", node) {
        return Ok(comparison(alloc, s, node)?.map(Condition::EndsWith));
    }
    if is_named("contains-substring", node) {
        return Ok(comparison(alloc, s, node)?.map(Condition::ContainsSubstring));
    }
    if is_named("in", node) {
        return Ok(membership(alloc, s, node)?.map(Condition::In));
    }
    if is_named("begins-with-list", node) {
        return Ok(membership(alloc, s, node)?.map(Condition::BeginsWithList));
    }
    if is_named("ends-with-list", node) {
        return Ok(membership(alloc, s, node)?.map(Condition::EndsWithList));
    }
    Ok(None)
}

fn all_of(conditions: Vec<Condition>) -> Condition
    ensures { plain_condition result ≡ all_of (conditions_of (plain_conditions conditions.items)) }
{
    Condition::And(And { conditions })
}

fn one_of(conditions: Vec<Condition>) -> Condition
    ensures { plain_condition result ≡ one_of (conditions_of (plain_conditions conditions.items)) }
{
    Condition::Or(Or { conditions })
}

/// Each of one or more conditions.
fn conjunction(conditions: Vec<Condition>) -> Option<Condition>
    ensures { option_map plain_condition result
        ≡ read.conjunction (plain_conditions conditions.items) }
{
    if conditions.is_empty() {
        return None;
    }
    Some(all_of(conditions))
}

/// One of one or more conditions.
fn disjunction(conditions: Vec<Condition>) -> Option<Condition>
    ensures { option_map plain_condition result
        ≡ read.disjunction (plain_conditions conditions.items) }
{
    if conditions.is_empty() {
        return None;
    }
    Some(one_of(conditions))
}

/// One condition that must not hold.
#[tactic(auto, using(crate::proofs::ConditionViews::views))]
fn negation(alloc: Global, mut inner: Vec<Condition>) -> Result<Option<Condition>, Memory>
    ensures { IfOk result (λ made. option_map plain_condition made
        ≡ read.negation (plain_conditions inner.items)) }
{
    if inner.len() != 1 {
        return Ok(None);
    }
    match inner.pop() {
        Some(condition) => {
            let condition = Box::new(alloc, condition)?;
            Ok(Some(Condition::Not(Not { condition })))
        }
        None => Ok(None),
    }
}

/// The condition that an element is.
#[cycle(conditions)]
fn condition(alloc: Global, s: Scope<'_, '_>, node: &Node) -> Result<Option<Condition>, Memory>
    ensures { IfOk result (λ made. option_map plain_condition made
        ≡ read.condition (scope s.entry) (tag_of node.now) (children_of node.now)
        (read.conditions (scope s.entry) (children_of node.now))) }
{
    if is_named("and", node) {
        let inner = conditions(alloc, s, &node.parts)?;
        return Ok(conjunction(inner));
    }
    if is_named("or", node) {
        let inner = conditions(alloc, s, &node.parts)?;
        return Ok(disjunction(inner));
    }
    if is_named("not", node) {
        let inner = conditions(alloc, s, &node.parts)?;
        return negation(alloc, inner);
    }
    simple_condition(alloc, s, node)
}

/// The conditions among the parts.
#[cycle(conditions)]
pub fn conditions(alloc: Global, s: Scope<'_, '_>, parts: &[Part]) -> Result<Vec<Condition>, Memory>
    ensures { IfOk result (λ made. plain_conditions made.items
        ≡ read.conditions (scope s.entry) (children_in parts.now)) }
{
    let mut made = Vec::new(alloc);
    let mut rest = parts;
    'rest: while let Some((node, more)) = next_element(rest) {
        if let Some(one) = condition(alloc, s, node)? {
            made.push(one)?;
        }
        rest = more;
    }
    Ok(made)
}
