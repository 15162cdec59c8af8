ghost use Rattle.std.specs.Prelude.{◌≡◌, IfOk, false, map, codes};
ghost use Rattle.std.specs.Option.{option_map};
ghost use Rattle.ap_markup.specs.NameLists.{number_of};
ghost use Rattle.ap_markup.specs.Said.{name_of};
ghost use Rattle.ap_markup.specs.View.{tag_of};
ghost use Rattle.ap_markup.specs.Views.{pairs};
ghost use Rattle.ap_rules.specs.Children.{children_in, children_of};
ghost use Rattle.ap_rules.specs.Plain.{choose, statements_of, whens_of};
ghost use Rattle.ap_rules.specs.Scopes.{scope};
ghost use Rattle.ap_rules.specs.Statements as read;
ghost use Rattle.ap_rules.specs.Values.{values};
ghost use Rattle.ap_rules.specs.Views.{plain_condition, plain_conditions, plain_setting, plain_statement, plain_statements, plain_value, plain_values, plain_when};

use crate::children::{next_element, within};
use crate::condition::Condition;
use crate::conditions::conditions;
use crate::pieces::pieces;
use crate::statement::{Append, CallMacro, Choose, Let, ModifyCase, Out, Place, Statement, When};
use crate::value::Value;
use crate::values::{Scope, position_of, values};
use ap_markup::{Node, Part, is_named, name_of};
use ap_symbol::Memory;
use std::alloc::Global;

/// What may be set: a part of a unit, or a variable.
#[tactic(auto, using(crate::proofs::ValueViews::views))]
fn place_of(value: Value) -> Option<Place>
    ensures { result ≡ read.place_of (plain_value value) }
{
    match value {
        Value::Clip(clip) => Some(Place::Clip(clip)),
        Value::Var(var) => Some(Place::Var(var)),
        Value::Lit(_) => None,
        Value::LitTag(_) => None,
        Value::GetCaseFrom(_) => None,
        Value::CaseOf(_) => None,
        Value::Concat(_) => None,
        Value::B(_) => None,
    }
}

/// A place, and a value.
fn placed(mut inner: Vec<Value>) -> Option<(Place, Value)>
    ensures { option_map plain_setting result ≡ read.setting (plain_values inner.items) }
{
    if inner.len() != 2 {
        return None;
    }
    let value = inner.pop()?;
    let place = place_of(inner.pop()?)?;
    Some((place, value))
}

fn setting(alloc: Global, s: Scope<'_, '_>, node: &Node) -> Result<Option<(Place, Value)>, Memory>
    ensures { IfOk result (λ made. option_map plain_setting made
        ≡ read.setting (values (scope s.entry) false (children_of node.now))) }
{
    Ok(placed(values(alloc, s, false, &node.parts)?))
}

/// The positions of the units that a macro is given.
fn params(alloc: Global, s: Scope<'_, '_>, parts: &[Part]) -> Result<Vec<usize>, Memory>
    ensures { IfOk result (λ made. made.items
        ≡ read.params (scope s.entry) (children_in parts.now)) }
{
    let mut made = Vec::new(alloc);
    let mut rest = parts;
    'rest: while let Some((node, more)) = next_element(rest) {
        if is_named("with-param", node) {
            if let Some(pos) = position_of(s, node.attributes.as_slice()) {
                made.push(pos)?;
            }
        }
        rest = more;
    }
    Ok(made)
}

/// The macro is given so many units.
fn is_given(npar: Option<usize>, count: usize) -> bool
    ensures { result ≡ read.is_given npar count }
{
    match npar {
        None => false,
        Some(npar) => npar == count,
    }
}

/// A call of a macro with as many units as it is given.
fn call_of(s: Scope<'_, '_>, number: Option<usize>, params: Vec<usize>) -> Option<Statement>
    ensures { option_map plain_statement result ≡ read.call_of (scope s.entry) number params.items }
{
    let n = number?;
    if is_given(s.names.npars.get(n).copied(), params.len()) {
        Some(Statement::CallMacro(CallMacro { n, params }))
    } else {
        None
    }
}

fn append(alloc: Global, s: Scope<'_, '_>, node: &Node) -> Result<Option<Statement>, Memory>
    ensures { IfOk result (λ made. option_map plain_statement made
        ≡ read.appended (number_of (scope s.entry).names.vars (name_of (pairs node.now.attributes)))
        (values (scope s.entry) false (children_of node.now))) }
{
    let Some(n) = s.names.vars.number_of(name_of(node)) else {
        return Ok(None);
    };
    let values = values(alloc, s, false, &node.parts)?;
    if values.is_empty() {
        return Ok(None);
    }
    Ok(Some(Statement::Append(Append { n, values })))
}

/// A statement without statements in it.
fn simple_statement(
    alloc: Global,
    s: Scope<'_, '_>,
    node: &Node,
) -> Result<Option<Statement>, Memory>
    ensures { IfOk result (λ made. option_map plain_statement made
        ≡ read.simple_statement (scope s.entry) (tag_of node.now) (children_of node.now)) }
{
    if is_named("let", node) {
        return Ok(match setting(alloc, s, node)? {
            Some((place, value)) => Some(Statement::Let(Let { place, value })),
            None => None,
        });
    }
    if is_named("append", node) {
        return append(alloc, s, node);
    }
    if is_named("out", node) {
        let pieces = pieces(alloc, s, &node.parts)?;
        return Ok(Some(Statement::Out(Out { pieces })));
    }
    if is_named("modify-case", node) {
        return Ok(match setting(alloc, s, node)? {
            Some((place, value)) => Some(Statement::ModifyCase(ModifyCase { place, value })),
            None => None,
        });
    }
    if is_named("call-macro", node) {
        let params = params(alloc, s, &node.parts)?;
        return Ok(call_of(s, s.names.macros.number_of(name_of(node)), params));
    }
    Ok(None)
}

fn choose(whens: Vec<When>, otherwise: Vec<Statement>) -> Statement
    ensures { plain_statement result
        ≡ choose (whens_of (map plain_when whens.items))
        (statements_of (plain_statements otherwise.items)) }
{
    Statement::Choose(Choose { whens, otherwise })
}

/// One or more choices, and what is done otherwise.
fn choice(whens: Vec<When>, otherwise: Vec<Statement>) -> Option<Statement>
    ensures { option_map plain_statement result
        ≡ read.choice (map plain_when whens.items) (plain_statements otherwise.items) }
{
    if whens.is_empty() {
        return None;
    }
    Some(choose(whens, otherwise))
}

/// One condition, with the statements that are run where it holds.
fn tested(mut tests: Vec<Condition>, statements: Vec<Statement>) -> Option<When>
    ensures { option_map plain_when result
        ≡ read.tested (plain_conditions tests.items) (plain_statements statements.items) }
{
    if tests.len() != 1 {
        return None;
    }
    let test = tests.pop()?;
    Some(When { test, statements })
}

/// The statement that an element is.
#[tactic(auto, using(crate::proofs::WithinLaws::within_laws))]
#[cycle(statements)]
fn statement(alloc: Global, s: Scope<'_, '_>, node: &Node) -> Result<Option<Statement>, Memory>
    ensures { IfOk result (λ made. option_map plain_statement made
        ≡ read.statement (scope s.entry) (tag_of node.now) (children_of node.now)
        (read.whens (scope s.entry) (children_of node.now))
        (read.otherwise (scope s.entry) (children_of node.now))) }
{
    if is_named("choose", node) {
        let whens = whens(alloc, s, &node.parts)?;
        let otherwise = statements(alloc, s, within("otherwise", &node.parts))?;
        return Ok(choice(whens, otherwise));
    }
    simple_statement(alloc, s, node)
}

/// The choice that an element is.
#[cycle(statements)]
fn when(alloc: Global, s: Scope<'_, '_>, node: &Node) -> Result<Option<When>, Memory>
    ensures { IfOk result (λ made. option_map plain_when made
        ≡ read.when_of (scope s.entry) (tag_of node.now) (children_of node.now)
        (read.statements (scope s.entry) (children_of node.now))) }
{
    if !is_named("when", node) {
        return Ok(None);
    }
    let tests = conditions(alloc, s, within("test", &node.parts))?;
    let statements = statements(alloc, s, &node.parts)?;
    Ok(tested(tests, statements))
}

/// The choices among the parts.
#[cycle(statements)]
fn whens(alloc: Global, s: Scope<'_, '_>, parts: &[Part]) -> Result<Vec<When>, Memory>
    ensures { IfOk result (λ made. map plain_when made.items
        ≡ read.whens (scope s.entry) (children_in parts.now)) }
{
    let mut made = Vec::new(alloc);
    let mut rest = parts;
    'rest: while let Some((node, more)) = next_element(rest) {
        if let Some(one) = when(alloc, s, node)? {
            made.push(one)?;
        }
        rest = more;
    }
    Ok(made)
}

/// The statements among the parts.
#[cycle(statements)]
pub fn statements(alloc: Global, s: Scope<'_, '_>, parts: &[Part]) -> Result<Vec<Statement>, Memory>
    ensures { IfOk result (λ made. plain_statements made.items
        ≡ read.statements (scope s.entry) (children_in parts.now)) }
{
    let mut made = Vec::new(alloc);
    let mut rest = parts;
    'rest: while let Some((node, more)) = next_element(rest) {
        if let Some(one) = statement(alloc, s, node)? {
            made.push(one)?;
        }
        rest = more;
    }
    Ok(made)
}
