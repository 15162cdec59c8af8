ghost use Rattle.std.specs.Prelude.{◌≡◌, IfOk, OnOk};
ghost use Rattle.std.specs.Option.{IfNone};
ghost use Rattle.ap_markup.specs.Tree.{Done};
ghost use Rattle.ap_markup.specs.View.{parts_of, tag_of, node_then};
ghost use Rattle.ap_markup.specs.Views.{pairs};
ghost use Rattle.ap_dix.specs.Faults.{has_attribute, has_unsupported, is_unsupported, is_bad_regex, tag_kind, marked, first_in, defined_in, declared_in, first_mark};

use crate::expressions::read_expression;
use crate::refusal::DixKind;
use crate::words::texts;
use ap_markup::{Attribute, Mark, Names, Node, Part, is_named, name_of, value_of};
use ap_symbol::Memory;
use std::alloc::Global;

fn has_attribute(name: &str, given: &[Attribute]) -> bool
    ensures { result ≡ has_attribute name.now (pairs given.now) }
{
    value_of(name, given).is_some()
}

fn has_unsupported(given: &[Attribute]) -> bool
    ensures { result ≡ has_unsupported (pairs given.now) }
{
    has_attribute("alt", given)
        || has_attribute("v", given)
        || has_attribute("vl", given)
        || has_attribute("vr", given)
        || has_attribute("srl", given)
        || has_attribute("slr", given)
}

fn is_unsupported(node: &Node) -> bool
    ensures { result ≡ is_unsupported (tag_of node.now) }
{
    is_named("ig", node) || (is_named("e", node) && has_unsupported(node.attributes.as_slice()))
}

/// Whether it is `re` and its text is no expression.
fn is_bad_regex(alloc: Global, node: &Node) -> Result<bool, Memory>
    ensures { IfOk result (λ bad. bad
        ≡ is_bad_regex (tag_of node.now) (parts_of node.now.parts.items)) }
{
    if !is_named("re", node) {
        return Ok(false);
    }
    let text = texts(alloc, &node.parts)?;
    Ok(read_expression(alloc, text.as_slice())?.is_none())
}

/// The fault of least number at a start tag.
fn tag_kind(
    alloc: Global,
    declared: &Names,
    defined: &Names,
    node: &Node,
) -> Result<Option<DixKind>, Memory>
    ensures { IfOk result (λ kind. kind
        ≡ tag_kind declared.now defined.now (tag_of node.now) (parts_of node.now.parts.items)) }
{
    let name = name_of(node);
    if is_named("pardef", node) && defined.has(name) {
        return Ok(Some(DixKind::DuplicateName));
    }
    if is_named("s", node) && !declared.has(name) {
        return Ok(Some(DixKind::UndeclaredSymbol));
    }
    if is_named("par", node) && !defined.has(name) {
        return Ok(Some(DixKind::UndefinedParadigm));
    }
    if is_bad_regex(alloc, node)? {
        return Ok(Some(DixKind::BadRegex));
    }
    if has_attribute("w", node.attributes.as_slice()) {
        return Ok(Some(DixKind::Weighted));
    }
    if is_unsupported(node) {
        return Ok(Some(DixKind::Unsupported));
    }
    Ok(None)
}

/// The fault of least number at a start tag, with its place.
fn tag_mark(
    alloc: Global,
    declared: &Names,
    defined: &Names,
    node: &Node,
) -> Result<Option<Mark<DixKind>>, Memory>
    ensures { IfOk result (λ mark. mark
        ≡ marked (tag_of node.now)
        (tag_kind declared.now defined.now (tag_of node.now) (parts_of node.now.parts.items))) }
{
    match tag_kind(alloc, declared, defined, node)? {
        None => Ok(None),
        Some(kind) => Ok(Some(Mark {
            place: node.place,
            line: node.line,
            kind,
        })),
    }
}

/// The fault of the first start tag that has one. The names of the paradigms that the parts define
/// are added to those above.
fn first_in<'a>(
    alloc: Global,
    declared: &Names,
    defined: &mut Names<'a>,
    parts: &'a [Part],
) -> Result<Option<Mark<DixKind>>, Memory>
    ensures first { IfOk result
        (λ first. first ≡ first_in declared.now defined.old (parts_of parts.now)) }
    ensures after { IfOk result
        (λ first. IfNone first (defined.new ≡ defined_in defined.old (parts_of parts.now))) }
{
    'parts: for part in parts {
        match part {
            Part::Run(_, _) => {}
            Part::Element(node) => {
                if let Some(mark) = tag_mark(alloc, declared, defined, node)? {
                    return Ok(Some(mark));
                }
                if let Some(mark) = first_in(alloc, declared, defined, &node.parts)? {
                    return Ok(Some(mark));
                }
                if is_named("pardef", node) {
                    defined.add(name_of(node))?;
                }
            }
        }
    }
    Ok(None)
}

/// Adds the names that the parts declare.
fn declare<'a>(names: &mut Names<'a>, parts: &'a [Part]) -> Result<(), Memory>
    ensures { OnOk result (names.new ≡ declared_in names.old (parts_of parts.now)) }
{
    'parts: for part in parts {
        match part {
            Part::Run(_, _) => {}
            Part::Element(node) => {
                if is_named("sdef", node) {
                    names.add(name_of(node))?;
                }
                declare(names, &node.parts)?;
            }
        }
    }
    Ok(())
}

/// The first fault of the tree of this root.
pub fn first_mark(alloc: Global, root: &Node) -> Result<Option<Mark<DixKind>>, Memory>
    ensures { IfOk result (λ first. first ≡ first_mark (node_then root.now Done)) }
{
    let mut declared = Names::new(alloc);
    declare(&mut declared, &root.parts)?;
    let mut defined = Names::new(alloc);
    if let Some(mark) = tag_mark(alloc, &declared, &defined, root)? {
        return Ok(Some(mark));
    }
    first_in(alloc, &declared, &mut defined, &root.parts)
}
