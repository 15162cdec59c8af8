ghost use Rattle.std.specs.Prelude.{◌≡◌, IfOk, false};
ghost use Rattle.std.specs.Option.{option_copied, option_map};
ghost use Rattle.ap_markup.specs.Views.{pairs};
ghost use Rattle.ap_markup.specs.View.{tag_of};
ghost use Rattle.ap_rules.specs.Children.{children_in, children_of};
ghost use Rattle.ap_rules.specs.Plain.{concat, values_of};
ghost use Rattle.ap_rules.specs.Scopes.{scope};
ghost use Rattle.ap_rules.specs.Values as read;
ghost use Rattle.ap_rules.specs.Views.{plain_value, plain_values};

use crate::children::next_element;
use crate::defined::Defined;
use crate::faults::{Reach, has_attribute, is_transfer};
use crate::rules::Form;
use crate::texts::{given_text, number_in, tags_of, word_of};
use crate::value::{B, CaseOf, Clip, ClipPart, Concat, GetCaseFrom, Lit, LitTag, Side, Value, Var};
use ap_markup::{Attribute, Node, Part, is_named, is_text, name_of, value_of};
use ap_symbol::{Memory, Word};
use std::alloc::Global;

/// What elements are read with: the form of the file, whether its outputs hold chunks, the names
/// that stand for numbers, and the positions that there are.
#[derive(Clone, Copy)]
pub struct Scope<'a, 'n> {
    pub form: Form,
    pub chunks: bool,
    pub names: &'a Defined<'n>,
    pub reach: Reach,
}

/// The position that an element gives.
pub fn position_of(s: Scope<'_, '_>, given: &[Attribute]) -> Option<usize>
    ensures { result ≡ read.position_of (scope s.entry) (pairs given.now) }
{
    number_in(s.reach.least, s.reach.most, value_of("pos", given))
}

/// The part of a word that is named; the content only where it may be read.
fn part_named(content: bool, names: &Defined, part: &[char]) -> Option<ClipPart>
    ensures { result ≡ read.part_named content names.now part.now }
{
    if is_text("lem", part) {
        return Some(ClipPart::Lem);
    }
    if is_text("lemh", part) {
        return Some(ClipPart::Lemh);
    }
    if is_text("lemq", part) {
        return Some(ClipPart::Lemq);
    }
    if is_text("tags", part) {
        return Some(ClipPart::Tags);
    }
    if is_text("whole", part) {
        return Some(ClipPart::Whole);
    }
    if is_text("chcontent", part) {
        return if content {
            Some(ClipPart::Content)
        } else {
            None
        };
    }
    match names.attrs.number_of(part) {
        Some(n) => Some(ClipPart::Attribute(n)),
        None => None,
    }
}

fn part_given(content: bool, names: &Defined, given: &[Attribute]) -> Option<ClipPart>
    ensures { result ≡ read.part_given content names.now (pairs given.now) }
{
    part_named(content, names, given_text(value_of("part", given)))
}

/// In transfer `sl` is the source; elsewhere the side doesn't count.
fn side_of(form: Form, given: &[Attribute]) -> Side
    ensures { result ≡ read.side_of form (pairs given.now) }
{
    let transfer = is_transfer(form);
    match value_of("side", given) {
        None => Side::Target,
        Some(value) => {
            if transfer && is_text("sl", value) {
                Side::Source
            } else {
                Side::Target
            }
        }
    }
}

/// The value is this text.
pub fn is_value(text: &str, value: Option<&[char]>) -> bool
    ensures { result ≡ read.is_value text.now (option_copied value.entry) }
{
    match value {
        None => false,
        Some(value) => is_text(text, value),
    }
}

/// The tag of a link, where one is given; None where it is no link.
fn link_of(alloc: Global, value: Option<&[char]>) -> Result<Option<Option<Word>>, Memory>
    ensures { IfOk result (λ made. made ≡ read.link_of (option_copied value.entry)) }
{
    match value {
        None => Ok(Some(None)),
        Some(text) => {
            if number_in(1, 99, Some(text)).is_none() {
                return Ok(None);
            }
            match tags_of(alloc, false, text)? {
                Some(word) => Ok(Some(Some(word))),
                None => Ok(None),
            }
        }
    }
}

fn clip_of(
    alloc: Global,
    s: Scope<'_, '_>,
    content: bool,
    given: &[Attribute],
) -> Result<Option<Clip>, Memory>
    ensures { IfOk result (λ made. made ≡ read.clip_of (scope s.entry) content (pairs given.now)) }
{
    let content = content && !has_attribute("link-to", given);
    let Some(pos) = position_of(s, given) else {
        return Ok(None);
    };
    let Some(part) = part_given(content, s.names, given) else {
        return Ok(None);
    };
    let Some(link_to) = link_of(alloc, value_of("link-to", given))? else {
        return Ok(None);
    };
    Ok(Some(Clip {
        pos,
        part,
        side: side_of(s.form, given),
        queue: !is_value("no", value_of("queue", given)),
        link_to,
    }))
}

fn case_given(s: Scope<'_, '_>, given: &[Attribute]) -> Option<CaseOf>
    ensures { result ≡ read.case_given (scope s.entry) (pairs given.now) }
{
    let Some(pos) = position_of(s, given) else {
        return None;
    };
    let Some(part) = part_given(false, s.names, given) else {
        return None;
    };
    Some(CaseOf {
        pos,
        part,
        side: side_of(s.form, given),
    })
}

/// One value in the case of the unit at a position.
#[tactic(auto, using(crate::proofs::ValueViews::views))]
fn recased(
    alloc: Global,
    pos: Option<usize>,
    mut inner: Vec<Value>,
) -> Result<Option<Value>, Memory>
    ensures { IfOk result (λ made. option_map plain_value made
        ≡ read.recased pos (plain_values inner.items)) }
{
    let Some(pos) = pos else {
        return Ok(None);
    };
    if inner.len() != 1 {
        return Ok(None);
    }
    match inner.pop() {
        Some(value) => {
            let value = Box::new(alloc, value)?;
            Ok(Some(Value::GetCaseFrom(GetCaseFrom { pos, value })))
        }
        None => Ok(None),
    }
}

/// Values one after another.
#[tactic(auto, using(crate::proofs::ValueViews::views))]
fn concat(values: Vec<Value>) -> Value
    ensures { plain_value result ≡ concat (values_of (plain_values values.items)) }
{
    Value::Concat(Concat { values })
}

/// A value without values in it.
fn simple_value(
    alloc: Global,
    s: Scope<'_, '_>,
    content: bool,
    node: &Node,
) -> Result<Option<Value>, Memory>
    ensures { IfOk result (λ made. option_map plain_value made
        ≡ read.simple_value (scope s.entry) content (tag_of node.now)) }
{
    let given = node.attributes.as_slice();
    if is_named("clip", node) {
        return Ok(match clip_of(alloc, s, content, given)? {
            Some(clip) => Some(Value::Clip(clip)),
            None => None,
        });
    }
    if is_named("lit", node) {
        let v = word_of(alloc, given_text(value_of("v", given)))?;
        return Ok(Some(Value::Lit(Lit { v })));
    }
    if is_named("lit-tag", node) {
        return Ok(
            match tags_of(alloc, false, given_text(value_of("v", given)))? {
                Some(v) => Some(Value::LitTag(LitTag { v })),
                None => None,
            },
        );
    }
    if is_named("var", node) {
        return Ok(match s.names.vars.number_of(name_of(node)) {
            Some(n) => Some(Value::Var(Var { n })),
            None => None,
        });
    }
    if is_named("case-of", node) {
        return Ok(match case_given(s, given) {
            Some(case) => Some(Value::CaseOf(case)),
            None => None,
        });
    }
    if is_named("b", node) {
        let pos = number_in(1, 99, value_of("pos", given));
        return Ok(Some(Value::B(B { pos })));
    }
    Ok(None)
}

/// The value that an element is.
#[cycle(values)]
fn value(
    alloc: Global,
    s: Scope<'_, '_>,
    content: bool,
    node: &Node,
) -> Result<Option<Value>, Memory>
    ensures { IfOk result (λ made. option_map plain_value made
        ≡ read.value (scope s.entry) content (tag_of node.now)
        (read.values (scope s.entry) false (children_of node.now))) }
{
    if is_named("get-case-from", node) {
        let inner = values(alloc, s, false, &node.parts)?;
        return recased(alloc, position_of(s, node.attributes.as_slice()), inner);
    }
    if is_named("concat", node) {
        let inner = values(alloc, s, false, &node.parts)?;
        return Ok(Some(concat(inner)));
    }
    simple_value(alloc, s, content, node)
}

/// The values among the parts; a clip among them may read the content of a chunk where `content`
/// says so.
#[cycle(values)]
pub fn values(
    alloc: Global,
    s: Scope<'_, '_>,
    content: bool,
    parts: &[Part],
) -> Result<Vec<Value>, Memory>
    ensures { IfOk result (λ made. plain_values made.items
        ≡ read.values (scope s.entry) content (children_in parts.now)) }
{
    let mut made = Vec::new(alloc);
    let mut rest = parts;
    'rest: while let Some((node, more)) = next_element(rest) {
        if let Some(one) = value(alloc, s, content, node)? {
            made.push(one)?;
        }
        rest = more;
    }
    Ok(made)
}
