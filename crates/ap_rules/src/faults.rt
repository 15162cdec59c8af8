ghost use Rattle.std.specs.Prelude.{◌≡◌, ◌||◌, IfOk, Some, codes};
ghost use Rattle.std.specs.Option.{IfNone, option_copied};
ghost use Rattle.ap_markup.specs.View.{tag_of};
ghost use Rattle.ap_markup.specs.Views.{pairs};
ghost use Rattle.ap_markup.specs.Said.{value_of};
ghost use Rattle.ap_rules.specs.Children.{children_in, children_of, nothing, element};
ghost use Rattle.ap_rules.specs.Defining.{defined_in, none_defined};
ghost use Rattle.ap_rules.specs.Faults as sentence;
ghost use Rattle.ap_rules.specs.Walking.{around};

use crate::children::{count_named, next_element, within};
use crate::defined::{Defined, gather, npar_of};
use crate::refusal::RuleKind;
use crate::rules::Form;
use crate::texts::{given_text, number_in, tags_of};
use ap_markup::{Attribute, Mark, Names, Node, Part, is_named, is_text, name_of, value_of};
use ap_symbol::Memory;
use std::alloc::Global;

/// The positions that there are, from `least` to `most`.
#[derive(Clone, Copy)]
pub struct Reach {
    pub least: usize,
    pub most: usize,
}

/// What stands around an element: the form of the file, whether its outputs hold chunks, the names
/// that the whole file defines, the name of the element around, and the positions that there are.
#[derive(Clone, Copy)]
pub struct Around<'a, 'n> {
    pub form: Form,
    pub chunks: bool,
    pub all: &'a Defined<'n>,
    pub parent: &'a [char],
    pub reach: Reach,
}

pub fn is_transfer(form: Form) -> bool
    ensures { result ≡ sentence.is_transfer form }
{
    matches!(form, Form::Transfer)
}

pub fn is_interchunk(form: Form) -> bool
    ensures { result ≡ sentence.is_interchunk form }
{
    matches!(form, Form::Interchunk)
}

pub fn has_attribute(name: &str, given: &[Attribute]) -> bool
    ensures { result ≡ sentence.has_attribute name.now (pairs given.now) }
{
    value_of(name, given).is_some()
}

/// A part of a word that is there from the start.
fn is_plain_part(name: &[char]) -> bool
    ensures { result ≡ sentence.is_plain_part name.now }
{
    is_text("lem", name)
        || is_text("lemh", name)
        || is_text("lemq", name)
        || is_text("whole", name)
        || is_text("tags", name)
        || is_text("chcontent", name)
}

fn part_of(node: &Node) -> &[char]
    ensures { result.now ≡ sentence.part_of (tag_of node.now) }
{
    given_text(value_of("part", node.attributes.as_slice()))
}

/// `clip` and `case-of` read a part of a word.
fn reads_part(node: &Node) -> bool
    ensures { result ≡ sentence.reads_part (tag_of node.now) }
{
    is_named("clip", node) || is_named("case-of", node)
}

fn is_duplicate(above: &Defined, node: &Node) -> bool
    ensures { result ≡ sentence.is_duplicate above.now (tag_of node.now) }
{
    let name = name_of(node);
    if is_named("def-cat", node) {
        above.cats.has(name)
    } else if is_named("def-attr", node) {
        is_plain_part(name) || above.attrs.has(name)
    } else if is_named("def-var", node) {
        above.vars.has(name)
    } else if is_named("def-list", node) {
        above.lists.has(name)
    } else if is_named("def-macro", node) {
        above.macros.has(name)
    } else {
        false
    }
}

/// A name is given, and no variable has it.
fn is_no_variable(all: &Defined, name: Option<&[char]>) -> bool
    ensures { result ≡ sentence.is_no_variable all.now (option_copied name.entry) }
{
    match name {
        None => false,
        Some(name) => !all.vars.has(name),
    }
}

/// A variable that a chunk names isn't there.
fn has_no_variable(all: &Defined, node: &Node) -> bool
    ensures { result ≡ (sentence.is_no_variable all.now
        (value_of (codes "namefrom") (tag_of node.now).attributes)
        || sentence.is_no_variable all.now (value_of (codes "case") (tag_of node.now).attributes)) }
{
    let given = node.attributes.as_slice();
    is_no_variable(all, value_of("namefrom", given)) || is_no_variable(all, value_of("case", given))
}

fn is_undefined(all: &Defined, above: &Defined, node: &Node) -> bool
    ensures { result ≡ sentence.is_undefined all.now above.now (tag_of node.now) }
{
    if is_named("pattern-item", node) {
        !all.cats.has(name_of(node))
    } else if reads_part(node) {
        !is_plain_part(part_of(node)) && !all.attrs.has(part_of(node))
    } else if is_named("var", node) {
        !all.vars.has(name_of(node))
    } else if is_named("append", node) {
        !all.vars.has(name_of(node))
    } else if is_named("list", node) {
        !all.lists.has(name_of(node))
    } else if is_named("call-macro", node) {
        !above.macros.has(name_of(node))
    } else if is_named("chunk", node) {
        has_no_variable(all, node)
    } else {
        false
    }
}

fn has_position(node: &Node) -> bool
    ensures { result ≡ sentence.has_position (tag_of node.now) }
{
    reads_part(node) || is_named("get-case-from", node) || is_named("with-param", node)
}

/// A value is given, and is no number from 1 to 99.
fn is_no_link(value: Option<&[char]>) -> bool
    ensures { result ≡ sentence.is_no_link (option_copied value.entry) }
{
    match value {
        None => false,
        Some(text) => number_in(1, 99, Some(text)).is_none(),
    }
}

/// The macro is given another number of units.
fn is_other_than(count: usize, npar: Option<usize>) -> bool
    ensures { result ≡ sentence.is_other_than count npar }
{
    match npar {
        None => false,
        Some(npar) => count != npar,
    }
}

fn is_misnumbered(reach: Reach, above: &Defined, node: &Node) -> bool
    ensures { result ≡ sentence.is_misnumbered reach above.now (tag_of node.now)
        (children_of node.now) }
{
    let given = node.attributes.as_slice();
    let pos = value_of("pos", given);
    (has_position(node) && number_in(reach.least, reach.most, pos).is_none())
        || (is_named("b", node) && is_no_link(pos))
        || (is_named("clip", node) && is_no_link(value_of("link-to", given)))
        || (is_named("def-macro", node) && number_in(0, 64, value_of("npar", given)).is_none())
        || (is_named("call-macro", node)
            && is_other_than(
                count_named("with-param", &node.parts),
                above.npar_named(name_of(node)),
            ))
}

fn has_bad_tags(alloc: Global, node: &Node) -> Result<bool, Memory>
    ensures { IfOk result (λ bad. bad ≡ sentence.has_bad_tags (tag_of node.now)) }
{
    let given = node.attributes.as_slice();
    if is_named("cat-item", node) {
        return Ok(tags_of(alloc, true, given_text(value_of("tags", given)))?.is_none());
    }
    if is_named("attr-item", node) {
        return Ok(tags_of(alloc, false, given_text(value_of("tags", given)))?.is_none());
    }
    if is_named("lit-tag", node) {
        return Ok(tags_of(alloc, false, given_text(value_of("v", given)))?.is_none());
    }
    Ok(false)
}

/// How many items a pattern may have.
pub fn is_length(form: Form, items: usize) -> bool
    ensures { result ≡ sentence.is_length form items }
{
    match form {
        Form::Postchunk => items == 1,
        Form::Transfer => 1 <= items && items <= 64,
        Form::Interchunk => 1 <= items && items <= 64,
    }
}

fn has_bad_length(form: Form, node: &Node) -> bool
    ensures { result ≡ sentence.has_bad_length form (tag_of node.now) (children_of node.now) }
{
    is_named("pattern", node) && !is_length(form, count_named("pattern-item", &node.parts))
}

/// The content of a chunk may be read here.
fn may_read_content(form: Form, parent: &[char], node: &Node) -> bool
    ensures { result ≡ sentence.may_read_content form parent.now (tag_of node.now) }
{
    is_named("clip", node)
        && is_interchunk(form)
        && is_text("chunk", parent)
        && !has_attribute("link-to", node.attributes.as_slice())
}

/// An output holds a chunk where it has none, or a unit where it has chunks.
fn is_wrong_piece(a: Around<'_, '_>, node: &Node) -> bool
    ensures { result ≡ sentence.is_wrong_piece (around a.entry) (tag_of node.now) }
{
    is_text("out", a.parent)
        && ((is_named("chunk", node) && !a.chunks)
            || (is_named("lu", node) && a.chunks)
            || (is_named("mlu", node) && a.chunks))
}

/// The content of a chunk is read where it may not be.
fn is_misread(a: Around<'_, '_>, node: &Node) -> bool
    ensures { result ≡ sentence.is_misread (around a.entry) (tag_of node.now) }
{
    reads_part(node)
        && is_text("chcontent", part_of(node))
        && !may_read_content(a.form, a.parent, node)
}

/// A chunk of transfer has two names.
fn has_two_names(form: Form, node: &Node) -> bool
    ensures { result ≡ sentence.has_two_names form (tag_of node.now) }
{
    let given = node.attributes.as_slice();
    is_transfer(form)
        && is_named("chunk", node)
        && has_attribute("name", given)
        && has_attribute("namefrom", given)
}

fn is_misused(a: Around<'_, '_>, node: &Node) -> bool
    ensures { result ≡ sentence.is_misused (around a.entry) (tag_of node.now) }
{
    is_wrong_piece(a, node) || is_misread(a, node) || has_two_names(a.form, node)
}

fn is_unsupported(node: &Node) -> bool
    ensures { result ≡ sentence.is_unsupported (tag_of node.now) }
{
    is_named("reject-current-rule", node)
        || (is_named("rule", node) && has_attribute("weight", node.attributes.as_slice()))
}

/// The fault of least number at a start tag.
fn tag_kind(
    alloc: Global,
    a: Around<'_, '_>,
    above: &Defined,
    node: &Node,
) -> Result<Option<RuleKind>, Memory>
    ensures { IfOk result (λ kind. kind
        ≡ sentence.tag_kind (around a.entry) above.now (tag_of node.now) (children_of node.now)) }
{
    if is_duplicate(above, node) {
        return Ok(Some(RuleKind::DuplicateName));
    }
    if is_undefined(a.all, above, node) {
        return Ok(Some(RuleKind::UndefinedName));
    }
    if is_misnumbered(a.reach, above, node) {
        return Ok(Some(RuleKind::BadPosition));
    }
    if has_bad_tags(alloc, node)? {
        return Ok(Some(RuleKind::BadTags));
    }
    if has_bad_length(a.form, node) {
        return Ok(Some(RuleKind::PatternLength));
    }
    if is_misused(a, node) {
        return Ok(Some(RuleKind::Misused));
    }
    if is_unsupported(node) {
        return Ok(Some(RuleKind::Unsupported));
    }
    Ok(None)
}

/// The fault of least number at a start tag, with its place.
fn tag_mark(
    alloc: Global,
    a: Around<'_, '_>,
    above: &Defined,
    node: &Node,
) -> Result<Option<Mark<RuleKind>>, Memory>
    ensures { IfOk result (λ mark. mark
        ≡ sentence.marked (tag_of node.now)
        (sentence.tag_kind (around a.entry) above.now (tag_of node.now) (children_of node.now))) }
{
    match tag_kind(alloc, a, above, node)? {
        None => Ok(None),
        Some(kind) => Ok(Some(Mark {
            place: node.place,
            line: node.line,
            kind,
        })),
    }
}

/// The positions of units, from 1 on, in postchunk from 0 on.
pub fn reach_to(form: Form, most: usize) -> Reach
    ensures { result ≡ sentence.reach_to form most }
{
    match form {
        Form::Postchunk => Reach { least: 0, most },
        Form::Transfer => Reach { least: 1, most },
        Form::Interchunk => Reach { least: 1, most },
    }
}

/// The positions of a rule whose pattern has so many items, in postchunk up to 999.
pub fn rule_reach(form: Form, items: usize) -> Reach
    ensures { result ≡ sentence.rule_reach form items }
{
    match form {
        Form::Postchunk => reach_to(form, 999),
        Form::Transfer => reach_to(form, items),
        Form::Interchunk => reach_to(form, items),
    }
}

/// The positions within an element.
fn reach_within(a: Around<'_, '_>, node: &Node) -> Reach
    ensures { result ≡ sentence.reach_within (around a.entry) (tag_of node.now)
        (children_of node.now) }
{
    if is_named("rule", node) {
        let items = count_named("pattern-item", within("pattern", &node.parts));
        return rule_reach(a.form, items);
    }
    if is_named("def-macro", node) {
        return reach_to(a.form, npar_of(node));
    }
    a.reach
}

/// What stands around the elements within an element.
fn around_within<'a, 'n>(a: Around<'a, 'n>, node: &'a Node) -> Around<'a, 'n>
    ensures { around result ≡ sentence.around_within (around a.entry) (tag_of node.now)
        (children_of node.now) }
{
    Around {
        form: a.form,
        chunks: a.chunks,
        all: a.all,
        parent: node.name.as_slice(),
        reach: reach_within(a, node),
    }
}

/// The fault of the first start tag that has one. The names that the parts define are added to
/// those above.
fn first_in<'a>(
    alloc: Global,
    a: Around<'_, '_>,
    above: &mut Defined<'a>,
    parts: &'a [Part],
) -> Result<Option<Mark<RuleKind>>, Memory>
    ensures first { IfOk result
        (λ first. first ≡ sentence.first_in (around a.entry) above.old (children_in parts.now)) }
    ensures after { IfOk result
        (λ first. IfNone first (above.new ≡ defined_in above.old (children_in parts.now))) }
{
    let mut rest = parts;
    'rest: while let Some((node, more)) = next_element(rest) {
        if let Some(mark) = tag_mark(alloc, a, above, node)? {
            return Ok(Some(mark));
        }
        if let Some(mark) = first_in(alloc, around_within(a, node), above, &node.parts)? {
            return Ok(Some(mark));
        }
        above.add(node)?;
        rest = more;
    }
    Ok(None)
}

/// Whether outputs hold chunks: in transfer where its default is one, and in interchunk.
pub fn holds_chunks(form: Form, value: Option<&[char]>) -> bool
    ensures { result ≡ sentence.holds_chunks form (option_copied value.entry) }
{
    match form {
        Form::Transfer => is_chunk(value),
        Form::Interchunk => true,
        Form::Postchunk => false,
    }
}

/// The default of a file of transfer that makes chunks.
pub fn is_chunk(value: Option<&[char]>) -> bool
    ensures { result ≡ sentence.is_chunk (option_copied value.entry) }
{
    match value {
        None => false,
        Some(value) => is_text("chunk", value),
    }
}

/// The first fault of a root and of the parts within it.
fn first_below<'a>(
    alloc: Global,
    outside: Around<'_, '_>,
    above: &mut Defined<'a>,
    root: &'a Node,
) -> Result<Option<Mark<RuleKind>>, Memory>
    ensures { IfOk result (λ first. first
        ≡ sentence.first_below (around outside.entry) above.old (tag_of root.now)
        (children_of root.now)) }
{
    if let Some(mark) = tag_mark(alloc, outside, above, root)? {
        return Ok(Some(mark));
    }
    first_in(alloc, around_within(outside, root), above, &root.parts)
}

/// What stands around the root.
fn around_root<'a, 'n>(form: Form, all: &'a Defined<'n>, root: &Node) -> Around<'a, 'n>
    requires { all.now ≡ defined_in none_defined (children_of root.now) }
    ensures { around result ≡ sentence.around_root form (tag_of root.now) (children_of root.now) }
{
    Around {
        form,
        chunks: holds_chunks(form, value_of("default", root.attributes.as_slice())),
        all,
        parent: &[],
        reach: reach_to(form, 0),
    }
}

/// The names that the file of this root defines.
fn all_names<'a>(alloc: Global, root: &'a Node) -> Result<Defined<'a>, Memory>
    ensures { IfOk result (λ all. all ≡ defined_in none_defined (children_of root.now)) }
{
    let mut all = Defined::new(alloc);
    gather(&mut all, &root.parts)?;
    Ok(all)
}

/// The first fault of the tree of this root.
pub fn first_mark(alloc: Global, form: Form, root: &Node) -> Result<Option<Mark<RuleKind>>, Memory>
    ensures { IfOk result (λ first. first
        ≡ sentence.first_mark form (element (tag_of root.now) (children_of root.now) nothing)) }
{
    let all = all_names(alloc, root)?;
    let mut above = Defined::new(alloc);
    first_below(alloc, around_root(form, &all, root), &mut above, root)
}
