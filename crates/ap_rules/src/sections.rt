ghost use Rattle.std.specs.Prelude.{◌≡◌, IfOk, OnOk, map, codes, true};
ghost use Rattle.std.specs.Option.{option_copied, option_map};
ghost use Rattle.ap_markup.specs.View.{tag_of};
ghost use Rattle.ap_markup.specs.Views.{pairs};
ghost use Rattle.ap_rules.specs.Children.{children_in, children_of};
ghost use Rattle.ap_rules.specs.Scopes.{scope};
ghost use Rattle.ap_rules.specs.Sections as read;
ghost use Rattle.ap_markup.specs.Said.{value_of};
ghost use Rattle.ap_rules.specs.Texts.{given_text, tags_of};
ghost use Rattle.ap_rules.specs.Views.{plain_macro, plain_rule};

use crate::attribute::{AttrItem, DefAttr};
use crate::children::{next_element, within};
use crate::defined::{Defined, npar_of};
use crate::faults::{is_chunk, is_length, reach_to, rule_reach};
use crate::pieces::word_given;
use crate::rules::{
    CatItem, DefCat, DefList, DefMacro, DefVar, DefaultPiece, Form, ListItem, PatternItem, Rule,
};
use crate::statements::statements;
use crate::texts::{given_text, tags_of, word_of};
use crate::values::Scope;
use ap_markup::{Attribute, Names, Node, Part, is_named, name_of, value_of};
use ap_symbol::{Memory, Sequence, Word};
use std::alloc::Global;

/// Adds the names of the elements of this kind among the parts.
pub fn add_names<'n>(names: &mut Names<'n>, kind: &str, parts: &'n [Part]) -> Result<(), Memory>
    ensures { OnOk result (names.new
        ≡ read.names_behind kind.now names.old (children_in parts.now)) }
{
    let mut rest = parts;
    'rest: while let Some((node, more)) = next_element(rest) {
        if is_named(kind, node) {
            names.add(name_of(node))?;
        }
        rest = more;
    }
    Ok(())
}

/// In postchunk an item has a name, elsewhere tags and maybe a lemma.
fn item_of(alloc: Global, form: Form, given: &[Attribute]) -> Result<Option<CatItem>, Memory>
    ensures { IfOk result (λ made. made ≡ read.item_of form (pairs given.now)) }
{
    match form {
        Form::Postchunk => Ok(Some(CatItem {
            tags: Word::new(alloc),
            lemma: None,
            name: word_of(alloc, given_text(value_of("name", given)))?,
        })),
        Form::Transfer => tagged(alloc, given),
        Form::Interchunk => tagged(alloc, given),
    }
}

/// The item whose tags are given.
fn tagged(alloc: Global, given: &[Attribute]) -> Result<Option<CatItem>, Memory>
    ensures { IfOk result (λ made. made
        ≡ read.tagged (pairs given.now)
        (tags_of true (given_text (value_of (codes "tags") (pairs given.now))))) }
{
    let Some(tags) = tags_of(alloc, true, given_text(value_of("tags", given)))? else {
        return Ok(None);
    };
    Ok(Some(CatItem {
        tags,
        lemma: word_given(alloc, value_of("lemma", given))?,
        name: Word::new(alloc),
    }))
}

fn cat_items(alloc: Global, form: Form, parts: &[Part]) -> Result<Sequence<CatItem>, Memory>
    ensures { IfOk result (λ made. made ≡ read.cat_items form (children_in parts.now)) }
{
    let mut made = Sequence::new(alloc);
    let mut rest = parts;
    'rest: while let Some((node, more)) = next_element(rest) {
        if is_named("cat-item", node) {
            if let Some(item) = item_of(alloc, form, node.attributes.as_slice())? {
                made.push(item)?;
            }
        }
        rest = more;
    }
    Ok(made)
}

/// The categories among the parts.
pub fn categories(alloc: Global, form: Form, parts: &[Part]) -> Result<Sequence<DefCat>, Memory>
    ensures { IfOk result (λ made. made ≡ read.categories form (children_in parts.now)) }
{
    let mut made = Sequence::new(alloc);
    let mut rest = parts;
    'rest: while let Some((node, more)) = next_element(rest) {
        if is_named("def-cat", node) {
            let items = cat_items(alloc, form, &node.parts)?;
            made.push(DefCat { items })?;
        }
        rest = more;
    }
    Ok(made)
}

fn attr_items(alloc: Global, parts: &[Part]) -> Result<Sequence<AttrItem>, Memory>
    ensures { IfOk result (λ made. made ≡ read.attr_items (children_in parts.now)) }
{
    let mut made = Sequence::new(alloc);
    let mut rest = parts;
    'rest: while let Some((node, more)) = next_element(rest) {
        if is_named("attr-item", node) {
            let text = given_text(value_of("tags", node.attributes.as_slice()));
            if let Some(tags) = tags_of(alloc, false, text)? {
                made.push(AttrItem { tags })?;
            }
        }
        rest = more;
    }
    Ok(made)
}

/// The attributes among the parts.
pub fn attributes(alloc: Global, parts: &[Part]) -> Result<Sequence<DefAttr>, Memory>
    ensures { IfOk result (λ made. made ≡ read.attributes (children_in parts.now)) }
{
    let mut made = Sequence::new(alloc);
    let mut rest = parts;
    'rest: while let Some((node, more)) = next_element(rest) {
        if is_named("def-attr", node) {
            let items = attr_items(alloc, &node.parts)?;
            made.push(DefAttr::new(items))?;
        }
        rest = more;
    }
    Ok(made)
}

/// The word of `v`, which is empty where it isn't given.
fn word_of_v(alloc: Global, node: &Node) -> Result<Word, Memory>
    ensures { IfOk result (λ made. made ≡ read.word_of_v (tag_of node.now)) }
{
    word_of(alloc, given_text(value_of("v", node.attributes.as_slice())))
}

/// The variables among the parts.
pub fn variables(alloc: Global, parts: &[Part]) -> Result<Sequence<DefVar>, Memory>
    ensures { IfOk result (λ made. made ≡ read.variables (children_in parts.now)) }
{
    let mut made = Sequence::new(alloc);
    let mut rest = parts;
    'rest: while let Some((node, more)) = next_element(rest) {
        if is_named("def-var", node) {
            let v = word_of_v(alloc, node)?;
            made.push(DefVar { v })?;
        }
        rest = more;
    }
    Ok(made)
}

fn list_items(alloc: Global, parts: &[Part]) -> Result<Sequence<ListItem>, Memory>
    ensures { IfOk result (λ made. made ≡ read.list_items (children_in parts.now)) }
{
    let mut made = Sequence::new(alloc);
    let mut rest = parts;
    'rest: while let Some((node, more)) = next_element(rest) {
        if is_named("list-item", node) {
            let v = word_of_v(alloc, node)?;
            made.push(ListItem { v })?;
        }
        rest = more;
    }
    Ok(made)
}

/// The lists among the parts.
pub fn lists(alloc: Global, parts: &[Part]) -> Result<Sequence<DefList>, Memory>
    ensures { IfOk result (λ made. made ≡ read.lists (children_in parts.now)) }
{
    let mut made = Sequence::new(alloc);
    let mut rest = parts;
    'rest: while let Some((node, more)) = next_element(rest) {
        if is_named("def-list", node) {
            let items = list_items(alloc, &node.parts)?;
            made.push(DefList { items })?;
        }
        rest = more;
    }
    Ok(made)
}

/// A macro, where these names stand above it.
fn one_macro(
    alloc: Global,
    form: Form,
    chunks: bool,
    names: &Defined,
    node: &Node,
) -> Result<DefMacro, Memory>
    ensures { IfOk result (λ made. plain_macro made
        ≡ read.macro form chunks names.now (tag_of node.now) (children_of node.now)) }
{
    let npar = npar_of(node);
    let s = Scope {
        form,
        chunks,
        names,
        reach: reach_to(form, npar),
    };
    Ok(DefMacro {
        npar,
        statements: statements(alloc, s, &node.parts)?,
    })
}

/// It is a macro, and none of these has its name.
fn is_macro(names: &Defined, node: &Node) -> bool
    ensures { result ≡ read.is_macro names.now (tag_of node.now) }
{
    is_named("def-macro", node) && !names.macros.has(name_of(node))
}

/// The macros among the parts. Their names are added to those above.
pub fn macros<'n>(
    alloc: Global,
    form: Form,
    chunks: bool,
    names: &mut Defined<'n>,
    parts: &'n [Part],
) -> Result<Vec<DefMacro>, Memory>
    ensures made { IfOk result (λ made. map plain_macro made.items
        ≡ read.macros form chunks names.old (children_in parts.now)) }
    ensures named { OnOk result (names.new ≡ read.past_macros names.old (children_in parts.now)) }
{
    let mut made = Vec::new(alloc);
    let mut rest = parts;
    'rest: while let Some((node, more)) = next_element(rest) {
        if is_macro(names, node) {
            made.push(one_macro(alloc, form, chunks, names, node)?)?;
            names.add_macro(name_of(node), npar_of(node))?;
        }
        rest = more;
    }
    Ok(made)
}

/// The items of a pattern among the parts.
fn pattern_items(
    alloc: Global,
    cats: &Names,
    parts: &[Part],
) -> Result<Sequence<PatternItem>, Memory>
    ensures { IfOk result (λ made. made ≡ read.pattern_items cats.now (children_in parts.now)) }
{
    let mut made = Sequence::new(alloc);
    let mut rest = parts;
    'rest: while let Some((node, more)) = next_element(rest) {
        if is_named("pattern-item", node) {
            if let Some(n) = cats.number_of(name_of(node)) {
                made.push(PatternItem { n })?;
            }
        }
        rest = more;
    }
    Ok(made)
}

fn rule(alloc: Global, s: Scope<'_, '_>, node: &Node) -> Result<Option<Rule>, Memory>
    ensures { IfOk result (λ made. option_map plain_rule made
        ≡ read.rule (scope s.entry) (tag_of node.now) (children_of node.now)) }
{
    let pattern = pattern_items(alloc, &s.names.cats, within("pattern", &node.parts))?;
    if !is_length(s.form, pattern.len()) {
        return Ok(None);
    }
    let inner = Scope {
        form: s.form,
        chunks: s.chunks,
        names: s.names,
        reach: rule_reach(s.form, pattern.len()),
    };
    let action = statements(alloc, inner, within("action", &node.parts))?;
    Ok(Some(Rule {
        line: node.line,
        pattern,
        action,
    }))
}

/// The rules among the parts.
pub fn rules(alloc: Global, s: Scope<'_, '_>, parts: &[Part]) -> Result<Vec<Rule>, Memory>
    ensures { IfOk result (λ made. map plain_rule made.items
        ≡ read.rules (scope s.entry) (children_in parts.now)) }
{
    let mut made = Vec::new(alloc);
    let mut rest = parts;
    'rest: while let Some((node, more)) = next_element(rest) {
        if is_named("rule", node) {
            if let Some(one) = rule(alloc, s, node)? {
                made.push(one)?;
            }
        }
        rest = more;
    }
    Ok(made)
}

/// The default: chunks in transfer alone, where the root says so.
pub fn default_of(form: Form, value: Option<&[char]>) -> DefaultPiece
    ensures { result ≡ read.default_of form (option_copied value.entry) }
{
    match form {
        Form::Transfer => {
            if is_chunk(value) {
                DefaultPiece::Chunk
            } else {
                DefaultPiece::Lu
            }
        }
        Form::Interchunk => DefaultPiece::Lu,
        Form::Postchunk => DefaultPiece::Lu,
    }
}
