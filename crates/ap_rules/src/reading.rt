ghost use Rattle.std.specs.Prelude.{◌≡◌, IfOk, IfErr, OnOk, Ok, Err, map, codes};
ghost use Rattle.ap_markup.specs.Said.{value_of};
ghost use Rattle.ap_markup.specs.Tree.{Done};
ghost use Rattle.ap_markup.specs.View.{node_then, tag_of};
ghost use Rattle.ap_rules.specs.Children.{children_in, children_of, within};
ghost use Rattle.ap_rules.specs.Defining.{none_defined};
ghost use Rattle.ap_rules.specs.Faults.{holds_chunks};
ghost use Rattle.ap_rules.specs.Refusals.{IfFault};
ghost use Rattle.ap_rules.specs.Sections.{section_names, with_sections, macros, rules, rules_of, rules_scope, past_macros};
ghost use Rattle.ap_rules.specs.Soundness.{IsSound};
ghost use Rattle.ap_rules.specs.Spelling.{Spells, IsFirstFault, table_of, kind_of, mark_of, fault_of, judged};
ghost use Rattle.ap_rules.specs.Views.{plain_macro, plain_rule, plain_rules};

use crate::children::within;
use crate::defined::Defined;
use crate::faults::{first_mark, holds_chunks, reach_to};
use crate::refusal::{RuleFault, RuleKind, RuleRefusal};
use crate::rules::{DefMacro, Form, Rule, Rules};
use crate::sections::{
    add_names, attributes, categories, default_of, lists, macros, rules, variables,
};
use crate::values::Scope;
use ap_markup::{
    Elements, Mark, MarkupFault, MarkupKind, MarkupRefusal, Node, Part, Table, read_elements,
    sooner, value_of,
};
use ap_symbol::Memory;
use std::alloc::Global;

/// Adds the names that the sections define, without those of macros.
fn add_sections<'n>(names: &mut Defined<'n>, parts: &'n [Part]) -> Result<(), Memory>
    ensures { OnOk result (names.new ≡ with_sections names.old (children_in parts.now)) }
{
    add_names(
        &mut names.cats,
        "def-cat",
        within("section-def-cats", parts),
    )?;
    add_names(
        &mut names.attrs,
        "def-attr",
        within("section-def-attrs", parts),
    )?;
    add_names(
        &mut names.vars,
        "def-var",
        within("section-def-vars", parts),
    )?;
    add_names(
        &mut names.lists,
        "def-list",
        within("section-def-lists", parts),
    )?;
    Ok(())
}

/// What is done: macros, and rules.
#[derive(Drop)]
struct Deeds {
    macros: Vec<DefMacro>,
    rules: Vec<Rule>,
}

/// The macros and the rules among the sections, where nothing has a name yet.
fn what_is_done<'n>(
    alloc: Global,
    form: Form,
    chunks: bool,
    names: &mut Defined<'n>,
    parts: &'n [Part],
) -> Result<Deeds, Memory>
    requires { names.old ≡ none_defined }
    ensures macros { IfOk result (λ made. map plain_macro made.macros.items
        ≡ macros form chunks (section_names (children_in parts.now))
        (within (codes "section-def-macros") (children_in parts.now))) }
    ensures rules { IfOk result (λ made. map plain_rule made.rules.items
        ≡ rules (rules_scope form chunks
        (past_macros (section_names (children_in parts.now))
        (within (codes "section-def-macros") (children_in parts.now))))
        (within (codes "section-rules") (children_in parts.now))) }
{
    add_sections(names, parts)?;
    let macros = macros(
        alloc,
        form,
        chunks,
        names,
        within("section-def-macros", parts),
    )?;
    let s = Scope {
        form,
        chunks,
        names,
        reach: reach_to(form, 0),
    };
    let rules = rules(alloc, s, within("section-rules", parts))?;
    Ok(Deeds { macros, rules })
}

/// The rules of the file whose root this is.
fn rules_of(alloc: Global, form: Form, root: &Node) -> Result<Rules, Memory>
    ensures { IfOk result (λ made. plain_rules made
        ≡ rules_of form (tag_of root.now) (children_of root.now)) }
{
    let parts = root.parts.as_slice();
    let default = value_of("default", root.attributes.as_slice());
    let categories = categories(alloc, form, within("section-def-cats", parts))?;
    let attributes = attributes(alloc, within("section-def-attrs", parts))?;
    let variables = variables(alloc, within("section-def-vars", parts))?;
    let lists = lists(alloc, within("section-def-lists", parts))?;
    let mut names = Defined::new(alloc);
    let deeds = what_is_done(alloc, form, holds_chunks(form, default), &mut names, parts)?;
    Ok(Rules {
        form,
        line: root.line,
        default: default_of(form, default),
        categories,
        attributes,
        variables,
        lists,
        macros: deeds.macros,
        rules: deeds.rules,
    })
}

fn table_of(form: Form) -> Table
    ensures { result ≡ table_of form }
{
    match form {
        Form::Transfer => Table::Transfer,
        Form::Interchunk => Table::Interchunk,
        Form::Postchunk => Table::Postchunk,
    }
}

fn kind_of(kind: MarkupKind) -> RuleKind
    ensures { result ≡ kind_of kind }
{
    match kind {
        MarkupKind::NotUtf8 => RuleKind::NotUtf8,
        MarkupKind::Syntax => RuleKind::Syntax,
        MarkupKind::UnknownElement => RuleKind::UnknownElement,
        MarkupKind::UnknownAttribute => RuleKind::UnknownAttribute,
        MarkupKind::MissingAttribute => RuleKind::MissingAttribute,
        MarkupKind::Misplaced => RuleKind::Misplaced,
    }
}

fn mark_of(fault: MarkupFault) -> Mark<RuleKind>
    ensures { result ≡ mark_of fault }
{
    Mark {
        place: fault.place,
        line: fault.line,
        kind: kind_of(fault.kind),
    }
}

fn refusal(mark: Mark<RuleKind>) -> RuleRefusal
    ensures { result ≡ RuleRefusal.Fault (fault_of mark) }
{
    RuleRefusal::Fault(RuleFault {
        kind: mark.kind,
        line: mark.line,
    })
}

/// The rules of a tree, or its first fault.
#[tactic(auto, using(crate::proofs::TreeLaws::tree_is))]
fn judged(alloc: Global, form: Form, tree: Elements) -> Result<Rules, RuleRefusal>
    ensures value { IfOk result (λ r. judged form (Ok (node_then tree.root Done, tree.first))
        ≡ Ok (plain_rules r)) }
    ensures fault { IfErr result
        (λ e. IfFault e (λ f. judged form (Ok (node_then tree.root Done, tree.first)) ≡ Err f)) }
{
    let own = first_mark(alloc, form, &tree.root)?;
    let first = match tree.first {
        None => own,
        Some(fault) => sooner(Some(mark_of(fault)), own),
    };
    match first {
        None => Ok(rules_of(alloc, form, &tree.root)?),
        Some(mark) => Err(refusal(mark)),
    }
}

/// Reads a rule file (the Apertium transfer format) of a form: what its sections define and its
/// rules, each in the order of the file, with a number in place of each name.
///
/// The refusal is `Fault` exactly where the text spells no rules of the form, and then it is its
/// first fault: one of the kinds NotUtf8 and Syntax before all others, and among those the one of
/// the least place, and at one place the one of the least number. It is `Memory` for want of memory
/// alone. What is read is sound. A name is looked for in the whole file, a macro's above its call
/// alone.
pub fn read_rules(alloc: Global, text: &[u8], form: Form) -> Result<Rules, RuleRefusal>
    ensures spells { IfOk result (λ r. Spells form text.now (plain_rules r)) }
    ensures sound { IfOk result (λ r. IsSound (plain_rules r)) }
    ensures fault { IfErr result (λ e. IfFault e (IsFirstFault form text.now)) }
{
    match read_elements(alloc, text, table_of(form)) {
        Ok(tree) => judged(alloc, form, tree),
        Err(MarkupRefusal::Fault(fault)) => Err(refusal(mark_of(fault))),
        Err(MarkupRefusal::Memory) => Err(RuleRefusal::Memory),
    }
}
