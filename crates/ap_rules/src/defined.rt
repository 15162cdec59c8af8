ghost use Rattle.std.specs.Prelude.{◌≡◌, OnOk, List, ℕ};
ghost use Rattle.std.specs.Option.{option_copied};
ghost use Rattle.ap_markup.specs.View.{tag_of};
ghost use Rattle.ap_markup.specs.Views.{pairs};
ghost use Rattle.ap_rules.specs.Children.{children_in};
ghost use Rattle.ap_rules.specs.Defining.{none_defined, npar_of, with_macro, defined_after, defined_in, npar_named};

use crate::children::next_element;
use crate::texts::number_in;
use ap_markup::{Names, Node, Part, is_named, value_of};
use ap_symbol::{Memory, Sequence};
use std::alloc::Global;

/// The names that a rule file defines, of each kind in the order in which they are first seen, and
/// how many units each macro is given.
#[derive(Drop)]
pub struct Defined<'a> {
    pub cats: Names<'a>,
    pub attrs: Names<'a>,
    pub vars: Names<'a>,
    pub lists: Names<'a>,
    pub macros: Names<'a>,
    pub npars: Sequence<usize>,
}

/// How many units a macro says that it is given; none where it says it wrongly.
pub fn npar_of(node: &Node) -> usize
    ensures { result ≡ npar_of (pairs node.now.attributes) }
{
    match number_in(0, 64, value_of("npar", node.attributes.as_slice())) {
        Some(npar) => npar,
        None => 0,
    }
}

impl<'a> Defined<'a> {
    /// No names, which take no memory.
    pub fn new(alloc: Global) -> Defined<'a>
        ensures { result ≡ none_defined }
    {
        Defined {
            cats: Names::new(alloc),
            attrs: Names::new(alloc),
            vars: Names::new(alloc),
            lists: Names::new(alloc),
            macros: Names::new(alloc),
            npars: Sequence::new(alloc),
        }
    }

    /// A further macro, unless there is one of its name.
    pub fn add_macro(&mut self, name: &'a [char], npar: usize) -> Result<(), Memory>
        ensures { OnOk result (self.new ≡ with_macro name.now npar self.old) }
    {
        if !self.macros.has(name) {
            self.macros.add(name)?;
            self.npars.push(npar)?;
        }
        Ok(())
    }

    /// What an element defines, once it is over. One that gives no name defines nothing.
    pub fn add(&mut self, node: &'a Node) -> Result<(), Memory>
        ensures { OnOk result (self.new ≡ defined_after (tag_of node.now) self.old) }
    {
        let Some(name) = value_of("n", node.attributes.as_slice()) else {
            return Ok(());
        };
        if is_named("def-cat", node) {
            self.cats.add(name)
        } else if is_named("def-attr", node) {
            self.attrs.add(name)
        } else if is_named("def-var", node) {
            self.vars.add(name)
        } else if is_named("def-list", node) {
            self.lists.add(name)
        } else if is_named("def-macro", node) {
            self.add_macro(name, npar_of(node))
        } else {
            Ok(())
        }
    }

    /// How many units the macro of this name is given.
    pub fn npar_named(&self, name: &[char]) -> Option<usize>
        ensures { result ≡ npar_named self.now name.now }
    {
        let number = self.macros.number_of(name)?;
        self.npars.get(number).copied()
    }
}

/// Adds the names that the elements among the parts define, wherever these stand.
pub fn gather<'a>(defined: &mut Defined<'a>, parts: &'a [Part]) -> Result<(), Memory>
    ensures { OnOk result (defined.new ≡ defined_in defined.old (children_in parts.now)) }
{
    let mut rest = parts;
    'rest: while let Some((node, more)) = next_element(rest) {
        gather(defined, &node.parts)?;
        defined.add(node)?;
        rest = more;
    }
    Ok(())
}
