ghost use Rattle.std.specs.Prelude.{◌≡◌};
ghost use Rattle.ap_rules.specs.Views.{makes_chunks};

use crate::attribute::DefAttr;
use crate::statement::Statement;
use ap_symbol::{Sequence, Word};

/// The three forms of rule files.
#[derive(Clone, Copy, Debug, PartialEq, Eq)]
pub enum Form {
    Transfer,
    Interchunk,
    Postchunk,
}

/// How transfer writes a unit that no rule takes: as a chunk, or as a unit.
#[derive(Clone, Copy, Debug, PartialEq, Eq)]
pub enum DefaultPiece {
    Chunk,
    Lu,
}

/// `cat-item`: what a word of a category is like.
#[derive(Drop)]
pub struct CatItem {
    /// The word's tags, all of them and in order; a star stands for one or more. Empty in
    /// postchunk.
    pub tags: Word,
    /// The word's lemma, where it is given.
    pub lemma: Option<Word>,
    /// In postchunk the lemma of a chunk's name; empty elsewhere.
    pub name: Word,
}

/// `def-cat`: a category.
#[derive(Drop)]
pub struct DefCat {
    pub items: Sequence<CatItem>,
}

/// `def-var`: a variable.
#[derive(Drop)]
pub struct DefVar {
    /// What it holds at the start.
    pub v: Word,
}

/// `list-item`: a word of a list.
#[derive(Drop)]
pub struct ListItem {
    pub v: Word,
}

/// `def-list`: a list.
#[derive(Drop)]
pub struct DefList {
    pub items: Sequence<ListItem>,
}

/// `def-macro`: a macro.
#[derive(Drop)]
pub struct DefMacro {
    /// How many units it is given, at most 64.
    pub npar: usize,
    pub statements: Vec<Statement>,
}

/// `pattern-item`: a unit of a category.
#[derive(Clone, Copy)]
pub struct PatternItem {
    /// The category's number, counted from 0.
    pub n: usize,
}

/// `rule`: what is done with units of these categories.
#[derive(Drop)]
pub struct Rule {
    /// The line on which it begins, counted from 1.
    pub line: u64,
    pub pattern: Sequence<PatternItem>,
    pub action: Vec<Statement>,
}

/// The rules of a file: what it defines, each in the order of the file, with a number in place of
/// each name, counted from 0 (the Apertium transfer format).
#[derive(Drop)]
pub struct Rules {
    pub form: Form,
    /// The line on which the root begins, counted from 1.
    pub line: u64,
    /// How a unit is written that no rule takes; only transfer has a choice.
    pub default: DefaultPiece,
    pub categories: Sequence<DefCat>,
    pub attributes: Sequence<DefAttr>,
    pub variables: Sequence<DefVar>,
    pub lists: Sequence<DefList>,
    pub macros: Vec<DefMacro>,
    pub rules: Vec<Rule>,
}

impl Rules {
    /// The line of the root, counted from 1.
    pub fn line(&self) -> u64
        ensures { result ≡ self.now.line }
    {
        self.line
    }

    /// Whether they are rules of transfer that write chunks.
    pub fn makes_chunks(&self) -> bool
        ensures { result ≡ makes_chunks self.now.form self.now.default }
    {
        matches!(self.form, Form::Transfer) && matches!(self.default, DefaultPiece::Chunk)
    }
}
