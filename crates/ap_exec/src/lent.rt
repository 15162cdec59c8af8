ghost use Rattle.std.specs.Prelude.{◌≡◌, ◌≤◌, length, IfSome};
ghost use Rattle.ap_exec.specs.Divided.{IsDivision};
ghost use Rattle.ap_exec.specs.Held.{word_in};

use crate::divided::{Divided, Division};
use crate::spare::Spare;
use ap_stream::Inner;
use ap_symbol::Word;
use std::marker::Model;
use std::mem;

/// A word of the match, or one that was made in its place.
#[derive(Drop)]
pub enum Held<'a> {
    Lent(&'a Word),
    Known(&'a Divided),
    Made(Word),
}

impl<'a> Held<'a> {
    pub(crate) fn word(&self) -> &Word
        ensures { result.now ≡ word_in self.now }
    {
        match self {
            Held::Lent(word) => word,
            Held::Known(word) => word.word(),
            Held::Made(word) => word,
        }
    }

    /// The word, where it is one of the match.
    fn lent(&self) -> Option<&'a Word>
        ensures { IfSome result (λ word. word.now ≡ word_in self.now) }
    {
        match self {
            Held::Lent(word) => Some(*word),
            Held::Known(word) => Some(word.word()),
            Held::Made(_) => None,
        }
    }

    /// Where the word is divided, where that is known.
    fn division(&self) -> Option<Division>
        ensures { IfSome result (λ d. IsDivision (word_in self.now) d) }
    {
        match self {
            Held::Known(word) => Some(word.division()),
            Held::Lent(_) | Held::Made(_) => None,
        }
    }

    /// Lets the word go; one that was made is spare.
    fn let_go(self, spare: &mut Spare) {
        match self {
            Held::Made(word) => spare.put(word),
            Held::Lent(_) | Held::Known(_) => {}
        }
    }
}

/// A unit that a rule reads and may write to: its source, its target with the border between head
/// and queue, and its content. Nothing of the match is copied before a part is written to.
#[derive(Drop)]
pub struct Lent<'a> {
    source: Held<'a>,
    target: Held<'a>,
    border: usize,
    content: &'a [Inner],
}

impl<'a> Model for Lent<'a> {
    ghost use Rattle.std.specs.Prelude.{◌≤◌, length};
    ghost use Rattle.ap_exec.specs.Held.{word_in};
    ghost use Rattle.ap_exec.specs.Units.{Shown};

    ghost Value = { Shown };

    ghost view = { λ l. record {
      source = word_in l.source;
      target = word_in l.target;
      border =
          l.border;
      content = l.content.now;
    } };

    ghost invariant = { λ l. l.border ≤ length (word_in l.target) };
}

impl<'a> Lent<'a> {
    /// A unit whose target's head has so many symbols.
    pub fn new(source: Held<'a>, target: Held<'a>, border: usize, content: &'a [Inner]) -> Lent<'a>
        requires { border ≤ length (word_in target) }
        ensures { result ≡ record {
          source = word_in source.entry;
          target =
              word_in target.entry;
          border = border;
          content = content.now;
        } }
    {
        Lent {
            source,
            target,
            border,
            content,
        }
    }

    pub(crate) fn source(&self) -> &Word
        ensures { result.now ≡ self.now.source }
    {
        self.source.word()
    }

    pub(crate) fn target(&self) -> &Word
        ensures { result.now ≡ self.now.target }
    {
        self.target.word()
    }

    /// The source, where it is that of the match.
    pub(crate) fn lent_source(&self) -> Option<&'a Word>
        ensures { IfSome result (λ word. word.now ≡ self.now.source) }
    {
        self.source.lent()
    }

    /// The target, where it is that of the match.
    pub(crate) fn lent_target(&self) -> Option<&'a Word>
        ensures { IfSome result (λ word. word.now ≡ self.now.target) }
    {
        self.target.lent()
    }

    /// Where the source is divided, where that is known.
    pub(crate) fn source_division(&self) -> Option<Division>
        ensures { IfSome result (λ d. IsDivision self.now.source d) }
    {
        self.source.division()
    }

    /// Where the target is divided, where that is known.
    pub(crate) fn target_division(&self) -> Option<Division>
        ensures { IfSome result (λ d. IsDivision self.now.target d) }
    {
        self.target.division()
    }

    /// How many symbols of the target stand before its queue.
    pub(crate) fn border(&self) -> usize
        ensures value { result ≡ self.now.border }
        ensures within { result ≤ length self.now.target }
    {
        self.border
    }

    /// The units and blanks of a chunk.
    pub(crate) fn content(&self) -> &'a [Inner]
        ensures { result.now ≡ self.now.content }
    {
        self.content
    }

    pub(crate) fn set_source(&mut self, word: Word, spare: &mut Spare)
        ensures { self.new ≡ record self.old { source = word } }
    {
        let old = mem::replace(&mut self.source, Held::Made(word));
        old.let_go(spare);
    }

    pub(crate) fn set_target(&mut self, word: Word, border: usize, spare: &mut Spare)
        requires { border ≤ length word }
        ensures { self.new ≡ record self.old { target = word; border = border } }
    {
        let old = mem::replace(&mut self.target, Held::Made(word));
        self.border = border;
        old.let_go(spare);
    }

    /// Lets the unit go; its words that were made are spare.
    fn let_go(self, spare: &mut Spare) {
        let Lent {
            source,
            target,
            border: _,
            content: _,
        } = self;
        source.let_go(spare);
        target.let_go(spare);
    }
}

/// Lets units go; their words that were made are spare.
pub(crate) fn let_units_go(units: Vec<Lent<'_>>, spare: &mut Spare) {
    for unit in units {
        unit.let_go(spare);
    }
}
