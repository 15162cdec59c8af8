ghost use Rattle.std.specs.Prelude.{◌≡◌};
ghost use Rattle.ap_dix.specs.Derivation.{takes};

use crate::expression::Expression;
use ap_symbol::{Letters, Sequence, Text, Word};

/// A direction of translation: from left to right, or from right to left.
#[derive(Clone, Copy, Debug, PartialEq, Eq)]
pub enum Direction {
    Lr,
    Rl,
}

/// The directions in which an entry is kept: both, left to right alone (`r="LR"`), or right to left
/// alone (`r="RL"`).
#[derive(Clone, Copy, Debug, PartialEq, Eq)]
pub enum Side {
    Both,
    LrOnly,
    RlOnly,
}

impl Side {
    /// Whether an entry of this side is kept in the direction.
    pub fn takes(self, direction: Direction) -> bool
        ensures { result ≡ takes self direction }
    {
        match self {
            Side::Both => true,
            Side::LrOnly => matches!(direction, Direction::Lr),
            Side::RlOnly => matches!(direction, Direction::Rl),
        }
    }
}

/// The kind of a section: how its words stand in the text around them.
#[derive(Clone, Copy, Debug, PartialEq, Eq)]
pub enum Kind {
    Standard,
    Inconditional,
    Postblank,
    Preblank,
}

/// A part of an entry.
#[derive(Debug, Drop)]
pub enum EntryPart {
    /// The same word on both sides.
    Identity(Word),
    /// A left word and a right word.
    Pair(Word, Word),
    /// The paradigm of this number, counted from 0.
    Paradigm(usize),
    /// An expression, whose strings stand on both sides, and its text: references are replaced, and
    /// comments are left out.
    Expression(Expression, Text),
}

/// The parts of an entry, in order.
pub type EntryParts = Sequence<EntryPart>;

/// An entry of a section or of a paradigm.
#[derive(Debug, Drop)]
pub struct Entry {
    /// The line on which it begins, counted from 1.
    pub line: u64,
    /// The directions in which it is kept.
    pub side: Side,
    /// An ignored entry is kept in no direction.
    pub ignored: bool,
    pub parts: EntryParts,
}

/// Entries, in order.
pub type Entries = Sequence<Entry>;

/// A paradigm: entries that others take in by its number.
#[derive(Debug, Drop)]
pub struct Pardef {
    pub name: Text,
    pub entries: Entries,
}

/// Paradigms, in order.
pub type Pardefs = Sequence<Pardef>;

/// A section of a dictionary.
#[derive(Debug, Drop)]
pub struct Section {
    /// How its words stand in the text around them.
    pub kind: Kind,
    pub entries: Entries,
}

/// Sections, in order.
pub type Sections = Sequence<Section>;

/// A dictionary: its alphabet, its paradigms and its sections, each in the order of the file (the
/// Apertium dictionary format).
#[derive(Debug, Drop)]
pub struct Dictionary {
    pub alphabet: Letters,
    pub pardefs: Pardefs,
    pub sections: Sections,
}
