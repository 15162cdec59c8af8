ghost use Rattle.std.specs.Prelude.{◌≡◌, ◌++◌, ◌∷◌, [], length, OnOk, OnErr, slice_get};
ghost use Rattle.std.specs.Option.{option_copied};

use crate::blank::Blank;
use crate::unit::Unit;
use ap_symbol::{Memory, Word};
use std::alloc::Global;
use std::marker::Model;

/// A character of a text, and whether a `\` stands before it.
#[derive(Clone, Copy, Debug, PartialEq, Eq)]
pub struct Character {
    pub letter: char,
    pub escaped: bool,
}

/// A part of a chunk's content.
#[derive(Debug, Drop)]
pub enum Inner {
    Unit(Unit),
    Blank(Blank),
}

/// The units and blanks of a chunk.
#[derive(Debug, Drop)]
pub struct Content {
    parts: Vec<Inner>,
}

impl Model for Content {
    ghost use Rattle.std.specs.Prelude.{List};
    ghost use Rattle.ap_stream.specs.declared.item.Inner.{Inner};

    ghost Value = { List Inner };

    ghost view = { λ c. c.parts.items };
}

impl Content {
    pub fn new(alloc: Global) -> Content
        ensures { result ≡ [] }
    {
        Content {
            parts: Vec::new(alloc),
        }
    }

    /// Appends a part. After a refusal the content is unchanged.
    pub fn push(&mut self, part: Inner) -> Result<(), Memory>
        ensures ok { OnOk result (self.new ≡ self.old ++ part ∷ []) }
        ensures err { OnErr result (self.new ≡ self.old) }
    {
        self.parts.push(part)?;
        Ok(())
    }

    /// The number of its parts.
    pub fn len(&self) -> usize
        ensures { result ≡ length self.now }
    {
        self.parts.len()
    }

    /// The part at this place, counted from 0, or none where there is none.
    pub fn get(&self, at: usize) -> Option<&Inner>
        ensures { option_copied result ≡ slice_get self.now at }
    {
        self.parts.get(at)
    }

    pub fn as_slice(&self) -> &[Inner]
        ensures { result.now ≡ self.now }
    {
        self.parts.as_slice()
    }
}

/// A chunk: its name, and the units and blanks in it.
#[derive(Debug, Drop)]
pub struct Chunk {
    pub name: Word,
    pub content: Content,
}

/// An item of a text, by the Apertium stream format.
#[derive(Debug, Drop)]
pub enum Item {
    Plain(Character),
    Blank(Blank),
    Unit(Unit),
    Chunk(Chunk),
}

/// An item, with the offset of its first byte in the text and the number of its bytes there.
#[derive(Debug, Drop)]
pub struct Read {
    pub item: Item,
    pub place: u64,
    pub size: u64,
}
