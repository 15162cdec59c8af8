ghost use Rattle.std.specs.Prelude.{◌≡◌, ◌++◌, ◌∷◌, ◌↔◌, [], length, IfOk, IsTrue, OnOk, OnErr, slice_get};
ghost use Rattle.std.specs.Option.{option_copied};
ghost use Rattle.ap_symbol.specs.Kept.{kept_characters};

use crate::memory::Memory;
use std::alloc::Global;
use std::marker::Model;
use std::rc::Rc;

/// A text as a list of characters, which contracts see as that list.
///
/// Up to three characters stand in the value itself, as those of most names of elements and
/// attributes. More stand in a block, which copies share.
#[derive(Debug, Drop)]
pub struct Text {
    kept: Kept,
    alloc: Global,
}

/// Where the characters of a text stand.
#[derive(Debug, Drop)]
enum Kept {
    Empty,
    One([char; 1]),
    Two([char; 2]),
    Three([char; 3]),
    More(Rc<Vec<char>>),
}

impl Model for Text {
    ghost use Rattle.std.specs.Prelude.{List, ℕ};
    ghost use Rattle.ap_symbol.specs.Kept.{kept_characters};

    ghost Value = { List ℕ };

    ghost view = { λ t. kept_characters t.kept };
}

/// The characters, where up to three stand in the value.
fn placed(alloc: Global, characters: &[char]) -> Result<Kept, Memory>
    ensures { IfOk result (λ k. kept_characters k ≡ characters.now) }
{
    match characters {
        [] => Ok(Kept::Empty),
        [a] => Ok(Kept::One([*a])),
        [a, b] => Ok(Kept::Two([*a, *b])),
        [a, b, c] => Ok(Kept::Three([*a, *b, *c])),
        [_, ..] => {
            let all = Vec::from_slice(alloc, characters)?;
            Ok(Kept::More(Rc::new(alloc, all)?))
        }
    }
}

impl Text {
    /// The empty text, which takes no memory.
    pub fn new(alloc: Global) -> Text
        ensures { result ≡ [] }
    {
        Text {
            kept: Kept::Empty,
            alloc,
        }
    }

    /// The text of these characters.
    pub fn from_slice(alloc: Global, characters: &[char]) -> Result<Text, Memory>
        ensures { IfOk result (λ made. made ≡ characters.now) }
    {
        Ok(Text {
            kept: placed(alloc, characters)?,
            alloc,
        })
    }

    /// An equal text. What stands in a block is shared and not copied, so that no memory is taken
    /// today.
    pub fn copy(&self) -> Result<Text, Memory>
        ensures { IfOk result (λ made. made ≡ self.now) }
    {
        let alloc = self.alloc;
        match &self.kept {
            Kept::More(all) => Ok(Text {
                kept: Kept::More(all.clone()?),
                alloc,
            }),
            _ => Text::from_slice(alloc, self.as_slice()),
        }
    }

    /// Appends a character, which takes the time of the whole text: what comes one by one is
    /// gathered elsewhere. After a refusal, which means want of memory, the text is unchanged.
    pub fn push(&mut self, item: char) -> Result<(), Memory>
        ensures ok { OnOk result (self.new ≡ self.old ++ item ∷ []) }
        ensures err { OnErr result (self.new ≡ self.old) }
    {
        let mut all = Vec::from_slice(self.alloc, self.as_slice())?;
        all.push(item)?;
        self.kept = placed(self.alloc, &all)?;
        Ok(())
    }

    /// The number of characters.
    pub fn len(&self) -> usize
        ensures { result ≡ length self.now }
    {
        self.as_slice().len()
    }

    /// Whether there is no character.
    pub fn is_empty(&self) -> bool
        ensures { IsTrue result ↔ (self.now ≡ []) }
    {
        self.as_slice().is_empty()
    }

    /// The character at a place counted from 0; None exactly where the text isn't that long.
    pub fn get(&self, at: usize) -> Option<&char>
        ensures { option_copied result ≡ slice_get self.now at }
    {
        self.as_slice().get(at)
    }

    /// The characters in order.
    pub fn as_slice(&self) -> &[char]
        ensures { result.now ≡ self.now }
    {
        match &self.kept {
            Kept::Empty => &[],
            Kept::One(all) => all,
            Kept::Two(all) => all,
            Kept::Three(all) => all,
            Kept::More(all) => all.as_slice(),
        }
    }
}
