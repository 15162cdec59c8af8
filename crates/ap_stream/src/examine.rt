ghost use Rattle.std.specs.Prelude.{◌≡◌, ◌+◌, eqb, length};
ghost use Rattle.ap_stream.specs.Blanks.{is_white as white_test};
ghost use Rattle.ap_stream.specs.Stands.{StoodIn, Tells};

use crate::decode::{Decoded, decode};
use crate::dialect::Dialect;
use crate::effects::effect;
use crate::fault::MalformedKind;
use crate::level::{Effect, Level, is_blank};

/// Where in a unit a word stands: whether it is the first, and whether nothing of it is there yet.
#[derive(Clone, Copy, Debug, PartialEq, Eq)]
pub(crate) struct Spot {
    pub first: bool,
    pub empty: bool,
}

/// Where in an item the bytes so far end.
#[derive(Clone, Copy, Debug, PartialEq, Eq)]
pub(crate) enum Mode {
    /// Before an item, or within its first character.
    Start,
    /// Behind a backslash, or within the character there.
    Escape,
    /// Behind white space or a superblank.
    Blank,
    /// Within a superblank.
    Inside,
    /// Within a superblank, behind a backslash.
    InsideEscape,
    /// Before a symbol of a unit's word, or within a bare character there.
    Word(Spot),
    /// Behind a backslash in a unit's word, or within the character there.
    WordEscape(Spot),
    /// Within a tag's name, and whether a character of it is there.
    Tag(Spot, bool),
}

pub(crate) fn is_white(b: u8) -> bool
    ensures { result ≡ white_test b }
{
    b == 32 || b == 9 || b == 10 || b == 13
}

pub(crate) fn is_byte(c: u8, d: u8) -> bool
    ensures { result ≡ eqb c d }
{
    c == d
}

/// What the last byte shows of an item whose content has no parts, where so many bytes end with it.
pub(crate) fn examine(dialect: Dialect, mode: Mode, done: &[u8], part: &[u8], end: usize) -> Effect
    requires stood { StoodIn dialect (Level.Item mode) done.now part.now }
    requires end { end ≡ length done.now + length part.now }
    ensures { Tells dialect (Level.Item mode) done.now part.now result }
{
    if is_blank(Level::Item(mode)) {
        return effect(dialect, mode, end, part[0] as char);
    }
    match decode(part) {
        Decoded::Part => Effect::Waits,
        Decoded::NotChar => Effect::Bad(MalformedKind::NotUtf8),
        Decoded::Char { letter, size: _ } => effect(dialect, mode, end, letter),
    }
}
