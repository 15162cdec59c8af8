ghost use Rattle.std.specs.Prelude.{◌≡◌, ◌+◌, ◌≤◌, length, take, drop};
ghost use Rattle.ap_stream.specs.Chars.{char_at};
ghost use Rattle.ap_stream.specs.Chunks.{wrong_front};
ghost use Rattle.ap_stream.specs.Stands.{StoodIn, Tells, portion_effect, between, at_blank, Looks};

use crate::UNIT_MAX;
use crate::decode::{Decoded, decode};
use crate::dialect::Dialect;
use crate::examine::{Mode, Spot, examine, is_byte, is_white};
use crate::fault::MalformedKind;
use crate::item::Character;

/// Where in an item, or in the content of a chunk, the bytes so far end.
#[derive(Clone, Copy, Debug, PartialEq, Eq)]
pub(crate) enum Level {
    /// In an item, or before the brace that begins a content.
    Item(Mode),
    /// In a content, where a part begins at this byte. Nothing of the part is there yet where the
    /// mode is `Start`.
    Part(usize, Mode),
    /// Behind the brace that ends a content.
    Closed,
}

/// What one more byte or character makes of an item.
#[derive(Clone, Copy, Debug, PartialEq, Eq)]
pub(crate) enum Effect {
    /// More bytes of a character are needed.
    Waits,
    /// The item goes on so.
    Goes(Level),
    /// A plain character is whole.
    Plain(Character),
    /// The bytes before this one are a whole blank.
    BlankEnds,
    /// A unit is whole.
    UnitEnds,
    /// A chunk is whole.
    ChunkEnds,
    /// No whole item can follow.
    Bad(MalformedKind),
    /// The item has too many bytes.
    TooLong,
}

/// Whether the bytes so far are a blank, which may go on.
pub(crate) fn is_blank(level: Level) -> bool
    ensures { result ≡ at_blank level }
{
    matches!(level, Level::Item(Mode::Blank))
}

/// The fault of a byte where only ASCII can stand, and not this byte.
fn wrong_byte(byte: &[u8]) -> MalformedKind
    ensures { result ≡ wrong_front (char_at byte.now) }
{
    match decode(byte) {
        Decoded::NotChar => MalformedKind::NotUtf8,
        Decoded::Part => MalformedKind::Stray,
        Decoded::Char { .. } => MalformedKind::Stray,
    }
}

/// What the first byte of a part shows, or the one behind the last.
fn see_portion(byte: &[u8], from: usize) -> Effect
    requires { length byte.now ≡ 1 }
    ensures { result ≡ portion_effect byte.now from }
{
    let first = byte[0];
    if is_white(first) {
        return Effect::Goes(Level::Part(from, Mode::Blank));
    }
    if is_byte(first, 91) {
        return Effect::Goes(Level::Part(from, Mode::Inside));
    }
    if is_byte(first, 94) {
        return Effect::Goes(Level::Part(
            from,
            Mode::Word(Spot {
                first: true,
                empty: true,
            }),
        ));
    }
    if is_byte(first, 125) {
        return Effect::Goes(Level::Closed);
    }
    Effect::Bad(wrong_byte(byte))
}

/// Whether nothing of a part is there yet.
fn is_between(mode: Mode) -> bool
    ensures { result ≡ between mode }
{
    matches!(mode, Mode::Start)
}

fn show_part(
    dialect: Dialect,
    from: usize,
    mode: Mode,
    done: &[u8],
    part: &[u8],
    end: usize,
) -> Effect
    requires stood { StoodIn dialect (Level.Part from mode) done.now part.now }
    requires end { end ≡ length done.now + length part.now }
    ensures { Tells dialect (Level.Part from mode) done.now part.now result }
{
    if is_between(mode) {
        return see_portion(part, from);
    }
    match examine(Dialect::Lexical, mode, &done[from..], part, end - from) {
        Effect::Waits => Effect::Waits,
        Effect::Goes(Level::Item(to)) => Effect::Goes(Level::Part(from, to)),
        Effect::BlankEnds => see_portion(part, done.len()),
        Effect::UnitEnds => Effect::Goes(Level::Part(end, Mode::Start)),
        Effect::Bad(kind) => Effect::Bad(kind),
        Effect::Plain(_) => unreachable!(),
        Effect::ChunkEnds => unreachable!(),
        Effect::TooLong => unreachable!(),
        Effect::Goes(Level::Part(_, _)) => unreachable!(),
        Effect::Goes(Level::Closed) => unreachable!(),
    }
}

fn show_closed(dialect: Dialect, done: &[u8], part: &[u8]) -> Effect
    requires { StoodIn dialect Level.Closed done.now part.now }
    ensures { Tells dialect Level.Closed done.now part.now result }
{
    if is_byte(part[0], 36) {
        Effect::ChunkEnds
    } else {
        Effect::Bad(wrong_byte(part))
    }
}

fn show(dialect: Dialect, level: Level, done: &[u8], part: &[u8], end: usize) -> Effect
    requires stood { StoodIn dialect level done.now part.now }
    requires end { end ≡ length done.now + length part.now }
    ensures { Tells dialect level done.now part.now result }
{
    match level {
        Level::Item(mode) => examine(dialect, mode, done, part, end),
        Level::Part(from, mode) => show_part(dialect, from, mode, done, part, end),
        Level::Closed => show_closed(dialect, done, part),
    }
}

/// What the last byte shows, where so many bytes are behind.
pub(crate) fn look(dialect: Dialect, level: Level, done: usize, held: &[u8]) -> Effect
    requires fits { done ≤ length held.now }
    requires stood { StoodIn dialect level (take done held.now) (drop done held.now) }
    requires short { length held.now ≤ UNIT_MAX + 1 }
    ensures { Looks dialect level done held.now result }
{
    let (front, part) = held.split_at(done);
    let shown = show(dialect, level, front, part, held.len());
    if held.len() <= UNIT_MAX {
        return shown;
    }
    match shown {
        Effect::BlankEnds => Effect::BlankEnds,
        _ => Effect::TooLong,
    }
}
