ghost use Rattle.std.specs.Prelude.{◌≡◌, ℕ};
ghost use Rattle.ap_stream.specs.Blanks.{is_white as white_test};
ghost use Rattle.ap_stream.specs.Dialects.{is_refused as refused_test, is_reserved as reserved_test, has_units as units_test};
ghost use Rattle.ap_stream.specs.Effects.{effect, goes, blank_effect, sign_effect, grown_spot, surface_at};
ghost use Rattle.ap_stream.specs.Units.{is_barred as barred_test, form_of, Slash, Dollar, Brace};

use crate::dialect::Dialect;
use crate::examine::{Mode, Spot};
use crate::fault::MalformedKind;
use crate::item::Character;
use crate::level::{Effect, Level};
use ap_symbol::is_reserved_in_tag;

fn is_white(letter: char) -> bool
    ensures { result ≡ white_test letter }
{
    matches!(letter, ' ' | '\t' | '\n' | '\r')
}

/// `$ / < > { } ] @`
fn is_reserved(letter: char) -> bool
    ensures { result ≡ reserved_test letter }
{
    matches!(letter, '$' | '/' | '<' | '>' | '{' | '}' | ']' | '@')
}

/// Whether the bare character is refused outside units.
fn is_refused(dialect: Dialect, letter: char) -> bool
    ensures { result ≡ refused_test dialect letter }
{
    match dialect {
        Dialect::Raw => letter == '^' || is_reserved(letter),
        Dialect::Analysed | Dialect::Lexical | Dialect::Bilingual | Dialect::Chunked => is_reserved(
            letter,
        ),
        Dialect::Generated => matches!(letter, '^' | '$' | '{' | '}' | ']'),
    }
}

/// Whether the dialect has units or chunks.
pub(crate) fn has_units(dialect: Dialect) -> bool
    ensures { result ≡ units_test dialect }
{
    !matches!(dialect, Dialect::Raw | Dialect::Generated)
}

/// Whether the word is a surface.
pub(crate) fn is_surface(dialect: Dialect, at: Spot) -> bool
    ensures { result ≡ surface_at dialect at }
{
    matches!(dialect, Dialect::Analysed) && at.first
}

/// Whether a unit of the dialect has several words.
pub(crate) fn is_several(dialect: Dialect) -> bool
    ensures { result ≡ (form_of dialect).several }
{
    matches!(dialect, Dialect::Analysed | Dialect::Bilingual)
}

/// Whether the word behind `^` is a chunk's name.
fn is_braced(dialect: Dialect) -> bool
    ensures { result ≡ (form_of dialect).braced }
{
    matches!(dialect, Dialect::Chunked)
}

/// Whether a bare character stands in no word.
pub(crate) fn is_barred(surface: bool, letter: char) -> bool
    ensures { result ≡ barred_test surface letter }
{
    matches!(letter, '^' | '>' | '}' | '[' | ']') || surface && matches!(letter, '<' | '@')
}

/// Where the word is once it has one more symbol.
pub(crate) fn grown(at: Spot) -> Spot
    ensures { result ≡ grown_spot at }
{
    Spot {
        first: at.first,
        empty: false,
    }
}

/// The item goes on so.
fn goes(mode: Mode) -> Effect
    ensures { result ≡ goes mode }
{
    Effect::Goes(Level::Item(mode))
}

/// A blank begins or goes on, or it is another character.
fn blank_effect(letter: char, other: Effect) -> Effect
    ensures { result ≡ blank_effect letter other }
{
    if is_white(letter) {
        return goes(Mode::Blank);
    }
    if letter == '[' {
        return goes(Mode::Inside);
    }
    other
}

/// Before an item, where no blank begins.
fn start_effect(dialect: Dialect, letter: char) -> Effect
    ensures { (end : ℕ) → blank_effect letter result ≡ effect dialect Mode.Start end letter }
{
    if letter == '\\' {
        return goes(Mode::Escape);
    }
    if letter == '^' && has_units(dialect) {
        return goes(Mode::Word(Spot {
            first: true,
            empty: true,
        }));
    }
    if is_refused(dialect, letter) {
        return Effect::Bad(MalformedKind::Stray);
    }
    Effect::Plain(Character {
        letter,
        escaped: false,
    })
}

/// Within a superblank.
fn inside_effect(letter: char) -> Effect
    ensures { (dialect : Dialect) (end : ℕ) → result ≡ effect dialect Mode.Inside end letter }
{
    if letter == ']' {
        return goes(Mode::Blank);
    }
    if letter == '\\' {
        return goes(Mode::InsideEscape);
    }
    goes(Mode::Inside)
}

/// A `/` in a word.
fn slash_effect(dialect: Dialect, at: Spot, end: usize) -> Effect
    ensures { result ≡ sign_effect (form_of dialect) at end Slash }
{
    if !is_several(dialect) {
        return Effect::Bad(MalformedKind::Stray);
    }
    if at.first && at.empty {
        return Effect::Bad(MalformedKind::EmptyWord);
    }
    goes(Mode::Word(Spot {
        first: false,
        empty: true,
    }))
}

/// A `$` in a word.
fn dollar_effect(dialect: Dialect, at: Spot, end: usize) -> Effect
    ensures { result ≡ sign_effect (form_of dialect) at end Dollar }
{
    if is_braced(dialect) {
        return Effect::Bad(MalformedKind::Stray);
    }
    let missing = if is_several(dialect) {
        at.first
    } else {
        at.empty
    };
    if missing {
        Effect::Bad(MalformedKind::EmptyWord)
    } else {
        Effect::UnitEnds
    }
}

/// A `{` in a word.
fn brace_effect(dialect: Dialect, at: Spot, end: usize) -> Effect
    ensures { result ≡ sign_effect (form_of dialect) at end Brace }
{
    if !is_braced(dialect) {
        return Effect::Bad(MalformedKind::Stray);
    }
    Effect::Goes(Level::Part(end, Mode::Start))
}

/// In a word.
fn word_effect(dialect: Dialect, at: Spot, end: usize, letter: char) -> Effect
    ensures { result ≡ effect dialect (Mode.Word at) end letter }
{
    if letter == '\\' {
        return goes(Mode::WordEscape(at));
    }
    if letter == '<' && !is_surface(dialect, at) {
        return goes(Mode::Tag(at, false));
    }
    if letter == '/' {
        return slash_effect(dialect, at, end);
    }
    if letter == '$' {
        return dollar_effect(dialect, at, end);
    }
    if letter == '{' {
        return brace_effect(dialect, at, end);
    }
    if is_barred(is_surface(dialect, at), letter) {
        return Effect::Bad(MalformedKind::Stray);
    }
    goes(Mode::Word(grown(at)))
}

/// In a tag, of whose name some is there.
fn tag_effect(at: Spot, some: bool, letter: char) -> Effect
    ensures { (dialect : Dialect) (end : ℕ) →
        result ≡ effect dialect (Mode.Tag at some) end letter }
{
    if !is_reserved_in_tag(letter) {
        return goes(Mode::Tag(at, true));
    }
    if letter == '>' && some {
        return goes(Mode::Word(grown(at)));
    }
    Effect::Bad(MalformedKind::BadTag)
}

/// What a character makes of an item, where so many bytes end with it; behind a blank that is its
/// first byte.
pub(crate) fn effect(dialect: Dialect, mode: Mode, end: usize, letter: char) -> Effect
    ensures { result ≡ effect dialect mode end letter }
{
    match mode {
        Mode::Start => blank_effect(letter, start_effect(dialect, letter)),
        Mode::Escape => Effect::Plain(Character {
            letter,
            escaped: true,
        }),
        Mode::Blank => blank_effect(letter, Effect::BlankEnds),
        Mode::Inside => inside_effect(letter),
        Mode::InsideEscape => goes(Mode::Inside),
        Mode::Word(at) => word_effect(dialect, at, end, letter),
        Mode::WordEscape(at) => goes(Mode::Word(grown(at))),
        Mode::Tag(at, some) => tag_effect(at, some, letter),
    }
}
