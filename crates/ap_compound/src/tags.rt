ghost use Rattle.std.specs.Prelude.{◌≡◌, IfOk};
ghost use Rattle.std.specs.Str.{bytes_eq};
ghost use Rattle.ap_fst.specs.Without.{is_that_tag};
ghost use Rattle.ap_compound.specs.Tags.{left_tag, right_tag, tag_of, holds, is_part_tag, bare};

use ap_symbol::{Memory, Symbol, TagName, Word};
use std::alloc::Global;

/// The two sorts of parts: those that stand before others, and those that come last.
#[derive(Clone, Copy)]
pub(crate) enum Part {
    Left,
    Right,
}

fn is_left_name(name: &TagName) -> bool
    ensures { result ≡ bytes_eq name.now left_tag }
{
    name.text().as_bytes() == b"compound-only-L".as_slice()
}

fn is_right_name(name: &TagName) -> bool
    ensures { result ≡ bytes_eq name.now right_tag }
{
    name.text().as_bytes() == b"compound-R".as_slice()
}

/// Whether a symbol is the tag of left parts.
pub(crate) fn is_left_tag(symbol: &Symbol) -> bool
    ensures { result ≡ is_that_tag left_tag symbol.now }
{
    match symbol {
        Symbol::Tag(name) => is_left_name(name),
        _ => false,
    }
}

fn is_right_tag(symbol: &Symbol) -> bool
    ensures { result ≡ is_that_tag right_tag symbol.now }
{
    match symbol {
        Symbol::Tag(name) => is_right_name(name),
        _ => false,
    }
}

fn is_part_tag(symbol: &Symbol) -> bool
    ensures { result ≡ is_part_tag symbol.now }
{
    is_left_tag(symbol) || is_right_tag(symbol)
}

fn holds_left(word: &[Symbol]) -> bool
    ensures { result ≡ holds left_tag word.now }
{
    word.iter().any(|symbol| is_left_tag(symbol))
}

fn holds_right(word: &[Symbol]) -> bool
    ensures { result ≡ holds right_tag word.now }
{
    word.iter().any(|symbol| is_right_tag(symbol))
}

/// Whether a word holds the tag of a sort of parts.
pub(crate) fn holds(word: &[Symbol], part: Part) -> bool
    ensures { result ≡ holds (tag_of part) word.now }
{
    match part {
        Part::Left => holds_left(word),
        Part::Right => holds_right(word),
    }
}

/// The word without the tags of parts.
pub(crate) fn bare(alloc: Global, word: &Word) -> Result<Word, Memory>
    ensures { IfOk result (λ made. made ≡ bare word.now) }
{
    let mut made = Word::with_capacity(alloc, word.len(), word.rendered().len())?;
    for symbol in word.symbols() {
        if !is_part_tag(symbol) {
            made.push(symbol.copy(alloc)?)?;
        }
    }
    Ok(made)
}
