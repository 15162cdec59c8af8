ghost use Rattle.std.specs.Prelude.{◌≡◌, ◌-◌, IfOk, IsTrue, length};
ghost use Rattle.std.specs.Option.{option_copied};
ghost use Rattle.std.specs.Str.{encode_utf8_all};
ghost use Rattle.std.specs.String.{string_bytes};
ghost use Rattle.ap_rules.specs.Texts.{is_digit, is_leading, decimal, number_in, word_of, tag_symbol, tags_of, given_text};

use ap_markup::is_text;
use ap_symbol::{Memory, Symbol, TagName, Word, text_word};
use std::alloc::Global;

fn is_digit(c: char) -> bool
    ensures { result ≡ is_digit c }
{
    '0' <= c && c <= '9'
}

fn is_leading(c: char) -> bool
    ensures { result ≡ is_leading c }
{
    '1' <= c && c <= '9'
}

/// What a digit counts.
fn digit(c: char) -> usize
    requires { IsTrue (is_digit c) }
    ensures { result ≡ c - 48 }
{
    c as usize - 48
}

/// The number that a text of one to three digits is in decimal, without a zero in front.
fn decimal(text: &[char]) -> Option<usize>
    ensures { result ≡ decimal text.now }
{
    match text {
        [a] if is_digit(*a) => Some(digit(*a)),
        [a, b] if is_leading(*a) && is_digit(*b) => Some(digit(*a) * 10 + digit(*b)),
        [a, b, c] if is_leading(*a) && is_digit(*b) && is_digit(*c) => {
            Some(digit(*a) * 100 + digit(*b) * 10 + digit(*c))
        }
        _ => None,
    }
}

/// The number from `least` to `most` that a value is, where it is given and is one.
pub fn number_in(least: usize, most: usize, value: Option<&[char]>) -> Option<usize>
    ensures { result ≡ number_in least most (option_copied value.entry) }
{
    let number = decimal(value?)?;
    if least <= number && number <= most {
        Some(number)
    } else {
        None
    }
}

/// The value, or the empty one.
pub fn given_text(value: Option<&[char]>) -> &[char]
    ensures { result.now ≡ given_text (option_copied value.entry) }
{
    match value {
        None => &[],
        Some(text) => text,
    }
}

/// These characters in UTF-8.
fn encoded(alloc: Global, text: &[char]) -> Result<String, Memory>
    ensures { IfOk result (λ made. string_bytes made ≡ encode_utf8_all text.now) }
{
    let mut made = String::new(alloc);
    for c in text {
        made.push(*c)?;
    }
    Ok(made)
}

/// The word that a value spells.
pub fn word_of(alloc: Global, text: &[char]) -> Result<Word, Memory>
    ensures { IfOk result (λ made. made ≡ word_of text.now) }
{
    let text = encoded(alloc, text)?;
    text_word(alloc, text.as_str())
}

/// A part of tags: a star, where stars may stand, or a tag.
fn tag_symbol(alloc: Global, stars: bool, part: &[char]) -> Result<Option<Symbol>, Memory>
    ensures { IfOk result (λ made. made ≡ tag_symbol stars part.now) }
{
    if is_text("*", part) {
        return Ok(if stars { Some(Symbol::Star) } else { None });
    }
    let text = encoded(alloc, part)?;
    match TagName::new(alloc, text.as_str())? {
        Some(tag) => Ok(Some(Symbol::Tag(tag))),
        None => Ok(None),
    }
}

/// The tags of a value, split at its dots: none where the value is empty. None where a part is no
/// tag, or a star where none may stand.
pub fn tags_of(alloc: Global, stars: bool, text: &[char]) -> Result<Option<Word>, Memory>
    ensures { IfOk result (λ made. made ≡ tags_of stars text.now) }
{
    let mut word = Word::new(alloc);
    if text.is_empty() {
        return Ok(Some(word));
    }
    let mut part = Vec::new(alloc);
    'text: for c in text {
        if *c == '.' {
            match tag_symbol(alloc, stars, &part)? {
                None => return Ok(None),
                Some(symbol) => word.push(symbol)?,
            }
            part = Vec::new(alloc);
        } else {
            part.push(*c)?;
        }
    }
    match tag_symbol(alloc, stars, &part)? {
        None => Ok(None),
        Some(symbol) => {
            word.push(symbol)?;
            Ok(Some(word))
        }
    }
}
