ghost use Rattle.std.specs.Prelude.{◌≡◌, ◌<◌, ◌≤◌, IfOk, IsTrue, length, drop};
ghost use Rattle.std.specs.Str.{chars, encode_utf8_all};
ghost use Rattle.std.specs.Option.{SomeIff};
ghost use Rattle.std.specs.String.{string_bytes};
ghost use Rattle.ap_symbol.specs.Words.{is_white, is_word_symbol};
ghost use Rattle.ap_symbol.specs.TextWord.{escaped_symbol, bare_symbol, name_len, name_at, first_symbol, first_len, begins_with_name, begins_with_tag, symbols_after, text_word_lem};

use crate::memory::Memory;
use crate::symbol::Symbol;
use crate::tag_name::{TagName, is_reserved_in_tag};
use crate::word::Word;
use std::alloc::{AllocError, Global};

/// Whether the character is white space: U+0009, U+000A, U+000D or U+0020.
pub fn is_white(c: char) -> bool
    ensures { result ≡ is_white c }
{
    matches!(c, '\t' | '\n' | '\r' | ' ')
}

/// The symbol of a character behind `\`: Blank if it is white space, else that letter.
pub fn escaped_symbol(c: char) -> Symbol
    ensures value { result ≡ escaped_symbol c }
    ensures word_symbol { IsTrue (is_word_symbol result) }
{
    if is_white(c) {
        Symbol::Blank
    } else {
        Symbol::Letter(c)
    }
}

/// The symbol of a bare character: white space is Blank, `+ # ~ * @` are Join, Queue, Alarm, Star
/// and At, and every other character is that letter.
pub fn bare_symbol(c: char) -> Symbol
    ensures value { result ≡ bare_symbol c }
    ensures word_symbol { IsTrue (is_word_symbol result) }
{
    if is_white(c) {
        return Symbol::Blank;
    }
    match c {
        '+' => Symbol::Join,
        '#' => Symbol::Queue,
        '~' => Symbol::Alarm,
        '*' => Symbol::Star,
        '@' => Symbol::At,
        _ => Symbol::Letter(c),
    }
}

/// How many characters stand before the first that no tag name holds.
fn name_len(text: &[char]) -> usize
    ensures value { result ≡ name_len text.now }
    ensures within { result ≤ length text.now }
{
    let mut len = 0;
    while len < text.len() && !is_reserved_in_tag(text[len]) {
        len += 1;
    }
    len
}

/// These characters in UTF-8.
fn encoded(alloc: Global, text: &[char]) -> Result<String, Memory>
    ensures { IfOk result (λ made. string_bytes made ≡ encode_utf8_all text.now) }
{
    let mut made = String::new(alloc);
    for c in text {
        made.push(*c)?;
    }
    Ok(made)
}

/// The tag name that the characters begin with, before a `>`.
fn name_at(alloc: Global, text: &[char]) -> Result<Option<TagName>, Memory>
    ensures { IfOk result (λ found. SomeIff found (IsTrue (begins_with_name text.now))
        (name_at text.now)) }
{
    let len = name_len(text);
    if len >= text.len() || text[len] != '>' {
        return Ok(None);
    }
    let name = encoded(alloc, &text[..len])?;
    TagName::new(alloc, name.as_str())
}

/// The tag that the characters begin with.
fn tag_at(alloc: Global, text: &[char]) -> Result<Option<TagName>, Memory>
    requires { 0 < length text.now }
    ensures { IfOk result (λ found. SomeIff found (IsTrue (begins_with_tag text.now))
        (name_at (drop 1 text.now))) }
{
    if text[0] == '<' {
        name_at(alloc, &text[1..])
    } else {
        Ok(None)
    }
}

/// The symbol that the characters begin with, and how many of them spell it.
fn first_symbol(alloc: Global, text: &[char]) -> Result<(Symbol, usize), Memory>
    requires { 0 < length text.now }
    ensures symbol { IfOk result (λ r. r.0 ≡ first_symbol text.now) }
    ensures word_symbol { IfOk result (λ r. IsTrue (is_word_symbol r.0)) }
    ensures len { IfOk result (λ r. r.1 ≡ first_len text.now) }
{
    if let Some(tag) = tag_at(alloc, text)? {
        return Ok((Symbol::Tag(tag), name_len(&text[1..]) + 2));
    }
    if text[0] == '\\' && text.len() > 1 {
        return Ok((escaped_symbol(text[1]), 2));
    }
    Ok((bare_symbol(text[0]), 1))
}

fn symbols(alloc: Global, text: &[char]) -> Result<Word, Memory>
    ensures { IfOk result (λ made. made ≡ symbols_after 0 text.now) }
{
    let mut word = Word::new(alloc);
    let mut at = 0;
    while at < text.len() {
        let (symbol, len) = first_symbol(alloc, &text[at..])?;
        word.push(symbol)?;
        at += len;
    }
    Ok(word)
}

fn characters(alloc: Global, text: &str) -> Result<Vec<char>, AllocError>
    ensures { IfOk result (λ all. all.items ≡ chars text.now) }
{
    text.chars().collect(alloc)
}

/// The word that a text of a dictionary or of a rule spells. `<name>` with a tag name is a tag;
/// `\` and a character behind it are that character as a letter, or Blank if it is white space;
/// bare white space is Blank; `+ # ~ * @` are Join, Queue, Alarm, Star and At; every other
/// character is a letter, a `<` that begins no tag and a `\` at the end too. The error means want
/// of memory.
pub fn text_word(alloc: Global, text: &str) -> Result<Word, Memory>
    ensures { IfOk result (λ made. made ≡ text_word_lem text.now) }
{
    let all = characters(alloc, text)?;
    symbols(alloc, all.as_slice())
}
