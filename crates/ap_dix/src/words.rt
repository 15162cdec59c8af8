ghost use Rattle.std.specs.Prelude.{◌≡◌, ◌++◌, IfOk, OnOk};
ghost use Rattle.std.specs.Str.{encode_utf8_all};
ghost use Rattle.std.specs.String.{string_bytes};
ghost use Rattle.ap_markup.specs.View.{parts_of, tag_of};
ghost use Rattle.ap_dix.specs.WordText.{letter, letters, mark, tag_named, symbols, texts};

use ap_markup::{Node, Part, is_named, name_of};
use ap_symbol::{Letters, Memory, Sequence, Symbol, TagName, Word, is_white};
use std::alloc::Global;

/// Appends what a character of a text is.
fn add_letter(word: &mut Word, c: char) -> Result<(), Memory>
    ensures { OnOk result (word.new ≡ word.old ++ letter c) }
{
    if c == ' ' {
        return word.push(Symbol::Blank);
    }
    if is_white(c) {
        return Ok(());
    }
    word.push(Symbol::Letter(c))
}

/// Appends what a text is.
fn add_text(word: &mut Word, text: &[char]) -> Result<(), Memory>
    ensures { OnOk result (word.new ≡ word.old ++ letters text.now) }
{
    'text: for c in text {
        add_letter(word, *c)?;
    }
    Ok(())
}

/// These characters in UTF-8.
fn encoded(alloc: Global, text: &[char]) -> Result<String, Memory>
    ensures { IfOk result (λ made. string_bytes made ≡ encode_utf8_all text.now) }
{
    let mut made = String::new(alloc);
    for c in text {
        made.push(*c)?;
    }
    Ok(made)
}

/// Appends the tag of this name; a name that no tag has gives none.
fn add_tag(alloc: Global, word: &mut Word, name: &[char]) -> Result<(), Memory>
    ensures { OnOk result (word.new ≡ word.old ++ tag_named (encode_utf8_all name.now)) }
{
    let text = encoded(alloc, name)?;
    match TagName::new(alloc, text.as_str())? {
        Some(tag) => word.push(Symbol::Tag(tag)),
        None => Ok(()),
    }
}

/// Appends what an element other than `g` is.
fn add_mark(alloc: Global, word: &mut Word, node: &Node) -> Result<(), Memory>
    ensures { OnOk result (word.new ≡ word.old ++ mark (tag_of node.now)) }
{
    if is_named("b", node) {
        word.push(Symbol::Blank)
    } else if is_named("j", node) {
        word.push(Symbol::Join)
    } else if is_named("a", node) {
        word.push(Symbol::Alarm)
    } else if is_named("s", node) {
        add_tag(alloc, word, name_of(node))
    } else {
        Ok(())
    }
}

/// Appends what the parts spell.
fn add_symbols(alloc: Global, word: &mut Word, parts: &[Part]) -> Result<(), Memory>
    ensures { OnOk result (word.new ≡ word.old ++ symbols (parts_of parts.now)) }
{
    'parts: for part in parts {
        match part {
            Part::Run(text, _) => add_text(word, text.as_slice())?,
            Part::Element(node) => {
                if is_named("g", node) {
                    word.push(Symbol::Queue)?;
                    add_symbols(alloc, word, &node.parts)?;
                } else {
                    add_mark(alloc, word, node)?;
                }
            }
        }
    }
    Ok(())
}

/// Appends characters.
fn add_characters(made: &mut Letters, text: &[char]) -> Result<(), Memory>
    ensures { OnOk result (made.new ≡ made.old ++ text.now) }
{
    'text: for c in text {
        made.push(*c)?;
    }
    Ok(())
}

/// The characters of the texts among the parts, one after another.
pub fn texts(alloc: Global, parts: &[Part]) -> Result<Letters, Memory>
    ensures { IfOk result (λ made. made ≡ texts (parts_of parts.now)) }
{
    let mut made = Sequence::new(alloc);
    'parts: for part in parts {
        match part {
            Part::Run(text, _) => {
                add_characters(&mut made, text.as_slice())?;
            }
            Part::Element(_) => {}
        }
    }
    Ok(made)
}

/// The word that the parts of an element spell, in no more memory than it needs.
pub fn word_of(alloc: Global, parts: &[Part]) -> Result<Word, Memory>
    ensures { IfOk result (λ word. word ≡ symbols (parts_of parts.now)) }
{
    let mut word = Word::new(alloc);
    add_symbols(alloc, &mut word, parts)?;
    word.copy(alloc)
}
