ghost use Rattle.std.specs.Prelude.{◌≡◌, ◌≤◌, ◌++◌, ◌∷◌, IfOk, MatchOption, OnOk, Bool, length, List, reverse};
ghost use Rattle.std.specs.Char.{encode_utf8};
ghost use Rattle.std.specs.Str.{encode_utf8_all};
ghost use Rattle.ap_expand.specs.Lines.{expression_bytes};
ghost use Rattle.ap_expand.specs.Search.{AreLinked, Begins, todo_of};
ghost use Rattle.ap_expand.specs.Walks.{Adds, ComesTo};

use crate::frame::Frame;
use ap_dix::EntryPart;
use ap_symbol::Memory;

/// A paradigm that was met, and the parts behind it.
#[derive(Clone, Copy)]
pub(crate) struct Met<'a> {
    pub(crate) number: usize,
    pub(crate) rest: &'a [EntryPart],
    pub(crate) parent: usize,
}

/// Appends a character in UTF-8.
fn push_character(bytes: &mut Vec<u8>, c: char) -> Result<(), Memory>
    ensures ok { OnOk result (bytes.new.items ≡ bytes.old.items ++ encode_utf8 c) }
    ensures begins { Begins bytes.old.items bytes.new.items }
{
    let mut buffer = [0; 4];
    bytes.extend_from_slice(c.encode_utf8(&mut buffer).as_bytes())?;
    Ok(())
}

/// Appends characters in UTF-8.
fn push_characters(bytes: &mut Vec<u8>, text: &[char]) -> Result<(), Memory>
    ensures ok { OnOk result (bytes.new.items ≡ bytes.old.items ++ encode_utf8_all text.now) }
    ensures begins { Begins bytes.old.items bytes.new.items }
{
    for c in text {
        push_character(bytes, *c)?;
    }
    Ok(())
}

/// Appends what stands for the expression of that text: `__REGEXP__` and the text, unescaped.
fn push_expression(bytes: &mut Vec<u8>, text: &[char]) -> Result<(), Memory>
    ensures ok { OnOk result (bytes.new.items ≡ bytes.old.items ++ expression_bytes text.now) }
    ensures begins { Begins bytes.old.items bytes.new.items }
{
    bytes.extend_from_slice(b"__REGEXP__")?;
    push_characters(bytes, text)
}

/// Appends the words of the part, or answers the number of its paradigm.
fn push_words(
    part: &EntryPart,
    left: &mut Vec<u8>,
    right: &mut Vec<u8>,
) -> Result<Option<usize>, Memory>
    ensures adds { IfOk result
        (λ number. Adds part.now number left.old.items right.old.items left.new.items
        right.new.items) }
    ensures left { Begins left.old.items left.new.items }
    ensures right { Begins right.old.items right.new.items }
{
    match part {
        EntryPart::Identity(word) => {
            left.extend_from_slice(word.rendered())?;
            right.extend_from_slice(word.rendered())?;
            Ok(None)
        }
        EntryPart::Pair(left_word, right_word) => {
            left.extend_from_slice(left_word.rendered())?;
            right.extend_from_slice(right_word.rendered())?;
            Ok(None)
        }
        EntryPart::Paradigm(number) => Ok(Some(*number)),
        EntryPart::Expression(_, text) => {
            push_expression(left, text.as_slice())?;
            push_expression(right, text.as_slice())?;
            Ok(None)
        }
    }
}

/// Appends the words from these parts on, and answers the first paradigm, if any comes.
pub(crate) fn walk<'a>(
    frames: &[Frame<'a>],
    mut parts: &'a [EntryPart],
    mut parent: usize,
    left: &mut Vec<u8>,
    right: &mut Vec<u8>,
) -> Result<Option<Met<'a>>, Memory>
    requires linked { AreLinked (reverse frames.now) }
    requires parent { parent ≤ length frames.now }
    ensures comes { IfOk result
        (λ met. ComesTo (reverse frames.now) parts.now parent left.old.items right.old.items met
        left.new.items right.new.items) }
    ensures left { Begins left.old.items left.new.items }
    ensures right { Begins right.old.items right.new.items }
{
    'parts: loop {
        match parts.split_first() {
            Some((part, rest)) => {
                if let Some(number) = push_words(part, left, right)? {
                    return Ok(Some(Met {
                        number,
                        rest,
                        parent,
                    }));
                }
                parts = rest;
            }
            None => {
                if parent == 0 {
                    return Ok(None);
                }
                let frame = &frames[parent - 1];
                parts = frame.rest;
                parent = frame.parent;
            }
        }
    }
}
