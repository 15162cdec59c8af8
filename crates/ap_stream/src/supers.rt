ghost use Rattle.std.specs.Prelude.{◌≡◌, ◌≢◌, ℕ, ◌≤◌, ◌++◌, length, IfSome, None, OnOk, false};
ghost use Rattle.std.specs.List.{flat_map};
ghost use Rattle.ap_stream.specs.Blanks.{Closed, closes, closing, escapes};
ghost use Rattle.ap_stream.specs.Supers.{blank_supers, inner_supers, item_supers};

use crate::decode::{Decoded, decode};
use crate::item::{Inner, Item};
use ap_symbol::{Bytes, Memory};

fn is_closing(escaped: bool, letter: char) -> bool
    ensures { result ≡ closes escaped letter }
{
    !escaped && letter == ']'
}

fn is_escaping(escaped: bool, letter: char) -> bool
    ensures { result ≡ escapes escaped letter }
{
    !escaped && letter == '\\'
}

/// How many of the bytes behind its bracket a superblank has, the closing bracket included, if it
/// is closed.
pub(crate) fn closed_size(bytes: &[u8]) -> Option<usize>
    ensures closed { IfSome result (λ n. closing false 0 bytes.now ≡ Closed n) }
    ensures within { IfSome result (λ n. n ≤ length bytes.now) }
    ensures unclosed { result ≡ None → (n : ℕ) → closing false 0 bytes.now ≢ Closed n }
{
    let mut at = 0;
    let mut escaped = false;
    while at < bytes.len() {
        match decode(&bytes[at..]) {
            Decoded::Part => return None,
            Decoded::NotChar => return None,
            Decoded::Char { letter, size } => {
                at += size;
                if is_closing(escaped, letter) {
                    return Some(at);
                }
                escaped = is_escaping(escaped, letter);
            }
        }
    }
    None
}

fn push_blank(bytes: &[u8], into: &mut Bytes) -> Result<(), Memory>
    ensures { OnOk result (into.new ≡ into.old ++ flat_map (λ x. x) (blank_supers 0 bytes.now)) }
{
    let mut at = 0;
    while at < bytes.len() {
        if bytes[at] == b'[' {
            match closed_size(&bytes[at + 1..]) {
                None => return Ok(()),
                Some(size) => {
                    into.extend(&bytes[at..at + 1 + size])?;
                    at += 1 + size;
                }
            }
        } else {
            at += 1;
        }
    }
    Ok(())
}

fn push_inner(parts: &[Inner], into: &mut Bytes) -> Result<(), Memory>
    ensures { OnOk result (into.new ≡ into.old
        ++ flat_map (λ x. x) (flat_map inner_supers parts.now)) }
{
    for part in parts {
        if let Inner::Blank(blank) = part {
            push_blank(blank.as_slice(), into)?;
        }
    }
    Ok(())
}

/// Appends the superblanks of an item, `[` and `]` and all between them, without the white space
/// beside them (the Apertium stream format); also those inside a chunk. After a refusal, which
/// means want of memory, some of them may stand there.
pub fn push_superblanks(item: &Item, into: &mut Bytes) -> Result<(), Memory>
    ensures { OnOk result (into.new ≡ into.old ++ flat_map (λ x. x) (item_supers item.now)) }
{
    match item {
        Item::Blank(blank) => push_blank(blank.as_slice(), into),
        Item::Chunk(chunk) => push_inner(chunk.content.as_slice(), into),
        Item::Plain(_) | Item::Unit(_) => Ok(()),
    }
}
