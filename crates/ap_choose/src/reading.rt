ghost use Rattle.std.specs.Prelude.{◌≡◌, ◌+◌, ◌<◌, ◌≤◌, ◌∷◌, ◌++◌, [], List, ℕ, Some, None, true, false, length, take, drop, not, eqb, IfOk, OnOk, IfErr, IfSome, MatchOption};
ghost use Rattle.std.specs.List.{prefix_len};
ghost use Rattle.std.specs.Str.{IsUtf8};
ghost use Rattle.ap_choose.specs.declared.forbidden.Pair.{Pair};
ghost use Rattle.ap_choose.specs.declared.forbidden.PairRefusal.TheVariants.{BadPair};
ghost use Rattle.ap_choose.specs.Pairs.{is_comment, IsName, IsPair, Says, IsBad, AreSaid, IsFirstBad};

use crate::forbidden::{Forbidden, Pair, PairRefusal};
use ap_symbol::{Memory, TagName};
use std::alloc::Global;
use std::str;

/// The tag name that the bytes are.
fn name_of(alloc: Global, bytes: &[u8]) -> Result<Option<TagName>, Memory>
    ensures some { IfOk result (λ made. IfSome made (λ name. (name ≡ bytes.now)
        × IsName bytes.now)) }
    ensures none { result ≡ Ok None → IsName bytes.now → ⊥ }
{
    match str::from_utf8(bytes) {
        Ok(text) => TagName::new(alloc, text),
        Err(_) => Ok(None),
    }
}

/// How many bytes stand before the first space.
fn first_len(line: &[u8]) -> usize
    ensures value { result ≡ prefix_len (λ b. not (eqb b 32)) line.now }
    ensures within { result ≤ length line.now }
{
    line.iter().take_while(|b| **b != 32).count()
}

/// How many bytes stand before the first line feed.
fn line_len(text: &[u8]) -> usize
    ensures value { result ≡ prefix_len (λ b. not (eqb b 10)) text.now }
    ensures within { result ≤ length text.now }
{
    text.iter().take_while(|b| **b != 10).count()
}

/// The pair that a line is, if it is one. It is no comment.
fn pair_of(alloc: Global, line: &[u8]) -> Result<Option<Pair>, Memory>
    requires { is_comment line.now ≡ false }
    ensures some { IfOk result (λ made. IfSome made (IsPair line.now)) }
    ensures none { result ≡ Ok None → (pair : Pair) → IsPair line.now pair → ⊥ }
{
    let len = first_len(line);
    if len == line.len() {
        return Ok(None);
    }
    let Some(first) = name_of(alloc, &line[..len])? else {
        return Ok(None);
    };
    let Some(second) = name_of(alloc, &line[len + 1..])? else {
        return Ok(None);
    };
    Ok(Some(Pair { first, second }))
}

fn is_comment(line: &[u8]) -> bool
    ensures { result ≡ is_comment line.now }
{
    match line {
        [] => false,
        [first, ..] => *first == 35,
    }
}

fn is_text(line: &[u8]) -> bool
    ensures yes { result ≡ true → IsUtf8 line.now }
    ensures no { result ≡ false → IsUtf8 line.now → ⊥ }
{
    match str::from_utf8(line) {
        Ok(_) => true,
        Err(_) => false,
    }
}

/// Appends the pair that a line says, if it says one. Answers whether the line has a form.
fn read_line(alloc: Global, line: &[u8], found: &mut Forbidden) -> Result<bool, Memory>
    ensures fine { result ≡ Ok true → (own : List Pair) × Says line.now own
        × (found.new ≡ found.old ++ own) }
    ensures bad { result ≡ Ok false → IsBad line.now }
{
    if line.is_empty() || is_comment(line) {
        return Ok(is_text(line));
    }
    match pair_of(alloc, line)? {
        None => Ok(false),
        Some(pair) => {
            found.push(pair)?;
            Ok(true)
        }
    }
}

/// The forbidden pairs of tags that a text says, in its order. The text is UTF-8 in lines that
/// end with a line feed or with the text. An empty line, and one that begins with `#`, says
/// nothing; every other line is two tag names with one space between them.
///
/// `BadPair` comes exactly where a line has none of these forms or isn't UTF-8, with the number
/// of the first such line, counted from 1. `Memory` means want of memory.
pub fn read_pairs(alloc: Global, text: &[u8]) -> Result<Forbidden, PairRefusal>
    ensures said { IfOk result (AreSaid text.now) }
    ensures bad { IfErr result (λ e. (line : ℕ) → e ≡ BadPair line → IsFirstBad text.now line) }
{
    let mut found = Forbidden::new(alloc);
    let mut line: u64 = 1;
    let mut at = 0;
    'lines: while at < text.len() {
        let end = at + line_len(&text[at..]);
        if !read_line(alloc, &text[at..end], &mut found)? {
            return Err(PairRefusal::BadPair { line });
        }
        if end == text.len() {
            return Ok(found);
        }
        at = end + 1;
        line += 1;
    }
    Ok(found)
}
