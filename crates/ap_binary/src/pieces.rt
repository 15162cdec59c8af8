ghost use Rattle.std.specs.Prelude.{◌≡◌, ℕ, ◌+◌, ◌-◌, ◌*◌, ◌<◌, ◌≤◌, length, take, drop, IfOk, IfSome, Some, None, true, false};
ghost use Rattle.std.specs.List.{prefix_len};
ghost use Rattle.std.specs.Option.{MatchOption};
ghost use Rattle.ap_binary.specs.Reading.{Gives};
ghost use Rattle.ap_binary.specs.Pieces.{byte_at, word_at, is_digit, value_after, is_numeral, limited, number_at, IsShort, state_of, is_character, character_of, character_at, letter_at, is_utf8, is_name_byte, tag_of, tag_at, side_at, label_of, label_at, number_then, edge_at, final_at, kind_at, head_at, scalar_of};
ghost use Rattle.ap_symbol.specs.TagNames.{is_reserved_lem};

use crate::heads::Head;
use crate::refusal::CutError;
use crate::writing::section_name;
use ap_fst::{Edge, Kind2, Label};
use ap_symbol::{Symbol, TagName, is_white};
use std::alloc::Global;

#[tactic(auto, unfolding(crate::specs::Pieces::byte_at))]
pub(crate) fn after_byte(byte: u8, bytes: &[u8]) -> Result<&[u8], CutError>
    ensures gives { Gives (λ x. x.now) result (byte_at byte bytes.now) }
    ensures shorter { IfOk result (λ x. length x.now < length bytes.now) }
{
    match bytes {
        [] => Err(CutError::Bad),
        [first, rest @ ..] => {
            if *first == byte {
                Ok(rest)
            } else {
                Err(CutError::Bad)
            }
        }
    }
}

/// What stands behind a word, where it stands at the front.
#[tactic(auto, unfolding(crate::specs::Pieces::word_at))]
pub(crate) fn behind_word<'a>(word: &[u8], bytes: &'a [u8]) -> Option<&'a [u8]>
    ensures gives { MatchOption result (word_at word.now bytes.now ≡ None)
        (λ x. word_at word.now bytes.now ≡ Some x.now) }
    ensures shorter { IfSome result (λ x. length x.now + length word.now ≡ length bytes.now) }
{
    bytes.strip_prefix(word)
}

pub(crate) fn after_word<'a>(word: &[u8], bytes: &'a [u8]) -> Result<&'a [u8], CutError>
    ensures gives { Gives (λ x. x.now) result (word_at word.now bytes.now) }
    ensures shorter { IfOk result (λ x. length x.now + length word.now ≡ length bytes.now) }
{
    match behind_word(word, bytes) {
        Some(rest) => Ok(rest),
        None => Err(CutError::Bad),
    }
}

fn is_digit(b: u8) -> bool
    ensures { result ≡ is_digit b }
{
    48 <= b && b <= 57
}

/// How many digits stand at the front.
#[tactic(auto, using(crate::proofs::Spans::prefix_within))]
fn digits_len(bytes: &[u8]) -> usize
    ensures value { result ≡ prefix_len is_digit bytes.now }
    ensures within { result ≤ length bytes.now }
{
    bytes.iter().take_while(|b| is_digit(**b)).count()
}

/// The number with a further digit; None where it is over 2 ^ 64 - 1.
fn with_digit(value: u64, digit: u8) -> Option<u64>
    ensures { result ≡ limited (value * 10 + (digit - 48)) }
{
    let unit = digit.saturating_sub(48) as u64;
    if value > (u64::MAX - unit) / 10 {
        return None;
    }
    Some(value * 10 + unit)
}

/// The number that the digits write; None where it is over 2 ^ 64 - 1.
fn value(digits: &[u8]) -> Option<u64>
    ensures { result ≡ limited (value_after 0 digits.now) }
{
    let mut value: u64 = 0;
    'digits: for digit in digits {
        let Some(next) = with_digit(value, *digit) else {
            return None;
        };
        value = next;
    }
    Some(value)
}

fn is_numeral(digits: &[u8]) -> bool
    ensures { result ≡ is_numeral digits.now }
{
    !digits.is_empty() && (digits[0] != b'0' || digits.len() == 1)
}

/// Behind a number below this one a digit is read with no look at the limit.
const SHORT: u64 = 1_000_000_000_000_000_000;

/// The number that the digits at the front write, and how many they are; None where they are many.
fn short_number(bytes: &[u8]) -> Option<(u64, usize)>
    ensures { (value len : ℕ) → result ≡ Some (value, len) → IsShort bytes.now value len }
{
    let mut value: u64 = 0;
    let mut len: usize = 0;
    'digits: while len < bytes.len() {
        let byte = bytes[len];
        if !is_digit(byte) {
            return Some((value, len));
        }
        if value >= SHORT {
            return None;
        }
        value = value * 10 + (byte - 48) as u64;
        len += 1;
    }
    Some((value, len))
}

/// A number of any length: its digits are counted first.
#[tactic(auto, unfolding(crate::specs::Pieces::number_at))]
fn long_number(bytes: &[u8]) -> Result<(Option<u64>, &[u8]), CutError>
    ensures gives { Gives (λ x. (x.0, x.1.now)) result (number_at bytes.now) }
    ensures shorter { IfOk result (λ x. length x.1.now < length bytes.now) }
{
    let (digits, rest) = bytes.split_at(digits_len(bytes));
    if is_numeral(digits) {
        Ok((value(digits), rest))
    } else {
        Err(CutError::Bad)
    }
}

#[tactic(auto, unfolding(crate::specs::Pieces::number_at))]
pub(crate) fn number(bytes: &[u8]) -> Result<(Option<u64>, &[u8]), CutError>
    ensures gives { Gives (λ x. (x.0, x.1.now)) result (number_at bytes.now) }
    ensures shorter { IfOk result (λ x. length x.1.now < length bytes.now) }
{
    let Some((value, len)) = short_number(bytes) else {
        return long_number(bytes);
    };
    let (digits, rest) = bytes.split_at(len);
    if is_numeral(digits) {
        Ok((Some(value), rest))
    } else {
        Err(CutError::Bad)
    }
}

/// The number of a state; one over 2 ^ 64 - 1 is as good as that limit.
pub(crate) fn state_of(number: Option<u64>) -> usize
    ensures { result ≡ state_of number }
{
    match number {
        Some(state) => state as usize,
        None => usize::MAX,
    }
}

/// The character of a code point; None for a surrogate and above the last code point.
fn scalar(code: u64) -> Option<char>
    ensures { result ≡ scalar_of code }
{
    if code > 0x10FFFF {
        return None;
    }
    char::from_u32(code as u32)
}

/// The letter of a code point, which is no white space.
fn character_of(number: Option<u64>) -> Result<char, CutError>
    ensures { Gives (λ c. c) result (character_of number) }
{
    let Some(code) = number else {
        return Err(CutError::Bad);
    };
    match scalar(code) {
        None => Err(CutError::Bad),
        Some(c) => {
            if is_white(c) {
                Err(CutError::Bad)
            } else {
                Ok(c)
            }
        }
    }
}

#[tactic(auto, unfolding(crate::specs::Pieces::character_at))]
pub(crate) fn character(bytes: &[u8]) -> Result<(char, &[u8]), CutError>
    ensures gives { Gives (λ x. (x.0, x.1.now)) result (character_at bytes.now) }
    ensures shorter { IfOk result (λ x. length x.1.now < length bytes.now) }
{
    let (code, rest) = number(bytes)?;
    let c = character_of(code)?;
    Ok((c, rest))
}

#[tactic(auto, unfolding(crate::specs::Pieces::letter_at))]
fn letter(bytes: &[u8]) -> Result<(Option<Symbol>, &[u8]), CutError>
    ensures gives { Gives (λ x. (x.0, x.1.now)) result (letter_at bytes.now) }
    ensures shorter { IfOk result (λ x. length x.1.now < length bytes.now) }
{
    let (c, rest) = character(bytes)?;
    Ok((Some(Symbol::Letter(c)), rest))
}

/// Whether a name of a tag may hold the byte.
fn is_name_byte(b: u8) -> bool
    ensures { result ≡ is_name_byte b }
{
    !matches!(
        b,
        b'\t'
            | b'\n'
            | b'\r'
            | b' '
            | b'^'
            | b'$'
            | b'/'
            | b'<'
            | b'>'
            | b'{'
            | b'}'
            | b'\\'
            | b'['
            | b']'
    )
}

/// How many bytes at the front a name of a tag may hold.
#[tactic(auto, using(crate::proofs::Spans::prefix_within))]
fn name_len(bytes: &[u8]) -> usize
    ensures value { result ≡ prefix_len is_name_byte bytes.now }
    ensures within { result ≤ length bytes.now }
{
    bytes.iter().take_while(|b| is_name_byte(**b)).count()
}

fn text_of(bytes: &[u8]) -> Option<&str>
    ensures { MatchOption result (is_utf8 bytes.now ≡ false) (λ text. (text.now ≡ bytes.now)
        × (is_utf8 bytes.now ≡ true)) }
{
    match str::from_utf8(bytes) {
        Ok(text) => Some(text),
        Err(_) => None,
    }
}

/// The tag of this name.
fn tag_of(alloc: Global, name: &[u8]) -> Result<Symbol, CutError>
    ensures { Gives (λ s. s) result (tag_of name.now) }
{
    let Some(text) = text_of(name) else {
        return Err(CutError::Bad);
    };
    match TagName::new(alloc, text)? {
        None => Err(CutError::Bad),
        Some(tag) => Ok(Symbol::Tag(tag)),
    }
}

#[tactic(auto, unfolding(crate::specs::Pieces::tag_at))]
fn tag(alloc: Global, bytes: &[u8]) -> Result<(Option<Symbol>, &[u8]), CutError>
    ensures gives { Gives (λ x. (x.0, x.1.now)) result (tag_at bytes.now) }
    ensures shorter { IfOk result (λ x. length x.1.now ≤ length bytes.now) }
{
    let (name, rest) = bytes.split_at(name_len(bytes));
    let symbol = tag_of(alloc, name)?;
    Ok((Some(symbol), rest))
}

#[tactic(auto, unfolding(crate::specs::Pieces::side_at))]
fn side(alloc: Global, bytes: &[u8]) -> Result<(Option<Symbol>, &[u8]), CutError>
    ensures gives { Gives (λ x. (x.0, x.1.now)) result (side_at bytes.now) }
    ensures shorter { IfOk result (λ x. length x.1.now < length bytes.now) }
{
    match bytes {
        [b'-', rest @ ..] => Ok((None, rest)),
        [b'L', rest @ ..] => letter(rest),
        [b'T', rest @ ..] => tag(alloc, rest),
        [b'B', rest @ ..] => Ok((Some(Symbol::Blank), rest)),
        [b'J', rest @ ..] => Ok((Some(Symbol::Join), rest)),
        [b'Q', rest @ ..] => Ok((Some(Symbol::Queue), rest)),
        [b'A', rest @ ..] => Ok((Some(Symbol::Alarm), rest)),
        _ => Err(CutError::Bad),
    }
}

/// The label of two sides, not both of which are empty.
fn label_of(left: Option<Symbol>, right: Option<Symbol>) -> Result<Label, CutError>
    ensures { Gives (λ l. l) result (label_of left right) }
{
    let label = Label { left, right };
    if label.has_side() {
        Ok(label)
    } else {
        Err(CutError::Bad)
    }
}

#[tactic(auto, unfolding(crate::specs::Pieces::label_at))]
fn label(alloc: Global, bytes: &[u8]) -> Result<(Label, &[u8]), CutError>
    ensures gives { Gives (λ x. (x.0, x.1.now)) result (label_at bytes.now) }
    ensures shorter { IfOk result (λ x. length x.1.now < length bytes.now) }
{
    let (left, rest) = side(alloc, bytes)?;
    let rest = after_byte(b' ', rest)?;
    let (right, rest) = side(alloc, rest)?;
    let label = label_of(left, right)?;
    Ok((label, rest))
}

/// A number and the byte behind it.
#[tactic(auto, unfolding(crate::specs::Pieces::number_then))]
fn number_then(byte: u8, bytes: &[u8]) -> Result<(Option<u64>, &[u8]), CutError>
    ensures gives { Gives (λ x. (x.0, x.1.now)) result (number_then byte bytes.now) }
    ensures shorter { IfOk result (λ x. length x.1.now < length bytes.now) }
{
    let (number, rest) = number(bytes)?;
    let rest = after_byte(byte, rest)?;
    Ok((number, rest))
}

/// The line of an edge, with its end.
#[tactic(auto, unfolding(crate::specs::Pieces::edge_at))]
pub(crate) fn edge(alloc: Global, bytes: &[u8]) -> Result<(Edge, &[u8]), CutError>
    ensures gives { Gives (λ x. (x.0, x.1.now)) result (edge_at bytes.now) }
    ensures shorter { IfOk result (λ x. length x.1.now < length bytes.now) }
{
    let (from, rest) = number_then(b' ', bytes)?;
    let (label, rest) = label(alloc, rest)?;
    let rest = after_byte(b' ', rest)?;
    let (to, rest) = number_then(b'\n', rest)?;
    let edge = Edge {
        from: state_of(from),
        label,
        to: state_of(to),
    };
    Ok((edge, rest))
}

/// The line of a final state, with its end.
#[tactic(auto, unfolding(crate::specs::Pieces::final_at))]
pub(crate) fn final_state(bytes: &[u8]) -> Result<(usize, &[u8]), CutError>
    ensures gives { Gives (λ x. (x.0, x.1.now)) result (final_at bytes.now) }
    ensures shorter { IfOk result (λ x. length x.1.now < length bytes.now) }
{
    let (state, rest) = number_then(b'\n', bytes)?;
    Ok((state_of(state), rest))
}

/// What stands before the numbers on the first line of a section.
#[tactic(auto, unfolding(crate::specs::Pieces::kind_at))]
fn kind(kind: Kind2, bytes: &[u8]) -> Result<&[u8], CutError>
    ensures gives { Gives (λ x. x.now) result (kind_at kind bytes.now) }
    ensures shorter { IfOk result (λ x. length x.now < length bytes.now) }
{
    let rest = after_word(b"section ", bytes)?;
    let rest = after_word(section_name(kind).as_bytes(), rest)?;
    after_byte(b' ', rest)
}

/// The first line of a section of this kind, with its end.
#[tactic(auto, unfolding(crate::specs::Pieces::head_at))]
pub(crate) fn head(kind_wanted: Kind2, bytes: &[u8]) -> Result<(Head, &[u8]), CutError>
    ensures gives { Gives (λ x. (x.0, x.1.now)) result (head_at kind_wanted bytes.now) }
    ensures shorter { IfOk result (λ x. length x.1.now < length bytes.now) }
{
    let rest = kind(kind_wanted, bytes)?;
    let (states, rest) = number_then(b' ', rest)?;
    let (edges, rest) = number_then(b' ', rest)?;
    let (finals, rest) = number_then(b'\n', rest)?;
    let head = Head {
        states,
        edges,
        finals,
    };
    Ok((head, rest))
}
