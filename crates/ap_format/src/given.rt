ghost use Rattle.std.specs.Prelude.{◌≡◌, ℕ, ◌+◌, ◌++◌, ◌<◌, ◌≤◌, take, length, get_or, IfOk, OnOk};
ghost use Rattle.ap_stream.specs.Blanks.{closes as closes_test, escapes as escapes_test};
ghost use Rattle.ap_stream.specs.Chars.{Char, char_at};
ghost use Rattle.ap_stream.specs.Stands.{InBlank};
ghost use Rattle.ap_stream.specs.declared.TheConstants.{UNIT_MAX};
ghost use Rattle.ap_format.specs.Giving.{stands_bare, unescaped, IsPlain, GiveText, Wrote};

use crate::copied::{is_white, white_size};
use crate::items::write_blank;
use ap_stream::decode::{Decoded, decode};
use ap_symbol::{Bytes, Memory};

/// Whether the character stands for itself in a generated text: it begins no blank, is no backslash
/// and isn't refused.
#[inline(always)]
fn is_bare(letter: char) -> bool
    ensures { result ≡ stands_bare letter }
{
    !matches!(
        letter,
        ' ' | '\t' | '\n' | '\r' | '[' | '\\' | '^' | '$' | '{' | '}' | ']'
    )
}

/// The same of a byte that is an ASCII character.
#[inline(always)]
fn is_bare_byte(byte: u8) -> bool
    ensures { result ≡ stands_bare byte }
{
    byte.is_ascii_alphanumeric() || is_bare(char::from(byte))
}

/// How many bytes the character at the front has, if it is whole and stands for itself; otherwise
/// none.
#[inline(always)]
fn bare_size(bytes: &[u8]) -> usize
    requires { 0 < length bytes.now }
    ensures plain { 0 < result → IsPlain (take result bytes.now) (take result bytes.now) }
    ensures within { result ≤ length bytes.now }
{
    if bytes[0] < 128 {
        if is_bare_byte(bytes[0]) {
            return 1;
        }
        return 0;
    }
    match decode(bytes) {
        Decoded::Char { letter, size } => {
            if is_bare(letter) {
                return size;
            }
            0
        }
        Decoded::Part | Decoded::NotChar => 0,
    }
}

/// The same for such a character with white space before it.
fn spaced_size(bytes: &[u8]) -> usize
    requires short { length bytes.now ≤ UNIT_MAX }
    ensures gives { 0 < result → GiveText (take result bytes.now) (take result bytes.now) }
    ensures within { result ≤ length bytes.now }
{
    let white = white_size(bytes);
    if white == 0 || white == bytes.len() {
        return 0;
    }
    let size = bare_size(&bytes[white..]);
    if size == 0 {
        return 0;
    }
    white + size
}

/// The same for either.
#[inline(always)]
fn front_size(bytes: &[u8]) -> usize
    requires some { 0 < length bytes.now }
    requires short { length bytes.now ≤ UNIT_MAX }
    ensures gives { 0 < result → GiveText (take result bytes.now) (take result bytes.now) }
    ensures within { result ≤ length bytes.now }
{
    let size = bare_size(bytes);
    if size > 0 {
        return size;
    }
    spaced_size(bytes)
}

/// How many bytes at the front surely give themselves, as far as this look ahead shows.
fn given_size(bytes: &[u8]) -> usize
    requires short { length bytes.now ≤ UNIT_MAX }
    ensures gives { 0 < result → GiveText (take result bytes.now) (take result bytes.now) }
    ensures within { result ≤ length bytes.now }
{
    let mut at = 0;
    while at < bytes.len() {
        let size = front_size(&bytes[at..]);
        if size == 0 {
            return at;
        }
        at += size;
    }
    at
}

/// How many bytes the character at the front has, if it is whole; otherwise none.
fn whole_size(bytes: &[u8]) -> usize
    ensures whole { 0 < result → (c : ℕ) × (char_at bytes.now ≡ Char c result) }
    ensures within { result ≤ length bytes.now }
{
    match decode(bytes) {
        Decoded::Char { letter: _, size } => size,
        Decoded::Part | Decoded::NotChar => 0,
    }
}

/// Whether the character that begins with this byte ends a superblank.
fn closes(escaped: bool, byte: u8) -> bool
    ensures { result ≡ closes_test escaped byte }
{
    !escaped && byte == b']'
}

/// Whether it escapes the next character.
fn escapes(escaped: bool, byte: u8) -> bool
    ensures { result ≡ escapes_test escaped byte }
{
    !escaped && byte == b'\\'
}

/// How many bytes the superblank at the front has, if it is whole; otherwise none.
fn superblank_size(bytes: &[u8]) -> usize
    requires some { 0 < length bytes.now }
    requires begins { get_or bytes.now 0 0 ≡ 91 }
    ensures blank { 0 < result → InBlank (take result bytes.now) }
    ensures within { result ≤ length bytes.now }
{
    let mut at = 1;
    let mut escaped = false;
    while at < bytes.len() {
        let behind = &bytes[at..];
        let size = whole_size(behind);
        if size == 0 {
            return 0;
        }
        if closes(escaped, behind[0]) {
            return at + size;
        }
        at += size;
        escaped = escapes(escaped, behind[0]);
    }
    0
}

/// How many bytes of a blank are at the front: a white-space character, or a whole superblank.
fn part_size(bytes: &[u8]) -> usize
    requires { 0 < length bytes.now }
    ensures blank { 0 < result → InBlank (take result bytes.now) }
    ensures within { result ≤ length bytes.now }
{
    if is_white(bytes[0]) {
        return 1;
    }
    if bytes[0] == b'[' {
        return superblank_size(bytes);
    }
    0
}

/// How many bytes of white space and whole superblanks are at the front.
fn blank_size(bytes: &[u8]) -> usize
    ensures blank { 0 < result → InBlank (take result bytes.now) }
    ensures within { result ≤ length bytes.now }
{
    let mut at = 0;
    while at < bytes.len() {
        let size = part_size(&bytes[at..]);
        if size == 0 {
            return at;
        }
        at += size;
    }
    at
}

/// How many bytes the plain character at the front has, escaped or bare, if it is whole; otherwise
/// none.
fn plain_size(bytes: &[u8]) -> usize
    ensures plain { 0 < result →
        IsPlain (take result bytes.now) (unescaped (take result bytes.now)) }
    ensures within { result ≤ length bytes.now }
{
    if bytes.is_empty() {
        return 0;
    }
    if bytes[0] != b'\\' {
        return bare_size(bytes);
    }
    let size = whole_size(&bytes[1..]);
    if size == 0 {
        return 0;
    }
    1 + size
}

/// Appends a character without its escape.
fn write_plain(bytes: &[u8], into: &mut Bytes) -> Result<(), Memory>
    ensures { OnOk result (into.new ≡ into.old ++ unescaped bytes.now) }
{
    match bytes {
        [b'\\', rest @ ..] => into.extend(rest),
        _ => into.extend(bytes),
    }
}

/// Appends what the blank at the front, if there is one, and the character behind it give, if they
/// are whole. Answers how many bytes they are, or 0.
fn give_item(bytes: &[u8], text: &mut Vec<u8>, into: &mut Bytes) -> Result<usize, Memory>
    requires short { length bytes.now ≤ UNIT_MAX }
    ensures within { IfOk result (λ n. n ≤ length bytes.now) }
    ensures none { result ≡ Ok 0 → into.new ≡ into.old }
    ensures gives { IfOk result (λ n. 0 < n → Wrote (take n bytes.now) into.old into.new) }
    ensures short { OnOk result (length into.new ≤ length into.old + length bytes.now) }
{
    let blank = blank_size(bytes);
    let behind = &bytes[blank..];
    let size = plain_size(behind);
    if size == 0 {
        return Ok(0);
    }
    write_blank(&bytes[..blank], text, into)?;
    write_plain(&behind[..size], into)?;
    Ok(blank + size)
}

/// How many bytes are looked at in one step.
const GIVEN_AT_ONCE: usize = 65_536;

/// Appends what bytes at the front give, however the text goes on: as many as give themselves, or
/// those of a blank and a character. Answers how many they are, or 0 where the first item is no
/// such, or isn't whole. `text` is room.
pub(crate) fn give_front(
    piece: &[u8],
    text: &mut Vec<u8>,
    into: &mut Bytes,
) -> Result<usize, Memory>
    ensures within { IfOk result (λ n. n ≤ length piece.now) }
    ensures none { result ≡ Ok 0 → into.new ≡ into.old }
    ensures gives { IfOk result (λ n. 0 < n → Wrote (take n piece.now) into.old into.new) }
    ensures short { OnOk result (length into.new ≤ length into.old + UNIT_MAX) }
{
    let bytes = &piece[..piece.len().min(GIVEN_AT_ONCE)];
    let count = given_size(bytes);
    if count > 0 {
        into.extend(&bytes[..count])?;
        return Ok(count);
    }
    give_item(bytes, text, into)
}
