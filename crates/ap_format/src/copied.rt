ghost use Rattle.std.specs.Prelude.{◌≡◌, ◌+◌, ◌&&◌, ◌<◌, ◌≤◌, not, take, length};
ghost use Rattle.ap_symbol.specs.Rendering.{is_escaped_lem};
ghost use Rattle.ap_stream.specs.Blanks.{is_white as white_test};
ghost use Rattle.ap_format.specs.Pieces.{white_size as white_count};
ghost use Rattle.ap_format.specs.Standing.{IsBare, AreCopied};

use ap_stream::decode::{Decoded, decode};

/// Whether the byte is white space: U+0009, U+000A, U+000D or U+0020.
pub(crate) fn is_white(byte: u8) -> bool
    ensures { result ≡ white_test byte }
{
    byte == b' ' || byte == b'\t' || byte == b'\n' || byte == b'\r'
}

/// Whether `\` stands before this character in a stream: the fifteen reserved characters.
pub(crate) fn is_escaped(c: char) -> bool
    ensures { result ≡ is_escaped_lem c }
{
    matches!(
        c,
        '^' | '$' | '/' | '<' | '>' | '{' | '}' | '\\' | '[' | ']' | '@' | '*' | '#' | '+' | '~'
    )
}

/// How many bytes of white space stand at the front.
pub(crate) fn white_size(bytes: &[u8]) -> usize
    ensures value { result ≡ white_count bytes.now }
    ensures within { result ≤ length bytes.now }
{
    let mut at = 0;
    while at < bytes.len() {
        if !is_white(bytes[at]) {
            return at;
        }
        at += 1;
    }
    at
}

/// Whether an ASCII character is written as itself and is no white space.
#[inline(always)]
fn is_plain(byte: u8) -> bool
    ensures { result ≡ (not (white_test byte) && not (is_escaped_lem byte)) }
{
    byte.is_ascii_alphanumeric() || (!is_white(byte) && !is_escaped(char::from(byte)))
}

/// How many bytes the character at the front has, if it is whole and written as itself, and no
/// white space; otherwise none.
#[inline(always)]
fn bare_size(bytes: &[u8]) -> usize
    requires { 0 < length bytes.now }
    ensures bare { 0 < result → IsBare (take result bytes.now) }
    ensures within { result ≤ length bytes.now }
{
    if bytes[0] < 128 {
        if is_plain(bytes[0]) {
            return 1;
        }
        return 0;
    }
    match decode(bytes) {
        Decoded::Char { letter: _, size } => size,
        Decoded::Part | Decoded::NotChar => 0,
    }
}

/// The same for such a character with one space before it.
fn spaced_size(bytes: &[u8]) -> usize
    requires { 0 < length bytes.now }
    ensures copied { 0 < result → AreCopied (take result bytes.now) }
    ensures within { result ≤ length bytes.now }
{
    if bytes[0] != b' ' || bytes.len() == 1 {
        return 0;
    }
    let size = bare_size(&bytes[1..]);
    if size == 0 {
        return 0;
    }
    1 + size
}

/// The same for either.
#[inline(always)]
fn front_size(bytes: &[u8]) -> usize
    requires { 0 < length bytes.now }
    ensures copied { 0 < result → AreCopied (take result bytes.now) }
    ensures within { result ≤ length bytes.now }
{
    let size = bare_size(bytes);
    if size > 0 {
        return size;
    }
    spaced_size(bytes)
}

/// How many bytes at the front are surely written as they are, as far as this look ahead shows.
pub(crate) fn copied_size(bytes: &[u8]) -> usize
    ensures copied { 0 < result → AreCopied (take result bytes.now) }
    ensures within { result ≤ length bytes.now }
{
    let mut at = 0;
    while at < bytes.len() {
        let size = front_size(&bytes[at..]);
        if size == 0 {
            return at;
        }
        at += size;
    }
    at
}
