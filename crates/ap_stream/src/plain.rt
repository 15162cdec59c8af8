ghost use Rattle.std.specs.Prelude.{◌≡◌, ◌&&◌, eqb, ◌+◌, ◌<◌, ◌≤◌, List, drop, length, true, IfSome, slice_index};
ghost use Rattle.ap_stream.specs.Units.{form_of};
ghost use Rattle.std.specs.List.{list_any};
ghost use Rattle.ap_symbol.specs.declared.symbol.Symbol.{Symbol};
ghost use Rattle.ap_stream.specs.UnitBytes.{IsRendered, is_odd, is_stop as stop_test, plain_size as plain_count, UnitOf, unit_words};
ghost use Rattle.ap_stream.specs.Spelling.{unit_bytes};

use crate::dialect::Dialect;
use crate::words::is_surfaced;

/// Whether a byte ends a word, or begins another spelling than the one that is written.
fn is_stop(byte: u8) -> bool
    ensures { result ≡ stop_test byte }
{
    if byte > b'\\' {
        return false;
    }
    matches!(byte, b'/' | b'$' | b'\\' | b'\t' | b'\n' | b'\r')
}

/// How many bytes stand before the first that stops.
fn plain_size(bytes: &[u8]) -> usize
    ensures value { result ≡ plain_count bytes.now }
    ensures within { result ≤ length bytes.now }
{
    let mut at = 0;
    while at < bytes.len() {
        if is_stop(bytes[at]) {
            return at;
        }
        at += 1;
    }
    at
}

/// The place of the first byte from this place on that stops.
fn plain_end(held: &[u8], from: usize) -> usize
    requires { from ≤ length held.now }
    ensures value { result ≡ from + plain_count (drop from held.now) }
    ensures within { result ≤ length held.now }
{
    from + plain_size(&held[from..])
}

/// Whether this byte stands at this place.
fn has_at(held: &[u8], at: usize, byte: u8) -> bool
    ensures { result ≡ true → (at < length held.now) × (slice_index held.now at ≡ byte) }
{
    if at < held.len() {
        held[at] == byte
    } else {
        false
    }
}

/// Whether the word at a place is a surface.
fn is_surface_at(dialect: Dialect, at: usize) -> bool
    ensures { result ≡ (eqb at 0 && (form_of dialect).surface) }
{
    at == 0 && is_surfaced(dialect)
}

/// The bytes of the word at a place of the unit that these bytes are, if they are its rendering for
/// certain: they and those of the words before have no backslash, no tab and no line break, and the
/// word is no surface.
pub(crate) fn plain_at(dialect: Dialect, held: &[u8], wanted: usize) -> Option<&[u8]>
    requires { (words : List (List Symbol)) × UnitOf dialect held.now words }
    ensures { IfSome result (λ bytes. IsRendered (unit_words dialect held.now) wanted bytes.now) }
{
    if is_surface_at(dialect, wanted) {
        return None;
    }
    let mut behind = 0;
    let mut from = 1;
    while behind < wanted {
        let end = plain_end(held, from);
        if !has_at(held, end, b'/') {
            return None;
        }
        behind += 1;
        from = end + 1;
    }
    let end = plain_end(held, from);
    if has_at(held, end, b'/') {
        return Some(&held[from..end]);
    }
    if has_at(held, end, b'$') {
        return Some(&held[from..end]);
    }
    None
}

/// Whether some byte begins another spelling than the one that is written.
fn has_odd(bytes: &[u8]) -> bool
    ensures { result ≡ list_any is_odd bytes.now }
{
    bytes
        .iter()
        .any(|byte| matches!(*byte, b'\\' | b'\t' | b'\n' | b'\r'))
}

/// Whether the unit that these bytes are is written as they are, for certain: they have no
/// backslash, no tab and no line break, and its first word is no surface.
pub(crate) fn is_spelled(dialect: Dialect, held: &[u8]) -> bool
    requires { (words : List (List Symbol)) × UnitOf dialect held.now words }
    ensures { result ≡ true → held.now ≡ unit_bytes (unit_words dialect held.now) }
{
    !is_surfaced(dialect) && !has_odd(held)
}
