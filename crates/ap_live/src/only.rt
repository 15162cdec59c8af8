ghost use Rattle.std.specs.Prelude.{◌≡◌, ◌+◌, ◌<◌, ◌++◌, ◌∷◌, ℕ, [], List, IfOk, OnOk, IsTrue, Some, true, encode_utf8, reverse, slice_get};
ghost use Rattle.ap_symbol.specs.Rendering.{letter_bytes, rendering, symbol_bytes};
ghost use Rattle.ap_symbol.specs.Words.{is_word_symbol};
ghost use Rattle.ap_fst.specs.Lists.{IsIn};
ghost use Rattle.ap_fst.specs.declared.label.Edge.{Edge};
ghost use Rattle.ap_live.specs.Heads.{written, written_by};
ghost use Rattle.ap_live.specs.Outlines.{IsOutline};
ghost use Rattle.ap_live.specs.Outputs.{WritesWords, is_word_side};

use crate::backward::edge_at;
use crate::outline::{Outline, letter_of, place_of, right_at};
use ap_fst::{Edge, Fst};
use ap_symbol::{Memory, Symbol, Word};
use std::alloc::Global;

/// Room for so many bytes is made at first.
const ROOM: usize = 64;

/// The byte of the letter with a code, where it is a small one of the twenty-six.
fn small_letter(code: u32) -> Option<u8>
    ensures { (c : ℕ) → result ≡ Some c → (code ≡ c + 1) × (code < 2_097_152)
        × (letter_bytes c ≡ c ∷ []) }
{
    if code < 98 || code > 123 {
        return None;
    }
    Some((code - 1) as u8)
}

/// Whether a letter is none of the first 128 characters, among which are all that are written with
/// a backslash.
fn is_bare(letter: char) -> bool
    ensures { result ≡ true → letter_bytes letter ≡ encode_utf8 letter }
{
    !letter.is_ascii()
}

/// Appends a letter that is written as itself.
fn spell_bare(letter: char, bytes: &mut Vec<u8>) -> Result<(), Memory>
    requires { letter_bytes letter ≡ encode_utf8 letter }
    ensures { OnOk result (bytes.new.items ≡ bytes.old.items ++ letter_bytes letter) }
{
    let mut buffer = [0; 4];
    bytes.extend_from_slice(letter.encode_utf8(&mut buffer).as_bytes())?;
    Ok(())
}

/// Appends a symbol's bytes.
fn spell(alloc: Global, symbol: &Symbol, bytes: &mut Vec<u8>) -> Result<(), Memory>
    requires { IsTrue (is_word_symbol symbol.now) }
    ensures { OnOk result (bytes.new.items ≡ bytes.old.items ++ symbol_bytes symbol.now) }
{
    match symbol {
        Symbol::Tag(name) => {
            bytes.push(b'<')?;
            bytes.extend_from_slice(name.text().as_bytes())?;
            bytes.push(b'>')?;
        }
        _ => {
            let mut word = Word::new(alloc);
            word.push(symbol.copy(alloc)?)?;
            bytes.extend_from_slice(word.rendered())?;
        }
    }
    Ok(())
}

/// Appends the bytes of what the edge at a place writes, as it tells itself.
fn spell_right(
    alloc: Global,
    edges: &[Edge],
    place: usize,
    bytes: &mut Vec<u8>,
) -> Result<(), Memory>
    requires { (e : Edge) → IsIn e edges.now → IsTrue (is_word_side e.label.right) }
    ensures { OnOk result (bytes.new.items ≡ bytes.old.items
        ++ rendering (written_by (slice_get edges.now place))) }
{
    match edge_at(edges, place) {
        None => Ok(()),
        Some(edge) => match &edge.label.right {
            None => Ok(()),
            Some(symbol) => spell(alloc, symbol, bytes),
        },
    }
}

/// Appends the bytes of what the edge at a place writes. The outline tells most letters, and that
/// there is nothing; else the edge itself is read, which takes longer, since edges take much room.
fn spell_written(
    alloc: Global,
    edges: &[Edge],
    outline: &Outline,
    place: usize,
    bytes: &mut Vec<u8>,
) -> Result<(), Memory>
    requires { (e : Edge) → IsIn e edges.now → IsTrue (is_word_side e.label.right) }
    ensures { OnOk result (IsOutline edges.now outline.now → bytes.new.items ≡ bytes.old.items
        ++ rendering (written_by (slice_get edges.now place))) }
{
    if place >= edges.len() {
        return Ok(());
    }
    let code = right_at(outline, place);
    if code == 0 {
        return Ok(());
    }
    if let Some(letter) = small_letter(code) {
        bytes.push(letter)?;
        return Ok(());
    }
    if let Some(letter) = letter_of(code) {
        if is_bare(letter) {
            return spell_bare(letter, bytes);
        }
    }
    spell_right(alloc, edges, place_of(code, place), bytes)
}

/// The bytes of the word that the edges at these places write, the last first.
pub(crate) fn bytes_along(
    alloc: Global,
    fst: &Fst,
    outline: &Outline,
    places: Vec<usize>,
) -> Result<Vec<u8>, Memory>
    requires { WritesWords fst.now }
    ensures { IfOk result (λ bytes. IsOutline fst.now.edges outline.now → bytes.items ≡ rendering
        (reverse (written fst.now.edges places.items))) }
{
    let edges = fst.edges();
    let mut places = places;
    let mut bytes = Vec::with_capacity(alloc, ROOM)?;
    while let Some(place) = places.pop() {
        spell_written(alloc, edges, outline, place, &mut bytes)?;
    }
    Ok(bytes)
}
