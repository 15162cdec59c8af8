ghost use Rattle.std.specs.Prelude.{◌≡◌, ℕ, ◌≤◌, List, length, take, true, IfOk};
ghost use Rattle.std.specs.Char.{is_ascii_lowercase};
ghost use Rattle.std.specs.List.{list_all};
ghost use Rattle.ap_symbol.specs.Recasing.{carry_lem};
ghost use Rattle.ap_symbol.specs.Rendering.{rendering};
ghost use Rattle.ap_symbol.specs.declared.symbol.Symbol.{Symbol};
ghost use Rattle.ap_stream.specs.declared.item.Read.{Read};
ghost use Rattle.ap_live.specs.Readings.{carried};
ghost use Rattle.ap_analysis.specs.Items.{symbols};
ghost use Rattle.ap_analysis.specs.Licence.{surface};
ghost use Rattle.ap_analysis.specs.Surfaces.{AreReadIfAny, IsSeen};

use crate::items::read_surface;
use ap_live::case_carried;
use ap_stream::Read;
use ap_symbol::{Case, Memory, Word};

/// Whether the piece begins with so many small letters of ASCII.
fn begins_small(piece: &[u8], count: usize) -> bool
    ensures within { result ≡ true → count ≤ length piece.now }
    ensures small { result ≡ true → list_all is_ascii_lowercase (take count piece.now) ≡ true }
{
    if piece.len() < count {
        return false;
    }
    for at in 0..count {
        if !piece[at].is_ascii_lowercase() {
            return false;
        }
    }
    true
}

/// Reads the surface of the first so many items into the word, unless they are small letters of
/// the piece; answers whether they are.
pub(crate) fn read_seen(
    reads: &[Read],
    count: usize,
    piece: &[u8],
    seen: &mut Word,
) -> Result<bool, Memory>
    requires within { count ≤ length (symbols reads.now) }
    requires read { AreReadIfAny piece.now reads.now }
    ensures { IfOk result (λ small. IsSeen piece.now reads.now count small seen.new) }
{
    if begins_small(piece, count) {
        return Ok(true);
    }
    read_surface(reads, count, seen)?;
    Ok(false)
}

/// The bytes of the surface of so many items: those of the piece, where it has small letters, and
/// else those of the word.
pub(crate) fn seen_bytes<'a>(piece: &'a [u8], count: usize, small: bool, seen: &'a Word) -> &'a [u8]
    requires { small ≡ true → count ≤ length piece.now }
    ensures { (reads : List Read) → IsSeen piece.now reads count small seen.now →
        result.now ≡ rendering (surface reads count) }
{
    if small {
        return &piece[..count];
    }
    seen.rendered()
}

/// The case of the surface of some items: that of small letters, and else that of the word.
pub(crate) fn seen_case(sensitive: bool, small: bool, seen: &Word) -> Case
    ensures { (piece : List ℕ) (reads : List Read) (count : ℕ) →
        IsSeen piece reads count small seen.now → (word : List Symbol) →
        carry_lem result word ≡ carried sensitive (surface reads count) word }
{
    if small {
        return Case::Low;
    }
    case_carried(sensitive, seen.symbols())
}
