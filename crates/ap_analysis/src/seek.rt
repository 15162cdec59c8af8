ghost use Rattle.std.specs.Prelude.{◌≡◌, ◌⊎◌, ℕ, Bool, ◌+◌, ◌<◌, ◌≤◌, List, [], ◌∷◌, ◌++◌, true, false, length, take, None, IfOk, IfSome, OnOk};
ghost use Rattle.ap_stream.specs.Steps.{Gives};
ghost use Rattle.ap_stream.specs.declared.item.Read.{Read};
ghost use Rattle.ap_live.specs.Lexicon.{Lexicon, IsCoherent, lexicon_of};
ghost use Rattle.ap_analysis.specs.Analysis.{first_step};
ghost use Rattle.ap_analysis.specs.Fronts.{byte_reads, AreRead};
ghost use Rattle.ap_analysis.specs.FrontSteps.{IsFrontStep, step_by};
ghost use Rattle.ap_analysis.specs.Searching.{IsSearch, IsFound};

use crate::front_steps::{FrontKey, KEY_MAX};
use crate::items::read_of_byte;
use crate::search::{Found, Search};
use crate::writing::{Written, step_within, take_room};
use ap_fst::Compiled;
use ap_live::Walked;
use ap_stream::{FRONT_MAX, Read, is_bare};
use ap_symbol::{Bytes, Memory, Word, is_white};
use std::alloc::Global;

/// So many words are looked at, at most, for one step.
const WORDS_MAX: usize = 8;

/// How many bytes the piece has up to the next one that is no letter, that one too, behind so many;
/// none where it has none, or too many, or that one is no item by itself.
fn stretch(piece: &[u8], from: usize) -> Option<usize>
    ensures { IfSome result (λ end. (from < end) × (end ≤ length piece.now) × (end ≤ 256)) }
{
    for at in from..piece.len().min(KEY_MAX) {
        let byte = piece[at];
        if !byte.is_ascii_alphabetic() {
            let end = if is_white(byte as char) {
                at + 2
            } else {
                at + 1
            };
            if piece.len() < end || !is_bare(&piece[at..end]) {
                return None;
            }
            return Some(at + 1);
        }
    }
    None
}

/// Appends the items of the bytes behind those that are there, up to so many.
fn read_on(alloc: Global, piece: &[u8], end: usize, reads: &mut Vec<Read>) -> Result<(), Memory>
    requires read { AreRead piece.now reads.old.items }
    requires order { length reads.old.items ≤ end }
    requires within { end ≤ length piece.now }
    requires few { end ≤ 256 }
    ensures read { AreRead piece.now reads.new.items }
    ensures grown { (more : List Read) × (reads.new.items ≡ reads.old.items ++ more) }
{
    for at in reads.len()..end {
        reads.push(read_of_byte(alloc, piece[at])?)?;
    }
    Ok(())
}

/// What a search finds at the front of the bytes, each as an item, where it ends among them.
fn found_in(
    alloc: Global,
    compiled: &Compiled,
    sensitive: bool,
    search: &mut Search,
    reads: &mut Vec<Read>,
    piece: &[u8],
    asks: bool,
) -> Result<Option<Found>, Memory>
    requires search { IsSearch compiled.now sensitive reads.old.items search.old }
    requires read { AreRead piece.now reads.old.items }
    ensures search { IsSearch compiled.now sensitive reads.new.items search.new }
    ensures read { AreRead piece.now reads.new.items }
    ensures found { IfOk result (λ look. IfSome look
        (IsFound (lexicon_of compiled.now sensitive) reads.new.items false)) }
    ensures at { IfOk result (λ look. IfSome look
        (λ found. 0 < found.licence → search.new.looked ≡ found.licence)) }
{
    for _ in 0..WORDS_MAX {
        let Some(end) = stretch(piece, reads.len()) else {
            return Ok(None);
        };
        read_on(alloc, piece, end, reads)?;
        let mut walked = Walked::new(alloc);
        let items = reads.as_slice();
        let found = search.look(&mut walked, compiled, sensitive, items, false, asks)?;
        if found.is_some() {
            return Ok(found);
        }
    }
    Ok(None)
}

/// Whether the first item is copied.
fn is_copying(found: Found) -> bool
    ensures { result ≡ true → (found.licence ≡ 0) × (found.unknown ≡ 0) }
{
    found.licence == 0 && found.unknown == 0
}

/// The key of the step, where the first item is no white space, or is copied: the bytes that were
/// seen together, and the one behind them unless it may be any ending.
fn keyed(piece: &[u8], found: Found, count: usize) -> Option<FrontKey>
    requires { found.span < length piece.now }
    ensures size { IfSome result (λ key. key.size ≤ length piece.now) }
    ensures step { IfSome result (λ key. (lexicon : Lexicon) (sensitive : Bool)
        (n : ℕ) (text : List ℕ) → IsCoherent lexicon → n ≤ length piece.now → n ≤ 256 →
        IsFound lexicon (byte_reads (take n piece.now)) false found →
        first_step lexicon sensitive (byte_reads (take n piece.now)) ≡ Gives count text →
        IsFrontStep lexicon sensitive (step_by piece.now key text)) }
{
    let span = found.span;
    let closed = FrontKey {
        size: span + 1,
        count,
        any_ending: false,
    };
    if is_white(piece[0] as char) {
        if !is_copying(found) {
            return None;
        }
        return Some(closed);
    }
    if found.any_ending && span > 0 && is_bare(&piece[..span]) {
        return Some(FrontKey {
            size: span,
            count,
            any_ending: true,
        });
    }
    Some(closed)
}

/// The step at the front of the bytes by a search, where each byte that decides it is an item, and
/// nothing else of the text does. What it writes takes the place of the text. The items and the word
/// are room.
pub(crate) fn sought(
    alloc: Global,
    compiled: &Compiled,
    sensitive: bool,
    search: &mut Search,
    reads: &mut Vec<Read>,
    seen: &mut Word,
    text: &mut Bytes,
    piece: &[u8],
    asks: bool,
) -> Result<Option<FrontKey>, Memory>
    requires search { IsSearch compiled.now sensitive [] search.old }
    ensures search { IsSearch compiled.now sensitive reads.new.items search.new }
    ensures size { IfOk result (λ made. IfSome made (λ key. key.size ≤ length piece.now)) }
    ensures step { IfOk result (λ made. IfSome made (λ key.
        IsFrontStep (lexicon_of compiled.now sensitive) sensitive
        (step_by piece.now key text.new))) }
{
    let _ = compiled.alphabet();
    reads.clear();
    let Some(found) = found_in(alloc, compiled, sensitive, search, reads, piece, asks)? else {
        return Ok(None);
    };
    let lives = &search.lives;
    let items = reads.as_slice();
    let room = take_room(alloc, text);
    match step_within(
        alloc, compiled, sensitive, lives, items, found, piece, seen, room,
    )? {
        Written::Stops { .. } => Ok(None),
        Written::Gives {
            count,
            text: written,
        } => {
            *text = written;
            Ok(keyed(piece, found, count))
        }
    }
}
