ghost use Rattle.std.specs.Prelude.{◌≡◌, ◌<◌, ◌≤◌, ◌+◌, ℕ, List, [], ◌∷◌, ◌++◌, length, take, true, false, IfOk, OnOk};
ghost use Rattle.ap_stream.specs.declared.TheConstants.{UNIT_MAX};
ghost use Rattle.ap_stream.specs.declared.dialect.Dialect.{Dialect};
ghost use Rattle.ap_stream.specs.declared.item.Read.{Read};
ghost use Rattle.ap_stream.specs.Blanks.{is_white as white_test};
ghost use Rattle.ap_stream.specs.Copying.{is_common as common_test, AreCopying, IsCommon, IsRun, GivesUnit, GaveUnit, Gives};
ghost use Rattle.ap_stream.specs.Stands.{stops_word as stop_test};
ghost use Rattle.ap_stream.specs.Spelling.{spelled};
ghost use Rattle.ap_stream.specs.Told.{behind};
ghost use Rattle.ap_stream.specs.UnitBytes.{UnitOf};
ghost use Rattle.ap_symbol.specs.declared.symbol.Symbol.{Symbol};

use crate::decode::{Decoded, decode};
use crate::dialect::Dialect;
use crate::handler::Handler;
use crate::whole::{unit_size, white_size};
use ap_symbol::{Bytes, Memory};

/// A handler that copies: where it holds nothing, blanks and the characters to which no tool gives
/// a meaning give themselves.
pub trait Copies: Handler {
    /// Nothing is held. It may also be denied where it is so. Whatever the answer, the handler
    /// copies.
    fn is_free(&self) -> bool
        ensures none { result ≡ true → Self.count self.now ≡ 0 }
        ensures copies { AreCopying Self.count Self.work };
}

/// A handler that copies, and takes each unit by itself.
pub trait ByUnit: Copies {
    /// Where nothing is held, appends what the unit at the front gives, if that is kept from before,
    /// and answers how many bytes the unit has; else 0. The error means want of memory; then
    /// anything may have been appended.
    fn recall(&mut self, piece: &[u8], into: &mut Bytes) -> Result<usize, Memory>
        requires { Self.count self.old ≡ 0 }
        ensures most { IfOk result (λ n. n ≤ length piece.now) }
        ensures wrote { IfOk result (λ n. 0 < n → GaveUnit Self.work (Self.dialect self.old)
            self.old self.new (take n piece.now) into.old into.new) }
        ensures none { IfOk result (λ n. n ≡ 0 → into.new ≡ into.old) }
        ensures same { self.new ≡ self.old };

    /// Where nothing is held, appends what the unit with these bytes gives, and answers whether it
    /// did. Where it didn't, anything may have been appended, and the unit is to be pushed. The
    /// error means want of memory; then anything may have been appended too, and the handler isn't
    /// called again.
    fn unit(&mut self, bytes: &[u8], into: &mut Bytes) -> Result<bool, Memory>
        requires unit { (words : List (List Symbol)) × UnitOf (Self.dialect self.old) bytes.now words }
        requires none { Self.count self.old ≡ 0 }
        ensures wrote { result ≡ Ok true → (given : List ℕ) × (into.new ≡ into.old ++ given)
            × GivesUnit Self.work (Self.dialect self.old) self.old self.new bytes.now given }
        ensures passed { result ≡ Ok false → (xs : List Read) →
            Self.work self.new xs ≡ Self.work self.old xs }
        ensures count { OnOk result (Self.count self.new ≡ 0) }
        ensures held { OnOk result (Self.held self.new ≡ Self.held self.old) }
        ensures dialect { OnOk result (Self.dialect self.new ≡ Self.dialect self.old) }
        ensures finished { OnOk result (Self.finished self.new ≡ Self.finished self.old) };
}

/// Whether the byte or character has a meaning in units or chunks.
fn stops_word(letter: char) -> bool
    ensures { result ≡ stop_test letter }
{
    matches!(
        letter,
        '\\' | '/' | '$' | '<' | '>' | '^' | '{' | '}' | '[' | ']' | '@'
    )
}

fn is_white(letter: char) -> bool
    ensures { result ≡ white_test letter }
{
    matches!(letter, ' ' | '\t' | '\n' | '\r')
}

/// Whether no dialect refuses the character, no item but itself begins with it and no tool gives
/// it a meaning. Most characters of a text are small letters, so these are tested for first.
pub(crate) fn is_common(letter: char) -> bool
    ensures { result ≡ common_test letter }
{
    if letter >= 'a' && letter <= 'z' {
        return true;
    }
    !(stops_word(letter) || letter == '~' || is_white(letter))
}

/// The number of bytes of the character at the front, if it is such a character, or 0.
fn common_size(bytes: &[u8]) -> usize
    ensures most { result ≤ length bytes.now }
    ensures common { 0 < result → IsCommon (take result bytes.now) }
{
    match decode(bytes) {
        Decoded::Char { letter, size } => { if is_common(letter) { size } else { 0 } }
        Decoded::Part | Decoded::NotChar => 0,
    }
}

/// The number of bytes of such a character at the front, with a white-space character before it or
/// without one, or 0.
fn step_size(bytes: &[u8]) -> usize
    ensures most { result ≤ length bytes.now }
    ensures run { (dialect : Dialect) → IsRun dialect (take result bytes.now) }
{
    let size = common_size(bytes);
    if size > 0 {
        return size;
    }
    match bytes {
        [white, rest @ ..] => {
            if !is_white(*white as char) {
                return 0;
            }
            let more = common_size(rest);
            if more > 0 {
                return more + 1;
            }
            0
        }
        [] => 0,
    }
}

/// How many bytes at the front are read, however the text goes on, as items that tools copy.
pub(crate) fn copied_run(bytes: &[u8]) -> usize
    ensures most { result ≤ length bytes.now }
    ensures run { (dialect : Dialect) → IsRun dialect (take result bytes.now) }
{
    let mut at = 0;
    while at < bytes.len() {
        let size = step_size(&bytes[at..]);
        if size == 0 {
            return at;
        }
        at += size;
    }
    at
}

/// The most bytes that are copied at once.
const COPIED_AT_ONCE: usize = 4096;

/// The most bytes of a unit that is taken at once.
const UNIT_AT_ONCE: usize = 4096;

/// Puts the bytes at the front that are copied into `given`, and answers how many.
fn copy_run<H: Copies>(handler: &H, piece: &[u8], given: &mut Bytes) -> Result<usize, Memory>
    requires none { H.count handler.now ≡ 0 }
    requires copies { AreCopying H.count H.work }
    requires empty { given.old ≡ [] }
    ensures most { IfOk result (λ n. n ≤ length piece.now) }
    ensures short { length given.new ≤ UNIT_MAX + 1 }
    ensures gives { IfOk result (λ n. 0 < n → Gives H.work (H.dialect handler.now) handler.now
        handler.now (take n piece.now) given.new) }
{
    let most = piece.len().min(COPIED_AT_ONCE);
    let count = copied_run(&piece[..most]);
    given.extend(&piece[..count])?;
    Ok(count)
}

/// Appends what the unit at the front gives, and answers how many bytes the unit has, or 0.
fn give_front<H: ByUnit>(
    handler: &mut H,
    dialect: Dialect,
    piece: &[u8],
    given: &mut Bytes,
) -> Result<usize, Memory>
    requires dialect { H.dialect handler.old ≡ dialect }
    requires none { H.count handler.old ≡ 0 }
    ensures most { IfOk result (λ n. n ≤ length piece.now) }
    ensures wrote { IfOk result (λ n. 0 < n → GaveUnit H.work dialect handler.old handler.new
        (take n piece.now) given.old given.new) }
    ensures passed { result ≡ Ok 0 → (xs : List Read) →
        H.work handler.new xs ≡ H.work handler.old xs }
    ensures count { OnOk result (H.count handler.new ≡ 0) }
    ensures held { OnOk result (H.held handler.new ≡ H.held handler.old) }
    ensures same { OnOk result (H.dialect handler.new ≡ H.dialect handler.old) }
    ensures finished { OnOk result (H.finished handler.new ≡ H.finished handler.old) }
{
    let kept = handler.recall(piece, given)?;
    if kept > 0 {
        return Ok(kept);
    }
    let size = unit_size(dialect, piece);
    if size == 0 {
        return Ok(0);
    }
    if !handler.unit(&piece[..size], given)? {
        return Ok(0);
    }
    Ok(size)
}

/// Puts what the unit at the front gives, and a white-space character before it, into `given`, and
/// answers how many bytes they are, or 0.
fn give_unit<H: ByUnit>(
    handler: &mut H,
    dialect: Dialect,
    piece: &[u8],
    given: &mut Bytes,
) -> Result<usize, Memory>
    requires dialect { H.dialect handler.old ≡ dialect }
    requires none { H.count handler.old ≡ 0 }
    requires copies { AreCopying H.count H.work }
    requires empty { given.old ≡ [] }
    ensures most { IfOk result (λ n. n ≤ length piece.now) }
    ensures short { IfOk result (λ n. 0 < n → length given.new ≤ UNIT_MAX + 1) }
    ensures gives { IfOk result (λ n. 0 < n → Gives H.work dialect handler.old handler.new
        (take n piece.now) given.new) }
    ensures passed { result ≡ Ok 0 → (xs : List Read) →
        H.work handler.new xs ≡ H.work handler.old xs }
    ensures count { OnOk result (H.count handler.new ≡ 0) }
    ensures held { OnOk result (H.held handler.new ≡ H.held handler.old) }
    ensures same { OnOk result (H.dialect handler.new ≡ H.dialect handler.old) }
    ensures finished { OnOk result (H.finished handler.new ≡ H.finished handler.old) }
{
    let most = piece.len().min(UNIT_AT_ONCE);
    let white = white_size(&piece[..most]);
    given.extend(&piece[..white])?;
    let size = give_front(handler, dialect, &piece[white..most], given)?;
    if size == 0 {
        return Ok(0);
    }
    Ok(white + size)
}

/// Puts what stands at the front and gives a text by itself into `given`, that text alone, and
/// answers how many bytes it is, or 0.
pub(crate) fn give_first<H: ByUnit>(
    handler: &mut H,
    dialect: Dialect,
    piece: &[u8],
    given: &mut Bytes,
) -> Result<usize, Memory>
    requires dialect { H.dialect handler.old ≡ dialect }
    requires none { H.count handler.old ≡ 0 }
    requires copies { AreCopying H.count H.work }
    requires empty { given.old ≡ [] }
    ensures most { IfOk result (λ n. n ≤ length piece.now) }
    ensures short { IfOk result (λ n. 0 < n → length given.new ≤ UNIT_MAX + 1) }
    ensures gives { IfOk result (λ n. 0 < n → Gives H.work dialect handler.old handler.new
        (take n piece.now) given.new) }
    ensures passed { result ≡ Ok 0 → (xs : List Read) →
        H.work handler.new xs ≡ H.work handler.old xs }
    ensures count { OnOk result (H.count handler.new ≡ 0) }
    ensures held { OnOk result (H.held handler.new ≡ H.held handler.old) }
    ensures same { OnOk result (H.dialect handler.new ≡ H.dialect handler.old) }
    ensures finished { OnOk result (H.finished handler.new ≡ H.finished handler.old) }
{
    let count = give_unit(handler, dialect, piece, given)?;
    if count > 0 {
        return Ok(count);
    }
    given.clear();
    copy_run(handler, piece, given)
}
