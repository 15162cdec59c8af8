ghost use Rattle.std.specs.Prelude.{◌≡◌, ◌==◌, ◌&&◌, ◌||◌, not, true, ℕ, nat_lt, ◌<◌, ◌≤◌, length, slice_index, take, Some, IfSome};
ghost use Rattle.ap_symbol.specs.TagNames.{is_reserved_lem};
ghost use Rattle.ap_stream.specs.Effects.{crossed_by, crossing};
ghost use Rattle.ap_stream.specs.Stands.{AllCross, stops_word};
ghost use Rattle.ap_stream.specs.Units.{form_of};

use crate::dialect::Dialect;
use crate::effects::{grown, is_several, is_surface};
use crate::examine::{Mode, Spot};
use crate::level::Level;
use memchr::memchr2;

/// How many bytes stand before the first `]` or backslash.
fn bare_run(bytes: &[u8]) -> usize
    ensures most { result ≤ length bytes.now }
    ensures bare { (k : ℕ) → k < result →
        (slice_index bytes.now k == 93 || slice_index bytes.now k == 92) ≡ true → ⊥ }
{
    match memchr2(b']', b'\\', bytes) {
        Some(at) => at,
        None => bytes.len(),
    }
}

/// How many of so many bytes stand before the first that isn't ASCII.
fn ascii_run(bytes: &[u8], end: usize) -> usize
    requires { end ≤ length bytes.now }
    ensures most { result ≤ end }
    ensures ascii { (k : ℕ) → k < result → slice_index bytes.now k < 128 }
{
    let mut at = 0;
    while at < end {
        if bytes[at] >= 128 {
            return at;
        }
        at += 1;
    }
    at
}

/// How many of the bytes only go on with a superblank.
fn superblank_run(bytes: &[u8]) -> usize
    ensures most { result ≤ length bytes.now }
    ensures crossing { (dialect : Dialect) →
        crossing dialect Mode.Inside (take result bytes.now) ≡ Some Mode.Inside }
{
    ascii_run(bytes, bare_run(bytes))
}

/// Whether the byte is a symbol by itself, in each word of a unit.
fn is_lone(byte: u8) -> bool
    ensures { result ≡ (nat_lt byte 128 && not (stops_word byte)) }
{
    byte < 128
        && !matches!(
            byte,
            b'\\' | b'/' | b'$' | b'<' | b'>' | b'^' | b'{' | b'}' | b'[' | b']' | b'@'
        )
}

/// Whether the byte is one of a tag's name by itself.
fn is_named(byte: u8) -> bool
    ensures { result ≡ (nat_lt byte 128 && not (is_reserved_lem byte)) }
{
    byte < 128
        && !matches!(
            byte,
            b'\t'
                | b'\n'
                | b'\r'
                | b' '
                | b'^'
                | b'$'
                | b'/'
                | b'<'
                | b'>'
                | b'{'
                | b'}'
                | b'\\'
                | b'['
                | b']'
        )
}

/// Whether a bare `/` ends a word of the unit here, and another begins.
fn parts_at(dialect: Dialect, at: Spot) -> bool
    ensures { result ≡ ((form_of dialect).several && not (at.first && at.empty)) }
{
    is_several(dialect) && !(at.first && at.empty)
}

/// The mode behind one more byte within a unit, where the byte is a character by itself that
/// neither ends the unit nor escapes. It tests for most of them at once, and not for an `@`.
fn crossed_by(dialect: Dialect, mode: Mode, byte: u8) -> Option<Mode>
    ensures { IfSome result (λ next. crossed_by dialect mode byte ≡ Some next) }
{
    match mode {
        Mode::Word(at) => {
            if is_lone(byte) {
                return Some(Mode::Word(grown(at)));
            }
            if byte == b'<' && !is_surface(dialect, at) {
                return Some(Mode::Tag(at, false));
            }
            if byte == b'/' && parts_at(dialect, at) {
                return Some(Mode::Word(Spot {
                    first: false,
                    empty: true,
                }));
            }
            None
        }
        Mode::Tag(at, some) => {
            if is_named(byte) {
                return Some(Mode::Tag(at, true));
            }
            if byte == b'>' && some {
                return Some(Mode::Word(grown(at)));
            }
            None
        }
        Mode::Start
        | Mode::Escape
        | Mode::Blank
        | Mode::Inside
        | Mode::InsideEscape
        | Mode::WordEscape(_) => None,
    }
}

/// So many bytes that were crossed, and the mode behind them.
pub(crate) struct Crossed {
    pub(crate) count: usize,
    pub(crate) mode: Mode,
}

/// How many of the bytes are such within a unit.
pub(crate) fn unit_run(dialect: Dialect, mode: Mode, bytes: &[u8]) -> Crossed
    ensures most { result.count ≤ length bytes.now }
    ensures crossing { crossing dialect mode (take result.count bytes.now) ≡ Some result.mode }
{
    let mut at = mode;
    for count in 0..bytes.len() {
        match crossed_by(dialect, at, bytes[count]) {
            None => return Crossed { count, mode: at },
            Some(next) => at = next,
        }
    }
    Crossed {
        count: bytes.len(),
        mode: at,
    }
}

/// How many of the bytes only go on with what the mode stands in.
fn run_of(dialect: Dialect, mode: Mode, bytes: &[u8]) -> Crossed
    ensures most { result.count ≤ length bytes.now }
    ensures crossing { crossing dialect mode (take result.count bytes.now) ≡ Some result.mode }
{
    match mode {
        Mode::Inside => Crossed {
            count: superblank_run(bytes),
            mode,
        },
        Mode::Word(_) | Mode::Tag(_, _) => unit_run(dialect, mode, bytes),
        Mode::Start | Mode::Escape | Mode::Blank | Mode::InsideEscape | Mode::WordEscape(_) =>
            Crossed { count: 0, mode },
    }
}

/// So many bytes that were crossed, and where the bytes end with them.
pub(crate) struct Run {
    pub(crate) count: usize,
    pub(crate) level: Level,
}

/// How many of the bytes only go on with what stands at their front, in a content too.
pub(crate) fn run_in(dialect: Dialect, level: Level, bytes: &[u8]) -> Run
    ensures most { result.count ≤ length bytes.now }
    ensures goes_on { AllCross dialect level result.level result.count bytes.now }
{
    match level {
        Level::Item(mode) => {
            let Crossed { count, mode } = run_of(dialect, mode, bytes);
            Run {
                count,
                level: Level::Item(mode),
            }
        }
        Level::Part(from, mode) => {
            let Crossed { count, mode } = run_of(Dialect::Lexical, mode, bytes);
            Run {
                count,
                level: Level::Part(from, mode),
            }
        }
        Level::Closed => Run { count: 0, level },
    }
}
