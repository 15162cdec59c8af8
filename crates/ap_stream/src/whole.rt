ghost use Rattle.std.specs.Prelude.{◌≡◌, ◌<◌, ◌≤◌, List, length, take, true};
ghost use Rattle.ap_symbol.specs.declared.symbol.Symbol.{Symbol};
ghost use Rattle.ap_stream.specs.UnitBytes.{UnitOf};
ghost use Rattle.ap_stream.specs.Copying.{IsWhite};
ghost use Rattle.ap_stream.specs.Effects.{effect};

use crate::crossing::{Crossed, unit_run};
use crate::dialect::Dialect;
use crate::effects::{effect, has_units};
use crate::examine::{Mode, Spot, is_byte, is_white};
use crate::level::Effect;

/// Whether a bare `$` ends a unit here.
fn ends_unit(dialect: Dialect, mode: Mode) -> bool
    ensures { result ≡ true → effect dialect mode 0 36 ≡ Effect.UnitEnds }
{
    matches!(effect(dialect, mode, 0, '$'), Effect::UnitEnds)
}

/// The number of bytes of the unit at the front, or 0 where there is none, it isn't whole, or it
/// has an escaped character or one that isn't ASCII.
pub(crate) fn unit_size(dialect: Dialect, bytes: &[u8]) -> usize
    ensures most { result ≤ length bytes.now }
    ensures unit { 0 < result →
        (words : List (List Symbol)) × UnitOf dialect (take result bytes.now) words }
{
    if bytes.is_empty() || !is_byte(bytes[0], b'^') || !has_units(dialect) {
        return 0;
    }
    let start = Mode::Word(Spot {
        first: true,
        empty: true,
    });
    let Crossed { count, mode } = unit_run(dialect, start, &bytes[1..]);
    let end = count + 1;
    if end >= bytes.len() || !is_byte(bytes[end], b'$') || !ends_unit(dialect, mode) {
        return 0;
    }
    end + 1
}

/// 1 where a white-space character stands at the front, else 0.
pub(crate) fn white_size(bytes: &[u8]) -> usize
    ensures most { result ≤ length bytes.now }
    ensures white { IsWhite (take result bytes.now) }
{
    match bytes {
        [first, ..] => { if is_white(*first) { 1 } else { 0 } }
        [] => 0,
    }
}
