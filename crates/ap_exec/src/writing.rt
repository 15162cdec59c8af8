//! Writing to a part of a unit.
ghost use Rattle.std.specs.Prelude.{◌≡◌, ◌+◌, ◌≤◌, true, length, OnOk, IfOk};
ghost use Rattle.ap_exec.specs.Parts.{word_on, cut};
ghost use Rattle.ap_exec.specs.Ranges.{span};
ghost use Rattle.ap_exec.specs.Writing.{spliced, moved, replaced, written, is_kept};

use crate::clips::{Range, cut, division_on, side_in, span_of, word_on};
use crate::comparing::same_words;
use crate::lent::Lent;
use crate::spare::Spare;
use crate::values::append;
use ap_rules::{Clip, ClipPart, DefAttr, Form, Side};
use ap_symbol::{Memory, Word};
use std::alloc::Global;

/// The word with a value in place of a range.
#[tactic(auto, using(crate::proofs::Proper::proper_take, crate::proofs::Proper::proper_drop))]
fn spliced(
    alloc: Global,
    spare: &mut Spare,
    range: Range,
    value: &Word,
    word: &Word,
) -> Result<Word, Memory>
    requires { range.start + range.count ≤ length word.now }
    ensures value { IfOk result (λ made. made ≡ spliced (span range) value.now word.now) }
    ensures grown { IfOk result (λ made. length made + range.count
        ≡ length word.now + length value.now) }
{
    let mut made = spare.take(alloc)?;
    let symbols = word.symbols();
    append(alloc, &symbols[..range.start], &mut made)?;
    append(alloc, value.symbols(), &mut made)?;
    append(alloc, &symbols[range.start + range.count..], &mut made)?;
    Ok(made)
}

/// Whether a part of so many symbols isn't replaced.
fn is_kept(part: ClipPart, count: usize) -> bool
    ensures { result ≡ is_kept part count }
{
    match part {
        ClipPart::Lem | ClipPart::Lemh | ClipPart::Whole => false,
        ClipPart::Lemq | ClipPart::Tags | ClipPart::Attribute(_) => count == 0,
        ClipPart::Content => true,
    }
}

/// Where the border stands in the new target. The targets' lengths are those before and after.
fn moved(range: Range, value: &Word, border: usize, before: usize, after: usize) -> usize
    requires bordered { border ≤ before }
    requires ranged { range.start + range.count ≤ before }
    requires grown { after + range.count ≡ before + length value.now }
    ensures value { result ≡ moved (span range) (length value.now) border }
    ensures within { result ≤ after }
{
    if range.start + range.count <= border {
        after - (before - border)
    } else if border <= range.start {
        border
    } else {
        range.start + value.len()
    }
}

/// Puts a value in place of a range of the word on a side.
fn replace(
    alloc: Global,
    side: Side,
    range: Range,
    value: &Word,
    unit: &mut Lent<'_>,
    spare: &mut Spare,
) -> Result<(), Memory>
    requires { range.start + range.count ≤ length (word_on side true unit.old) }
    ensures { OnOk result (unit.new ≡ replaced side (span range) value.now unit.old) }
{
    match side {
        Side::Source => {
            let made = spliced(alloc, spare, range, value, unit.source())?;
            unit.set_source(made, spare);
        }
        Side::Target => {
            let made = spliced(alloc, spare, range, value, unit.target())?;
            let border = moved(range, value, unit.border(), unit.target().len(), made.len());
            unit.set_target(made, border, spare);
        }
    }
    Ok(())
}

/// Whether the value is what stands at a range of the word.
fn is_part(range: Range, value: &Word, word: &Word) -> bool
    ensures { result ≡ true → value.now ≡ cut (span range) word.now }
{
    let part = cut(range, word.symbols());
    same_words(part, value.symbols(), false)
}

/// Whether the value stands at a range of the word on a side of a unit, and no border moves where
/// it is put in its own place.
#[tactic(auto, using(crate::proofs::Standing::source_stays, crate::proofs::Standing::target_stays))]
fn stands(side: Side, range: Range, value: &Word, unit: &Lent<'_>) -> bool
    requires { range.start + range.count ≤ length (word_on side true unit.now) }
    ensures { result ≡ true → replaced side (span range) value.now unit.now ≡ unit.now }
{
    match side {
        Side::Source => is_part(range, value, unit.source()),
        Side::Target => {
            let border = unit.border();
            if border < range.start || border - range.start < range.count {
                return false;
            }
            is_part(range, value, unit.target())
        }
    }
}

/// Puts a value in place of the part that a clip names.
pub(crate) fn write_part(
    alloc: Global,
    form: Form,
    attributes: &[DefAttr],
    clip: &Clip,
    value: &Word,
    unit: &mut Lent<'_>,
    spare: &mut Spare,
) -> Result<(), Memory>
    ensures { OnOk result (unit.new ≡ written form attributes.now clip.now value.now unit.old) }
{
    let side = side_in(form, clip.side);
    let known = division_on(side, clip.queue, unit);
    let range = span_of(
        attributes,
        clip.part,
        word_on(side, clip.queue, unit),
        known,
    );
    if is_kept(clip.part, range.count) || stands(side, range, value, unit) {
        return Ok(());
    }
    replace(alloc, side, range, value, unit, spare)
}
