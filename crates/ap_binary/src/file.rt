ghost use Rattle.std.specs.Prelude.{◌≡◌, ◌+◌, ◌^◌, ◌<◌, ◌≤◌, length, IfOk, codes};
ghost use Rattle.ap_binary.specs.declared.refusal.BinaryKind.TheVariants.{BadHeader};
ghost use Rattle.ap_binary.specs.Lines.{Tells, fault, on_line, on_header, way_in, header_in, alphabet_place, over, end_in, file_in, line_after};
ghost use Rattle.ap_binary.specs.Pieces.{word_at, version_at, way_at, alphabet_at};
ghost use Rattle.ap_binary.specs.Spelling.{AreWithin};

use crate::alphabet::alphabet;
use crate::lines::bad_line;
use crate::pieces::{after_word, behind_word};
use crate::refusal::{BinaryFault, BinaryKind, BinaryRefusal, CutError};
use crate::sections::{Sections, line_after, read_sections};
use ap_fst::Way;
use ap_symbol::Letters;
use std::alloc::Global;

/// What the lines of a file say.
#[derive(Debug, Drop)]
pub(crate) struct File {
    pub way: Way,
    pub alphabet: Letters,
    pub sections: Sections,
}

/// The first line: whether it is `LTC2`, behind which the direction is told, or `LTC1`.
#[tactic(auto, unfolding(crate::specs::Pieces::version_at))]
fn version(text: &[u8]) -> Result<(bool, &[u8]), BinaryRefusal>
    ensures gives { Tells (λ x. (x.0, x.1.now)) result (on_header (version_at text.now)) }
    ensures shorter { IfOk result (λ x. length x.1.now + 5 ≤ length text.now) }
{
    if let Some(rest) = behind_word(b"LTC1\n", text) {
        return Ok((false, rest));
    }
    if let Some(rest) = behind_word(b"LTC2\n", text) {
        return Ok((true, rest));
    }
    Err(BinaryRefusal::Fault(BinaryFault {
        kind: BinaryKind::BadHeader,
        line: 1,
    }))
}

/// The line of the direction, which is the second.
#[tactic(auto, unfolding(crate::specs::Pieces::way_at))]
fn way_line(bytes: &[u8]) -> Result<(Way, &[u8]), BinaryRefusal>
    ensures gives { Tells (λ x. (x.0, x.1.now)) result (on_line 2 (way_at bytes.now)) }
    ensures shorter { IfOk result (λ x. length x.1.now ≤ length bytes.now) }
{
    if let Some(rest) = behind_word(b"way lr\n", bytes) {
        return Ok((Way::Lr, rest));
    }
    if let Some(rest) = behind_word(b"way rl\n", bytes) {
        return Ok((Way::Rl, rest));
    }
    Err(bad_line(2))
}

/// The lines before the alphabet.
#[tactic(auto, unfolding(crate::specs::Lines::header_in))]
fn header(text: &[u8]) -> Result<(Way, &[u8]), BinaryRefusal>
    ensures gives { Tells (λ x. (x.0, x.1.now)) result (header_in text.now) }
    ensures shorter { IfOk result (λ x. length x.1.now + 5 ≤ length text.now) }
{
    let (tells, rest) = version(text)?;
    if tells {
        return way_line(rest);
    }
    Ok((Way::Untold, rest))
}

/// The number of the line of the alphabet.
fn alphabet_place(way: Way) -> u64
    ensures place { result ≡ alphabet_place way }
    ensures near { result ≤ 3 }
{
    match way {
        Way::Untold => 2,
        Way::Lr | Way::Rl => 3,
    }
}

fn alphabet_line(alloc: Global, line: u64, bytes: &[u8]) -> Result<(Letters, &[u8]), BinaryRefusal>
    ensures gives { Tells (λ x. (x.0, x.1.now)) result (on_line line (alphabet_at bytes.now)) }
    ensures shorter { IfOk result (λ x. length x.1.now < length bytes.now) }
{
    match alphabet(alloc, bytes) {
        Ok((letters, rest)) => Ok((letters, rest)),
        Err(CutError::Bad) => Err(bad_line(line)),
        Err(CutError::Memory) => Err(BinaryRefusal::Memory),
    }
}

/// Nothing stands on this line.
fn over(line: u64, bytes: &[u8]) -> Result<&[u8], BinaryRefusal>
    ensures { Tells (λ x. x.now) result (over line bytes.now) }
{
    match bytes {
        [] => Ok(bytes),
        [_, ..] => Err(bad_line(line)),
    }
}

/// The last line, with nothing behind it.
#[tactic(auto, unfolding(crate::specs::Lines::end_in))]
fn end(line: u64, bytes: &[u8]) -> Result<&[u8], BinaryRefusal>
    requires { line + length bytes.now < 2 ^ 64 }
    ensures { Tells (λ x. x.now) result (end_in line bytes.now) }
{
    match after_word(b"end\n", bytes) {
        Ok(rest) => over(line + 1, rest),
        Err(CutError::Bad) => Err(bad_line(line)),
        Err(CutError::Memory) => Err(BinaryRefusal::Memory),
    }
}

/// Reads the lines of a file.
#[tactic(auto, unfolding(crate::specs::Lines::file_in))]
pub(crate) fn read_file(alloc: Global, text: &[u8]) -> Result<File, BinaryRefusal>
    ensures gives { Tells (λ x. x) result (file_in text.now) }
    ensures within { IfOk result (λ x. AreWithin x.sections) }
{
    let (way, rest) = header(text)?;
    let line = alphabet_place(way);
    let (alphabet, rest) = alphabet_line(alloc, line, rest)?;
    let (sections, rest) = read_sections(alloc, line + 1, rest)?;
    let _rest = end(line_after(&sections.preblank), rest)?;
    Ok(File {
        way,
        alphabet,
        sections,
    })
}
