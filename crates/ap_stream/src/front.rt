ghost use Rattle.std.specs.Prelude.{◌≡◌, ◌<◌, ◌≤◌, ◌+◌, ◌*◌, ◌⊎◌, ℕ, List, [], ◌++◌, length, take, true, IfOk, IfSome, OnOk, OnSome, Ok, None};
ghost use Rattle.ap_stream.specs.declared.TheConstants.{FRONT_MAX};
ghost use Rattle.ap_stream.specs.Bare.{plain_byte, bare_run};
ghost use Rattle.ap_stream.specs.Fronts.{GaveFront};

use crate::FRONT_MAX;
use crate::copying::is_common;
use crate::examine::is_white;
use crate::handler::ByRun;
use ap_symbol::{Bytes, Memory};

/// A step at the front of a text: it uses so many bytes, and so many of the text's decide it.
#[derive(Clone, Copy, Debug)]
pub struct Front {
    pub used: usize,
    pub seen: usize,
}

/// A handler that may know a step by the bytes at the front, before they are items.
pub trait ByFront: ByRun {
    /// Nothing is held. It may also be denied where it is so.
    fn is_free(&self) -> bool
        ensures { result ≡ true → (Self.count self.now ≡ 0) × (Self.held self.now ≡ 0) };

    /// Where nothing is held, appends what the first step of the piece gives, and answers how many
    /// bytes it uses and how many decide it, however the text goes on; none where that isn't known.
    /// The error means want of memory; then anything may have been appended.
    fn recall(&mut self, piece: &[u8], into: &mut Bytes) -> Result<Option<Front>, Memory>
        requires { Self.count self.old ≡ 0 }
        ensures gave { IfOk result (λ found. IfSome found (λ front. GaveFront Self.work
            (Self.dialect self.old) self.old piece.now front.used front.seen into.old into.new)) }
        ensures short { OnOk result (length into.new ≤ length into.old + FRONT_MAX) }
        ensures same { self.new ≡ self.old };
}

/// Whether the byte is an ASCII character that no dialect refuses, with which no item but itself
/// begins, and to which no tool gives a meaning.
fn is_plain_byte(byte: u8) -> bool
    ensures { result ≡ plain_byte byte }
{
    byte < 128 && is_common(byte as char)
}

/// Whether each byte is such a character, or white space before one. Then each is an item by
/// itself, however the text goes on.
pub fn is_bare(bytes: &[u8]) -> bool
    ensures { result ≡ true → bare_run bytes.now ≡ true }
{
    let mut at = bytes.len();
    let mut plain = false;
    while at > 0 {
        let byte = bytes[at - 1];
        let last = plain;
        plain = is_plain_byte(byte);
        if !plain && !(last && is_white(byte)) {
            return false;
        }
        at -= 1;
    }
    true
}

fn larger(a: usize, b: usize) -> usize
    ensures first { a ≤ result }
    ensures second { b ≤ result }
    ensures one { (result ≡ a) ⊎ (result ≡ b) }
{
    if a < b { b } else { a }
}

/// Appends what the first steps of the piece give, as many as it takes until at most one byte that
/// was seen isn't used; none where they aren't known.
fn give_near<H: ByFront>(
    handler: &mut H,
    piece: &[u8],
    given: &mut Bytes,
) -> Result<Option<Front>, Memory>
    requires none { H.count handler.old ≡ 0 }
    requires empty { given.old ≡ [] }
    ensures gave { IfOk result (λ found. IfSome found (λ front. GaveFront H.work
        (H.dialect handler.old) handler.old piece.now front.used front.seen [] given.new)) }
    ensures near { IfOk result (λ found. IfSome found (λ front. front.seen ≤ front.used + 1)) }
    ensures short { OnOk result (length given.new ≤ 2 * FRONT_MAX) }
    ensures same { handler.new ≡ handler.old }
{
    let mut used = 0;
    let mut seen = 0;
    while given.as_slice().len() < FRONT_MAX {
        match handler.recall(&piece[used..], given)? {
            None => return Ok(None),
            Some(front) => {
                seen = larger(seen, used + front.seen);
                used += front.used;
                if seen <= used + 1 {
                    return Ok(Some(Front { used, seen }));
                }
            }
        }
    }
    Ok(None)
}

/// Puts what the first steps of the text give into `given`, as far as they are known. At most one
/// byte that was seen isn't used then. `room` is for the text of one step.
pub(crate) fn give_known<H: ByFront>(
    handler: &mut H,
    text: &[u8],
    room: &mut Bytes,
    given: &mut Bytes,
) -> Result<Front, Memory>
    requires none { H.count handler.old ≡ 0 }
    requires empty { given.old ≡ [] }
    ensures gave { IfOk result (λ front. 0 < front.used → GaveFront H.work
        (H.dialect handler.old) handler.old text.now front.used front.seen [] given.new) }
    ensures near { IfOk result (λ front. front.seen ≤ front.used + 1) }
    ensures short { OnOk result (length given.new ≤ 3 * FRONT_MAX) }
    ensures same { handler.new ≡ handler.old }
{
    let mut used = 0;
    let mut seen = 0;
    while given.as_slice().len() < FRONT_MAX {
        room.clear();
        match give_near(handler, &text[used..], room)? {
            None => return Ok(Front { used, seen }),
            Some(front) => {
                given.extend(room.as_slice())?;
                seen = larger(seen, used + front.seen);
                used += front.used;
            }
        }
    }
    Ok(Front { used, seen })
}
