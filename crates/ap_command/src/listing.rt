ghost use Rattle.std.specs.Prelude.{◌≡◌, ◌++◌, ◌<◌, [], ℕ, length, IfOk, true, false};
ghost use Rattle.ap_dix.specs.Soundness.{IsSound};
ghost use Rattle.ap_command.specs.Messages.{IsTold};
ghost use Rattle.ap_pipe.specs.Standing.{standing};
ghost use Rattle.ap_command.specs.Listing.{Gathers, IsListed, listing};

use crate::status::Status;
use ap_dix::Dictionary;
use ap_expand::Expansion;
use ap_outside::Sink;
use ap_symbol::{Bytes, Memory};
use std::alloc::Global;

/// About how many bytes of lines are put at once.
const GATHERED: usize = 65_536;

/// Gathers the next lines, each with its line feed, up to about so many bytes, and answers whether
/// more lines may come.
fn gather(expansion: &mut Expansion, line: &mut Bytes, into: &mut Bytes) -> Result<bool, Memory>
    requires { into.old ≡ [] }
    ensures gathered { IfOk result (λ more. Gathers expansion.old expansion.new into.new) }
    ensures end { IfOk result (λ more. more ≡ false → expansion.new ≡ []) }
    ensures fewer { IfOk result (λ more. more ≡ true →
        length expansion.new < length expansion.old) }
{
    while into.as_slice().len() < GATHERED {
        if !expansion.next(line)? {
            return Ok(false);
        }
        into.extend(line.as_slice())?;
        into.extend("\n".as_bytes())?;
    }
    Ok(true)
}

/// Puts the lines of the dictionary.
pub(crate) fn put_lines<K: Sink>(alloc: Global, dictionary: &Dictionary, sink: &mut K) -> Status
    requires { IsSound dictionary.now }
    ensures told { (words : ℕ) → IsTold result words }
    ensures listed { IsListed (standing (K.written sink.old) (K.faults sink.old))
        (standing (K.written sink.new) (K.faults sink.new)) (listing dictionary.now) result }
{
    let Ok(mut expansion) = Expansion::new(alloc, dictionary) else {
        return Status::Memory;
    };
    let mut line = Bytes::new(alloc);
    loop {
        let mut text = Bytes::new(alloc);
        let Ok(more) = gather(&mut expansion, &mut line, &mut text) else {
            return Status::Memory;
        };
        if sink.put(text.as_slice()).is_err() {
            return Status::WriteFault;
        }
        if !more {
            return Status::Done;
        }
    }
}
