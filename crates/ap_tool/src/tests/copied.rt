ghost use Rattle.std.specs.Prelude.{◌≡◌, ◌≤◌, ℕ, [], ◌∷◌, None, false, IfOk, length, refl};
ghost use Rattle.ap_pipe.specs.Fresh.{AllFresh};
ghost use Rattle.ap_stream.specs.Told.{Clean, Cut};
ghost use Rattle.ap_tool.specs.Copying.{copied_rest, copied_text};

use ap_stream::{Finish, Pipe, ROOM_MAX, Stage, StageFault};
use ap_symbol::Memory;
use std::alloc::Global;
use std::marker::Model;

/// A stage that gives what it takes.
#[derive(Drop)]
pub struct Copied {
    pipe: Pipe,
    ended: bool,
}

impl Model for Copied {
    ghost use Rattle.std.specs.Prelude.{◌<◌, ◌≤◌, length};
    ghost use Rattle.ap_stream.specs.declared.TheConstants.{ROOM_MAX};
    ghost use Rattle.ap_tool.specs.Copying.{Copying};

    ghost Value = { Copying };

    ghost view = { λ c. record { bytes = c.pipe.bytes; ended = c.ended } };

    ghost invariant = { λ c. (0 < c.pipe.room) × (c.pipe.room ≤ ROOM_MAX)
        × (length c.pipe.bytes ≤ c.pipe.room) };
}

impl Copied {
    /// A new stage that holds so many bytes at most.
    pub fn new(alloc: Global, room: usize) -> Result<Copied, Memory>
        requires some { 1 ≤ room }
        requires most { room ≤ ROOM_MAX }
        ensures { IfOk result (λ made. (made.bytes ≡ []) × (made.ended ≡ false)) }
    {
        Ok(Copied {
            pipe: Pipe::new(alloc, room)?,
            ended: false,
        })
    }
}

/// Three stages that copy, each with room for so many bytes.
pub fn three(alloc: Global, room: usize) -> Result<Vec<Copied>, Memory>
    requires some { 1 ≤ room }
    requires most { room ≤ ROOM_MAX }
    ensures count { IfOk result (λ made. length made.items ≡ 3) }
    ensures fresh { IfOk result (λ made. AllFresh ⟦<Copied as Stage>⟧ made.items) }
{
    let first = Copied::new(alloc, room)?;
    let second = Copied::new(alloc, room)?;
    let third = Copied::new(alloc, room)?;
    Ok(vec![in alloc; first, second, third]?)
}

impl Stage for Copied {
    ghost rest = { copied_rest };

    ghost pending = { λ s. s.bytes };

    ghost held = { λ s. 0 };

    ghost ended = { λ s. s.ended };

    ghost fault = { λ s. None };

    fn take(&mut self, piece: &[u8]) -> Result<usize, StageFault> {
        if !self.pipe.is_empty() {
            return Ok(0);
        }
        Ok(self.pipe.fill(piece))
    }

    fn end(&mut self) -> Result<Finish, StageFault> {
        self.ended = true;
        if self.pipe.is_empty() {
            Ok(Finish::Over)
        } else {
            Ok(Finish::More)
        }
    }

    fn give(&mut self, into: &mut Pipe) -> usize {
        let count = into.fill(self.pipe.bytes());
        self.pipe.drain(count);
        count
    }

    fn pending(&self) -> usize {
        self.pipe.bytes().len()
    }

    ghost rest_is = { λ s x. record {
      stop = None;
      made = copied_text x;
      is = elim [ Clean ↦ refl | Cut ↦ refl ];
    } };
}
