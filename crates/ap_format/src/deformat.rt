ghost use Rattle.std.specs.Prelude.{◌≡◌, ℕ, ◌<◌, List, [], length, true, false, None, refl};
ghost use Rattle.ap_stream.specs.Told.{Ending};
ghost use Rattle.ap_format.specs.Deformatted.{des_text, des_rest, des_held, coming_pieces, made_of};

use crate::cutter::{Cutter, cut_piece};
use ap_stream::{Finish, Pipe, Stage, StageFault, StreamFault};
use ap_symbol::Bytes;
use std::alloc::Global;
use std::marker::Model;

/// A plain text as a text of the stream: a `Stage` over bytes, in UTF-8. A maximal run of white
/// space that is one space is itself, and any other one stands between `[` and `]`. Each of the
/// characters ``^ $ / < > { } \ [ ] @ * # + ~`` is written behind a backslash, and any other
/// character as itself.
///
/// A byte that begins no character is answered by the fault `NotUtf8`, a character that the end
/// cuts by `Unfinished`, and a run of white space of more than `UNIT_MAX - 2` bytes by the limit
/// `ItemTooLong`, each at its first byte. Nothing else is refused.
#[derive(Drop)]
pub struct Destxt {
    cutter: Cutter,
    out: Bytes,
    /// The bytes of `out` before it are given.
    from: usize,
    ended: bool,
    fault: Option<StreamFault>,
}

impl Model for Destxt {
    ghost use Rattle.std.specs.Prelude.{◌≤◌, drop, length};
    ghost use Rattle.ap_stream.specs.Limits.{stage_max, unit_max};
    ghost use Rattle.ap_format.specs.Deformatted.{Deformatting};

    ghost Value = { Deformatting };

    ghost view = { λ d. record {
      uncut = d.cutter;
      pending = drop d.from d.out;
      ended = d.ended;
      fault = d.fault;
    } };

    ghost invariant = { λ d. (length d.cutter.bytes ≤ unit_max) × (d.from ≤ length d.out)
        × (length d.out ≤ stage_max) };
}

impl Destxt {
    /// A new stage, which takes no memory.
    pub fn new(alloc: Global) -> Destxt
        ensures rest { (x : List ℕ) (e : Ending) → des_rest result x e ≡ des_text x e }
        ensures pending { result.pending ≡ [] }
        ensures ended { result.ended ≡ false }
        ensures fault { result.fault ≡ None }
    {
        Destxt {
            cutter: Cutter::new(alloc),
            out: Bytes::new(alloc),
            from: 0,
            ended: false,
            fault: None,
        }
    }

    /// Nothing is pending.
    fn is_idle(&self) -> bool
        ensures idle { result ≡ true → self.now.pending ≡ [] }
        ensures busy { result ≡ false → 0 < length self.now.pending }
    {
        self.from == self.out.as_slice().len()
    }
}

impl Stage for Destxt {
    ghost rest = { des_rest };

    ghost pending = { λ d. d.pending };

    ghost held = { des_held };

    ghost ended = { λ d. d.ended };

    ghost fault = { λ d. d.fault };

    fn take(&mut self, piece: &[u8]) -> Result<usize, StageFault> {
        match self.fault {
            Some(fault) => return Err(fault),
            None => {}
        }
        if !self.is_idle() {
            return Ok(0);
        }
        self.out.clear();
        self.from = 0;
        match cut_piece(&mut self.cutter, piece, &mut self.out) {
            Ok(count) => Ok(count),
            Err(fault) => {
                self.out.clear();
                self.fault = Some(fault);
                Err(fault)
            }
        }
    }

    fn end(&mut self) -> Result<Finish, StageFault> {
        match self.fault {
            Some(fault) => return Err(fault),
            None => {}
        }
        self.ended = true;
        if !self.is_idle() {
            return Ok(Finish::More);
        }
        self.out.clear();
        self.from = 0;
        match self.cutter.finish(&mut self.out) {
            Ok(()) => {
                if self.out.as_slice().is_empty() {
                    return Ok(Finish::Over);
                }
                Ok(Finish::More)
            }
            Err(fault) => {
                self.out.clear();
                self.fault = Some(fault);
                Err(fault)
            }
        }
    }

    fn give(&mut self, into: &mut Pipe) -> usize {
        let count = into.fill(&self.out.as_slice()[self.from..]);
        self.from += count;
        count
    }

    fn pending(&self) -> usize {
        self.out.as_slice().len() - self.from
    }

    ghost rest_is = { λ d x. record {
      stop = (coming_pieces d x).stop;
      made = made_of d x;
      is = λ e. refl;
    } };
}
