ghost use Rattle.std.specs.Prelude.{◌≡◌, ℕ, ◌<◌, List, [], length, true, false, None, refl};
ghost use Rattle.ap_stream.specs.Each.{held_size};
ghost use Rattle.ap_stream.specs.Told.{Ending};
ghost use Rattle.ap_stream.specs.Rest.{rest_of, reads_of, held_of};
ghost use Rattle.ap_format.specs.Reformatted.{ret_text, ret_work};

use crate::reformatter::{Reformatter, give_piece};
use ap_stream::{Finish, Pipe, Stage, StageFault, StreamFault};
use ap_symbol::Bytes;
use std::alloc::Global;
use std::marker::Model;

/// A generated text as a plain text: a `Stage` over bytes. A plain character is written without its
/// escape. A blank is written without the first `[` and the last `]` of each superblank, and each
/// `\` and character in one as the character (`retxt_gives_bare_text`). What gives itself is copied
/// by runs.
#[derive(Drop)]
pub struct Retxt {
    reformatter: Reformatter,
    out: Bytes,
    /// The bytes of `out` before it are given.
    from: usize,
    ended: bool,
    fault: Option<StreamFault>,
}

impl Model for Retxt {
    ghost use Rattle.std.specs.Prelude.{◌≡◌, ◌≤◌, drop, length, false, None};
    ghost use Rattle.ap_stream.specs.Limits.{begun_max, stage_max};
    ghost use Rattle.ap_stream.specs.Seat.{Seat};
    ghost use Rattle.ap_stream.specs.declared.dialect.Dialect.TheVariants.{Generated};
    ghost use Rattle.ap_format.specs.Giving.{IsSound};
    ghost use Rattle.ap_format.specs.Reformatted.{Reformatting};

    ghost Value = { Seat Reformatting };

    ghost view = { λ r. record {
      handler = record { item = None; finished = false };
      dialect = Generated;
      begun = r.reformatter.bytes;
      place = r.reformatter.place;
      pending = drop r.from r.out;
      ended = r.ended;
      fault = r.fault;
    } };

    ghost invariant = { λ r. (r.fault ≡ None → IsSound r.reformatter)
        × (length r.reformatter.bytes ≤ begun_max) × (r.from ≤ length r.out)
        × (length r.out ≤ stage_max) };
}

impl Retxt {
    /// A new stage, which takes no memory.
    pub fn new(alloc: Global) -> Retxt
        ensures rest { (x : List ℕ) (e : Ending) → rest_of ret_work result x e ≡ ret_text x e }
        ensures pending { result.pending ≡ [] }
        ensures ended { result.ended ≡ false }
        ensures fault { result.fault ≡ None }
    {
        Retxt {
            reformatter: Reformatter::new(alloc),
            out: Bytes::new(alloc),
            from: 0,
            ended: false,
            fault: None,
        }
    }

    /// Nothing is pending.
    fn is_idle(&self) -> bool
        ensures idle { result ≡ true → self.now.pending ≡ [] }
        ensures busy { result ≡ false → 0 < length self.now.pending }
    {
        self.from == self.out.as_slice().len()
    }
}

impl Stage for Retxt {
    ghost rest = { λ s. rest_of ret_work s };

    ghost pending = { λ s. s.pending };

    ghost held = { λ s. held_of (λ h. held_size h.item) s };

    ghost ended = { λ s. s.ended };

    ghost fault = { λ s. s.fault };

    fn take(&mut self, piece: &[u8]) -> Result<usize, StageFault> {
        match self.fault {
            Some(fault) => return Err(fault),
            None => {}
        }
        if !self.is_idle() {
            return Ok(0);
        }
        self.out.clear();
        self.from = 0;
        match give_piece(&mut self.reformatter, piece, &mut self.out) {
            Ok(count) => Ok(count),
            Err(fault) => {
                self.out.clear();
                self.fault = Some(fault);
                Err(fault)
            }
        }
    }

    fn end(&mut self) -> Result<Finish, StageFault> {
        match self.fault {
            Some(fault) => return Err(fault),
            None => {}
        }
        self.ended = true;
        if !self.is_idle() {
            return Ok(Finish::More);
        }
        self.out.clear();
        self.from = 0;
        match self.reformatter.finish(&mut self.out) {
            Ok(()) => {
                if self.out.as_slice().is_empty() {
                    return Ok(Finish::Over);
                }
                Ok(Finish::More)
            }
            Err(fault) => {
                self.out.clear();
                self.fault = Some(fault);
                Err(fault)
            }
        }
    }

    fn give(&mut self, into: &mut Pipe) -> usize {
        let count = into.fill(&self.out.as_slice()[self.from..]);
        self.from += count;
        count
    }

    fn pending(&self) -> usize {
        self.out.as_slice().len() - self.from
    }

    ghost rest_is = { λ s x. record {
      stop = (reads_of s x).stop;
      made = ret_work s.handler (reads_of s x).items;
      is = λ e. refl;
    } };
}
