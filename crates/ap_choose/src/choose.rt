ghost use Rattle.std.specs.Prelude.{◌≡◌, ℕ, List, [], false, None, IfOk, refl};
ghost use Rattle.ap_stream.specs.Steps.{bytes_of};
ghost use Rattle.ap_stream.specs.Told.{Ending};
ghost use Rattle.ap_stream.specs.Rest.{rest_of, reads_of, held_of};
ghost use Rattle.ap_choose.specs.Sentences.{chosen_text};
ghost use Rattle.ap_choose.specs.Works.{choose_work};

use crate::choose_work::ChooseWork;
use crate::forbidden::Forbidden;
use ap_stream::{Dialect, Finish, Pipe, Stage, StageFault, Staged};
use ap_symbol::Memory;
use std::alloc::Global;
use std::marker::Model;

/// One reading of each unit of an analysed text, as a unit, so that no forbidden pair of tags
/// stands in a row: a `Stage` over bytes.
///
/// A sentence begins at a unit, and holds all items up to and including its first unit whose
/// first reading holds the tag `sent`, its 1,000th unit, or the end, whichever comes first. Of
/// the choices of one reading of each of its units those are allowed in which no first tags of two
/// neighbours are a forbidden pair; a reading without a tag is in none. Of two choices that one is
/// the lesser which has the earlier reading at the first unit where they differ. The least of the
/// allowed choices is written, and where none is allowed, the first reading of every unit. A chosen
/// reading that is empty isn't written. Any other item is copied.
///
/// A sentence of more than `SPAN_MAX` bytes is answered by the limit `SpanTooLong` at its first
/// byte.
#[derive(Drop)]
pub struct Choose {
    stage: Staged<ChooseWork>,
}

impl Model for Choose {
    ghost use Rattle.ap_stream.specs.Seat.{Seat};
    ghost use Rattle.ap_choose.specs.Works.{Choosing};

    ghost Value = { Seat Choosing };

    ghost view = { λ s. s.stage };
}

impl Choose {
    /// A new stage by these pairs. The error means want of memory.
    pub fn new(alloc: Global, forbidden: Forbidden) -> Result<Choose, Memory>
        ensures rest { IfOk result (λ made. (x : List ℕ) (e : Ending) → rest_of choose_work made x e
            ≡ chosen_text forbidden x e) }
        ensures pending { IfOk result (λ made. made.pending ≡ []) }
        ensures ended { IfOk result (λ made. made.ended ≡ false) }
        ensures fault { IfOk result (λ made. made.fault ≡ None) }
    {
        let work = ChooseWork::new(alloc, forbidden)?;
        Ok(Choose {
            stage: Staged::new(alloc, Dialect::Analysed, work),
        })
    }
}

impl Stage for Choose {
    ghost rest = { λ s. rest_of choose_work s };

    ghost pending = { λ s. s.pending };

    ghost held = { λ s. held_of (λ h. bytes_of h.items) s };

    ghost ended = { λ s. s.ended };

    ghost fault = { λ s. s.fault };

    fn take(&mut self, piece: &[u8]) -> Result<usize, StageFault> {
        self.stage.take(piece)
    }

    fn end(&mut self) -> Result<Finish, StageFault> {
        self.stage.end()
    }

    fn give(&mut self, into: &mut Pipe) -> usize {
        self.stage.give(into)
    }

    fn pending(&self) -> usize {
        self.stage.pending()
    }

    ghost rest_is = { λ s x. record {
      stop = (reads_of s x).stop;
      made = choose_work s.handler (reads_of s x).items;
      is = λ e. refl;
    } };
}
