ghost use Rattle.std.specs.Prelude.{◌≡◌, ℕ, List, [], false, None, IfOk, refl};
ghost use Rattle.ap_stream.specs.Steps.{bytes_of};
ghost use Rattle.ap_stream.specs.Told.{Ending};
ghost use Rattle.ap_stream.specs.Rest.{rest_of, reads_of, held_of};
ghost use Rattle.ap_rules.specs.declared.rules.Form.TheVariants as form;
ghost use Rattle.ap_chunk.specs.Rows.{TakesDecides};
ghost use Rattle.ap_chunk.specs.Stages.{interchunked_text};
ghost use Rattle.ap_chunk.specs.Working.{chunk_work};

use crate::chunk_work::ChunkWork;
use crate::laws::rows_tell;
use ap_rules::Rules;
use ap_stream::{Dialect, Finish, Pipe, Stage, StageFault, Staged};
use ap_symbol::Memory;
use std::alloc::Global;
use std::marker::Model;

/// Interchunk of a Chunked text, by the rules of an interchunk file (the Apertium transfer format):
/// a `Stage` over bytes. It gives a Chunked text.
///
/// A match is a row of chunks with at most one blank between two of them, and any other item ends
/// it. At each place the longest pattern of a rule from the left is taken, and among equally long
/// ones the rule earlier in the file; then it goes on behind the match. The rule is run, and the
/// slots of what it gives are filled with the blanks of the match, those inside its chunks too, in
/// order; the superblanks of the blanks left over follow. What variables hold goes on from match to
/// match, and begins with what the rules state. Every other item is copied.
///
/// Items that must be seen together with more than `SPAN_MAX` bytes, more than `UNIT_MAX` bytes for
/// an item without a match, a value of a rule of more than `UNIT_MAX` bytes and an output of more
/// than `SPAN_MAX` bytes are answered by their limits, at the first byte of the item or the match.
#[derive(Drop)]
pub struct Interchunk {
    stage: Staged<ChunkWork>,
}

impl Model for Interchunk {
    ghost use Rattle.ap_stream.specs.Seat.{Seat};
    ghost use Rattle.std.specs.Coded.{codes};
    ghost use Rattle.ap_rules.specs.contracts.statement.Statement as statement;
    ghost use Rattle.ap_chunk.specs.Working.{Working};

    ghost Value = { Seat Working };

    ghost coded = { Prim.hlevel (codes, statement.the_row.coded) };

    ghost view = { λ s. s.stage };
}

impl Interchunk {
    /// A new stage by these rules, which are rules of interchunk. A chunk is of those categories
    /// that take its name, and of no others. The error means want of memory.
    pub fn new(alloc: Global, rules: Rules) -> Result<Interchunk, Memory>
        requires { rules.form ≡ form.Interchunk }
        ensures rest { IfOk result (λ made. (x : List ℕ) (e : Ending) → rest_of chunk_work made x e
            ≡ interchunked_text rules x e) }
        ensures pending { IfOk result (λ made. made.pending ≡ []) }
        ensures ended { IfOk result (λ made. made.ended ≡ false) }
        ensures fault { IfOk result (λ made. made.fault ≡ None) }
        ensures categories { TakesDecides rules }
    {
        rows_tell();
        let work = ChunkWork::new(alloc, rules)?;
        Ok(Interchunk {
            stage: Staged::new(alloc, Dialect::Chunked, work),
        })
    }
}

impl Stage for Interchunk {
    ghost rest = { λ s. rest_of chunk_work s };

    ghost pending = { λ s. s.pending };

    ghost held = { λ s. held_of (λ h. bytes_of h.items) s };

    ghost ended = { λ s. s.ended };

    ghost fault = { λ s. s.fault };

    fn take(&mut self, piece: &[u8]) -> Result<usize, StageFault> {
        self.stage.take(piece)
    }

    fn end(&mut self) -> Result<Finish, StageFault> {
        self.stage.end()
    }

    fn give(&mut self, into: &mut Pipe) -> usize {
        self.stage.give(into)
    }

    fn pending(&self) -> usize {
        self.stage.pending()
    }

    ghost rest_is = { λ s x. record {
      stop = (reads_of s x).stop;
      made = chunk_work s.handler (reads_of s x).items;
      is = λ e. refl;
    } };
}
