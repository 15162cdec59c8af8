ghost use Rattle.std.specs.Prelude.{◌≡◌, ℕ, List, [], false, None, IfOk, refl};
ghost use Rattle.ap_stream.specs.Steps.{bytes_of};
ghost use Rattle.ap_stream.specs.Told.{Ending};
ghost use Rattle.ap_stream.specs.Rest.{rest_of, reads_of, held_of};
ghost use Rattle.ap_rules.specs.declared.rules.Form.TheVariants as form;
ghost use Rattle.ap_chunk.specs.Rows.{TakesDecides};
ghost use Rattle.ap_chunk.specs.Stages.{postchunked_text};
ghost use Rattle.ap_chunk.specs.Working.{chunk_work};

use crate::chunk_work::ChunkWork;
use crate::laws::rows_tell;
use ap_rules::Rules;
use ap_stream::{Dialect, Finish, Pipe, Stage, StageFault, Staged};
use ap_symbol::Memory;
use std::alloc::Global;
use std::marker::Model;

/// Postchunk of a Chunked text, by the rules of a postchunk file (the Apertium transfer format):
/// a `Stage` over bytes. It gives a Lexical text.
///
/// When a chunk is read, each tag of a word in it whose name is decimal digits is replaced by the
/// tag of the chunk's name with that number, counted from 1, and dropped where there is none.
/// Then the case of the name's lemma is carried: a capital at its start to the first word,
/// capitals throughout to every word. A word that became empty keeps its place and isn't written.
///
/// A rule takes one chunk, by the lemma of its name; among equal ones the rule earlier in the
/// file is taken. It is run on the words of the chunk, and the slots of what it gives are filled
/// with the blanks in it, in order; the superblanks of the blanks left over follow. What
/// variables hold goes on from chunk to chunk, and begins with what the rules state. A chunk that
/// no rule takes is replaced by its content. Every other item is copied.
///
/// A content that comes to more than `UNIT_MAX` bytes, before a rule is sought, more than
/// `UNIT_MAX` bytes for another item, a value of a rule of more than `UNIT_MAX` bytes and an
/// output of more than `SPAN_MAX` bytes are answered by their limits, at the first byte of the
/// item.
#[derive(Drop)]
pub struct Postchunk {
    stage: Staged<ChunkWork>,
}

impl Model for Postchunk {
    ghost use Rattle.ap_stream.specs.Seat.{Seat};
    ghost use Rattle.std.specs.Coded.{codes};
    ghost use Rattle.ap_rules.specs.contracts.statement.Statement as statement;
    ghost use Rattle.ap_chunk.specs.Working.{Working};

    ghost Value = { Seat Working };

    ghost coded = { Prim.hlevel (codes, statement.the_row.coded) };

    ghost view = { λ s. s.stage };
}

impl Postchunk {
    /// A new stage by these rules, which are rules of postchunk. A chunk is of those categories
    /// that take its name, and of no others. The error means want of memory.
    pub fn new(alloc: Global, rules: Rules) -> Result<Postchunk, Memory>
        requires { rules.form ≡ form.Postchunk }
        ensures rest { IfOk result (λ made. (x : List ℕ) (e : Ending) → rest_of chunk_work made x e
            ≡ postchunked_text rules x e) }
        ensures pending { IfOk result (λ made. made.pending ≡ []) }
        ensures ended { IfOk result (λ made. made.ended ≡ false) }
        ensures fault { IfOk result (λ made. made.fault ≡ None) }
        ensures categories { TakesDecides rules }
    {
        rows_tell();
        let work = ChunkWork::new(alloc, rules)?;
        Ok(Postchunk {
            stage: Staged::new(alloc, Dialect::Chunked, work),
        })
    }
}

impl Stage for Postchunk {
    ghost rest = { λ s. rest_of chunk_work s };

    ghost pending = { λ s. s.pending };

    ghost held = { λ s. held_of (λ h. bytes_of h.items) s };

    ghost ended = { λ s. s.ended };

    ghost fault = { λ s. s.fault };

    fn take(&mut self, piece: &[u8]) -> Result<usize, StageFault> {
        self.stage.take(piece)
    }

    fn end(&mut self) -> Result<Finish, StageFault> {
        self.stage.end()
    }

    fn give(&mut self, into: &mut Pipe) -> usize {
        self.stage.give(into)
    }

    fn pending(&self) -> usize {
        self.stage.pending()
    }

    ghost rest_is = { λ s x. record {
      stop = (reads_of s x).stop;
      made = chunk_work s.handler (reads_of s x).items;
      is = λ e. refl;
    } };
}
