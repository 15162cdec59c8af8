ghost use Rattle.std.specs.Prelude.{◌≡◌, ℕ, List, [], false, None, IfOk, refl};
ghost use Rattle.ap_stream.specs.Each.{held_size};
ghost use Rattle.ap_stream.specs.Told.{Ending};
ghost use Rattle.ap_stream.specs.Rest.{rest_of, reads_of, held_of};
ghost use Rattle.ap_symbol.specs.Alphabet.{has_letter};
ghost use Rattle.ap_live.specs.Lexicon.{lexicon_of, IsLexiconOf};
ghost use Rattle.ap_live.specs.Relations.{relation_of};
ghost use Rattle.ap_lookup.specs.Works.{generated_text, generation_work};

use crate::generation_work::GenerationWork;
use crate::generation_writer::Marks;
use ap_fst::Compiled;
use ap_live::compiled_has_a_lexicon;
use ap_stream::{Dialect, Finish, Pipe, Stage, StageFault, Staged};
use ap_symbol::Memory;
use std::alloc::Global;
use std::marker::Model;

/// Generation of a Lexical text (`lt-proc -g`, `-n`, `-d`), by a dictionary that was compiled from
/// right to left: a `Stage` over bytes.
///
/// Each unit becomes its forms: the right words of any kind whose left word fits the whole unit,
/// with the lemma's case, in order, each once, joined by `/`. A unit without a form, and one that
/// begins with `*` or `@`, becomes what the marks say. Every other item is copied.
///
/// What is written for one unit with more than `UNIT_MAX` bytes is answered by its limit at the
/// unit.
#[derive(Drop)]
pub struct Generation {
    stage: Staged<GenerationWork>,
}

impl Model for Generation {
    ghost use Rattle.ap_stream.specs.Each.{Single};
    ghost use Rattle.ap_stream.specs.Seat.{Seat};
    ghost use Rattle.ap_lookup.specs.Generating.{Generating};

    ghost Value = { Seat (Single Generating) };

    ghost view = { λ s. s.stage };
}

impl Generation {
    /// A new stage by this dictionary, whose lexicon is that of what its sections relate.
    pub fn new(
        alloc: Global,
        compiled: Compiled,
        marks: Marks,
        sensitive: bool,
    ) -> Result<Generation, Memory>
        ensures rest { IfOk result (λ made. (x : List ℕ) (e : Ending) →
            rest_of generation_work made x e
            ≡ generated_text (lexicon_of compiled sensitive) marks sensitive x e) }
        ensures pending { IfOk result (λ made. made.pending ≡ []) }
        ensures ended { IfOk result (λ made. made.ended ≡ false) }
        ensures fault { IfOk result (λ made. made.fault ≡ None) }
        ensures lexicon { IsLexiconOf (lexicon_of compiled sensitive) sensitive
            (has_letter compiled.alphabet) (relation_of compiled) }
    {
        compiled_has_a_lexicon(&compiled);
        let work = GenerationWork::new(alloc, compiled, marks, sensitive)?;
        Ok(Generation {
            stage: Staged::new(alloc, Dialect::Lexical, work),
        })
    }
}

impl Stage for Generation {
    ghost rest = { λ s. rest_of generation_work s };

    ghost pending = { λ s. s.pending };

    ghost held = { λ s. held_of (λ h. held_size h.item) s };

    ghost ended = { λ s. s.ended };

    ghost fault = { λ s. s.fault };

    fn take(&mut self, piece: &[u8]) -> Result<usize, StageFault> {
        self.stage.take_units(piece)
    }

    fn end(&mut self) -> Result<Finish, StageFault> {
        self.stage.end()
    }

    fn give(&mut self, into: &mut Pipe) -> usize {
        self.stage.give(into)
    }

    fn pending(&self) -> usize {
        self.stage.pending()
    }

    ghost rest_is = { λ s x. record {
      stop = (reads_of s x).stop;
      made = generation_work s.handler (reads_of s x).items;
      is = λ e. refl;
    } };
}
