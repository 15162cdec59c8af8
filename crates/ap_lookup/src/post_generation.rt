ghost use Rattle.std.specs.Prelude.{◌≡◌, ℕ, List, [], false, None, IfOk, refl};
ghost use Rattle.ap_stream.specs.Steps.{bytes_of};
ghost use Rattle.ap_stream.specs.Told.{Ending};
ghost use Rattle.ap_stream.specs.Rest.{rest_of, reads_of, held_of};
ghost use Rattle.ap_symbol.specs.Alphabet.{has_letter};
ghost use Rattle.ap_live.specs.Lexicon.{lexicon_of, IsLexiconOf};
ghost use Rattle.ap_live.specs.Relations.{relation_of};
ghost use Rattle.ap_lookup.specs.PostWorks.{post_generated_text, post_work};

use crate::post_generation_work::PostGenerationWork;
use ap_fst::Compiled;
use ap_live::compiled_has_a_lexicon;
use ap_stream::{Dialect, Finish, Pipe, Stage, StageFault, Staged};
use ap_symbol::Memory;
use std::alloc::Global;
use std::marker::Model;

/// Post-generation of a Generated text (`lt-proc -p`), by a dictionary that was compiled from left
/// to right: a `Stage` over bytes.
///
/// A match begins at an alarm, a bare `~`, alone: the greatest number of items that fits a left
/// word, of any kind and without a test of what follows. The case of the matched letters is carried
/// to its right words, and the least of the words so made is written. Its blanks are slots: they
/// are filled in order with the blanks that were matched, whole, and with a space where there is
/// none; the superblanks of the blanks left over follow. Without a match the alarm is dropped.
/// Every other item is copied.
///
/// Where case counts, a symbol fits itself alone and words keep their case; otherwise a small
/// letter of the dictionary fits its capital too.
///
/// A match that must see more than `SPAN_MAX` bytes, and a word of more than `UNIT_MAX`, is
/// answered by its limit at the alarm.
#[derive(Drop)]
pub struct PostGeneration {
    stage: Staged<PostGenerationWork>,
}

impl Model for PostGeneration {
    ghost use Rattle.ap_stream.specs.Seat.{Seat};
    ghost use Rattle.ap_lookup.specs.PostWorks.{Posting};

    ghost Value = { Seat Posting };

    ghost view = { λ s. s.stage };
}

impl PostGeneration {
    /// A new stage by this dictionary, whose lexicon is that of what its sections relate. The error means want of memory.
    pub fn new(alloc: Global, compiled: Compiled, sensitive: bool) -> Result<PostGeneration, Memory>
        ensures rest { IfOk result (λ made. (x : List ℕ) (e : Ending) → rest_of post_work made x e
            ≡ post_generated_text (lexicon_of compiled sensitive) sensitive x e) }
        ensures pending { IfOk result (λ made. made.pending ≡ []) }
        ensures ended { IfOk result (λ made. made.ended ≡ false) }
        ensures fault { IfOk result (λ made. made.fault ≡ None) }
        ensures lexicon { IsLexiconOf (lexicon_of compiled sensitive) sensitive
            (has_letter compiled.alphabet) (relation_of compiled) }
    {
        compiled_has_a_lexicon(&compiled);
        let work = PostGenerationWork::new(alloc, compiled, sensitive)?;
        Ok(PostGeneration {
            stage: Staged::new(alloc, Dialect::Generated, work),
        })
    }
}

impl Stage for PostGeneration {
    ghost rest = { λ s. rest_of post_work s };

    ghost pending = { λ s. s.pending };

    ghost held = { λ s. held_of (λ h. bytes_of h.items) s };

    ghost ended = { λ s. s.ended };

    ghost fault = { λ s. s.fault };

    fn take(&mut self, piece: &[u8]) -> Result<usize, StageFault> {
        self.stage.take_copying(piece)
    }

    fn end(&mut self) -> Result<Finish, StageFault> {
        self.stage.end()
    }

    fn give(&mut self, into: &mut Pipe) -> usize {
        self.stage.give(into)
    }

    fn pending(&self) -> usize {
        self.stage.pending()
    }

    ghost rest_is = { λ s x. record {
      stop = (reads_of s x).stop;
      made = post_work s.handler (reads_of s x).items;
      is = λ e. refl;
    } };
}
