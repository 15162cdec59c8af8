ghost use Rattle.std.specs.Prelude.{◌≡◌, ℕ, List, [], false, None, IfOk, refl};
ghost use Rattle.ap_stream.specs.Each.{held_size};
ghost use Rattle.ap_stream.specs.Told.{Ending};
ghost use Rattle.ap_stream.specs.Rest.{rest_of, reads_of, held_of};
ghost use Rattle.ap_symbol.specs.Alphabet.{has_letter};
ghost use Rattle.ap_live.specs.Lexicon.{lexicon_of, IsLexiconOf};
ghost use Rattle.ap_live.specs.Relations.{relation_of};
ghost use Rattle.ap_lookup.specs.Works.{bilingual_text, bilingual_work};

use crate::bilingual_work::BilingualWork;
use ap_fst::Compiled;
use ap_live::compiled_has_a_lexicon;
use ap_stream::{Dialect, Finish, Pipe, Stage, StageFault, Staged};
use ap_symbol::Memory;
use std::alloc::Global;
use std::marker::Model;

/// Bilingual lookup of a Lexical text (`lt-proc -b`): a `Stage` over bytes.
///
/// Each unit becomes `^source/translation$`, several translations joined by `/`: the heads of its
/// word by the dictionary, each followed by the symbols left over (`translate`). Without a head the
/// only translation is `@` and the word; a word that begins with `*` or `@` is its own translation.
/// Every other item is copied. Where case counts, a symbol fits itself alone and heads keep their
/// case.
///
/// What is written for one unit with more than `UNIT_MAX` bytes is answered by its limit at the
/// unit.
#[derive(Drop)]
pub struct Bilingual {
    stage: Staged<BilingualWork>,
}

impl Model for Bilingual {
    ghost use Rattle.ap_stream.specs.Each.{Single};
    ghost use Rattle.ap_stream.specs.Seat.{Seat};
    ghost use Rattle.ap_lookup.specs.Looking.{Looking};

    ghost Value = { Seat (Single Looking) };

    ghost view = { λ s. s.stage };
}

impl Bilingual {
    /// A new stage by this dictionary, whose lexicon is that of what its sections relate.
    pub fn new(alloc: Global, compiled: Compiled, sensitive: bool) -> Result<Bilingual, Memory>
        ensures rest { IfOk result (λ made. (x : List ℕ) (e : Ending) →
            rest_of bilingual_work made x e
            ≡ bilingual_text (lexicon_of compiled sensitive) sensitive x e) }
        ensures pending { IfOk result (λ made. made.pending ≡ []) }
        ensures ended { IfOk result (λ made. made.ended ≡ false) }
        ensures fault { IfOk result (λ made. made.fault ≡ None) }
        ensures lexicon { IsLexiconOf (lexicon_of compiled sensitive) sensitive
            (has_letter compiled.alphabet) (relation_of compiled) }
    {
        compiled_has_a_lexicon(&compiled);
        let work = BilingualWork::new(alloc, compiled, sensitive)?;
        Ok(Bilingual {
            stage: Staged::new(alloc, Dialect::Lexical, work),
        })
    }
}

impl Stage for Bilingual {
    ghost rest = { λ s. rest_of bilingual_work s };

    ghost pending = { λ s. s.pending };

    ghost held = { λ s. held_of (λ h. held_size h.item) s };

    ghost ended = { λ s. s.ended };

    ghost fault = { λ s. s.fault };

    fn take(&mut self, piece: &[u8]) -> Result<usize, StageFault> {
        self.stage.take_units(piece)
    }

    fn end(&mut self) -> Result<Finish, StageFault> {
        self.stage.end()
    }

    fn give(&mut self, into: &mut Pipe) -> usize {
        self.stage.give(into)
    }

    fn pending(&self) -> usize {
        self.stage.pending()
    }

    ghost rest_is = { λ s x. record {
      stop = (reads_of s x).stop;
      made = bilingual_work s.handler (reads_of s x).items;
      is = λ e. refl;
    } };
}
