ghost use Rattle.std.specs.Prelude.{◌≡◌, ℕ, List, [], false, None, IfOk, refl};
ghost use Rattle.ap_stream.specs.Each.{held_size};
ghost use Rattle.ap_stream.specs.Told.{Ending};
ghost use Rattle.ap_stream.specs.Rest.{rest_of, reads_of, held_of};
ghost use Rattle.ap_live.specs.Lexicon.{lexicon_of};
ghost use Rattle.ap_compound.specs.Splits.{compound_readings};
ghost use Rattle.ap_compound.specs.Works.{compounds_text, compounds_work};

use crate::compounds_work::CompoundsWork;
use crate::copying::copy_of;
use crate::reading::readings_from;
use ap_fst::Compiled;
use ap_live::LiveSections;
use ap_stream::{Dialect, Finish, Pipe, Stage, StageFault, Staged};
use ap_symbol::{Memory, Word, Words};
use std::alloc::Global;
use std::marker::Model;
use std::rc::Rc;

/// Unknown words of an analysed text explained as compounds: a `Stage` over bytes. The rule is this
/// program's own.
///
/// A left part is an entry of any kind whose right word holds the tag `compound-only-L`, a right
/// part one whose right word holds `compound-R`; these tags are left out of it. A split of a surface
/// is two or more parts, left parts and at last a right part, whose left words one after another fit
/// the surface. The readings of a surface of letters alone, at most 256, are the right words of the
/// splits with the fewest parts, joined by Join, each with the surface's case carried to it, in
/// order, each once. A unit whose only reading is Star followed by its surface is written as its
/// surface and these readings, where there are any; every other item is copied. Where case counts,
/// letters fit only themselves and no case is carried.
///
/// A unit of which more than `UNIT_MAX` bytes are to be written is answered by the limit
/// `UnitTooLong` at its place.
#[derive(Drop)]
pub struct Compounds {
    compiled: Rc<Compiled>,
    sensitive: bool,
    stage: Staged<CompoundsWork>,
}

impl Model for Compounds {
    ghost use Rattle.ap_compound.specs.Works.{Compounding};

    ghost Value = { Compounding };

    ghost view = { λ s. record {
      compiled = s.compiled.value;
      sensitive = s.sensitive;
      seat =
          s.stage;
    } };
}

impl Compounds {
    /// A new stage by this dictionary, of which it keeps a copy. Its lexicon is that of what the
    /// sections of the dictionary relate: the rule of `lexicon_of` is `IsLexiconOf`, by the law
    /// `compiled_have_lexicons`. The error means want of memory.
    pub fn new(alloc: Global, compiled: &Compiled, sensitive: bool) -> Result<Compounds, Memory>
        ensures compiled { IfOk result (λ made. made.compiled ≡ compiled.now) }
        ensures sensitive { IfOk result (λ made. made.sensitive ≡ sensitive) }
        ensures rest { IfOk result (λ made. (x : List ℕ) (e : Ending) →
            rest_of compounds_work made.seat x e
            ≡ compounds_text (lexicon_of compiled.now sensitive) sensitive x e) }
        ensures pending { IfOk result (λ made. made.seat.pending ≡ []) }
        ensures ended { IfOk result (λ made. made.seat.ended ≡ false) }
        ensures fault { IfOk result (λ made. made.seat.fault ≡ None) }
    {
        let copied = copy_of(alloc, compiled)?;
        let shared = Rc::new(alloc, copied)?;
        let work = CompoundsWork::sharing(alloc, shared.clone()?, sensitive);
        Ok(Compounds {
            compiled: shared,
            sensitive,
            stage: Staged::new(alloc, Dialect::Analysed, work),
        })
    }

    /// The readings of a surface as a compound, in order, each once. There are none where it has
    /// more than 256 symbols, holds anything but letters, or has no split into parts. The error
    /// means want of memory.
    pub fn readings(&self, alloc: Global, surface: &Word) -> Result<Words, Memory>
        ensures { IfOk result (λ words. words
            ≡ compound_readings (lexicon_of self.now.compiled self.now.sensitive)
            self.now.sensitive surface.now) }
    {
        let compiled = self.compiled.as_ref();
        let mut lives = LiveSections::start(alloc, compiled)?;
        readings_from(
            alloc,
            compiled,
            self.sensitive,
            &mut lives,
            surface.symbols(),
        )
    }
}

impl Stage for Compounds {
    ghost rest = { λ s. rest_of compounds_work s.seat };

    ghost pending = { λ s. s.seat.pending };

    ghost held = { λ s. held_of (λ h. held_size h.item) s.seat };

    ghost ended = { λ s. s.seat.ended };

    ghost fault = { λ s. s.seat.fault };

    fn take(&mut self, piece: &[u8]) -> Result<usize, StageFault> {
        self.stage.take(piece)
    }

    fn end(&mut self) -> Result<Finish, StageFault> {
        self.stage.end()
    }

    fn give(&mut self, into: &mut Pipe) -> usize {
        self.stage.give(into)
    }

    fn pending(&self) -> usize {
        self.stage.pending()
    }

    ghost rest_is = { λ s x. record {
      stop = (reads_of s.seat x).stop;
      made = compounds_work s.seat.handler (reads_of s.seat x).items;
      is = λ e. refl;
    } };
}
