ghost use Rattle.std.specs.Prelude.{◌≡◌, Bool, not, ◌&&◌, ◌++◌, ◌∷◌, [], List, Ok, take, true, OnOk, OnErr, IfOk, IfSome};
ghost use Rattle.ap_symbol.specs.Rendering.{rendering};
ghost use Rattle.ap_symbol.specs.declared.symbol.Symbol.{Symbol};
ghost use Rattle.ap_fst.specs.Lists.{IsIn};
ghost use Rattle.ap_fst.specs.Sections.{Parts};
ghost use Rattle.ap_live.specs.Least.{HoldsLeast};

use crate::met::Met;
use crate::section_live::SectionLive;
use ap_fst::{Compiled, Kind2};
use ap_symbol::{Bytes, Case, Memory, Symbol, Word, Words, one_rendering};
use std::alloc::Global;

/// What the symbols so far reach in each of the four sections of a compiled dictionary, which is
/// the same throughout. Only sections that accept something are stepped.
#[derive(Drop)]
pub struct LiveSections {
    standard: SectionLive,
    inconditional: SectionLive,
    postblank: SectionLive,
    preblank: SectionLive,
}

fn are_all(standard: bool, inconditional: bool, postblank: bool, preblank: bool) -> bool
    ensures { result ≡ (standard && inconditional && postblank && preblank) }
{
    standard && inconditional && postblank && preblank
}

impl LiveSections {
    ghost use Rattle.ap_live.specs.Found.{has_words};
    ghost use Rattle.ap_fst.specs.Sections.{section_of};
    ghost use Rattle.ap_live.specs.Lexicon.{lexicon_of, viable_in, inputs_of};
    ghost use Rattle.ap_live.specs.Readings.{any_words};
    ghost use Rattle.ap_live.specs.SectionLives.{AreLive, IsSectionLive};
    ghost use Rattle.ap_live.specs.Walks.{AreMet};

    /// What no symbol reaches. The error means want of memory.
    pub fn start(alloc: Global, compiled: &Compiled) -> Result<LiveSections, Memory>
        ensures { IfOk result (λ lives. (sensitive : Bool) →
            AreLive compiled.now sensitive [] lives) }
    {
        Ok(LiveSections {
            standard: SectionLive::start(alloc, compiled.section(Kind2::Standard))?,
            inconditional: SectionLive::start(alloc, compiled.section(Kind2::Inconditional))?,
            postblank: SectionLive::start(alloc, compiled.section(Kind2::Postblank))?,
            preblank: SectionLive::start(alloc, compiled.section(Kind2::Preblank))?,
        })
    }

    /// Goes on by a symbol. After a refusal, which means want of memory, the symbols so far are the
    /// same.
    pub fn step(
        &mut self,
        compiled: &Compiled,
        input: &Symbol,
        sensitive: bool,
    ) -> Result<(), Memory>
        ensures ok { OnOk result ((symbols : List Symbol) →
            AreLive compiled.now sensitive symbols self.old →
            AreLive compiled.now sensitive (symbols ++ input.now ∷ []) self.new) }
        ensures err { OnErr result ((symbols : List Symbol) →
            AreLive compiled.now sensitive symbols self.old →
            AreLive compiled.now sensitive symbols self.new) }
    {
        let standard = self
            .standard
            .step(compiled.section(Kind2::Standard), input, sensitive);
        let inconditional = self
            .inconditional
            .step_if_held(compiled.section(Kind2::Inconditional), input, sensitive);
        let postblank = self
            .postblank
            .step_if_held(compiled.section(Kind2::Postblank), input, sensitive);
        let preblank = self
            .preblank
            .step_if_held(compiled.section(Kind2::Preblank), input, sensitive);
        if are_all(standard, inconditional, postblank, preblank) {
            return Ok(());
        }
        self.standard.take_back(standard);
        self.inconditional.take_back(inconditional);
        self.postblank.take_back(postblank);
        self.preblank.take_back(preblank);
        Err(Memory)
    }

    /// Whether the symbols so far fit no beginning of a left word of any section.
    pub fn is_dead(&self, compiled: &Compiled) -> bool
        ensures { (sensitive : Bool) (symbols : List Symbol) →
            AreLive compiled.now sensitive symbols self.now →
            result ≡ not (viable_in compiled.now sensitive symbols) }
    {
        let _ = compiled.alphabet();
        let standard = self.standard.is_dead();
        if !standard {
            return false;
        }
        let inconditional = self.inconditional.is_dead();
        let postblank = self.postblank.is_dead();
        let preblank = self.preblank.is_dead();
        are_all(standard, inconditional, postblank, preblank)
    }

    /// What is reached in a section.
    fn section(&self, kind: Kind2) -> &SectionLive
        ensures { (p : Parts) (sensitive : Bool) (symbols : List Symbol) →
            AreLive p sensitive symbols self.now →
            IsSectionLive (section_of p kind) (inputs_of sensitive symbols) result.now }
    {
        match kind {
            Kind2::Standard => &self.standard,
            Kind2::Inconditional => &self.inconditional,
            Kind2::Postblank => &self.postblank,
            Kind2::Preblank => &self.preblank,
        }
    }

    /// Whether some entry of that kind reads the symbols so far. It makes no word.
    pub fn reads(&self, compiled: &Compiled, kind: Kind2) -> bool
        ensures { (sensitive : Bool) (symbols : List Symbol) →
            AreLive compiled.now sensitive symbols self.now →
            result ≡ has_words ((lexicon_of compiled.now sensitive).readings kind symbols) }
    {
        self.section(kind).reads(compiled.section(kind))
    }

    /// Whether some entry of any kind reads the symbols so far. It makes no word.
    pub fn reads_any(&self, compiled: &Compiled) -> bool
        ensures { (sensitive : Bool) (symbols : List Symbol) →
            AreLive compiled.now sensitive symbols self.now →
            result ≡ has_words (any_words (lexicon_of compiled.now sensitive) symbols) }
    {
        self.reads(compiled, Kind2::Standard)
            || self.reads(compiled, Kind2::Inconditional)
            || self.reads(compiled, Kind2::Postblank)
            || self.reads(compiled, Kind2::Preblank)
    }

    /// What the entries of that kind read in the symbols so far, in the order of words, each once.
    /// The error means want of memory.
    pub fn readings(&self, alloc: Global, compiled: &Compiled, kind: Kind2) -> Result<Words, Memory>
        ensures { IfOk result (λ words. (sensitive : Bool) (symbols : List Symbol) →
            AreLive compiled.now sensitive symbols self.now →
            words ≡ (lexicon_of compiled.now sensitive).readings kind symbols) }
    {
        self.section(kind).readings(alloc, compiled.section(kind))
    }

    /// Some of what the entries of that kind read in the symbols so far, as many as there is room
    /// for their bytes or one more, where there may be more than a few thousand; and else none. One
    /// may stand twice. The error means want of memory.
    pub fn some_readings(
        &self,
        alloc: Global,
        compiled: &Compiled,
        kind: Kind2,
        room: usize,
    ) -> Result<Vec<Word>, Memory>
        ensures { IfOk result (λ words. (sensitive : Bool) (symbols : List Symbol) →
            AreLive compiled.now sensitive symbols self.now → (w : List Symbol) →
            IsIn w words.items →
            IsIn w ((lexicon_of compiled.now sensitive).readings kind symbols)) }
    {
        one_rendering();
        self.section(kind)
            .some_readings(alloc, compiled.section(kind), room)
    }

    /// Words that entries of that kind read in the symbols so far, of which one is no later than any
    /// other once the case is carried: all of them, or few where there may be more than a few
    /// thousand. The error means want of memory.
    pub fn least_readings(
        &self,
        alloc: Global,
        compiled: &Compiled,
        kind: Kind2,
        case: Case,
    ) -> Result<Vec<Word>, Memory>
        ensures { IfOk result (λ words. (sensitive : Bool) (symbols : List Symbol) →
            AreLive compiled.now sensitive symbols self.now → HoldsLeast case
            ((lexicon_of compiled.now sensitive).readings kind symbols) words.items) }
    {
        one_rendering();
        self.section(kind)
            .least_readings(alloc, compiled.section(kind), case)
    }

    /// Appends the bytes of what the entries of that kind read in the symbols so far, where that is
    /// one word, and answers whether it did. Where it didn't, anything may have been appended: there
    /// may be several words or none, or one that isn't made so. The error means want of memory;
    /// then anything may have been appended too.
    pub fn render_only(
        &self,
        compiled: &Compiled,
        kind: Kind2,
        into: &mut Bytes,
    ) -> Result<bool, Memory>
        ensures { result ≡ Ok true → (sensitive : Bool) (symbols : List Symbol) →
            AreLive compiled.now sensitive symbols self.now → (word : List Symbol)
            × ((lexicon_of compiled.now sensitive).readings kind symbols ≡ word ∷ [])
            × (into.new ≡ into.old ++ rendering word) }
    {
        self.section(kind).render_only(compiled.section(kind), into)
    }

    /// What the walk meets where it stands; none where there are many states in a section, or there
    /// is no memory for them.
    pub(crate) fn met(&self, alloc: Global) -> Option<Met>
        ensures { IfSome result (λ met. (p : Parts) (sensitive : Bool) (symbols : List Symbol) →
            AreLive p sensitive symbols self.now → AreMet p sensitive symbols met) }
    {
        let standard = self.standard.states(alloc)?;
        let inconditional = self.inconditional.states(alloc)?;
        let postblank = self.postblank.states(alloc)?;
        let preblank = self.preblank.states(alloc)?;
        Some(Met {
            standard,
            inconditional,
            postblank,
            preblank,
        })
    }

    /// Goes back to the first so many symbols; where there are no more, nothing changes. It takes
    /// no memory.
    pub fn cut(&mut self, len: usize)
        ensures { (p : Parts) (sensitive : Bool) (symbols : List Symbol) →
            AreLive p sensitive symbols self.old → AreLive p sensitive (take len symbols) self.new }
    {
        self.standard.cut(len);
        self.inconditional.cut(len);
        self.postblank.cut(len);
        self.preblank.cut(len);
    }
}
