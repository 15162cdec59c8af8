ghost use Rattle.std.specs.Prelude.{◌≡◌, ℕ, true, false, None, Ok, Some, not, ◌++◌, ◌∷◌, [], List, take, IfOk, IfSome};
ghost use Rattle.ap_symbol.specs.Rendering.{rendering};
ghost use Rattle.ap_symbol.specs.declared.symbol.Symbol.{Symbol};
ghost use Rattle.ap_fst.specs.Lists.{IsIn};
ghost use Rattle.ap_fst.specs.Machines.{Machine};
ghost use Rattle.ap_fst.specs.Sections.{IsSection};
ghost use Rattle.ap_fst.specs.Silence.{HasNoEmptyCycle};
ghost use Rattle.ap_live.specs.Fitting.{Input};
ghost use Rattle.ap_live.specs.Found.{outputs, has_output, is_viable};
ghost use Rattle.ap_live.specs.Least.{HoldLeast};
ghost use Rattle.ap_live.specs.Outputs.{IsOutput, WritesWords};
ghost use Rattle.ap_live.specs.Lives.{Lives};
ghost use Rattle.ap_live.specs.Reached.{AreReached};
ghost use Rattle.ap_live.specs.Rows.{Reach};

use crate::live::Live;
use ap_fst::Fst;
use ap_symbol::{Bytes, Case, Memory, Symbol, Word, Words};
use std::alloc::Global;

/// What the symbols so far reach in one section of a compiled dictionary. A section without a final
/// state accepts nothing: no live set is held for it, so that a kind of sections without entries
/// costs no step anything. Where the symbols reach nothing, those that come behind them are counted
/// alone.
#[derive(Drop)]
pub struct SectionLive {
    live: Option<Live>,
    behind: usize,
}

impl SectionLive {
    ghost use Rattle.ap_live.specs.SectionLives.{IsSectionLive};

    /// What no symbol reaches. The error means want of memory.
    pub fn start(alloc: Global, fst: &Fst) -> Result<SectionLive, Memory>
        ensures { IfOk result (λ section. IsSectionLive fst.now [] section) }
    {
        if fst.finals().is_empty() {
            return Ok(SectionLive {
                live: None,
                behind: 0,
            });
        }
        let live = Live::start(alloc, fst)?;
        Ok(SectionLive {
            live: Some(live),
            behind: 0,
        })
    }

    /// Whether there is anything to go on from.
    fn is_held(&self) -> bool
        ensures { result ≡ false → self.now.live ≡ None }
    {
        self.live.is_some()
    }

    /// Whether a live set is held, and nothing is reached.
    fn is_over(&self) -> bool
        ensures over { result ≡ true → (m : Machine) (seen : List Input) →
            IsSectionLive m seen self.now → (s : ℕ) → Reach m.edges seen s → ⊥ }
        ensures held { result ≡ true → (live : Lives) × (self.now.live ≡ Some live) }
        ensures not { result ≡ false → (live : Lives) → self.now.live ≡ Some live →
            self.now.behind ≡ 0 }
    {
        match &self.live {
            None => false,
            Some(live) => self.behind > 0 || live.reaches_none(),
        }
    }

    /// Whether symbols are counted, so that nothing is reached.
    fn is_behind(&self) -> bool
        ensures over { result ≡ true → (m : Machine) (seen : List Input) →
            IsSectionLive m seen self.now → (s : ℕ) → Reach m.edges seen s → ⊥ }
        ensures not { result ≡ false → (live : Lives) → self.now.live ≡ Some live →
            self.now.behind ≡ 0 }
    {
        match &self.live {
            None => false,
            Some(_) => self.behind > 0,
        }
    }

    /// Counts a symbol more, where nothing is reached, and answers whether that was possible. If
    /// not, nothing was changed.
    fn pass(&mut self) -> bool
        ensures passed { result ≡ true → (m : Machine) (seen : List Input) (last : Input) →
            ((s : ℕ) → Reach m.edges seen s → ⊥) → IsSectionLive m seen self.old →
            IsSectionLive m (seen ++ last ∷ []) self.new }
        ensures stayed { result ≡ false → self.new ≡ self.old }
    {
        match self.behind.checked_add(1) {
            None => false,
            Some(more) => {
                self.behind = more;
                true
            }
        }
    }

    /// Goes on by a symbol where no symbol is counted yet, and answers whether there was memory for
    /// it. If not, nothing was changed.
    fn go_on(&mut self, fst: &Fst, input: &Symbol, sensitive: bool) -> bool
        requires { (live : Lives) → self.old.live ≡ Some live → self.old.behind ≡ 0 }
        ensures stepped { result ≡ true → (seen : List Input) → IsSectionLive fst.now seen self.old
            → IsSectionLive fst.now (seen ++ record { symbol = input.now; sensitive = sensitive }
            ∷ []) self.new }
        ensures stayed { result ≡ false → self.new ≡ self.old }
    {
        match &mut self.live {
            None => true,
            Some(live) => match live.step(fst, input, sensitive) {
                Ok(()) => true,
                Err(_) => false,
            },
        }
    }

    /// The same as `step`, with a look before it: for a kind of sections that mostly has no entries,
    /// or few, of which nothing is reached at most symbols.
    pub fn step_if_held(&mut self, fst: &Fst, input: &Symbol, sensitive: bool) -> bool
        ensures stepped { result ≡ true → (seen : List Input) → IsSectionLive fst.now seen self.old
            → IsSectionLive fst.now (seen ++ record { symbol = input.now; sensitive = sensitive }
            ∷ []) self.new }
        ensures stayed { result ≡ false → self.new ≡ self.old }
    {
        if !self.is_held() {
            return true;
        }
        if self.is_over() {
            return self.pass();
        }
        self.go_on(fst, input, sensitive)
    }

    /// Goes on by a symbol, and answers whether there was memory for it. If not, nothing was
    /// changed.
    pub fn step(&mut self, fst: &Fst, input: &Symbol, sensitive: bool) -> bool
        ensures stepped { result ≡ true → (seen : List Input) → IsSectionLive fst.now seen self.old
            → IsSectionLive fst.now (seen ++ record { symbol = input.now; sensitive = sensitive }
            ∷ []) self.new }
        ensures stayed { result ≡ false → self.new ≡ self.old }
    {
        if self.is_behind() {
            return self.pass();
        }
        self.go_on(fst, input, sensitive)
    }

    /// Takes the last symbol back, if it was stepped by. It takes no memory.
    pub fn take_back(&mut self, stepped: bool)
        ensures back { stepped ≡ true → (m : Machine) (seen : List Input) (last : Input) →
            IsSectionLive m (seen ++ last ∷ []) self.old → IsSectionLive m seen self.new }
        ensures stayed { stepped ≡ false → self.new ≡ self.old }
    {
        if !stepped {
            return;
        }
        if self.behind > 0 {
            self.behind -= 1;
            return;
        }
        match &mut self.live {
            None => {}
            Some(live) => {
                let before = live.len().saturating_sub(1);
                live.cut(before);
            }
        }
    }

    /// Goes back to the first so many symbols. It takes no memory.
    pub fn cut(&mut self, len: usize)
        ensures { (m : Machine) (seen : List Input) → IsSectionLive m seen self.old →
            IsSectionLive m (take len seen) self.new }
    {
        match &mut self.live {
            None => {}
            Some(live) => {
                let first = live.len();
                if len < first {
                    live.cut(len);
                    self.behind = 0;
                } else {
                    self.behind = self.behind.min(len - first);
                }
            }
        }
    }

    /// Whether the symbols so far fit no beginning of a left word of the section.
    pub fn is_dead(&self) -> bool
        ensures { (m : Machine) (seen : List Input) → IsSection m → IsSectionLive m seen self.now →
            result ≡ not (is_viable m seen) }
    {
        match &self.live {
            None => true,
            Some(live) => self.behind > 0 || live.is_dead(),
        }
    }

    /// The states that the symbols so far lead to, in order, each once: none of them where no live
    /// set is held. No list where they are many, or there is no memory for them.
    pub(crate) fn states(&self, alloc: Global) -> Option<Vec<usize>>
        ensures { IfSome result (λ states. (m : Machine) (seen : List Input) →
            IsSectionLive m seen self.now → AreReached m seen states.items) }
    {
        match &self.live {
            None => Some(Vec::new(alloc)),
            Some(live) => {
                if self.behind > 0 {
                    return Some(Vec::new(alloc));
                }
                live.states()
            }
        }
    }

    /// Whether some entry of the section reads the symbols so far. It makes no word.
    pub fn reads(&self, fst: &Fst) -> bool
        ensures { (seen : List Input) → HasNoEmptyCycle fst.now →
            IsSectionLive fst.now seen self.now → result ≡ has_output fst.now seen }
    {
        let _ = fst.states();
        match &self.live {
            None => false,
            Some(live) => self.behind == 0 && live.accepts(fst),
        }
    }

    /// What the entries of the section read in the symbols so far. Where none reads them, it takes
    /// no memory.
    pub fn readings(&self, alloc: Global, fst: &Fst) -> Result<Words, Memory>
        requires no_cycle { HasNoEmptyCycle fst.now }
        requires writes { WritesWords fst.now }
        ensures { IfOk result (λ words. (seen : List Input) → IsSectionLive fst.now seen self.now →
            words ≡ outputs fst.now seen) }
    {
        let _ = fst.states();
        match &self.live {
            None => Ok(Words::new(alloc)),
            Some(live) => {
                if self.behind > 0 {
                    return Ok(Words::new(alloc));
                }
                if !live.accepts(fst) {
                    return Ok(Words::new(alloc));
                }
                live.finals(alloc, fst)
            }
        }
    }

    /// Some of what the entries of the section read in the symbols so far, as many as there is room
    /// for their bytes or one more, where there may be more than a few thousand; and else none. One
    /// may stand twice.
    pub(crate) fn some_readings(
        &self,
        alloc: Global,
        fst: &Fst,
        room: usize,
    ) -> Result<Vec<Word>, Memory>
        requires { WritesWords fst.now }
        ensures { IfOk result (λ words. (seen : List Input) → IsSectionLive fst.now seen self.now →
            (w : List Symbol) → IsIn w words.items → IsOutput fst.now seen w) }
    {
        match &self.live {
            None => Ok(Vec::new(alloc)),
            Some(live) => {
                if self.behind > 0 {
                    return Ok(Vec::new(alloc));
                }
                live.some_words(alloc, fst, room)
            }
        }
    }

    /// Words that entries of the section read in the symbols so far, of which one is no later than
    /// any other once the case is carried: all of them, or few where there may be more than a few
    /// thousand.
    pub(crate) fn least_readings(
        &self,
        alloc: Global,
        fst: &Fst,
        case: Case,
    ) -> Result<Vec<Word>, Memory>
        requires no_cycle { HasNoEmptyCycle fst.now }
        requires writes { WritesWords fst.now }
        ensures { IfOk result (λ words. (seen : List Input) → IsSectionLive fst.now seen self.now →
            HoldLeast fst.now case seen words.items) }
    {
        match &self.live {
            None => Ok(Vec::new(alloc)),
            Some(live) => {
                if self.behind > 0 {
                    return Ok(Vec::new(alloc));
                }
                live.least_words(alloc, fst, case)
            }
        }
    }

    /// Appends the bytes of what the entries of the section read in the symbols so far, where that
    /// is one word, and answers whether it did. Where it didn't, and after a refusal, anything may
    /// have been appended.
    pub fn render_only(&self, fst: &Fst, into: &mut Bytes) -> Result<bool, Memory>
        requires no_cycle { HasNoEmptyCycle fst.now }
        requires writes { WritesWords fst.now }
        ensures { result ≡ Ok true → (seen : List Input) → IsSectionLive fst.now seen self.now →
            (word : List Symbol) × (outputs fst.now seen ≡ word ∷ [])
            × (into.new ≡ into.old ++ rendering word) }
    {
        match &self.live {
            None => Ok(false),
            Some(live) => {
                if self.behind > 0 {
                    return Ok(false);
                }
                live.render_only(fst, into)
            }
        }
    }
}
