ghost use Rattle.std.specs.Prelude.{◌≡◌, ℕ, ◌++◌, ◌∷◌, ◌↔◌, [], List, IfOk, IfSome, Ok, OnOk, OnErr, IsTrue, true, length, take, not};
ghost use Rattle.std.specs.List.Sorted.{IsStrictlySortedBy};
ghost use Rattle.ap_symbol.specs.Rendering.{rendering, word_cmp};
ghost use Rattle.ap_symbol.specs.declared.symbol.Symbol.{Symbol};
ghost use Rattle.ap_fst.specs.Lists.{IsIn};
ghost use Rattle.ap_fst.specs.Machines.{Machine, IsMachine};
ghost use Rattle.ap_fst.specs.Silence.{HasNoEmptyCycle};
ghost use Rattle.ap_fst.specs.Trimming.{IsTrimmed};
ghost use Rattle.ap_live.specs.Least.{HoldLeast};

use crate::outline::{Outline, outline_of};
use crate::ways::Ways;
use ap_fst::Fst;
use ap_symbol::{Bytes, Case, Memory, Symbol, Word, Words};
use std::alloc::Global;
use std::marker::Model;

/// What the inputs so far reach in a transducer: the ways that they lead along, for each number of
/// inputs, from none on. It keeps no output; `finals` makes the outputs, back from the final states
/// alone, so that a way that leads to none costs nothing.
///
/// A transducer reads its left sides. Its symbols fit the inputs one by one, each under the flag
/// for case of its own step.
///
/// `outline` is that of the transducer that it was started for.
#[derive(Debug, Drop)]
pub struct Live {
    ways: Ways,
    outline: Outline,
    is_void: bool,
}

impl Model for Live {
    ghost use Rattle.ap_live.specs.Lives.{Lives};

    ghost Value = { Lives };

    ghost view = { λ l. record {
      ways = l.ways;
      outline = l.outline;
      is_void = l.is_void;
    } };
}

fn has_no_final(fst: &Fst) -> bool
    ensures { IsTrue result ↔ (fst.now.finals ≡ []) }
{
    fst.finals().is_empty()
}

impl Live {
    ghost use Rattle.ap_live.specs.Fitting.{Input};
    ghost use Rattle.ap_live.specs.Lives.{IsLive};
    ghost use Rattle.ap_live.specs.Reached.{AreStates};
    ghost use Rattle.ap_live.specs.Rows.{Reach};
    ghost use Rattle.ap_live.specs.Outputs.{IsOutput, FitBeginning, WritesWords};
    ghost use Rattle.ap_live.specs.Found.{outputs, has_output, is_viable};

    /// What no input reaches: the start, and all that edges with an empty left side lead to from
    /// it.
    pub fn start(alloc: Global, fst: &Fst) -> Result<Live, Memory>
        ensures { IfOk result (λ live. IsLive fst.now [] live) }
    {
        let outline = outline_of(alloc, fst)?;
        let ways = Ways::start(alloc, fst, &outline)?;
        let is_void = has_no_final(fst);
        Ok(Live {
            ways,
            outline,
            is_void,
        })
    }

    /// Goes on by one input of the same transducer: over the edges whose left symbol fits it, and
    /// then over those with an empty left side. `sensitive` says whether case counts at this step.
    /// After a refusal, which means want of memory, it is unchanged.
    pub fn step(&mut self, fst: &Fst, input: &Symbol, sensitive: bool) -> Result<(), Memory>
        ensures ok { OnOk result ((seen : List Input) → IsLive fst.now seen self.old →
            IsLive fst.now (seen ++ record { symbol = input.now; sensitive = sensitive }
            ∷ []) self.new) }
        ensures err { OnErr result (self.new ≡ self.old) }
    {
        self.ways.step(fst, &self.outline, input, sensitive)
    }

    /// The outputs of the inputs so far, for the same transducer, which has no cycle of edges with
    /// an empty left side and no white-space letter on a right side: the right words of exactly the
    /// accepted label lists whose left word fits the inputs, ascending by their rendered bytes,
    /// each once.
    pub fn finals(&self, alloc: Global, fst: &Fst) -> Result<Words, Memory>
        requires no_cycle { HasNoEmptyCycle fst.now }
        requires writes { WritesWords fst.now }
        ensures found { IfOk result (λ words. (seen : List Input) → IsLive fst.now seen self.now →
            words ≡ outputs fst.now seen) }
        ensures outputs { IfOk result (λ words. (seen : List Input) → IsLive fst.now seen self.now →
            (output : List Symbol) → IsIn output words ↔ IsOutput fst.now seen output) }
        ensures order { IfOk result (λ words. IsStrictlySortedBy word_cmp words) }
    {
        let _ = fst.states();
        let words = self.ways.words(alloc, fst, &self.outline)?;
        Ok(Words::from_vec(words))
    }

    /// Words that `finals` would give, of which one is no later than any other once the case is
    /// carried: all of them, or few where it may give more than a few thousand.
    pub(crate) fn least_words(
        &self,
        alloc: Global,
        fst: &Fst,
        case: Case,
    ) -> Result<Vec<Word>, Memory>
        requires no_cycle { HasNoEmptyCycle fst.now }
        requires writes { WritesWords fst.now }
        ensures { IfOk result (λ words. (seen : List Input) → IsLive fst.now seen self.now →
            HoldLeast fst.now case seen words.items) }
    {
        self.ways.least_words(alloc, fst, &self.outline, case)
    }

    /// Some of the words that `finals` would give, as many as there is room for their bytes or one
    /// more, where it may give more than a few thousand; and else none. One may stand twice.
    pub(crate) fn some_words(
        &self,
        alloc: Global,
        fst: &Fst,
        room: usize,
    ) -> Result<Vec<Word>, Memory>
        requires { WritesWords fst.now }
        ensures { IfOk result (λ words. (seen : List Input) → IsLive fst.now seen self.now →
            (w : List Symbol) → IsIn w words.items → IsOutput fst.now seen w) }
    {
        self.ways.some_words(alloc, fst, &self.outline, room)
    }

    /// Appends the bytes of the word that `finals` would give, where it is one, and answers whether
    /// it did. Where it didn't, and after a refusal, anything may have been appended.
    pub fn render_only(&self, fst: &Fst, into: &mut Bytes) -> Result<bool, Memory>
        requires no_cycle { HasNoEmptyCycle fst.now }
        requires writes { WritesWords fst.now }
        ensures { result ≡ Ok true → (seen : List Input) → IsLive fst.now seen self.now →
            (word : List Symbol) × (outputs fst.now seen ≡ word ∷ [])
            × (into.new ≡ into.old ++ rendering word) }
    {
        let _ = fst.states();
        self.ways.render_only(fst, &self.outline, into)
    }

    /// Whether `finals` would give a word: whether an accepted label list has a left word that fits
    /// the inputs so far. It makes no word and takes no memory.
    pub fn accepts(&self, fst: &Fst) -> bool
        ensures some { (seen : List Input) → IsLive fst.now seen self.now →
            (IsTrue result ↔ ((output : List Symbol) × IsOutput fst.now seen output)) }
        ensures found { (seen : List Input) → HasNoEmptyCycle fst.now → IsLive fst.now seen self.now
            → result ≡ has_output fst.now seen }
    {
        let _ = fst.states();
        self.ways.accepts(fst)
    }

    /// The number of inputs so far.
    pub fn len(&self) -> usize
        ensures { (m : Machine) (seen : List Input) → IsLive m seen self.now →
            result ≡ length seen }
    {
        self.ways.len()
    }

    /// Goes back to the first so many inputs; where there are no more, nothing changes. 0 makes it
    /// what `start` gave. It takes no memory.
    pub fn cut(&mut self, len: usize)
        ensures { (m : Machine) (seen : List Input) → IsLive m seen self.old →
            IsLive m (take len seen) self.new }
    {
        self.ways.cut(len);
    }

    /// Whether the inputs reach no state. It takes no memory.
    pub(crate) fn reaches_none(&self) -> bool
        ensures { (m : Machine) (seen : List Input) → IsLive m seen self.now →
            (IsTrue result ↔ ((s : ℕ) → Reach m.edges seen s → ⊥)) }
    {
        self.ways.reaches_none()
    }

    /// The states that the inputs reach, in order, each once; none where they are many, or there is
    /// no memory for them.
    pub(crate) fn states(&self) -> Option<Vec<usize>>
        ensures { IfSome result (λ states. (m : Machine) (seen : List Input) →
            IsLive m seen self.now → AreStates m.edges seen states.items) }
    {
        self.ways.states()
    }

    /// Whether the inputs fit no beginning of the left word of an accepted label list. This is
    /// exact for a trimmed transducer, which is the same throughout. It takes no memory.
    pub fn is_dead(&self) -> bool
        ensures none { (m : Machine) (seen : List Input) → IsMachine m → IsTrimmed m →
            IsLive m seen self.now → (IsTrue result ↔ (FitBeginning m seen → ⊥)) }
        ensures found { (m : Machine) (seen : List Input) → IsMachine m → HasNoEmptyCycle m →
            IsTrimmed m → IsLive m seen self.now → result ≡ not (is_viable m seen) }
    {
        self.is_void || self.ways.reaches_none()
    }
}
