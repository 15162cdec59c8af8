ghost use Rattle.std.specs.Prelude.{◌≡◌, ◌↔◌, ◌++◌, ◌∷◌, ℕ, [], List, IfOk, IfSome, OnOk, OnErr, IsTrue, length, map, take};
ghost use Rattle.std.specs.List.Sorted.{IsStrictlySortedBy};
ghost use Rattle.ap_symbol.specs.Rendering.{word_cmp};
ghost use Rattle.ap_symbol.specs.declared.symbol.Symbol.{Symbol};
ghost use Rattle.ap_fst.specs.Lists.{IsIn};
ghost use Rattle.ap_fst.specs.Machines.{Machine};
ghost use Rattle.ap_fst.specs.Silence.{HasNoEmptyCycle};
ghost use Rattle.ap_live.specs.Fitting.{Input};
ghost use Rattle.ap_live.specs.Least.{HoldLeast};
ghost use Rattle.ap_live.specs.Outlines.{IsOutline};
ghost use Rattle.ap_live.specs.Outputs.{IsOutput, WritesWords};
ghost use Rattle.ap_live.specs.Reached.{AreStates};
ghost use Rattle.ap_live.specs.Rows.{AreLiveRows, Reach};
ghost use Rattle.ap_live.specs.Trails.{input_of};

use crate::backward::backs_of;
use crate::held::{HeldRow, ends_finally, reaches_none};
use crate::least_ways::least_words;
use crate::outline::Outline;
use crate::picking::Pick;
use crate::rows::{fill_row, first_row, no_row};
use crate::some_ways::{may_be_many, some_back};
use crate::states::states_of;
use crate::taken::Taken;
use crate::wording::ordered_words;
use ap_fst::Fst;
use ap_symbol::{Case, Memory, Symbol, Word};
use std::alloc::Global;
use std::marker::Model;

/// For each number of inputs so far, from none on, the states that they reach and the edges by
/// which each was reached. They are as many as states, however many ways lead to these. No output
/// is kept: outputs are made back from the final states alone, so that a path that leads to none
/// costs nothing.
#[derive(Debug, Drop)]
pub struct LiveRows {
    rows: Vec<HeldRow>,
}

impl Model for LiveRows {
    ghost use Rattle.std.specs.Prelude.{List};
    ghost use Rattle.ap_live.specs.declared.rows.Row.{Row};

    ghost Value = { List Row };

    ghost view = { λ l. l.rows.items };
}

impl LiveRows {
    /// What no input reaches: the start, and all that edges with an empty left side lead to from
    /// it.
    pub(crate) fn start(alloc: Global, fst: &Fst, outline: &Outline) -> Result<LiveRows, Memory>
        ensures { IfOk result (λ rows. IsOutline fst.now.edges outline.now →
            AreLiveRows fst.now [] rows) }
    {
        let row = first_row(alloc, fst, outline)?;
        let mut rows = Vec::new(alloc);
        rows.push(HeldRow::new(row))?;
        Ok(LiveRows { rows })
    }

    /// Goes on by one input. After a refusal, which means want of memory, it is unchanged.
    pub(crate) fn step(
        &mut self,
        fst: &Fst,
        outline: &Outline,
        input: &Symbol,
        sensitive: bool,
    ) -> Result<(), Memory>
        ensures ok { OnOk result ((seen : List Input) → IsOutline fst.now.edges outline.now →
            AreLiveRows fst.now seen self.old → AreLiveRows fst.now
            (seen ++ record { symbol = input.now; sensitive = sensitive } ∷ []) self.new) }
        ensures err { OnErr result (self.new ≡ self.old) }
    {
        let Some(last) = self.rows.last() else {
            return Ok(());
        };
        let mut row = no_row(*self.rows.allocator());
        fill_row(
            fst,
            outline,
            last.states(),
            Pick::Fitting(input, sensitive),
            &mut row,
        )?;
        self.rows.push(HeldRow::new(row))?;
        Ok(())
    }

    /// What these inputs reach.
    pub(crate) fn along(
        alloc: Global,
        fst: &Fst,
        outline: &Outline,
        inputs: &[Taken],
    ) -> Result<LiveRows, Memory>
        ensures { IfOk result (λ rows. IsOutline fst.now.edges outline.now →
            AreLiveRows fst.now (map input_of inputs.now) rows) }
    {
        let mut rows = LiveRows::start(alloc, fst, outline)?;
        for taken in inputs {
            rows.step(fst, outline, &taken.symbol, taken.sensitive)?;
        }
        Ok(rows)
    }

    /// The outputs of the inputs so far, in the order of words, each once.
    pub(crate) fn words(&self, alloc: Global, fst: &Fst) -> Result<Vec<Word>, Memory>
        requires no_cycle { HasNoEmptyCycle fst.now }
        requires writes { WritesWords fst.now }
        ensures members { IfOk result (λ words. (seen : List Input) →
            AreLiveRows fst.now seen self.now → (w : List Symbol) →
            IsIn w words.items ↔ IsOutput fst.now seen w) }
        ensures order { IfOk result (λ words. IsStrictlySortedBy word_cmp words.items) }
    {
        let backs = backs_of(alloc, fst, self.rows.as_slice())?;
        ordered_words(alloc, backs)
    }

    /// Outputs of the inputs so far, of which one is no later than any other once the case is
    /// carried: all of them, or few where there may be more than a few thousand.
    pub(crate) fn least_words(
        &self,
        alloc: Global,
        fst: &Fst,
        case: Case,
    ) -> Result<Vec<Word>, Memory>
        requires no_cycle { HasNoEmptyCycle fst.now }
        requires writes { WritesWords fst.now }
        ensures { IfOk result (λ words. (seen : List Input) →
            AreLiveRows fst.now seen self.now → HoldLeast fst.now case seen words.items) }
    {
        if !may_be_many(self.rows.as_slice()) {
            return self.words(alloc, fst);
        }
        match least_words(alloc, fst, case, self.rows.as_slice())? {
            Some(words) => Ok(words),
            None => self.words(alloc, fst),
        }
    }

    /// Some of the outputs of the inputs so far, as many as there is room for their bytes or one
    /// more, where there may be more than a few thousand; and else none. One may stand twice.
    pub(crate) fn some_words(
        &self,
        alloc: Global,
        fst: &Fst,
        outline: &Outline,
        room: usize,
    ) -> Result<Vec<Word>, Memory>
        requires { WritesWords fst.now }
        ensures { IfOk result (λ words. IsOutline fst.now.edges outline.now →
            (seen : List Input) → AreLiveRows fst.now seen self.now → (w : List Symbol) →
            IsIn w words.items → IsOutput fst.now seen w) }
    {
        some_back(alloc, fst, outline, self.rows.as_slice(), room)
    }

    /// Whether the inputs reach a final state.
    pub(crate) fn accepts(&self) -> bool
        ensures { (m : Machine) (seen : List Input) → AreLiveRows m seen self.now →
            (IsTrue result ↔ ((s : ℕ) × (Reach m.edges seen s × IsIn s m.finals))) }
    {
        ends_finally(self.rows.as_slice())
    }

    /// Whether the inputs reach no state.
    pub(crate) fn reaches_none(&self) -> bool
        ensures { (m : Machine) (seen : List Input) → AreLiveRows m seen self.now →
            (IsTrue result ↔ ((s : ℕ) → Reach m.edges seen s → ⊥)) }
    {
        reaches_none(self.rows.as_slice())
    }

    /// The states that the inputs reach, in order, each once; none where they are many, or there is
    /// no memory for them.
    pub(crate) fn states(&self) -> Option<Vec<usize>>
        ensures { IfSome result (λ states. (m : Machine) (seen : List Input) →
            AreLiveRows m seen self.now → AreStates m.edges seen states.items) }
    {
        let Some(last) = self.rows.last() else {
            return None;
        };
        states_of(*self.rows.allocator(), last.states())
    }

    /// The number of inputs so far.
    pub(crate) fn len(&self) -> usize
        ensures { (m : Machine) (seen : List Input) → AreLiveRows m seen self.now →
            result ≡ length seen }
    {
        self.rows.len().saturating_sub(1)
    }

    /// Goes back to the first so many inputs; where there are no more, nothing changes.
    pub(crate) fn cut(&mut self, len: usize)
        ensures { (m : Machine) (seen : List Input) → AreLiveRows m seen self.old →
            AreLiveRows m (take len seen) self.new }
    {
        if self.rows.len() <= len {
            return;
        }
        self.rows.truncate(len + 1);
    }
}
