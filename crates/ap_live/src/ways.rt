ghost use Rattle.std.specs.Prelude.{◌≡◌, ◌↔◌, ◌++◌, ◌∷◌, ◌≤◌, ◌<◌, ℕ, [], List, IfOk, IfSome, None, Ok, OnOk, OnErr, IsTrue, Some, false, length, map, take, true};
ghost use Rattle.std.specs.List.Sorted.{IsStrictlySortedBy};
ghost use Rattle.ap_symbol.specs.Rendering.{word_cmp};
ghost use Rattle.ap_symbol.specs.declared.symbol.Symbol.{Symbol};
ghost use Rattle.ap_fst.specs.Lists.{IsIn};
ghost use Rattle.ap_fst.specs.Machines.{Machine};
ghost use Rattle.ap_fst.specs.Silence.{HasNoEmptyCycle};
ghost use Rattle.ap_live.specs.Fitting.{Input};
ghost use Rattle.ap_live.specs.Least.{HoldLeast};
ghost use Rattle.ap_live.specs.Outlines.{IsOutline};
ghost use Rattle.ap_live.specs.Outputs.{IsOutput, WritesWords};
ghost use Rattle.ap_live.specs.Reached.{AreStates};
ghost use Rattle.ap_live.specs.Rows.{AreLiveRows, Reach};
ghost use Rattle.ap_live.specs.Trails.{IsOnlyBytes, IsTrail, Trails, input_of};

use crate::live_rows::LiveRows;
use crate::outline::Outline;
use crate::taken::Taken;
use crate::trail::Trail;
use ap_fst::Fst;
use ap_symbol::{Bytes, Case, Memory, Symbol, Word};
use std::alloc::Global;

/// What the inputs so far reach: a node for each way, as long as the ways are few, and from then on
/// rows of states. The trail stays as it was when the ways became too many, and is gone on with
/// once the inputs are cut to those that it has. There is none where the ways of no input are too
/// many.
#[derive(Debug, Drop)]
pub struct Ways {
    pub trail: Option<Trail>,
    pub rows: Option<LiveRows>,
}

/// The rows after these inputs and one more.
fn rows_behind(
    alloc: Global,
    fst: &Fst,
    outline: &Outline,
    inputs: &[Taken],
    input: &Symbol,
    sensitive: bool,
) -> Result<LiveRows, Memory>
    ensures { IfOk result (λ rows. IsOutline fst.now.edges outline.now → AreLiveRows fst.now
        (map input_of inputs.now ++ record { symbol = input.now; sensitive = sensitive } ∷ [])
        rows) }
{
    let mut rows = LiveRows::along(alloc, fst, outline, inputs)?;
    rows.step(fst, outline, input, sensitive)?;
    Ok(rows)
}

/// Whether a trail has so many inputs.
fn has_inputs(trail: &Option<Trail>, len: usize) -> bool
    ensures yes { result ≡ true → (t : Trails) → trail.now ≡ Some t → len ≤ length t.inputs }
    ensures some { result ≡ true → trail.now ≡ None → ⊥ }
    ensures no { result ≡ false → (t : Trails) → trail.now ≡ Some t → length t.inputs < len }
{
    match trail {
        None => false,
        Some(trail) => len <= trail.inputs().len(),
    }
}

impl Ways {
    ghost use Rattle.ap_live.specs.Lives.{IsHeld};

    /// What no input reaches.
    pub(crate) fn start(alloc: Global, fst: &Fst, outline: &Outline) -> Result<Ways, Memory>
        ensures { IfOk result (λ ways. IsOutline fst.now.edges outline.now →
            IsHeld fst.now [] ways) }
    {
        let trail = Trail::start(alloc, fst, outline)?;
        if trail.is_some() {
            return Ok(Ways { trail, rows: None });
        }
        let rows = LiveRows::start(alloc, fst, outline)?;
        Ok(Ways {
            trail,
            rows: Some(rows),
        })
    }

    /// Goes on by one input. After a refusal, which means want of memory, it is unchanged.
    pub(crate) fn step(
        &mut self,
        fst: &Fst,
        outline: &Outline,
        input: &Symbol,
        sensitive: bool,
    ) -> Result<(), Memory>
        ensures ok { OnOk result ((seen : List Input) → IsOutline fst.now.edges outline.now →
            IsHeld fst.now seen self.old → IsHeld fst.now
            (seen ++ record { symbol = input.now; sensitive = sensitive } ∷ []) self.new) }
        ensures err { OnErr result (self.new ≡ self.old) }
    {
        if let Some(rows) = &mut self.rows {
            return rows.step(fst, outline, input, sensitive);
        }
        let Some(trail) = &mut self.trail else {
            return Ok(());
        };
        if trail.step(fst, outline, input, sensitive)? {
            return Ok(());
        }
        let alloc = trail.allocator();
        let rows = rows_behind(alloc, fst, outline, trail.inputs(), input, sensitive)?;
        self.rows = Some(rows);
        Ok(())
    }

    /// The outputs of the inputs so far, in the order of words, each once.
    pub(crate) fn words(
        &self,
        alloc: Global,
        fst: &Fst,
        outline: &Outline,
    ) -> Result<Vec<Word>, Memory>
        requires no_cycle { HasNoEmptyCycle fst.now }
        requires writes { WritesWords fst.now }
        ensures members { IfOk result (λ words. IsOutline fst.now.edges outline.now →
            (seen : List Input) → IsHeld fst.now seen self.now → (w : List Symbol) →
            IsIn w words.items ↔ IsOutput fst.now seen w) }
        ensures order { IfOk result (λ words. IsStrictlySortedBy word_cmp words.items) }
    {
        if let Some(rows) = &self.rows {
            return rows.words(alloc, fst);
        }
        match &self.trail {
            None => Ok(Vec::new(alloc)),
            Some(trail) => trail.words(alloc, fst, outline),
        }
    }

    /// Outputs of the inputs so far, of which one is no later than any other once the case is
    /// carried: all of them, or few where there may be more than a few thousand.
    pub(crate) fn least_words(
        &self,
        alloc: Global,
        fst: &Fst,
        outline: &Outline,
        case: Case,
    ) -> Result<Vec<Word>, Memory>
        requires no_cycle { HasNoEmptyCycle fst.now }
        requires writes { WritesWords fst.now }
        ensures { IfOk result (λ words. IsOutline fst.now.edges outline.now →
            (seen : List Input) → IsHeld fst.now seen self.now →
            HoldLeast fst.now case seen words.items) }
    {
        match &self.rows {
            None => self.words(alloc, fst, outline),
            Some(rows) => rows.least_words(alloc, fst, case),
        }
    }

    /// Some of the outputs of the inputs so far, as many as there is room for their bytes or one
    /// more, where there may be more than a few thousand; and else none. One may stand twice.
    pub(crate) fn some_words(
        &self,
        alloc: Global,
        fst: &Fst,
        outline: &Outline,
        room: usize,
    ) -> Result<Vec<Word>, Memory>
        requires { WritesWords fst.now }
        ensures { IfOk result (λ words. IsOutline fst.now.edges outline.now →
            (seen : List Input) → IsHeld fst.now seen self.now → (w : List Symbol) →
            IsIn w words.items → IsOutput fst.now seen w) }
    {
        match &self.rows {
            None => Ok(Vec::new(alloc)),
            Some(rows) => rows.some_words(alloc, fst, outline, room),
        }
    }

    /// Appends the bytes of the only output, where the ways are held and one alone leads to a final
    /// state, and answers whether it did.
    pub(crate) fn render_only(
        &self,
        fst: &Fst,
        outline: &Outline,
        into: &mut Bytes,
    ) -> Result<bool, Memory>
        requires { WritesWords fst.now }
        ensures { result ≡ Ok true → IsOutline fst.now.edges outline.now → (seen : List Input) →
            IsHeld fst.now seen self.now → IsOnlyBytes fst.now seen into.old into.new }
    {
        if self.rows.is_some() {
            return Ok(false);
        }
        match &self.trail {
            None => Ok(false),
            Some(trail) => trail.render_only(fst, outline, into),
        }
    }

    /// Whether the inputs reach a final state.
    pub(crate) fn accepts(&self, fst: &Fst) -> bool
        ensures { (seen : List Input) → IsHeld fst.now seen self.now →
            (IsTrue result ↔ ((s : ℕ) × (Reach fst.now.edges seen s × IsIn s fst.now.finals))) }
    {
        if let Some(rows) = &self.rows {
            return rows.accepts();
        }
        match &self.trail {
            None => false,
            Some(trail) => trail.accepts(fst),
        }
    }

    /// Whether the inputs reach no state.
    pub(crate) fn reaches_none(&self) -> bool
        ensures { (m : Machine) (seen : List Input) → IsHeld m seen self.now →
            (IsTrue result ↔ ((s : ℕ) → Reach m.edges seen s → ⊥)) }
    {
        if let Some(rows) = &self.rows {
            return rows.reaches_none();
        }
        match &self.trail {
            None => true,
            Some(trail) => trail.reaches_none(),
        }
    }

    /// The states that the inputs reach, in order, each once; none where they are many, or there is
    /// no memory for them.
    pub(crate) fn states(&self) -> Option<Vec<usize>>
        ensures { IfSome result (λ states. (m : Machine) (seen : List Input) →
            IsHeld m seen self.now → AreStates m.edges seen states.items) }
    {
        if let Some(rows) = &self.rows {
            return rows.states();
        }
        match &self.trail {
            None => None,
            Some(trail) => trail.states(),
        }
    }

    /// The number of inputs so far.
    pub(crate) fn len(&self) -> usize
        ensures { (m : Machine) (seen : List Input) → IsHeld m seen self.now →
            result ≡ length seen }
    {
        if let Some(rows) = &self.rows {
            return rows.len();
        }
        match &self.trail {
            None => 0,
            Some(trail) => trail.len(),
        }
    }

    /// Goes back to the first so many inputs of the trail, and lets the rows go.
    fn cut_trail(&mut self, len: usize)
        ensures { (m : Machine) (seen : List Input) (t : Trails) → self.old.trail ≡ Some t →
            IsTrail m.edges seen t → IsHeld m (take len seen) self.new }
    {
        self.rows = None;
        if let Some(trail) = &mut self.trail {
            trail.cut(len);
        }
    }

    /// Goes back to the first so many inputs; where there are no more, nothing changes. Rows are
    /// let go where the trail has these inputs.
    pub(crate) fn cut(&mut self, len: usize)
        ensures { (m : Machine) (seen : List Input) → IsHeld m seen self.old →
            IsHeld m (take len seen) self.new }
    {
        if self.rows.is_none() || has_inputs(&self.trail, len) {
            self.cut_trail(len);
            return;
        }
        if let Some(rows) = &mut self.rows {
            rows.cut(len);
        }
    }
}
