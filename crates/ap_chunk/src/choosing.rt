ghost use Rattle.std.specs.Prelude.{◌≡◌, ◌↔◌, ◌++◌, ◌∷◌, [], ℕ, ◌+◌, ◌<◌, ◌^◌, List, Bool, length, IsTrue, IfOk, OnOk, None};
ghost use Rattle.ap_chunk.specs.Choice.{unit_of, IsChosen};
ghost use Rattle.ap_chunk.specs.Live.{Stands, SomeLive};
ghost use Rattle.ap_chunk.specs.Patterns.{patterns_of};

use crate::choice::Choice;
use crate::keeping::go_on;
use crate::patterns::Patterns;
use ap_rules::Rules;
use ap_symbol::Memory;
use std::alloc::Global;
use std::marker::Model;
use std::mem;

/// The choice of a rule, unit by unit: the rules that are live after the units so far, since these
/// fit the beginning of their patterns, which have more items; and the least rule whose pattern is
/// over there. Nothing is tried again from its beginning. Contracts see how far it has come.
#[derive(Drop)]
pub struct Choosing {
    patterns: Patterns,
    count: usize,
    live: Vec<usize>,
    /// Room for the rules that are live after one more unit.
    next: Vec<usize>,
    over: Option<usize>,
}

impl Model for Choosing {
    ghost use Rattle.ap_chunk.specs.Live.{Standing};

    ghost Value = { Standing };

    ghost view = { λ c. record {
      patterns = c.patterns;
      count = c.count;
      live =
          c.live.items;
      over = c.over;
    } };
}

impl Choosing {
    /// The choice among the rules of a file, before the first unit. The error means want of
    /// memory.
    pub fn new(alloc: Global, rules: &Rules) -> Result<Choosing, Memory>
        ensures patterns { IfOk result (λ made. made.patterns ≡ patterns_of rules.now) }
        ensures stands { IfOk result (λ made. Stands made []) }
    {
        let patterns = Patterns::new(alloc, rules)?;
        let over = patterns.without_items();
        Ok(Choosing {
            patterns,
            count: 0,
            live: Vec::new(alloc),
            next: Vec::new(alloc),
            over,
        })
    }

    /// Goes back to before the first unit, whatever came before. The room that was taken is kept.
    pub fn begin(&mut self)
        ensures patterns { self.new.patterns ≡ self.old.patterns }
        ensures stands { Stands self.new [] }
    {
        self.count = 0;
        self.live.clear();
        self.over = self.patterns.without_items();
    }

    /// Goes on by one unit, which has this row: for each category, in order, whether it is of that
    /// category. The error means want of memory; then `begin` is to be called before the next
    /// step.
    pub fn step(&mut self, unit: &[bool]) -> Result<(), Memory>
        ensures patterns { self.new.patterns ≡ self.old.patterns }
        ensures stands { OnOk result ((units : List (ℕ → Bool)) → length units + 1 < 2 ^ 64 →
            Stands self.old units → Stands self.new (units ++ unit_of unit.now ∷ [])) }
    {
        let over = go_on(
            &self.patterns,
            self.count,
            unit,
            self.live.as_slice(),
            &mut self.next,
        )?;
        mem::swap(&mut self.live, &mut self.next);
        self.over = over;
        self.count = self.count.saturating_add(1);
        Ok(())
    }

    /// Whether some rule is live: more units can lead to a longer match.
    pub fn goes_on(&self) -> bool
        ensures { (units : List (ℕ → Bool)) → Stands self.now units →
            IsTrue result ↔ SomeLive self.now.patterns units }
    {
        if self.count == 0 {
            return self.patterns.some_goes_on();
        }
        !self.live.is_empty()
    }

    /// The number of units so far.
    pub fn count(&self) -> usize
        ensures { result ≡ self.now.count }
    {
        self.count
    }

    /// The least rule whose pattern is over after the units so far.
    pub fn over(&self) -> Option<usize>
        ensures { result ≡ self.now.over }
    {
        self.over
    }

    /// What is chosen after one more unit: where a pattern is over there, its rule, and else what
    /// was chosen before.
    pub(crate) fn better(&self, before: Option<Choice>) -> Option<Choice>
        ensures more { (units : List (ℕ → Bool)) (u : ℕ → Bool) → Stands self.now (units ++ u ∷ [])
            → IsChosen self.now.patterns units before →
            IsChosen self.now.patterns (units ++ u ∷ []) result }
        ensures first { before ≡ None → Stands self.now [] → IsChosen self.now.patterns [] result }
    {
        match self.over {
            None => before,
            Some(rule) => Some(Choice {
                rule,
                size: self.count,
            }),
        }
    }
}
