//! The search for a match at the front of items.
ghost use Rattle.std.specs.Prelude.{◌≡◌, ◌≢◌, ◌⊎◌, ◌+◌, ◌<◌, ◌≤◌, ◌^◌, ◌++◌, Bool, true, false, Ok, None, List, [], length, IfOk, IfSome};
ghost use Rattle.ap_rules.specs.declared.rules.Rules.{Rules};
ghost use Rattle.ap_stream.specs.declared.item.Read.{Read};
ghost use Rattle.ap_chunk.specs.Choice.{unit_of};
ghost use Rattle.ap_chunk.specs.Kept.{AllKept};
ghost use Rattle.ap_chunk.specs.Live.{SomeLive};
ghost use Rattle.ap_chunk.specs.Parts.{Part, unit, gap, wall, parts_of};
ghost use Rattle.ap_chunk.specs.Patterns.{patterns_of};
ghost use Rattle.ap_chunk.specs.Stages.{span};
ghost use Rattle.ap_chunk.specs.Tests.{row_of};
ghost use Rattle.ap_chunk.specs.Searching.{IsNext, IsWalk, IsLiveWalk, IsEnd, IsKnown, IsFront};

use crate::choice::Choice;
use crate::choosing::Choosing;
use crate::kept::Kept;
use crate::parts::{Kind, Room, look};
use ap_rules::Rules;
use ap_stream::Read;
use ap_symbol::Memory;
use std::alloc::Global;

/// What stands at the front of items: the rule that is chosen, with the number of items that its
/// units take, and how many items must be seen together.
#[derive(Clone, Copy, Debug)]
pub(crate) struct Front {
    pub(crate) choice: Option<Choice>,
    pub(crate) taken: usize,
    pub(crate) span: usize,
}

/// A walk over the items at the front, as far as they are seen together: how far the choice has
/// come, how many items were looked at, whether a blank may come next, and the best rule so far
/// with the number of items that it takes.
#[derive(Drop)]
pub(crate) struct Walk {
    pub(crate) choosing: Choosing,
    pub(crate) seen: usize,
    pub(crate) after: bool,
    pub(crate) best: Option<Choice>,
    pub(crate) taken: usize,
}

impl Walk {
    /// A walk that has looked at nothing.
    fn start(alloc: Global, rules: &Rules) -> Result<Walk, Memory>
        ensures patterns { IfOk result (λ walk. walk.choosing.patterns ≡ patterns_of rules.now) }
        ensures walk { IfOk result (λ walk. (parts : List Part) → IsWalk parts walk) }
    {
        let choosing = Choosing::new(alloc, rules)?;
        let best = choosing.better(None);
        Ok(Walk {
            choosing,
            seen: 0,
            after: false,
            best,
            taken: 0,
        })
    }

    /// Begins anew, whatever came before.
    fn restart(&mut self)
        ensures patterns { self.new.choosing.patterns ≡ self.old.choosing.patterns }
        ensures walk { (parts : List Part) → IsWalk parts self.new }
    {
        self.choosing.begin();
        self.seen = 0;
        self.after = false;
        self.best = self.choosing.better(None);
        self.taken = 0;
    }

    /// Goes on over a blank, where one may come.
    fn step_blank(&mut self) -> bool
        requires bounded { self.old.seen + 1 < 2 ^ 64 }
        ensures patterns { self.new.choosing.patterns ≡ self.old.choosing.patterns }
        ensures further { result ≡ true → self.new.seen ≡ self.old.seen + 1 }
        ensures on { result ≡ true → (parts : List Part) → IsLiveWalk parts self.old →
            IsNext parts self.old.seen gap → IsWalk parts self.new }
        ensures ends { result ≡ false → (parts : List Part) → IsLiveWalk parts self.old →
            IsNext parts self.old.seen gap → IsEnd false parts self.new }
    {
        if self.after {
            self.seen += 1;
            self.after = false;
            return true;
        }
        false
    }

    /// Goes on over a unit with this row, if a pattern begins with the units up to it.
    fn step_unit(&mut self, row: &[bool]) -> Result<bool, Memory>
        requires bounded { self.old.seen + 1 < 2 ^ 64 }
        ensures patterns { self.new.choosing.patterns ≡ self.old.choosing.patterns }
        ensures further { result ≡ Ok true → self.new.seen ≡ self.old.seen + 1 }
        ensures on { result ≡ Ok true → (parts : List Part) → IsLiveWalk parts self.old →
            IsNext parts self.old.seen (unit (unit_of row.now)) → IsWalk parts self.new }
        ensures ends { result ≡ Ok false → (parts : List Part) → IsLiveWalk parts self.old →
            IsNext parts self.old.seen (unit (unit_of row.now)) → IsEnd false parts self.new }
    {
        self.choosing.step(row)?;
        match self.choosing.over() {
            None => {
                if !self.choosing.goes_on() {
                    return Ok(false);
                }
            }
            Some(rule) => {
                self.best = Some(Choice {
                    rule,
                    size: self.choosing.count(),
                });
                self.taken = self.seen + 1;
                self.seen += 1;
                self.after = true;
                return Ok(true);
            }
        }
        self.seen += 1;
        self.after = true;
        Ok(true)
    }

    /// Looks at the next item, and answers whether it is seen together with those before it.
    fn step(
        &mut self,
        rules: &Rules,
        reads: &[Read],
        kept: &mut Kept,
        room: &mut Room,
    ) -> Result<bool, Memory>
        requires kept { AllKept (row_of rules.now) kept.old }
        requires walk { IsLiveWalk (parts_of rules.now reads.now) self.old }
        requires more { self.old.seen < length reads.now }
        ensures patterns { self.new.choosing.patterns ≡ self.old.choosing.patterns }
        ensures on { result ≡ Ok true → IsWalk (parts_of rules.now reads.now) self.new }
        ensures further { result ≡ Ok true → self.new.seen ≡ self.old.seen + 1 }
        ensures ends { result ≡ Ok false → IsEnd false (parts_of rules.now reads.now) self.new }
        ensures kept { AllKept (row_of rules.now) kept.new }
    {
        match look(rules, &reads[self.seen].item, kept, room)? {
            Kind::Other => Ok(false),
            Kind::Blank => Ok(self.step_blank()),
            Kind::Unit => self.step_unit(room.row.as_slice()),
        }
    }

    /// Whether an item more may be seen together with those that were looked at.
    fn is_live(&self) -> bool
        ensures live { result ≡ true → (parts : List Part) → IsWalk parts self.now →
            IsLiveWalk parts self.now }
        ensures dead { result ≡ false → (parts : List Part) → IsWalk parts self.now →
            IsEnd false parts self.now }
    {
        self.choosing.goes_on()
    }

    /// Looks at items while they are seen together, and answers whether it is known that no further
    /// one is.
    fn step_on(
        &mut self,
        rules: &Rules,
        reads: &[Read],
        kept: &mut Kept,
        room: &mut Room,
    ) -> Result<bool, Memory>
        requires walk { IsWalk (parts_of rules.now reads.now) self.old }
        requires kept { AllKept (row_of rules.now) kept.old }
        ensures patterns { self.new.choosing.patterns ≡ self.old.choosing.patterns }
        ensures ends { result ≡ Ok true → IsEnd false (parts_of rules.now reads.now) self.new }
        ensures all { result ≡ Ok false → IsWalk (parts_of rules.now reads.now) self.new }
        ensures at { result ≡ Ok false → self.new.seen ≡ length reads.now }
        ensures kept { AllKept (row_of rules.now) kept.new }
    {
        while self.is_live() {
            if self.seen == reads.len() {
                return Ok(false);
            }
            let on = self.step(rules, reads, kept, room)?;
            if !on {
                return Ok(true);
            }
        }
        Ok(true)
    }
}

/// A search for a match at the front of the held items. It goes on from where it stands when
/// further items come.
#[derive(Drop)]
pub(crate) struct Search {
    pub(crate) walk: Walk,
    /// The walk is to begin anew.
    pub(crate) lost: bool,
    pub(crate) room: Room,
}

impl Search {
    pub(crate) fn start(alloc: Global, rules: &Rules) -> Result<Search, Memory>
        ensures { IfOk result (λ search. IsKnown rules.now [] search) }
    {
        Ok(Search {
            walk: Walk::start(alloc, rules)?,
            lost: false,
            room: Room::new(alloc),
        })
    }

    /// Begins anew at the front of other items.
    pub(crate) fn restart(&mut self)
        ensures { (rules : Rules) (old new : List Read) → IsKnown rules old self.old →
            IsKnown rules new self.new }
    {
        self.lost = true;
    }

    /// The walk begins anew, where it is to. It is lost until it waits for an item.
    fn set_out(&mut self)
        ensures walk { (rules : Rules) (reads : List Read) → IsKnown rules reads self.old →
            IsWalk (parts_of rules reads) self.new.walk }
        ensures patterns { self.new.walk.choosing.patterns ≡ self.old.walk.choosing.patterns }
        ensures lost { self.new.lost ≡ true }
    {
        if self.lost {
            self.walk.restart();
            return;
        }
        self.lost = true;
    }

    /// What stands at the front of the items; none where an item more is wanted.
    pub(crate) fn look(
        &mut self,
        rules: &Rules,
        reads: &[Read],
        finished: bool,
        kept: &mut Kept,
    ) -> Result<Option<Front>, Memory>
        requires known { IsKnown rules.now reads.now self.old }
        requires kept { AllKept (row_of rules.now) kept.old }
        ensures known { IsKnown rules.now reads.now self.new }
        ensures found { IfOk result (λ look. IfSome look (IsFront finished rules.now reads.now)) }
        ensures waits { result ≡ Ok None → finished ≡ false }
        ensures all { result ≡ Ok None → span rules.now reads.now ≡ length reads.now }
        ensures grows { result ≡ Ok None → (xs : List Read) →
            length reads.now ≤ span rules.now (reads.now ++ xs) }
        ensures kept { AllKept (row_of rules.now) kept.new }
    {
        self.set_out();
        let ends = self.walk.step_on(rules, reads, kept, &mut self.room)?;
        if !ends && !finished {
            self.lost = false;
            return Ok(None);
        }
        Ok(Some(Front {
            choice: self.walk.best,
            taken: self.walk.taken,
            span: self.walk.seen,
        }))
    }
}
