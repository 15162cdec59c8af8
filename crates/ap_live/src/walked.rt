ghost use Rattle.std.specs.Prelude.{◌≡◌, ◌⊎◌, IfSome, true};
ghost use Rattle.ap_fst.specs.Lists.{IsIn};
ghost use Rattle.ap_live.specs.declared.notes.Note.{Note};

use crate::live_sections::LiveSections;
use crate::notes::{Notes, STRIDE};
use ap_fst::Compiled;
use std::alloc::Global;
use std::mem;

/// Where the later notes have so many numbers, the earlier ones are forgotten, and they take their
/// place.
const MOST_NUMBERS: usize = 131_072;

/// What earlier walks met, place by place: a help, so that a walk that is in the same states at the
/// same place need not go on. What comes of it is known by the number that its caller put beside
/// the note, as how far the earlier walk went on, in vain.
///
/// Places are counted in symbols, from the first held one. Only each eighth place of the text has
/// notes: a walk stands at one after seven symbols at most. It takes memory for some 262,144 numbers
/// and their lists, at most; then the earlier notes are forgotten.
#[derive(Drop)]
pub struct Walked {
    recent: Notes,
    earlier: Notes,
    passed: usize,
    last: usize,
}

impl Walked {
    ghost use Rattle.ap_live.specs.Walks.{AddsNote, IsBlank, IsMetAt, MovesDown};

    /// Nothing is noted. It takes no memory.
    pub fn new(alloc: Global) -> Walked
        ensures { IsBlank result }
    {
        Walked {
            recent: Notes::new(alloc),
            earlier: Notes::new(alloc),
            passed: 0,
            last: 0,
        }
    }

    /// Whether nothing is noted.
    pub fn is_blank(&self) -> bool
        ensures { result ≡ true → IsBlank self.now }
    {
        self.recent.is_empty() && self.earlier.is_empty()
    }

    /// Forgets all, and gives the memory back.
    pub fn forget(&mut self)
        ensures { IsBlank self.new }
    {
        *self = Walked::new(self.recent.allocator());
    }

    /// The first so many held symbols leave: places are that much less, and what was met in front
    /// of the first held one is forgotten. Where nothing is noted behind it, the memory is given
    /// back.
    pub fn pass(&mut self, count: usize)
        ensures { MovesDown count self.old self.new }
    {
        if self.is_blank() {
            return;
        }
        match self.passed.checked_add(count) {
            None => self.forget(),
            Some(passed) => {
                if self.last <= passed {
                    self.forget();
                } else {
                    self.passed = passed;
                }
            }
        }
    }

    /// Notes what the walk meets that stands so many symbols behind the first held one, with a
    /// number beside it. Where the place has no notes, or has sixteen, a section has more than 64
    /// states or ways there, or there is no memory for a note, it isn't noted.
    pub fn note(&mut self, place: usize, ahead: usize, lives: &LiveSections)
        ensures { AddsNote place ahead lives.now self.old self.new }
    {
        let Some(place) = self.passed.checked_add(place) else {
            return;
        };
        if place % STRIDE != 0 || self.recent.is_full(place) {
            return;
        }
        let Some(met) = lives.met(self.recent.allocator()) else {
            return;
        };
        self.make_room();
        self.recent.add(place, ahead, met);
        self.last = self.last.max(place);
    }

    /// Where the later notes are many, forgets the earlier ones. The later ones take their place.
    fn make_room(&mut self)
        ensures kept { (note : Note) → IsIn note self.new.recent ⊎ IsIn note self.new.earlier →
            IsIn note self.old.recent ⊎ IsIn note self.old.earlier }
        ensures passed { self.new.passed ≡ self.old.passed }
    {
        if self.recent.numbers() < MOST_NUMBERS {
            return;
        }
        let blank = Notes::new(self.recent.allocator());
        self.earlier = mem::replace(&mut self.recent, blank);
    }

    /// The number beside a note that at this place the same was met as this walk meets, which
    /// stands there. None where no such note is found, the place has sixteen notes, or there is no
    /// memory to look for it.
    pub fn meets(&self, compiled: &Compiled, place: usize, lives: &LiveSections) -> Option<usize>
        ensures { IfSome result (IsMetAt compiled.now self.now place lives.now) }
    {
        if self.is_blank() {
            return None;
        }
        let place = self.passed.checked_add(place)?;
        if place % STRIDE != 0 || self.recent.is_full(place) {
            return None;
        }
        if self.recent.chain(place) == 0 && self.earlier.chain(place) == 0 {
            return None;
        }
        let met = lives.met(self.recent.allocator())?;
        let _ = compiled.alphabet();
        match self.recent.find(place, &met) {
            None => self.earlier.find(place, &met),
            found => found,
        }
    }
}
