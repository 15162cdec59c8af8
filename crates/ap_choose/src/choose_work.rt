ghost use Rattle.std.specs.Prelude.{◌≡◌, ◌⊎◌, ◌<◌, ◌≤◌, ◌||◌, ◌&&◌, [], length, nat_lt, not, true, false, IfOk, if◌then◌else◌};
ghost use Rattle.ap_stream.specs.declared.TheConstants.{SPAN_MAX};
ghost use Rattle.ap_stream.specs.Steps.{bytes_of};
ghost use Rattle.ap_choose.specs.Sentences.{begins_unit, sentence_text, first_spelled};
ghost use Rattle.ap_choose.specs.Works.{choose_work, span, is_over as over_test, step_length, given_text};

use crate::chance::Hints;
use crate::choosing::choose;
use crate::forbidden::Forbidden;
use crate::numbers::Numbers;
use crate::sentence::{is_last, is_unit, units_of, write_items};
use ap_stream::{Handler, LimitKind, Names, Queue, Read, SPAN_MAX, StageFault, Turn, write_item};
use ap_symbol::{Bytes, Memory, Word};
use std::alloc::Global;
use std::marker::Model;
use std::mem;

/// The place of a sentence's last unit, counted from 0, where none before ends it.
const LAST_UNIT: usize = 999;

/// The choosing of readings: a `Handler` over the items of an analysed text. At a unit it holds
/// the items of its sentence, and looks at each of them once while further ones come; every other
/// item is copied.
#[derive(Drop)]
pub struct ChooseWork {
    alloc: Global,
    forbidden: Forbidden,
    numbers: Numbers,
    hints: Hints,
    /// The names of tags that were read last.
    names: Names,
    /// Room for a reading.
    room: Word,
    /// Room for what a step writes.
    text: Bytes,
    items: Queue,
    /// How many of the items are units.
    units: usize,
    /// Whether the sentence at the front is over, or the item at the front begins none.
    over: bool,
    finished: bool,
}

impl Model for ChooseWork {
    ghost use Rattle.std.specs.List.{AllByRecursion};
    ghost use Rattle.ap_stream.specs.Reading.{IsRead};
    ghost use Rattle.ap_stream.specs.declared.dialect.Dialect.TheVariants.{Analysed};
    ghost use Rattle.ap_choose.specs.Numbering.{IsNumbering};
    ghost use Rattle.ap_choose.specs.Works.{Choosing, IsHeld};

    ghost Value = { Choosing };

    ghost view = { λ w. record { pairs = w.forbidden; items = w.items; finished = w.finished } };

    ghost invariant = { λ w. IsNumbering w.forbidden w.numbers
        × AllByRecursion (IsRead Analysed) w.items × IsHeld w.items w.units w.over };
}

/// Whether an item ends its sentence, or begins none: the first of the items, so many units with
/// it.
fn ends(first: bool, units: usize, unit: bool, last: bool) -> bool
    ensures { result ≡ ((first && not unit) || (last || nat_lt 999 units)) }
{
    (first && !unit) || last || units > LAST_UNIT
}

/// How many units an item is.
fn counted(unit: bool) -> usize
    ensures { result ≡ (if unit then 1 else 0) }
{
    if unit { 1 } else { 0 }
}

/// No bytes, in the room of those that are kept.
fn take_room(alloc: Global, kept: &mut Bytes) -> Bytes
    ensures { result ≡ [] }
{
    let mut text = mem::replace(kept, Bytes::new(alloc));
    text.clear();
    text
}

impl ChooseWork {
    ghost use Rattle.std.specs.List.{AllByRecursion};
    ghost use Rattle.ap_stream.specs.Reading.{IsRead};
    ghost use Rattle.ap_stream.specs.declared.dialect.Dialect.TheVariants.{Analysed};
    ghost use Rattle.ap_choose.specs.Works.{IsFirstPlace};

    /// The work by these pairs, which holds nothing. The error means want of memory.
    pub fn new(alloc: Global, forbidden: Forbidden) -> Result<ChooseWork, Memory>
        ensures pairs { IfOk result (λ work. work.pairs ≡ forbidden) }
        ensures items { IfOk result (λ work. work.items ≡ []) }
        ensures finished { IfOk result (λ work. work.finished ≡ false) }
    {
        let numbers = Numbers::of(alloc, forbidden.as_slice())?;
        let hints = Hints::new(alloc, numbers.len())?;
        Ok(ChooseWork {
            alloc,
            forbidden,
            numbers,
            hints,
            names: Names::new(alloc),
            room: Word::new(alloc),
            text: Bytes::new(alloc),
            items: Queue::new(alloc),
            units: 0,
            over: false,
            finished: false,
        })
    }

    /// The number of held items.
    fn held_count(&self) -> usize
        ensures { result ≡ length self.now.items }
    {
        self.items.len()
    }

    fn held_bytes(&self) -> u64
        ensures { result ≡ bytes_of self.now.items }
    {
        self.items.bytes()
    }

    fn is_finished(&self) -> bool
        ensures { result ≡ self.now.finished }
    {
        self.finished
    }

    /// What is known of every state of the work.
    fn know(&self)
        ensures whole { length self.now.items ≤ step_length self.now.items }
        ensures items { AllByRecursion (IsRead Analysed) self.now.items }
    {
        let _over = self.over;
    }

    /// Whether an item is wanted: the sentence of the held items isn't over, and items may come.
    fn is_waiting(&self) -> bool
        ensures yes { result ≡ true → (over_test self.now.items ≡ false)
            × (self.now.finished ≡ false) }
        ensures no { result ≡ false → (over_test self.now.items ≡ true)
            ⊎ (self.now.finished ≡ true) }
    {
        !self.over && !self.finished
    }

    /// Whether the held items are of a sentence that has too many bytes.
    fn is_overlong(&self) -> bool
        requires { 0 < length self.now.items }
        ensures yes { result ≡ true → (begins_unit self.now.items ≡ true)
            × (SPAN_MAX < bytes_of self.now.items) }
        ensures no { result ≡ false → begins_unit self.now.items ≡ true → bytes_of self.now.items
            ≤ SPAN_MAX }
    {
        self.begins() && self.held_bytes() > SPAN_MAX as u64
    }

    /// The place of the first item.
    fn first_place(&self) -> u64
        requires { 0 < length self.now.items }
        ensures { IsFirstPlace self.now.items result }
    {
        self.items.as_slice()[0].place
    }

    /// Whether the first item is a unit.
    fn begins(&self) -> bool
        requires { 0 < length self.now.items }
        ensures { result ≡ begins_unit self.now.items }
    {
        is_unit(&self.items.as_slice()[0].item)
    }

    /// The text of the held items, where they are a sentence.
    fn sentence(&mut self) -> Result<Bytes, Memory>
        ensures same { self.new ≡ self.old }
        ensures text { IfOk result (λ text. text ≡ sentence_text self.old.pairs self.old.items) }
    {
        let reads = self.items.as_slice();
        let (numbers, names) = (&self.numbers, &mut self.names);
        let units = units_of(self.alloc, numbers, &mut self.hints, names, reads)?;
        let places = choose(self.alloc, numbers, units.as_slice())?;
        let mut text = take_room(self.alloc, &mut self.text);
        let room = &mut self.room;
        write_items(self.alloc, names, room, reads, places.as_slice(), &mut text)?;
        Ok(text)
    }

    /// The first item as it is spelled.
    fn copy(&mut self) -> Result<Bytes, Memory>
        requires { 0 < length self.old.items }
        ensures same { self.new ≡ self.old }
        ensures text { IfOk result (λ text. text ≡ first_spelled self.old.items) }
    {
        let mut text = take_room(self.alloc, &mut self.text);
        write_item(self.alloc, &self.items.as_slice()[0].item, &mut text)?;
        Ok(text)
    }

    /// What the first step gives, where it takes all held items.
    fn given(&mut self) -> Result<Bytes, Memory>
        requires some { 0 < length self.old.items }
        ensures same { self.new ≡ self.old }
        ensures text { IfOk result (λ text. text ≡ given_text self.old.pairs self.old.items) }
    {
        if self.begins() {
            self.sentence()
        } else {
            self.copy()
        }
    }

    /// Lets all items go, and keeps the room of the text that was written for them.
    fn forget(&mut self, text: Bytes)
        ensures items { self.new.items ≡ [] }
        ensures pairs { self.new.pairs ≡ self.old.pairs }
        ensures finished { self.new.finished ≡ self.old.finished }
    {
        let count = self.items.len();
        self.items.forget(count);
        self.units = 0;
        self.over = false;
        self.text = text;
    }
}

impl Handler for ChooseWork {
    ghost use Rattle.ap_stream.specs.declared.dialect.Dialect.TheVariants.{Analysed};
    ghost use Rattle.ap_choose.specs.Works.{Wants};

    ghost work = { choose_work };

    ghost dialect = { λ _. Analysed };

    ghost count = { λ h. length h.items };

    ghost held = { λ h. bytes_of h.items };

    ghost span = { λ h. span h.items };

    ghost finished = { λ h. h.finished };

    ghost wants = { λ h. Wants h.items };

    fn push(&mut self, read: Read) -> Result<(), Memory> {
        let unit = is_unit(&read.item);
        let last = is_last(&mut self.names, &mut self.room, &read.item)?;
        let first = self.items.len() == 0;
        self.items.push(read)?;
        self.units += counted(unit);
        self.over = ends(first, self.units, unit, last);
        Ok(())
    }

    fn finish(&mut self) {
        self.finished = true;
    }

    fn turn(&mut self, into: &mut Bytes) -> Result<Turn, StageFault> {
        if self.held_count() == 0 {
            if self.is_finished() {
                return Ok(Turn::Over);
            }
            return Ok(Turn::Wants);
        }
        let place = self.first_place();
        self.know();
        if self.is_overlong() {
            return Err(StageFault::Limit {
                kind: LimitKind::SpanTooLong,
                place,
            });
        }
        if self.is_waiting() {
            return Ok(Turn::Wants);
        }
        match self.given() {
            Err(_) => Err(StageFault::Memory),
            Ok(text) => match into.extend(text.as_slice()) {
                Ok(()) => {
                    self.forget(text);
                    Ok(Turn::Wrote)
                }
                Err(_) => Err(StageFault::Memory),
            },
        }
    }
}
