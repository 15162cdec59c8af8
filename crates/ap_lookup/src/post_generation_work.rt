ghost use Rattle.std.specs.Prelude.{◌≡◌, ◌⊎◌, ◌<◌, ◌≤◌, ℕ, List, [], length, drop, true, false, Ok, None, IfOk, IfSome, OnOk, OnErr};
ghost use Rattle.ap_stream.specs.declared.TheConstants.{SPAN_MAX};
ghost use Rattle.ap_stream.specs.Steps.{bytes_of};
ghost use Rattle.ap_live.specs.Lexicon.{lexicon_of};
ghost use Rattle.ap_lookup.specs.PostGenerating.{begins_alarm as begins_test, span, post_step};
ghost use Rattle.ap_lookup.specs.PostWorks.{post_work, meant};

use crate::post_search::{Search, begins_alarm};
use crate::post_writing::{Written, alarm_step};
use ap_fst::Compiled;
use ap_stream::{Copies, Handler, LimitKind, Queue, Read, SPAN_MAX, StageFault, Turn, write_item};
use ap_symbol::{Bytes, Memory};
use std::alloc::Global;
use std::marker::Model;
use std::mem;

/// Post-generation of items (`lt-proc -p`): a `Handler` over the items of a Generated text. At an
/// alarm, a bare `~`, it holds the items that one match must see together, and looks at each of
/// them once while further ones come; every other item is copied. The text has room for what a step
/// writes, which is kept from step to step.
#[derive(Drop)]
pub struct PostGenerationWork {
    alloc: Global,
    compiled: Compiled,
    sensitive: bool,
    items: Queue,
    search: Search,
    finished: bool,
    text: Bytes,
}

/// No bytes, in the room of those that are kept.
fn take_room(alloc: Global, kept: &mut Bytes) -> Bytes
    ensures { result ≡ [] }
{
    let mut text = mem::replace(kept, Bytes::new(alloc));
    text.clear();
    text
}

impl Model for PostGenerationWork {
    ghost use Rattle.std.specs.List.{AllByRecursion};
    ghost use Rattle.ap_stream.specs.Reading.{IsRead};
    ghost use Rattle.ap_stream.specs.declared.dialect.Dialect.TheVariants.{Generated};
    ghost use Rattle.ap_lookup.specs.PostWorks.{Posting};
    ghost use Rattle.ap_lookup.specs.PostSearching.{IsSearch};

    ghost Value = { Posting };

    ghost view = { λ w. record {
      compiled = w.compiled;
      sensitive = w.sensitive;
      items =
          w.items;
      finished = w.finished;
    } };

    ghost invariant = { λ w. AllByRecursion (IsRead Generated) w.items
        × IsSearch w.compiled w.sensitive w.items w.search };
}

impl PostGenerationWork {
    ghost use Rattle.std.specs.List.{AllByRecursion};
    ghost use Rattle.ap_stream.specs.Reading.{IsRead};
    ghost use Rattle.ap_stream.specs.declared.dialect.Dialect.TheVariants.{Generated};
    ghost use Rattle.ap_live.specs.Lexicon.{IsCoherent};
    ghost use Rattle.ap_lookup.specs.PostSearching.{IsFirstPlace};
    ghost use Rattle.ap_lookup.specs.PostWorks.{IsCopied};

    /// The work by this dictionary, which holds nothing. Where case counts, a symbol fits itself
    /// alone, and words are given as they stand. The error means want of memory.
    pub fn new(
        alloc: Global,
        compiled: Compiled,
        sensitive: bool,
    ) -> Result<PostGenerationWork, Memory>
        ensures compiled { IfOk result (λ work. work.compiled ≡ compiled) }
        ensures sensitive { IfOk result (λ work. work.sensitive ≡ sensitive) }
        ensures items { IfOk result (λ work. work.items ≡ []) }
        ensures finished { IfOk result (λ work. work.finished ≡ false) }
    {
        let search = Search::start(alloc, &compiled)?;
        Ok(PostGenerationWork {
            alloc,
            compiled,
            sensitive,
            items: Queue::new(alloc),
            search,
            finished: false,
            text: Bytes::new(alloc),
        })
    }

    /// Lets the first so many items go, and keeps the room of the text that was written for them.
    fn forget(&mut self, count: usize, text: Bytes)
        requires { count ≤ length self.old.items }
        ensures items { self.new.items ≡ drop count self.old.items }
        ensures compiled { self.new.compiled ≡ self.old.compiled }
        ensures sensitive { self.new.sensitive ≡ self.old.sensitive }
        ensures finished { self.new.finished ≡ self.old.finished }
    {
        self.search
            .pass(&self.compiled, self.items.as_slice(), count);
        self.items.forget(count);
        self.text = text;
    }

    /// The number of held items.
    fn held_count(&self) -> usize
        ensures { result ≡ length self.now.items }
    {
        self.items.len()
    }

    fn held_bytes(&self) -> u64
        ensures { result ≡ bytes_of self.now.items }
    {
        self.items.bytes()
    }

    fn is_finished(&self) -> bool
        ensures { result ≡ self.now.finished }
    {
        self.finished
    }

    /// The place of the first item.
    fn first_place(&self) -> u64
        requires { 0 < length self.now.items }
        ensures { IsFirstPlace self.now.items result }
    {
        self.items.as_slice()[0].place
    }

    /// Whether the first item is an alarm.
    fn is_at_alarm(&self) -> bool
        ensures { result ≡ begins_test self.now.items }
    {
        begins_alarm(self.items.as_slice())
    }

    /// What is known of every state of the work.
    fn know(&self)
        ensures coherent { IsCoherent (lexicon_of self.now.compiled self.now.sensitive) }
        ensures items { AllByRecursion (IsRead Generated) self.now.items }
    {
        let _ = self.compiled.alphabet();
    }

    /// Copies the first item as it is spelled, where it is no alarm, and lets it go.
    fn pass_on(&mut self, into: &mut Bytes) -> Result<(), Memory>
        requires some { 0 < length self.old.items }
        requires bare { begins_test self.old.items ≡ false }
        ensures coherent { IsCoherent (lexicon_of self.old.compiled self.old.sensitive) }
        ensures items { AllByRecursion (IsRead Generated) self.old.items }
        ensures left { OnOk result (self.new.items ≡ drop 1 self.old.items) }
        ensures compiled { OnOk result (self.new.compiled ≡ self.old.compiled) }
        ensures sensitive { OnOk result (self.new.sensitive ≡ self.old.sensitive) }
        ensures finished { OnOk result (self.new.finished ≡ self.old.finished) }
        ensures copied { OnOk result (IsCopied self.old.items into.old into.new) }
        ensures same { OnErr result (into.new ≡ into.old) }
    {
        self.know();
        write_item(self.alloc, &self.items.as_slice()[0].item, into)?;
        self.items.forget(1);
        self.search.restart();
        Ok(())
    }

    /// The step at an alarm, or none where an item more is wanted.
    fn search(&mut self) -> Result<Option<Written>, Memory>
        requires { begins_test self.old.items ≡ true }
        ensures same { self.new ≡ self.old }
        ensures step { IfOk result
            (λ step. IfSome step (λ made.
            (meant made ≡ post_step (lexicon_of self.old.compiled self.old.sensitive)
            self.old.sensitive self.old.items)
            × ((span (lexicon_of self.old.compiled self.old.sensitive) self.old.items < length
            self.old.items) ⊎ (self.old.finished ≡ true)))) }
        ensures waits { result ≡ Ok None → (self.old.finished ≡ false)
            × (span (lexicon_of self.old.compiled self.old.sensitive) self.old.items
            ≡ length self.old.items) }
    {
        let reads = self.items.as_slice();
        match self
            .search
            .look(&self.compiled, self.sensitive, reads, self.finished)?
        {
            None => Ok(None),
            Some(found) => {
                let text = take_room(self.alloc, &mut self.text);
                let made = alarm_step(
                    self.alloc,
                    &self.compiled,
                    self.sensitive,
                    &self.search.lives,
                    self.search.seen.as_slice(),
                    &self.items,
                    found,
                    text,
                )?;
                Ok(Some(made))
            }
        }
    }

    /// The first step at an alarm, or none where an item more is wanted.
    fn next(&mut self) -> Result<Option<Written>, Memory>
        requires some { 0 < length self.old.items }
        requires alarm { begins_test self.old.items ≡ true }
        ensures same { self.new ≡ self.old }
        ensures coherent { IsCoherent (lexicon_of self.old.compiled self.old.sensitive) }
        ensures items { AllByRecursion (IsRead Generated) self.old.items }
        ensures step { IfOk result (λ step. IfSome step (λ made. (meant made
            ≡ post_step (lexicon_of self.old.compiled self.old.sensitive) self.old.sensitive
            self.old.items)
            × ((span (lexicon_of self.old.compiled self.old.sensitive) self.old.items < length
            self.old.items) ⊎ (self.old.finished ≡ true)))) }
        ensures waits { result ≡ Ok None → (self.old.finished ≡ false)
            × (span (lexicon_of self.old.compiled self.old.sensitive) self.old.items
            ≡ length self.old.items) }
    {
        self.know();
        self.search()
    }
}

impl Handler for PostGenerationWork {
    ghost use Rattle.ap_stream.specs.declared.dialect.Dialect.TheVariants.{Generated};

    ghost work = { post_work };

    ghost dialect = { λ _. Generated };

    ghost count = { λ h. length h.items };

    ghost held = { λ h. bytes_of h.items };

    ghost span = { λ h. span (lexicon_of h.compiled h.sensitive) h.items };

    ghost finished = { λ h. h.finished };

    ghost wants = { λ h. bytes_of h.items ≤ SPAN_MAX };

    fn push(&mut self, read: Read) -> Result<(), Memory> {
        self.items.push(read)
    }

    fn finish(&mut self) {
        self.finished = true;
    }

    fn turn(&mut self, into: &mut Bytes) -> Result<Turn, StageFault> {
        if self.held_count() == 0 {
            if self.is_finished() {
                return Ok(Turn::Over);
            }
            return Ok(Turn::Wants);
        }
        if !self.is_at_alarm() {
            return match self.pass_on(into) {
                Ok(()) => Ok(Turn::Wrote),
                Err(_) => Err(StageFault::Memory),
            };
        }
        let place = self.first_place();
        match self.next() {
            Err(_) => Err(StageFault::Memory),
            Ok(None) => {
                if self.held_bytes() > SPAN_MAX as u64 {
                    return Err(StageFault::Limit {
                        kind: LimitKind::SpanTooLong,
                        place,
                    });
                }
                Ok(Turn::Wants)
            }
            Ok(Some(Written::Stops { kind })) => Err(StageFault::Limit { kind, place }),
            Ok(Some(Written::Gives { count, text })) => match into.extend(text.as_slice()) {
                Ok(()) => {
                    self.forget(count, text);
                    Ok(Turn::Wrote)
                }
                Err(_) => Err(StageFault::Memory),
            },
        }
    }
}

impl Copies for PostGenerationWork {
    fn is_free(&self) -> bool {
        self.held_count() == 0
    }
}
