ghost use Rattle.std.specs.Prelude.{◌≡◌, ◌<◌, ◌≤◌, ◌++◌, List, [], length, drop, true, false, Ok, None, IfOk, IfSome};
ghost use Rattle.ap_stream.specs.declared.TheConstants.{SPAN_MAX};
ghost use Rattle.ap_stream.specs.Steps.{bytes_of};
ghost use Rattle.ap_stream.specs.declared.item.Read.{Read};
ghost use Rattle.ap_exec.specs.Starting.{start_of};
ghost use Rattle.ap_chunk.specs.Stages.{span, dialect_of};
ghost use Rattle.ap_chunk.specs.Working.{chunk_work, IsFirstStep, IsFirstPlace};

use crate::kept::Kept;
use crate::search::Search;
use crate::writing::{Written, first_step};
use ap_exec::Vars;
use ap_rules::Rules;
use ap_stream::{Handler, LimitKind, Queue, Read, SPAN_MAX, StageFault, Turn};
use ap_symbol::{Bytes, Memory};
use std::alloc::Global;
use std::marker::Model;
use std::mem;

/// Transfer, interchunk or postchunk of items, by the form of its rules: a `Handler` over the
/// items of a Bilingual text in transfer, and of a Chunked text in the others. It holds the items
/// that one match must see together, and looks at each of them once while further ones come. What
/// variables hold goes on from match to match. The text has room for what a step writes, which is
/// kept from step to step.
#[derive(Drop)]
pub struct ChunkWork {
    alloc: Global,
    rules: Rules,
    vars: Vars,
    items: Queue,
    search: Search,
    kept: Kept,
    finished: bool,
    text: Bytes,
}

/// No bytes, in the room of those that are kept.
fn take_room(alloc: Global, kept: &mut Bytes) -> Bytes
    ensures { result ≡ [] }
{
    let mut text = mem::replace(kept, Bytes::new(alloc));
    text.clear();
    text
}

impl Model for ChunkWork {
    ghost use Rattle.std.specs.List.{AllByRecursion};
    ghost use Rattle.ap_stream.specs.Reading.{IsRead};
    ghost use Rattle.ap_chunk.specs.Stages.{dialect_of};
    ghost use Rattle.ap_chunk.specs.Searching.{IsKnown};
    ghost use Rattle.ap_chunk.specs.Kept.{AllKept};
    ghost use Rattle.ap_chunk.specs.Tests.{row_of};
    ghost use Rattle.std.specs.Coded.{codes};
    ghost use Rattle.ap_rules.specs.contracts.statement.Statement as statement;
    ghost use Rattle.ap_chunk.specs.Working.{Working};

    ghost Value = { Working };

    ghost coded = { Prim.hlevel (codes, statement.the_row.coded) };

    ghost view = { λ w. record {
      rules = w.rules;
      vars = w.vars;
      items = w.items;
      finished = w.finished;
    } };

    ghost invariant = { λ w. AllByRecursion (IsRead (dialect_of w.rules.form)) w.items
        × (IsKnown w.rules w.items w.search × AllKept (row_of w.rules) w.kept) };
}

impl ChunkWork {
    ghost use Rattle.std.specs.List.{AllByRecursion};
    ghost use Rattle.ap_stream.specs.Reading.{IsRead};

    /// The work by these rules, which holds nothing; variables hold what the rules state. The error
    /// means want of memory.
    pub fn new(alloc: Global, rules: Rules) -> Result<ChunkWork, Memory>
        ensures rules { IfOk result (λ work. work.rules ≡ rules) }
        ensures vars { IfOk result (λ work. work.vars ≡ start_of rules) }
        ensures items { IfOk result (λ work. work.items ≡ []) }
        ensures finished { IfOk result (λ work. work.finished ≡ false) }
    {
        let vars = Vars::start(alloc, &rules)?;
        let search = Search::start(alloc, &rules)?;
        Ok(ChunkWork {
            alloc,
            rules,
            vars,
            items: Queue::new(alloc),
            search,
            kept: Kept::new(alloc),
            finished: false,
            text: Bytes::new(alloc),
        })
    }

    /// Lets the first so many items go, and keeps the room of the text that was written for them.
    fn forget(&mut self, count: usize, text: Bytes)
        requires { count ≤ length self.old.items }
        ensures items { self.new.items ≡ drop count self.old.items }
        ensures rules { self.new.rules ≡ self.old.rules }
        ensures vars { self.new.vars ≡ self.old.vars }
        ensures finished { self.new.finished ≡ self.old.finished }
    {
        self.items.forget(count);
        self.search.restart();
        self.text = text;
    }

    /// The number of held items.
    fn held_count(&self) -> usize
        ensures { result ≡ length self.now.items }
    {
        self.items.len()
    }

    fn held_bytes(&self) -> u64
        ensures { result ≡ bytes_of self.now.items }
    {
        self.items.bytes()
    }

    fn is_finished(&self) -> bool
        ensures { result ≡ self.now.finished }
    {
        self.finished
    }

    /// The place of the first item.
    fn first_place(&self) -> u64
        requires { 0 < length self.now.items }
        ensures { IsFirstPlace self.now.items result }
    {
        self.items.as_slice()[0].place
    }

    /// What is known of the items of every state of the work.
    fn know(&self)
        ensures { AllByRecursion (IsRead (dialect_of self.now.rules.form)) self.now.items }
    {
        let _ = self.items.len();
    }

    /// The first step, or none where an item more is wanted.
    fn next(&mut self) -> Result<Option<Written>, Memory>
        requires { 0 < length self.old.items }
        ensures rules { self.new.rules ≡ self.old.rules }
        ensures items { self.new.items ≡ self.old.items }
        ensures finished { self.new.finished ≡ self.old.finished }
        ensures step { IfOk result (λ step. IfSome step (IsFirstStep self.old self.new.vars)) }
        ensures waits { result ≡ Ok None → (self.new ≡ self.old) × (self.old.finished ≡ false) ×
            (span self.old.rules self.old.items ≡ length self.old.items) }
        ensures grows { result ≡ Ok None → (xs : List Read) →
            length self.old.items ≤ span self.old.rules (self.old.items ++ xs) }
    {
        let reads = self.items.as_slice();
        match self
            .search
            .look(&self.rules, reads, self.finished, &mut self.kept)?
        {
            None => Ok(None),
            Some(front) => {
                let text = take_room(self.alloc, &mut self.text);
                let made = first_step(
                    self.alloc,
                    &self.rules,
                    &self.items,
                    front,
                    &self.kept.units,
                    &mut self.search.room,
                    &mut self.vars,
                    text,
                )?;
                Ok(Some(made))
            }
        }
    }
}

impl Handler for ChunkWork {
    ghost work = { chunk_work };

    ghost dialect = { λ h. dialect_of h.rules.form };

    ghost count = { λ h. length h.items };

    ghost held = { λ h. bytes_of h.items };

    ghost span = { λ h. span h.rules h.items };

    ghost finished = { λ h. h.finished };

    ghost wants = { λ h. bytes_of h.items ≤ SPAN_MAX };

    fn push(&mut self, read: Read) -> Result<(), Memory> {
        self.items.push(read)
    }

    fn finish(&mut self) {
        self.finished = true;
    }

    fn turn(&mut self, into: &mut Bytes) -> Result<Turn, StageFault> {
        if self.held_count() == 0 {
            if self.is_finished() {
                return Ok(Turn::Over);
            }
            return Ok(Turn::Wants);
        }
        self.know();
        let place = self.first_place();
        match self.next() {
            Err(_) => Err(StageFault::Memory),
            Ok(None) => {
                if self.held_bytes() > SPAN_MAX as u64 {
                    return Err(StageFault::Limit {
                        kind: LimitKind::SpanTooLong,
                        place,
                    });
                }
                Ok(Turn::Wants)
            }
            Ok(Some(Written::Stops { kind })) => Err(StageFault::Limit { kind, place }),
            Ok(Some(Written::Gives { count, text })) => match into.extend(text.as_slice()) {
                Ok(()) => {
                    self.forget(count, text);
                    Ok(Turn::Wrote)
                }
                Err(_) => Err(StageFault::Memory),
            },
        }
    }
}
