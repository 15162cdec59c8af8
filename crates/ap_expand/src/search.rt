ghost use Rattle.std.specs.Prelude.{◌≡◌, ◌||◌, ◌++◌, ◌∷◌, [], List, IfOk, None, OnErr, IsTrue, length, reverse, true, false};
ghost use Rattle.ap_dix.specs.Soundness.{are_sound_pardefs};
ghost use Rattle.ap_expand.specs.Search.{AreLinked, Begins, is_lr, is_rl, is_passed, lines_among, pardefs_trace, sections_trace};
ghost use Rattle.ap_expand.specs.Uses.{pardefs_uses};
ghost use Rattle.ap_expand.specs.declared.uses.Uses.{Uses as WayUses};
ghost use Rattle.ap_expand.specs.Walks.{way_of};
ghost use Rattle.ap_expand.specs.Places.{search_trace, IsSectionFrame, IsSearch, entries_at, Advanced, Took};

use crate::frame::Frame;
use crate::line::write_line;
use crate::uses::{Uses, is_barren, paradigm_uses};
use crate::walk::walk;
use ap_dix::{Entry, Pardef, Section, Side};
use ap_symbol::{Bytes, Memory};
use std::alloc::Global;

#[derive(Drop)]
/// A place in the expansion of a dictionary: a stack of the lists of entries that are open.
pub(crate) struct Search<'a> {
    pub(crate) pardefs: &'a [Pardef],
    /// What each way through each of the paradigms uses.
    pub(crate) uses: Vec<Uses>,
    /// The sections that were not opened yet.
    pub(crate) sections: &'a [Section],
    /// The frames below the top one, the lowest first.
    pub(crate) below: Vec<Frame<'a>>,
    pub(crate) top: Frame<'a>,
    /// The words so far.
    pub(crate) left: Vec<u8>,
    pub(crate) right: Vec<u8>,
}

/// What a step of the search gave.
#[derive(Clone, Copy)]
pub(crate) enum Step {
    Line,
    NoLine,
    End,
}

/// What came of an entry: a paradigm to open, or the end of a way, with a line or none.
#[derive(Clone, Copy)]
pub(crate) enum Arrival<'a> {
    Opened(Frame<'a>),
    Ended(bool),
}

/// Whether an entry kept from left to right alone was used, this one counted.
fn uses_lr(before: bool, side: Side) -> bool
    ensures { result ≡ (before || is_lr side) }
{
    before || matches!(side, Side::LrOnly)
}

/// Whether an entry kept from right to left alone was used, this one counted.
fn uses_rl(before: bool, side: Side) -> bool
    ensures { result ≡ (before || is_rl side) }
{
    before || matches!(side, Side::RlOnly)
}

/// The entries of the paradigm of that number; none where there is no such paradigm.
fn entries_of<'a>(pardefs: &'a [Pardef], number: usize) -> &'a [Entry]
    ensures { result.now ≡ entries_at pardefs.now number }
{
    if number < pardefs.len() {
        let pardef = &pardefs[number];
        pardef.entries.as_slice()
    } else {
        &[]
    }
}

/// Goes from the parts of an entry, which the uppermost of the frames took, to the next paradigm or
/// to the end of the way.
fn advance<'a>(
    pardefs: &'a [Pardef],
    frames: &[Frame<'a>],
    entry: &'a Entry,
    lr: bool,
    rl: bool,
    left: &mut Vec<u8>,
    right: &mut Vec<u8>,
    line: &mut Bytes,
) -> Result<Arrival<'a>, Memory>
    requires sound { IsTrue (are_sound_pardefs 0 pardefs.now) }
    requires linked { AreLinked (reverse frames.now) }
    requires empty { line.old ≡ [] }
    ensures advanced { IfOk result
        (λ advance. (uses : List WayUses) → Advanced uses pardefs.now frames.now entry.now.parts
        (way_of left.old.items right.old.items lr rl) left.new.items right.new.items
        line.new advance) }
    ensures left { Begins left.old.items left.new.items }
    ensures right { Begins right.old.items right.new.items }
{
    match walk(frames, entry.parts.as_slice(), frames.len(), left, right)? {
        Some(met) => Ok(Arrival::Opened(Frame {
            entries: entries_of(pardefs, met.number),
            rest: met.rest,
            parent: met.parent,
            left_len: left.len(),
            right_len: right.len(),
            lr,
            rl,
        })),
        None => Ok(Arrival::Ended(write_line(left.as_slice(), right.as_slice(), lr, rl, line)?)),
    }
}

/// A frame of a section.
fn section_frame<'a>(entries: &'a [Entry]) -> Frame<'a>
    ensures { IsSectionFrame entries.now result }
{
    Frame {
        entries,
        rest: &[],
        parent: 0,
        left_len: 0,
        right_len: 0,
        lr: false,
        rl: false,
    }
}

impl<'a> Search<'a> {
    /// The start of the expansion.
    pub(crate) fn new(
        alloc: Global,
        pardefs: &'a [Pardef],
        sections: &'a [Section],
    ) -> Result<Search<'a>, Memory>
        requires { IsTrue (are_sound_pardefs 0 pardefs.now) }
        ensures search { IfOk result (λ made. IsSearch made) }
        ensures uses { IfOk result (λ made. made.uses.items ≡ pardefs_uses [] pardefs.now) }
        ensures steps { IfOk result (λ made. search_trace made ≡ None
            ∷ sections_trace made.uses.items (pardefs_trace made.uses.items [] pardefs.now)
            sections.now) }
    {
        let uses = paradigm_uses(alloc, pardefs)?;
        Ok(Search {
            pardefs,
            uses,
            sections,
            below: Vec::new(alloc),
            top: section_frame(&[]),
            left: Vec::new(alloc),
            right: Vec::new(alloc),
        })
    }

    /// Leaves the top frame, which has no entries left, and answers whether there is another.
    fn leave(&mut self) -> bool
        requires search { IsSearch self.old }
        requires empty { self.old.top.entries.now ≡ [] }
        ensures search { IsSearch self.new }
        ensures left { result ≡ true → search_trace self.old ≡ None ∷ search_trace self.new }
        ensures end { result ≡ false → (lines_among (search_trace self.old) ≡ [])
            × (lines_among (search_trace self.new) ≡ []) }
    {
        if let Some(frame) = self.below.pop() {
            self.left.truncate(self.top.left_len);
            self.right.truncate(self.top.right_len);
            self.top = frame;
            return true;
        }
        match self.sections.split_first() {
            Some((section, sections)) => {
                self.sections = sections;
                self.top = section_frame(section.entries.as_slice());
                true
            }
            None => false,
        }
    }

    /// Takes the first entry of the top frame, which is not passed over.
    fn enter(
        &mut self,
        entry: &'a Entry,
        others: &'a [Entry],
        line: &mut Bytes,
    ) -> Result<Step, Memory>
        requires search { IsSearch self.old }
        requires first { self.old.top.entries.now ≡ entry.now ∷ others.now }
        requires taken { is_passed self.old.uses.items self.old.top.lr self.old.top.rl entry.now
            ≡ false }
        requires empty { line.old ≡ [] }
        ensures search { IsSearch self.new }
        ensures took { IfOk result (λ step. Took self.old self.new line.new step) }
        ensures same { OnErr result (search_trace self.new ≡ search_trace self.old) }
    {
        self.left.truncate(self.top.left_len);
        self.right.truncate(self.top.right_len);
        let mut top = self.top;
        top.entries = others;
        self.below.push(top)?;
        let lr = uses_lr(top.lr, entry.side);
        let rl = uses_rl(top.rl, entry.side);
        match advance(
            self.pardefs,
            self.below.as_slice(),
            entry,
            lr,
            rl,
            &mut self.left,
            &mut self.right,
            line,
        ) {
            Ok(Arrival::Opened(frame)) => {
                self.top = frame;
                Ok(Step::NoLine)
            }
            Ok(Arrival::Ended(written)) => {
                self.below.pop();
                self.top = top;
                Ok(if written { Step::Line } else { Step::NoLine })
            }
            Err(memory) => {
                self.below.pop();
                Err(memory)
            }
        }
    }

    /// Whether an entry of the top frame is passed over.
    fn passes(&self, entry: &Entry) -> bool
        ensures { result ≡ is_passed self.now.uses.items self.now.top.lr self.now.top.rl entry.now }
    {
        entry.ignored || is_barren(self.uses.as_slice(), self.top.lr, self.top.rl, entry)
    }

    /// Takes a step.
    pub(crate) fn step(&mut self, line: &mut Bytes) -> Result<Step, Memory>
        requires search { IsSearch self.old }
        requires empty { line.old ≡ [] }
        ensures search { IsSearch self.new }
        ensures took { IfOk result (λ step. Took self.old self.new line.new step) }
        ensures same { OnErr result (search_trace self.new ≡ search_trace self.old) }
    {
        match self.top.entries.split_first() {
            Some((entry, others)) => {
                if self.passes(entry) {
                    self.top.entries = others;
                    return Ok(Step::NoLine);
                }
                self.enter(entry, others, line)
            }
            None => Ok(if self.leave() {
                Step::NoLine
            } else {
                Step::End
            }),
        }
    }
}

/// Goes on to the next line, and answers whether there is one.
pub(crate) fn find(alloc: Global, search: &mut Search, line: &mut Bytes) -> Result<bool, Memory>
    requires { IsSearch search.old }
    ensures search { IsSearch search.new }
    ensures found { IfOk result (λ found. found ≡ true → lines_among (search_trace search.old)
        ≡ line.new ∷ lines_among (search_trace search.new)) }
    ensures end { IfOk result (λ found. found ≡ false → (lines_among (search_trace search.old) ≡ [])
        × (lines_among (search_trace search.new) ≡ []) × (line.new ≡ [])) }
    ensures same { OnErr result (lines_among (search_trace search.new)
        ≡ lines_among (search_trace search.old)) }
    ensures emptied { OnErr result (line.new ≡ []) }
{
    *line = Bytes::new(alloc);
    'steps: loop {
        match search.step(line) {
            Ok(Step::NoLine) => {}
            Ok(Step::Line) => return Ok(true),
            Ok(Step::End) => return Ok(false),
            Err(memory) => {
                *line = Bytes::new(alloc);
                return Err(memory);
            }
        }
    }
}
