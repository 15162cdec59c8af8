//! The text that `work` translates, which is made as it is taken.
ghost use Rattle.std.specs.Prelude.{◌≡◌, ◌≤◌, ◌<◌, ◌+◌, ◌++◌, ◌-◌, Some, length, decimal, take, drop, suc};
ghost use Rattle.ap_command.specs.Words.{work_max};
ghost use Rattle.ap_command.specs.Working.{head, tail, part_text, made_text, left_of};

use ap_outside::{Failed, Source};
use itoa::Buffer;

/// The most sentences of `work`.
pub const WORK_MAX: u64 = 1_000_000;

/// What of a sentence stands before its number, its number, and what stands behind it.
#[derive(Clone, Copy, Debug, PartialEq, Eq)]
pub(crate) enum Part {
    Head,
    Number,
    Tail,
}

fn head(number: u64) -> &'static str
    ensures { result.now ≡ head number }
{
    if number % 2 == 0 {
        return "The black dog[<";
    }
    "black cats[<"
}

fn tail(number: u64) -> &'static str
    ensures { result.now ≡ tail number }
{
    if number % 2 == 0 {
        return ">] of the cat.\n";
    }
    ">] sleep.\n"
}

/// The text of a part of the sentence of that number.
fn part_text<'a>(part: Part, number: u64, digits: &'a [u8]) -> &'a [u8]
    requires { digits.now ≡ decimal number }
    ensures { result.now ≡ part_text part number }
{
    match part {
        Part::Head => head(number).as_bytes(),
        Part::Number => digits,
        Part::Tail => tail(number).as_bytes(),
    }
}

/// The bytes of so many sentences.
pub(crate) fn made_size(sentences: u64) -> u64
    requires { sentences ≤ work_max }
    ensures { result ≡ length (made_text sentences) }
{
    let mut size = 0;
    for number in 0..sentences {
        let mut buffer = Buffer::new();
        let digits = buffer.format(number).len() as u64;
        size += head(number).len() as u64 + digits + tail(number).len() as u64;
    }
    size
}

/// A source of so many sentences, each with its number, from 0 on. It makes them as they are taken,
/// tells what is left and never fails.
#[derive(Debug, Drop)]
pub struct WorkSource {
    sentences: u64,
    next: u64,
    part: Part,
    at: usize,
    ghost few: { sentences ≤ work_max },
    ghost within: { next ≤ sentences },
    ghost inside: { at < length (part_text part next) },
}

impl WorkSource {
    /// A source of so many sentences, at most `WORK_MAX`. It takes no memory.
    pub fn new(sentences: u64) -> WorkSource
        requires { sentences ≤ work_max }
        ensures left { ⟦<WorkSource as Source>⟧.left result ≡ Some (made_text sentences) }
        ensures faults { ⟦<WorkSource as Source>⟧.faults result ≡ 0 }
    {
        WorkSource {
            sentences,
            next: 0,
            part: Part::Head,
            at: 0,
        }
    }

    /// Goes to the next part, behind the last one of a sentence to the next sentence.
    fn go_on(&mut self)
        requires { self.old.next < self.old.sentences }
        ensures rest { left_of self.new.part self.new.next self.new.at
            (self.new.sentences - self.new.next)
            ≡ left_of self.old.part self.old.next (length (part_text self.old.part self.old.next))
            (self.old.sentences - self.old.next) }
        ensures sentences { self.new.sentences ≡ self.old.sentences }
    {
        self.at = 0;
        match self.part {
            Part::Head => self.part = Part::Number,
            Part::Number => self.part = Part::Tail,
            Part::Tail => {
                self.part = Part::Head;
                self.next += 1;
            }
        }
    }

    /// Gives the next bytes, of one part of a sentence.
    fn give(&mut self, into: &mut [u8]) -> usize
        requires some { 0 < length into.old }
        requires more { self.old.next < self.old.sentences }
        ensures some { 0 < result }
        ensures most { result ≤ length into.new }
        ensures length { length into.new ≡ length into.old }
        ensures given { left_of self.old.part self.old.next self.old.at
            (self.old.sentences - self.old.next)
            ≡ take result into.new ++ left_of self.new.part self.new.next self.new.at
            (self.new.sentences - self.new.next) }
    {
        let mut buffer = Buffer::new();
        let text = part_text(self.part, self.next, buffer.format(self.next).as_bytes());
        let rest = &text[self.at..];
        let count = rest.len().min(into.len());
        into[..count].copy_from_slice(&rest[..count]);
        if count < rest.len() {
            self.at += count;
        } else {
            self.go_on();
        }
        count
    }
}

impl Source for WorkSource {
    ghost left = { λ s. Some (left_of s.part s.next s.at (s.sentences - s.next)) };

    ghost faults = { λ _. 0 };

    /// Fills `into`, as far as there are sentences.
    fn take(&mut self, into: &mut [u8]) -> Result<usize, Failed> {
        let mut count = 0;
        while count < into.len() && self.next < self.sentences {
            count += self.give(&mut into[count..]);
        }
        Ok(count)
    }
}
