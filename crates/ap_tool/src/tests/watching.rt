//! A source and a sink that note what was taken and put, and when.
ghost use Rattle.std.specs.Prelude.{None};

use ap_outside::{Failed, MemSource, Sink, Source};
use std::cell::Cell;

/// A source over bytes in memory that counts what it gave, and notes the most that it was asked for
/// at once, and how many bytes were put when it gave its end.
#[derive(Drop)]
pub(super) struct Watching<'a> {
    pub(super) source: MemSource,
    pub(super) put: &'a Cell<usize>,
    pub(super) given: usize,
    pub(super) asked: usize,
    pub(super) at_end: usize,
}

impl Source for Watching<'_> {
    ghost left = { λ s. ⟦<MemSource as Source>⟧.left s.source };

    ghost faults = { λ s. ⟦<MemSource as Source>⟧.faults s.source };

    fn take(&mut self, into: &mut [u8]) -> Result<usize, Failed> {
        self.asked = self.asked.max(into.len());
        match self.source.take(into) {
            Err(failed) => Err(failed),
            Ok(count) => {
                self.given = self.given.saturating_add(count);
                if count == 0 {
                    self.at_end = self.put.get();
                }
                Ok(count)
            }
        }
    }
}

/// A sink that counts the bytes put, or fails.
#[derive(Drop)]
pub(super) struct Counting<'a> {
    pub(super) put: &'a Cell<usize>,
    pub(super) fails: bool,
    pub(super) faults: u64,
}

impl Sink for Counting<'_> {
    ghost written = { λ s. None };

    ghost faults = { λ s. s.faults };

    fn put(&mut self, piece: &[u8]) -> Result<(), Failed> {
        if self.fails {
            self.faults = self.faults.saturating_add(1);
            return Err(Failed);
        }
        self.put.set(self.put.get().saturating_add(piece.len()));
        Ok(())
    }
}
