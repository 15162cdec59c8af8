//! A row gathers nothing: bytes are put before the source ends, and a failed put leaves most of the
//! input in the source.
ghost use Rattle.std.specs.Prelude.{None};

use crate::tests::copied::three;
use ap_outside::{Failed, MemSource, Sink, Source};
use ap_pipe::{Outcome, Pipeline};
use std::cell::Cell;
use std::test::Fail;

/// A source over bytes in memory that counts what it gave, and notes how many bytes were put when
/// it gave its end.
#[derive(Drop)]
struct Watching<'a> {
    source: MemSource,
    put: &'a Cell<usize>,
    given: usize,
    at_end: usize,
}

impl Source for Watching<'_> {
    ghost left = { λ s. ⟦<MemSource as Source>⟧.left s.source };

    ghost faults = { λ s. ⟦<MemSource as Source>⟧.faults s.source };

    fn take(&mut self, into: &mut [u8]) -> Result<usize, Failed> {
        match self.source.take(into) {
            Err(failed) => Err(failed),
            Ok(count) => {
                self.given = self.given.saturating_add(count);
                if count == 0 {
                    self.at_end = self.put.get();
                }
                Ok(count)
            }
        }
    }
}

/// A sink that counts the bytes put, or fails.
#[derive(Drop)]
struct Counting<'a> {
    put: &'a Cell<usize>,
    fails: bool,
    faults: u64,
}

impl Sink for Counting<'_> {
    ghost written = { λ s. None };

    ghost faults = { λ s. s.faults };

    fn put(&mut self, piece: &[u8]) -> Result<(), Failed> {
        if self.fails {
            self.faults = self.faults.saturating_add(1);
            return Err(Failed);
        }
        self.put.set(self.put.get().saturating_add(piece.len()));
        Ok(())
    }
}

#[test]
fn a_row_gathers_nothing(rt: HostRuntime) -> Result<(), Fail> {
    let alloc = rt.alloc();
    for fails in [false, true] {
        let put = Cell::new(0);
        let mut source = Watching {
            source: MemSource::new(vec![in alloc; b'a'; 10_000]?, 64, Vec::new(alloc)),
            put: &put,
            given: 0,
            at_end: 0,
        };
        let mut sink = Counting {
            put: &put,
            fails,
            faults: 0,
        };
        let mut pipeline = Pipeline::new(alloc, three(alloc, 64)?, 64)?;
        let outcome = pipeline.run(&mut source, &mut sink);
        if fails {
            assert_eq!(rt; outcome, Outcome::WriteFault);
            assert!(rt; source.given < 1000);
        } else {
            assert_eq!(rt; outcome, Outcome::Done);
            assert!(rt; source.at_end > 9000);
        }
    }
    Ok(())
}
