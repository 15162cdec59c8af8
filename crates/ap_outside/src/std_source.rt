ghost use Rattle.std.specs.Prelude.{◌≡◌, ◌≤◌, ◌<◌, None, Option, List, ℕ, length, take, IfOk, OnErr};
ghost use Rattle.std.specs.Io.KnownBytes.{Consumes, IsAtEnd, Keeps};
ghost use Rattle.ap_outside.specs.Causes.{HasCause};
ghost use Rattle.ap_outside.specs.Told.{Takes, IsEnd};

use crate::source::{Failed, Source};
use std::io::Read;

/// A source over any reader. It tells nothing of what is left.
#[derive(Drop)]
pub struct StdSource<R: Drop> {
    reader: R,
    faults: u64,
}

impl<R: Read + Drop> StdSource<R> {
    /// The source of what this reader reads, with no faults.
    pub fn new(reader: R) -> StdSource<R>
        ensures { result.faults ≡ 0 }
    {
        StdSource { reader, faults: 0 }
    }
}

impl<R: Read + Drop> Source for StdSource<R> {
    ghost left = { λ _. None };

    ghost faults = { λ s. s.faults };

    /// Reads from the reader once. An error of the reader is a fault; an answer of 0 for a slice
    /// that is not empty means that the reader is at its end.
    fn take(&mut self, into: &mut [u8]) -> Result<usize, Failed>
        ensures count { IfOk result (λ n. n ≤ length into.old) }
        ensures taken { IfOk result (λ n. Takes None None (take n into.new)) }
        ensures end { IfOk result (λ n. n ≡ 0 → 0 < length into.old → IsEnd None) }
        ensures failed { OnErr result (◌≡◌ {A = Option (List ℕ)} None None) }
        ensures cause { HasCause self.old.faults self.new.faults result }
        ensures read { IfOk result
            (λ n. Consumes (R.remaining self.old.reader) (R.remaining self.new.reader)
            (take n into.new)) }
        ensures ended { IfOk result (λ n. n ≡ 0 → 0 < length into.old →
            IsAtEnd (R.remaining self.new.reader)) }
        ensures kept { OnErr result
            (Keeps (R.remaining self.old.reader) (R.remaining self.new.reader)) }
    {
        match self.reader.read(into) {
            Ok(count) => Ok(count),
            Err(_) => {
                self.faults = self.faults.saturating_add(1);
                Err(Failed)
            }
        }
    }
}
