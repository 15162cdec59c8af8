ghost use Rattle.std.specs.Prelude.{◌≡◌, ◌≤◌, ◌<◌, ◌-◌, Some, take, drop, length, min, IfOk, OnErr, is_err};
ghost use Rattle.ap_outside.specs.Causes.{HasCause, raised};
ghost use Rattle.ap_outside.specs.Numbered.{next_call, is_listed};
ghost use Rattle.ap_outside.specs.Told.{Takes, IsEnd};

use crate::source::{Failed, Source};

/// A source over bytes in memory. The calls that it lists fail, numbered from 1.
#[derive(Debug, Drop)]
pub struct MemSource {
    bytes: Vec<u8>,
    at: usize,
    cut: usize,
    failing: Vec<u64>,
    calls: u64,
    faults: u64,
    ghost place: { at ≤ length bytes.items },
    ghost progress: { 1 ≤ cut },
}

impl MemSource {
    /// A source that has these bytes left and no faults. A take gives at most `cut` bytes, and the
    /// calls whose numbers `failing` lists fail, numbered from 1.
    pub fn new(bytes: Vec<u8>, cut: usize, failing: Vec<u64>) -> MemSource
        requires { 1 ≤ cut }
        ensures left { ⟦<MemSource as Source>⟧.left result ≡ Some bytes.items }
        ensures faults { ⟦<MemSource as Source>⟧.faults result ≡ 0 }
        ensures settings { (result.cut ≡ cut) × (result.failing ≡ failing) × (result.calls ≡ 0) }
    {
        MemSource {
            bytes,
            at: 0,
            cut,
            failing,
            calls: 0,
            faults: 0,
        }
    }
}

impl Source for MemSource {
    ghost left = { λ s. Some (drop s.at s.bytes.items) };

    ghost faults = { λ s. s.faults };

    /// Takes as many bytes as there are, as fit and as the cut allows. It fails exactly where its
    /// number is listed.
    fn take(&mut self, into: &mut [u8]) -> Result<usize, Failed>
        ensures count { IfOk result (λ n. n ≤ length into.old) }
        ensures taken { IfOk result
            (λ n. Takes (Some (drop self.old.at self.old.bytes.items))
            (Some (drop self.new.at self.new.bytes.items)) (take n into.new)) }
        ensures end { IfOk result (λ n. n ≡ 0 → 0 < length into.old →
            IsEnd (Some (drop self.new.at self.new.bytes.items))) }
        ensures failed { OnErr result (drop self.new.at self.new.bytes.items
            ≡ drop self.old.at self.old.bytes.items) }
        ensures cause { HasCause self.old.faults self.new.faults result }
        ensures raised { OnErr result (self.new.faults ≡ raised self.old.faults) }
        ensures amount { IfOk result
            (λ n. n ≡ min (min (length into.old) self.old.cut)
            (length self.old.bytes.items - self.old.at)) }
        ensures listed { is_err result ≡ is_listed self.old.failing.items self.old.calls }
        ensures settings { (self.new.cut ≡ self.old.cut) × (self.new.failing ≡ self.old.failing)
            × (self.new.calls ≡ next_call self.old.calls) }
    {
        self.calls = self.calls.saturating_add(1);
        if self.failing.contains(&self.calls) {
            self.faults = self.faults.saturating_add(1);
            return Err(Failed);
        }
        let count = into.len().min(self.cut).min(self.bytes.len() - self.at);
        let end = self.at + count;
        let piece = &self.bytes[self.at..end];
        into[..count].copy_from_slice(piece);
        self.at = end;
        Ok(count)
    }
}
