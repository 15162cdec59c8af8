ghost use Rattle.std.specs.Prelude.{◌≡◌, ◌≤◌, ◌-◌, ◌++◌, ◌||◌, Some, [], IfOk, OnOk, OnErr, is_err, length, take, min, nat_lt, if◌then◌else◌, vec_len, vec_capacity};
ghost use Rattle.ap_outside.specs.Causes.{HasCause, raised};
ghost use Rattle.ap_outside.specs.Numbered.{next_call, is_listed};
ghost use Rattle.ap_outside.specs.Told.{Puts, PutsFront};

use crate::sink::Sink;
use crate::source::Failed;
use ap_symbol::Memory;
use std::alloc::Global;

/// A sink over bytes in memory, which is taken when the sink is made. The calls that it lists fail,
/// numbered from 1, and so does a call beyond its room.
#[derive(Debug, Drop)]
pub struct MemSink {
    bytes: Vec<u8>,
    room: usize,
    failing: Vec<u64>,
    keep: usize,
    calls: u64,
    faults: u64,
    ghost reserved: { room ≤ vec_capacity bytes },
    ghost within: { vec_len bytes ≤ room },
}

impl MemSink {
    /// An empty sink for `room` bytes with no faults. The calls whose numbers `failing` lists fail,
    /// numbered from 1, and append at most `keep` bytes of their piece. A put beyond the room
    /// appends what fits and fails.
    pub fn new(
        alloc: Global,
        room: usize,
        failing: Vec<u64>,
        keep: usize,
    ) -> Result<MemSink, Memory>
        ensures written { IfOk result (λ sink. ⟦<MemSink as Sink>⟧.written sink ≡ Some []) }
        ensures faults { IfOk result (λ sink. ⟦<MemSink as Sink>⟧.faults sink ≡ 0) }
        ensures settings { IfOk result (λ sink. (sink.room ≡ room) × (sink.failing ≡ failing)
            × (sink.keep ≡ keep) × (sink.calls ≡ 0)) }
    {
        Ok(MemSink {
            bytes: Vec::with_capacity(alloc, room)?,
            room,
            failing,
            keep,
            calls: 0,
            faults: 0,
        })
    }

    /// The bytes that were written.
    pub fn written(&self) -> &[u8]
        ensures { Some result.now ≡ ⟦<MemSink as Sink>⟧.written self.now }
    {
        self.bytes.as_slice()
    }
}

impl Sink for MemSink {
    ghost written = { λ s. Some s.bytes.items };

    ghost faults = { λ s. s.faults };

    /// Appends as much as fits, or of a listed call as much as is kept. It fails exactly where its
    /// number is listed or the piece is longer than what is free.
    fn put(&mut self, piece: &[u8]) -> Result<(), Failed>
        ensures ok { OnOk result
            (Puts (Some self.old.bytes.items) (Some self.new.bytes.items) piece.now) }
        ensures failed { OnErr result
            (PutsFront (Some self.old.bytes.items) (Some self.new.bytes.items) piece.now) }
        ensures cause { HasCause self.old.faults self.new.faults result }
        ensures raised { OnErr result (self.new.faults ≡ raised self.old.faults) }
        ensures front { let most =
            (if is_listed self.old.failing.items self.old.calls then self.old.keep
            else length piece.now) in self.new.bytes.items ≡ self.old.bytes.items
            ++ take (min most (self.old.room - length self.old.bytes.items)) piece.now }
        ensures listed { is_err result
            ≡ (is_listed self.old.failing.items self.old.calls
            || nat_lt (self.old.room - length self.old.bytes.items) (length piece.now)) }
        ensures settings { (self.new.room ≡ self.old.room) × (self.new.failing ≡ self.old.failing)
            × (self.new.keep ≡ self.old.keep) × (self.new.calls ≡ next_call self.old.calls) }
    {
        self.calls = self.calls.saturating_add(1);
        let free = self.room - self.bytes.len();
        let listed = self.failing.contains(&self.calls);
        let most = if listed { self.keep } else { piece.len() };
        let count = most.min(free).min(piece.len());
        self.bytes.extend_from_slice(&piece[..count]).unwrap();
        if listed || piece.len() > free {
            self.faults = self.faults.saturating_add(1);
            return Err(Failed);
        }
        Ok(())
    }
}
