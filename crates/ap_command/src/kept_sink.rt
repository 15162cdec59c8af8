ghost use Rattle.std.specs.Prelude.{◌≡◌, Some, []};

use ap_outside::{Failed, Sink};
use std::alloc::Global;

/// A sink that keeps its bytes. Only want of memory fails it, and then nothing of the piece is
/// kept.
#[derive(Debug, Drop)]
pub(crate) struct KeptSink {
    bytes: Vec<u8>,
    faults: u64,
}

impl KeptSink {
    pub(crate) fn new(alloc: Global) -> KeptSink
        ensures written { ⟦<KeptSink as Sink>⟧.written result ≡ Some [] }
        ensures faults { ⟦<KeptSink as Sink>⟧.faults result ≡ 0 }
    {
        KeptSink {
            bytes: Vec::new(alloc),
            faults: 0,
        }
    }

    /// The bytes that were written.
    pub(crate) fn written(&self) -> &[u8]
        ensures { Some result.now ≡ ⟦<KeptSink as Sink>⟧.written self.now }
    {
        self.bytes.as_slice()
    }
}

impl Sink for KeptSink {
    ghost written = { λ s. Some s.bytes.items };

    ghost faults = { λ s. s.faults };

    fn put(&mut self, piece: &[u8]) -> Result<(), Failed> {
        match self.bytes.extend_from_slice(piece) {
            Ok(()) => Ok(()),
            Err(_) => {
                self.faults = self.faults.saturating_add(1);
                Err(Failed)
            }
        }
    }
}
