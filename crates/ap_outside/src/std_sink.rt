ghost use Rattle.std.specs.Prelude.{◌≡◌, None, OnOk, OnErr};
ghost use Rattle.std.specs.Io.KnownBytes.{Appends};
ghost use Rattle.ap_outside.specs.Causes.{HasCause};
ghost use Rattle.ap_outside.specs.Told.{Puts, PutsFront};

use crate::sink::Sink;
use crate::source::Failed;
use std::io::{self, Write};

/// A sink over any writer. It tells nothing of what was written.
#[derive(Drop)]
pub struct StdSink<W: Drop> {
    writer: W,
    faults: u64,
}

impl<W: Write + Drop> StdSink<W> {
    /// The sink that writes to this writer, with no faults.
    pub fn new(writer: W) -> StdSink<W>
        ensures { result.faults ≡ 0 }
    {
        StdSink { writer, faults: 0 }
    }
}

/// Writes the whole piece and flushes it. A writer that takes nothing of bytes that are left is an
/// error.
fn write_out<W: Write>(writer: &mut W, piece: &[u8]) -> io::Result<()>
    ensures { OnOk result (Appends (W.contents writer.old) (W.contents writer.new) piece.now) }
{
    writer.write_all(piece)?;
    writer.flush()
}

impl<W: Write + Drop> Sink for StdSink<W> {
    ghost written = { λ _. None };

    ghost faults = { λ s. s.faults };

    /// Writes the whole piece to the writer and flushes it. An error of the writer, and one that
    /// takes nothing of bytes that are left, is a fault.
    fn put(&mut self, piece: &[u8]) -> Result<(), Failed>
        ensures ok { OnOk result (Puts None None piece.now) }
        ensures failed { OnErr result (PutsFront None None piece.now) }
        ensures cause { HasCause self.old.faults self.new.faults result }
        ensures whole { OnOk result
            (Appends (W.contents self.old.writer) (W.contents self.new.writer) piece.now) }
    {
        match write_out(&mut self.writer, piece) {
            Ok(()) => Ok(()),
            Err(_) => {
                self.faults = self.faults.saturating_add(1);
                Err(Failed)
            }
        }
    }
}
