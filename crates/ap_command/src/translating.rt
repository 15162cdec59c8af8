ghost use Rattle.std.specs.Prelude.{ℕ, List, ◌≤◌};
ghost use Rattle.ap_stream.specs.declared.TheConstants.{ROOM_MAX};
ghost use Rattle.ap_command.specs.declared.words.Command.TheVariants.{Run};
ghost use Rattle.ap_command.specs.Answer.{AreKeptAs, FlowsAs};
ghost use Rattle.ap_command.specs.Messages.{IsTold};
ghost use Rattle.ap_command.specs.Outside.{source_stands, sink_stands};
ghost use Rattle.ap_command.specs.Said.{Said};
ghost use Rattle.ap_command.specs.Words.{translation_files};

use crate::content::{Content, next_translation};
use crate::rows::translation_row;
use crate::status::Status;
use crate::stream::send;
use ap_outside::{Sink, Source};
use std::alloc::Global;

/// Sends the stream through a whole translation, with pipes of that room, by what is kept of its
/// seven files.
pub(crate) fn translate<S: Source, K: Sink>(
    alloc: Global,
    kept: Vec<Content>,
    room: usize,
    source: &mut S,
    sink: &mut K,
) -> Status
    requires kept { (at : ℕ) × (said : List Said)
        × AreKeptAs (translation_files at) said kept.items }
    requires some { 1 ≤ room }
    requires most { room ≤ ROOM_MAX }
    ensures told { (words : ℕ) → IsTold result words }
    ensures flows { (at : ℕ) (said : List Said) →
        AreKeptAs (translation_files at) said kept.items →
        FlowsAs (Run room at) said (source_stands S.Source source.old)
        (source_stands S.Source source.new) (sink_stands K.Sink sink.old)
        (sink_stands K.Sink sink.new) result }
{
    let mut kept = kept;
    let files = next_translation(&mut kept);
    send(alloc, translation_row(alloc, files), room, source, sink)
}
