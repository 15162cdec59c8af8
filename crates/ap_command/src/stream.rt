ghost use Rattle.std.specs.Prelude.{◌≡◌, ◌≤◌, ℕ, false, List, [], ◌∷◌, None, IfOk, length};
ghost use Rattle.ap_stream.specs.declared.TheConstants.{ROOM_MAX};
ghost use Rattle.ap_pipe.specs.Any.{any_fault, any_ended};
ghost use Rattle.ap_command.specs.Messages.{IsTold};
ghost use Rattle.ap_command.specs.Outside.{source_stands, sink_stands};
ghost use Rattle.ap_command.specs.Rows.{Stage};
ghost use Rattle.ap_command.specs.Stream.{malformed_number, limit_number, status_at, status_of_outcome, Flows, FlowsOrStops, IsStage, IsRow};

use crate::rows::one_row;
use crate::status::Status;
use ap_outside::{Sink, Source};
use ap_pipe::{AnyStage, INPUT_MAX, Outcome, Row, stream_row};
use ap_stream::{LimitKind, MalformedKind, StreamFault};
use ap_symbol::Memory;
use std::alloc::Global;

/// The bytes that a pipe between stages holds.
pub(crate) const ROOM: usize = 65_536;

fn number_of_malformed(kind: MalformedKind) -> u8
    ensures { result ≡ malformed_number kind }
{
    match kind {
        MalformedKind::NotUtf8 => 1,
        MalformedKind::Stray => 2,
        MalformedKind::Unfinished => 3,
        MalformedKind::BadTag => 4,
        MalformedKind::EmptyWord => 5,
    }
}

fn number_of_limit(kind: LimitKind) -> u8
    ensures { result ≡ limit_number kind }
{
    match kind {
        LimitKind::ItemTooLong => 1,
        LimitKind::SpanTooLong => 2,
        LimitKind::UnitTooLong => 3,
        LimitKind::ValueTooLong => 4,
        LimitKind::OutputTooLong => 5,
        LimitKind::FileTooLong => 6,
        LimitKind::InputTooLong => 7,
    }
}

/// The status of a fault of a stage.
fn faulty(stage: u8, fault: StreamFault) -> Status
    ensures { result ≡ status_at stage fault }
{
    match fault {
        StreamFault::Malformed { kind, place } => Status::Malformed {
            stage,
            kind: number_of_malformed(kind),
            place,
        },
        StreamFault::Limit { kind, place } => Status::Limit {
            stage,
            kind: number_of_limit(kind),
            place,
        },
        StreamFault::Memory => Status::Memory,
    }
}

fn status_of(outcome: Outcome) -> Status
    ensures { result ≡ status_of_outcome outcome }
{
    match outcome {
        Outcome::Done => Status::Done,
        Outcome::ReadFault => Status::ReadFault,
        Outcome::WriteFault => Status::WriteFault,
        Outcome::InputTooLong => Status::Limit {
            stage: 0,
            kind: 7,
            place: INPUT_MAX,
        },
        Outcome::Fault { stage, fault } => faulty(stage, fault),
    }
}

/// Sends the stream through a row of stages, with pipes of that room, and answers its status.
fn pass<S: Source, K: Sink>(
    alloc: Global,
    row: Row<AnyStage>,
    room: usize,
    source: &mut S,
    sink: &mut K,
) -> Status
    requires some { 1 ≤ length row }
    requires room { 1 ≤ room }
    requires most { room ≤ ROOM_MAX }
    ensures flows { (stages : List Stage) → IsRow stages row →
        Flows stages (source_stands S.Source source.old) (source_stands S.Source source.new)
        (sink_stands K.Sink sink.old) (sink_stands K.Sink sink.new) result }
    ensures told { (words : ℕ) → IsTold result words }
{
    status_of(stream_row(alloc, row, room, source, sink))
}

/// Sends the stream through a row, where memory sufficed for it.
pub(crate) fn send<S: Source, K: Sink>(
    alloc: Global,
    row: Result<Row<AnyStage>, Memory>,
    room: usize,
    source: &mut S,
    sink: &mut K,
) -> Status
    requires some { IfOk row (λ r. 1 ≤ length r) }
    requires room { 1 ≤ room }
    requires most { room ≤ ROOM_MAX }
    ensures flows { (stages : List Stage) → IfOk row (λ r. IsRow stages r) →
        FlowsOrStops stages (source_stands S.Source source.old) (source_stands S.Source source.new)
        (sink_stands K.Sink sink.old) (sink_stands K.Sink sink.new) result }
    ensures told { (words : ℕ) → IsTold result words }
{
    match row {
        Err(_) => Status::Memory,
        Ok(row) => pass(alloc, row, room, source, sink),
    }
}

/// Sends the stream through one stage, where memory sufficed for it.
pub(crate) fn send_one<S: Source, K: Sink>(
    alloc: Global,
    stage: Result<AnyStage, Memory>,
    source: &mut S,
    sink: &mut K,
) -> Status
    requires going { IfOk stage (λ made. any_fault made ≡ None) }
    requires open { IfOk stage (λ made. any_ended made ≡ false) }
    ensures flows { (s : Stage) → IfOk stage (λ made. IsStage s made) →
        FlowsOrStops (s ∷ []) (source_stands S.Source source.old)
        (source_stands S.Source source.new) (sink_stands K.Sink sink.old)
        (sink_stands K.Sink sink.new) result }
    ensures told { (words : ℕ) → IsTold result words }
{
    match stage {
        Err(_) => Status::Memory,
        Ok(stage) => send(alloc, one_row(alloc, stage), ROOM, source, sink),
    }
}
