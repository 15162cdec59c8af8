//! The workload `work`: a made text is translated by built-in files, and counted.
ghost use Rattle.std.specs.Prelude.{◌≡◌, ◌≤◌, ◌<◌, ◌++◌, ℕ, List, length, IfOk, OnOk};
ghost use Rattle.ap_stream.specs.Pieces.{HasSuperblanks};
ghost use Rattle.ap_stream.specs.Supers.{supers};
ghost use Rattle.ap_stream.specs.declared.dialect.Dialect.TheVariants.{Generated};
ghost use Rattle.ap_command.specs.Answer.{IsStreamAnswer, IsWorked};
ghost use Rattle.ap_command.specs.Listing.{IsListed};
ghost use Rattle.ap_command.specs.Messages.{IsTold};
ghost use Rattle.ap_command.specs.Outside.{source_stands, sink_stands};
ghost use Rattle.ap_command.specs.Words.{texts, work_max};
ghost use Rattle.ap_command.specs.Working.{run_words, work_run, over_built_in, of_built_in, count_line, work_lines};

use crate::built_in::BuiltIn;
use crate::kept_sink::KeptSink;
use crate::made::{WorkSource, made_size};
use crate::opening::open_all;
use crate::reading::files_of;
use crate::status::Status;
use crate::stream::ROOM;
use crate::translating::translate;
use crate::words::Command;
use ap_outside::{Sink, Source};
use ap_stream::superblanks_are_scanned;
use ap_symbol::{Bytes, Memory};
use itoa::Buffer;
use std::alloc::{AllocError, Global};

/// The words of `run` over the built-in files.
fn run_words(alloc: Global) -> Result<Vec<String>, AllocError>
    ensures { IfOk result (λ words. texts words.items ≡ run_words) }
{
    Ok(vec![in alloc;
        String::from_str(alloc, "run")?,
        String::from_str(alloc, "W.mono")?,
        String::from_str(alloc, "W.bi")?,
        String::from_str(alloc, "W.t1x")?,
        String::from_str(alloc, "W.t2x")?,
        String::from_str(alloc, "W.t3x")?,
        String::from_str(alloc, "W.gen")?,
        String::from_str(alloc, "W.post")?,
    ]?)
}

/// Translates the stream by the built-in files.
fn translate_built_in<S: Source, K: Sink>(alloc: Global, source: &mut S, sink: &mut K) -> Status
    ensures told { IsTold result 8 }
    ensures answer { IsStreamAnswer run_words
        (over_built_in (source_stands S.Source source.old) (sink_stands K.Sink sink.old))
        (over_built_in (source_stands S.Source source.new) (sink_stands K.Sink sink.new))
        result work_run }
{
    let Ok(words) = run_words(alloc) else {
        return Status::Memory;
    };
    let Ok(readings) = files_of(
        alloc,
        Command::Run {
            room: ROOM,
            mono: 1,
        },
    ) else {
        return Status::Memory;
    };
    let mut files = BuiltIn {};
    match open_all(alloc, &mut files, words.as_slice(), readings.as_slice()) {
        Err(status) => status,
        Ok(kept) => translate(alloc, kept, ROOM, source, sink),
    }
}

/// The status of `work` where the translation ended so: no file among the words is named, and a
/// sink that keeps fails for want of memory alone.
fn of_built_in(status: Status) -> Status
    ensures { result ≡ of_built_in status }
{
    match status {
        Status::FileFault { .. } => Status::FileFault { file: 0 },
        Status::BadDictionary { fault, line, .. } => Status::BadDictionary {
            file: 0,
            fault,
            line,
        },
        Status::BadRules { fault, line, .. } => Status::BadRules {
            file: 0,
            fault,
            line,
        },
        Status::BadCompiled { fault, line, .. } => Status::BadCompiled {
            file: 0,
            fault,
            line,
        },
        Status::Limit {
            stage: 0,
            kind: 6,
            ..
        } => Status::Limit {
            stage: 0,
            kind: 6,
            place: 0,
        },
        Status::WriteFault => Status::Memory,
        _ => status,
    }
}

/// How many superblanks a text has that is a row of pieces of generated text: one for each bracket
/// that opens one.
fn count_superblanks(text: &[u8]) -> u64
    ensures { (superblanks : List (List ℕ)) → HasSuperblanks Generated text.now superblanks →
        result ≡ length (supers Generated text.now) }
{
    superblanks_are_scanned();
    let mut count = 0;
    let mut inside = false;
    let mut escaped = false;
    for byte in text {
        if escaped {
            escaped = false;
        } else if *byte == b'\\' {
            escaped = true;
        } else if *byte == b']' {
            inside = false;
        } else if *byte == b'[' && !inside {
            inside = true;
            count += 1;
        }
    }
    count
}

/// A name and a number.
fn write_count(name: &str, count: u64, into: &mut Bytes) -> Result<(), Memory>
    ensures { OnOk result (into.new ≡ into.old ++ count_line name.now count) }
{
    into.extend(name.as_bytes())?;
    into.extend(b" ")?;
    into.extend(Buffer::new().format(count).as_bytes())?;
    into.extend(b"\n")
}

/// The lines of `work` for so many sentences and their translation.
fn write_lines(sentences: u64, text: &[u8], into: &mut Bytes) -> Result<(), Memory>
    requires few { sentences ≤ work_max }
    requires pieces { (superblanks : List (List ℕ)) × HasSuperblanks Generated text.now superblanks }
    ensures { OnOk result (into.new ≡ into.old ++ work_lines sentences text.now) }
{
    write_count("sentences", sentences, into)?;
    write_count("input", made_size(sentences), into)?;
    write_count("output", text.len() as u64, into)?;
    write_count("superblanks", count_superblanks(text), into)
}

/// Puts the lines of `work`. All memory is taken before.
fn report<K: Sink>(alloc: Global, sentences: u64, text: &[u8], sink: &mut K) -> Status
    requires few { sentences ≤ work_max }
    requires pieces { (superblanks : List (List ℕ)) × HasSuperblanks Generated text.now superblanks }
    ensures told { (words : ℕ) → IsTold result words }
    ensures listed { IsListed (sink_stands K.Sink sink.old) (sink_stands K.Sink sink.new)
        (work_lines sentences text.now) result }
{
    let mut lines = Bytes::new(alloc);
    if write_lines(sentences, text, &mut lines).is_err() {
        return Status::Memory;
    }
    match sink.put(lines.as_slice()) {
        Err(_) => Status::WriteFault,
        Ok(()) => Status::Done,
    }
}

/// Translates so many made sentences by the built-in files, and puts what was counted of their
/// translation.
pub(crate) fn work<K: Sink>(alloc: Global, sentences: u64, sink: &mut K) -> Status
    requires { sentences ≤ work_max }
    ensures told { (words : ℕ) → 0 < words → IsTold result words }
    ensures worked { IsWorked sentences (sink_stands K.Sink sink.old)
        (sink_stands K.Sink sink.new) result }
{
    let mut source = WorkSource::new(sentences);
    let mut kept = KeptSink::new(alloc);
    match translate_built_in(alloc, &mut source, &mut kept) {
        Status::Done => report(alloc, sentences, kept.written(), sink),
        status => of_built_in(status),
    }
}
