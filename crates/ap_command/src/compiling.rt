ghost use Rattle.std.specs.Prelude.{◌≡◌, ◌<◌, ◌++◌, ℕ, length, IfOk, OnOk, decimal};
ghost use Rattle.ap_fst.specs.Sections.{Parts, section_of};
ghost use Rattle.ap_binary.specs.Text.{then_space, then_end};
ghost use Rattle.ap_trim.specs.Trimming.{IsTrimmedBy};
ghost use Rattle.ap_command.specs.Messages.{IsTold};
ghost use Rattle.ap_command.specs.Outside.{files_stand, sink_stands};
ghost use Rattle.ap_command.specs.Gives.{kind_name, section_line, summary, Making, IsMade};
ghost use Rattle.ap_command.specs.Compiling.{StoresOrStops};

use crate::status::Status;
use ap_binary::{spells_texts, write_compiled};
use ap_fst::{Compiled, Fst, Kind2};
use ap_outside::{Files, Sink, StoreRefusal};
use ap_symbol::{Bytes, Memory};
use ap_trim::trim_by;
use itoa::Buffer;
use std::alloc::Global;

/// The name of a kind of sections.
fn kind_name(kind: Kind2) -> &'static str
    ensures { result.now ≡ kind_name kind }
{
    match kind {
        Kind2::Standard => "standard",
        Kind2::Inconditional => "inconditional",
        Kind2::Postblank => "postblank",
        Kind2::Preblank => "preblank",
    }
}

/// A number.
fn write_number(number: usize, into: &mut Bytes) -> Result<(), Memory>
    ensures { OnOk result (into.new ≡ into.old ++ decimal number) }
{
    into.extend(Buffer::new().format(number as u64).as_bytes())
}

/// The name of a kind, and the space behind it.
fn write_kind(kind: Kind2, into: &mut Bytes) -> Result<(), Memory>
    ensures { OnOk result (into.new ≡ into.old ++ then_space (kind_name kind)) }
{
    into.extend(kind_name(kind).as_bytes())?;
    into.extend(b" ")
}

/// The numbers of states and edges.
fn write_counts(fst: &Fst, into: &mut Bytes) -> Result<(), Memory>
    ensures { OnOk result (into.new ≡ into.old
        ++ (then_space (decimal fst.now.states) ++ then_end (decimal (length fst.now.edges)))) }
{
    write_number(fst.states(), into)?;
    into.extend(b" ")?;
    write_number(fst.edges().len(), into)?;
    into.extend(b"\n")
}

/// The line of a section: its kind, how many states it has, and how many edges.
fn write_line(compiled: &Compiled, kind: Kind2, into: &mut Bytes) -> Result<(), Memory>
    ensures { OnOk result (into.new ≡ into.old
        ++ section_line kind (section_of compiled.now kind)) }
{
    write_kind(kind, into)?;
    write_counts(compiled.section(kind), into)
}

/// The lines of the sections.
fn write_lines(compiled: &Compiled, into: &mut Bytes) -> Result<(), Memory>
    ensures { OnOk result (into.new ≡ into.old ++ summary compiled.now) }
{
    write_line(compiled, Kind2::Standard, into)?;
    write_line(compiled, Kind2::Inconditional, into)?;
    write_line(compiled, Kind2::Postblank, into)?;
    write_line(compiled, Kind2::Preblank, into)
}

/// What is put of a compiled dictionary.
fn summary(alloc: Global, compiled: &Compiled) -> Result<Bytes, Memory>
    ensures { IfOk result (λ text. text ≡ summary compiled.now) }
{
    let mut text = Bytes::new(alloc);
    write_lines(compiled, &mut text)?;
    Ok(text)
}

/// Stores the compiled dictionary under the name, and puts its lines. All memory is taken before.
pub(crate) fn store_compiled<F: Files, K: Sink>(
    alloc: Global,
    compiled: &Compiled,
    name: &str,
    out: usize,
    files: &mut F,
    sink: &mut K,
) -> Status
    ensures stored { (making : Making) → IsMade making compiled.now →
        StoresOrStops making out name.now (files_stand F.Files files.old)
        (files_stand F.Files files.new) (sink_stands K.Sink sink.old)
        (sink_stands K.Sink sink.new) result }
    ensures told { (words : ℕ) → out < words → IsTold result words }
{
    spells_texts();
    let Ok(text) = write_compiled(alloc, compiled) else {
        return Status::Memory;
    };
    let Ok(lines) = summary(alloc, compiled) else {
        return Status::Memory;
    };
    match files.store(name, text.as_slice()) {
        Err(StoreRefusal::Failed) => Status::FileFault { file: out },
        Err(StoreRefusal::Memory) => Status::Memory,
        Ok(()) => match sink.put(lines.as_slice()) {
            Err(_) => Status::WriteFault,
            Ok(()) => Status::Done,
        },
    }
}

/// Stores what of an analyser a bilingual dictionary can translate, and puts its lines, in the same
/// way.
pub(crate) fn store_trimmed<F: Files, K: Sink>(
    alloc: Global,
    mono: &Compiled,
    bilingual: &Compiled,
    name: &str,
    out: usize,
    files: &mut F,
    sink: &mut K,
) -> Status
    ensures stored { (making : Making) →
        ((made : Parts) → IsTrimmedBy mono.now bilingual.now made → IsMade making made) →
        StoresOrStops making out name.now (files_stand F.Files files.old)
        (files_stand F.Files files.new) (sink_stands K.Sink sink.old)
        (sink_stands K.Sink sink.new) result }
    ensures told { (words : ℕ) → out < words → IsTold result words }
{
    match trim_by(alloc, mono, bilingual) {
        Err(_) => Status::Memory,
        Ok(trimmed) => store_compiled(alloc, &trimmed, name, out, files, sink),
    }
}
