ghost use Rattle.std.specs.Prelude.{◌<◌, List, length, IfSome};
ghost use Rattle.ap_command.specs.Said.{Said};
ghost use Rattle.ap_command.specs.Messages.{message_of, IsTold};
ghost use Rattle.ap_command.specs.Words.{texts, files_of, out_of, AreWithin, HasRoom};
ghost use Rattle.ap_command.specs.Outside.{stands, sink_stands};
ghost use Rattle.ap_command.specs.Gives.{gives_of};
ghost use Rattle.ap_command.specs.Answer.{IsAnswer, IsCommandAnswer, IsRun, AreKeptAs, Tells};
ghost use Rattle.ap_command.specs.Account.{Account};

use crate::compiling::{store_compiled, store_trimmed};
use crate::content::{
    Content, next_compiled, next_dictionary, next_pairs, next_rules, next_translation,
};
use crate::laws::{one_meaning, one_reading};
use crate::listing::put_lines;
use crate::messages::{message, name};
use crate::opening::open_all;
use crate::reading::files_of;
use crate::rows::{compound_row, looked_up_row, text_row};
use crate::stages::{
    choose_stage, destxt_stage, file_stage, first_stage, interchunk_stage, postchunk_stage,
    pretransfer_stage, retxt_stage, transfer_stage,
};
use crate::status::Status;
use crate::stream::{ROOM, send, send_one};
use crate::translating::translate;
use crate::words::{Command, read_words};
use crate::working::work;
use ap_outside::{Files, Sink, Source};
use ap_pipe::behind_the_first;
use std::alloc::Global;

/// Gives what the command gives, of what is kept of its files.
fn give<F: Files, S: Source, K: Sink>(
    alloc: Global,
    words: &[String],
    command: Command,
    kept: Vec<Content>,
    files: &mut F,
    source: &mut S,
    sink: &mut K,
) -> Status
    requires kept { (said : List Said) × AreKeptAs (files_of command) said kept.items }
    requires some { 0 < length words.now }
    requires room { HasRoom command }
    requires stored { IfSome (out_of command) (λ out. out < length words.now) }
    ensures told { IsTold result (length words.now) }
    ensures gave { (said : List Said) → AreKeptAs (files_of command) said kept.items →
        IsRun (texts words.now) (gives_of command said)
        (stands F.Files S.Source K.Sink files.old source.old sink.old)
        (stands F.Files S.Source K.Sink files.new source.new sink.new) result }
{
    let mut kept = kept;
    match command {
        Command::Proc {
            mode,
            sensitive,
            ..
        } => {
            let compiled = next_compiled(&mut kept);
            send_one(
                alloc,
                file_stage(alloc, mode, compiled, sensitive),
                source,
                sink,
            )
        }
        Command::Expand { .. } => put_lines(alloc, &next_dictionary(&mut kept), sink),
        Command::Comp { out, .. } => {
            let compiled = next_compiled(&mut kept);
            store_compiled(alloc, &compiled, name(words, out), out, files, sink)
        }
        Command::Trim { out, .. } => {
            let mono = next_compiled(&mut kept);
            let bilingual = next_compiled(&mut kept);
            store_trimmed(alloc, &mono, &bilingual, name(words, out), out, files, sink)
        }
        Command::Choose { .. } => {
            let pairs = next_pairs(&mut kept);
            send_one(alloc, choose_stage(alloc, pairs), source, sink)
        }
        Command::TransferAlone { .. } => {
            let rules = next_rules(&mut kept);
            send_one(alloc, transfer_stage(alloc, rules), source, sink)
        }
        Command::Transfer { .. } => {
            let rules = next_rules(&mut kept);
            let compiled = next_compiled(&mut kept);
            send(
                alloc,
                looked_up_row(alloc, compiled, rules),
                ROOM,
                source,
                sink,
            )
        }
        Command::Interchunk { .. } => {
            let rules = next_rules(&mut kept);
            send_one(alloc, interchunk_stage(alloc, rules), source, sink)
        }
        Command::Postchunk { .. } => {
            let rules = next_rules(&mut kept);
            send_one(alloc, postchunk_stage(alloc, rules), source, sink)
        }
        Command::Compound { sensitive, .. } => {
            let compiled = next_compiled(&mut kept);
            send(
                alloc,
                compound_row(alloc, compiled, sensitive),
                ROOM,
                source,
                sink,
            )
        }
        Command::Run { room, .. } => translate(alloc, kept, room, source, sink),
        Command::Text { room, .. } => {
            let seven = next_translation(&mut kept);
            send(alloc, text_row(alloc, seven), room, source, sink)
        }
        Command::First => send_one(alloc, Ok(first_stage(alloc)), source, sink),
        Command::Pretransfer => send_one(alloc, Ok(pretransfer_stage(alloc)), source, sink),
        Command::Destxt => send_one(alloc, Ok(destxt_stage(alloc)), source, sink),
        Command::Retxt => send_one(alloc, Ok(retxt_stage(alloc)), source, sink),
        Command::Work { sentences } => work(alloc, sentences, sink),
    }
}

/// Reads the files of a command, and gives what it gives.
fn run_command<F: Files, S: Source, K: Sink>(
    alloc: Global,
    words: &[String],
    command: Command,
    files: &mut F,
    source: &mut S,
    sink: &mut K,
) -> Status
    requires named { AreWithin (length words.now) (files_of command) }
    requires some { 0 < length words.now }
    requires room { HasRoom command }
    requires stored { IfSome (out_of command) (λ out. out < length words.now) }
    ensures told { IsTold result (length words.now) }
    ensures answer { IsCommandAnswer (texts words.now)
        (stands F.Files S.Source K.Sink files.old source.old sink.old)
        (stands F.Files S.Source K.Sink files.new source.new sink.new) result command }
{
    let Ok(readings) = files_of(alloc, command) else {
        return Status::Memory;
    };
    match open_all(alloc, files, words, readings.as_slice()) {
        Err(status) => status,
        Ok(kept) => give(alloc, words, command, kept, files, source, sink),
    }
}

fn run<F: Files, S: Source, K: Sink>(
    alloc: Global,
    words: &[String],
    files: &mut F,
    source: &mut S,
    sink: &mut K,
) -> Status
    ensures told { IsTold result (length words.now) }
    ensures answer { IsAnswer (texts words.now)
        (stands F.Files S.Source K.Sink files.old source.old sink.old)
        (stands F.Files S.Source K.Sink files.new source.new sink.new) result }
{
    match read_words(words) {
        Err(_) => Status::Usage,
        Ok(command) => run_command(alloc, words, command, files, source, sink),
    }
}

/// Runs the command that the words are, as `apertium` of the crate above promises it: it reads the
/// command's files, gives what the command gives, and writes the message of the status to `err`.
pub fn run_words<F: Files, S: Source, K: Sink, E: Sink>(
    alloc: Global,
    words: &[String],
    files: &mut F,
    source: &mut S,
    sink: &mut K,
    err: &mut E,
) -> Status
    ensures account { Account (texts words.now)
        (stands F.Files S.Source K.Sink files.old source.old sink.old)
        (stands F.Files S.Source K.Sink files.new source.new sink.new)
        result }
    ensures message { Tells (sink_stands E.Sink err.old) (sink_stands E.Sink err.new)
        (message_of result (texts words.now)) }
{
    one_reading();
    one_meaning();
    behind_the_first();
    let status = run(alloc, words, files, source, sink);
    let _ = message(&status, words, err);
    status
}
