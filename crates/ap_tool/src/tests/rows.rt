//! Rows of commands, and how one is run.
use crate::tests::files::FILES;
use crate::{Status, apertium};
use ap_outside::{MemFiles, MemSink, MemSource, Sink, Source};
use std::alloc::Global;
use std::process::Abort;
use std::test::Fail;

/// A file: its name and its text.
pub(super) type File = (&'static str, &'static str);

/// A row: the words with a space between, the files beside the common ones, the input, which load
/// or store, which take and which put fails (numbered from 1, 0 for none), and the status, the
/// output and the message that it must give.
pub(super) struct Row {
    pub(super) words: &'static str,
    pub(super) files: &'static [File],
    pub(super) input: &'static str,
    pub(super) failing: [u64; 3],
    pub(super) status: Status,
    pub(super) out: &'static str,
    pub(super) message: &'static str,
}

pub(super) const NONE: [u64; 3] = [0, 0, 0];

// How rows are written: one in which nothing fails and all is done, any other one, both with files
// of their own, and one of words that are no command; and the statuses of rows.

macro_rules! done {
    ($words:expr, $input:expr, $out:expr $(,)?) => {
        crate::tests::rows::Row {
            words: $words,
            files: &[],
            input: $input,
            failing: [0, 0, 0],
            status: crate::Status::Done,
            out: $out,
            message: "",
        }
    };
}

macro_rules! done_over {
    ($files:expr, $words:expr, $input:expr, $out:expr $(,)?) => {
        crate::tests::rows::Row {
            words: $words,
            files: $files,
            input: $input,
            failing: [0, 0, 0],
            status: crate::Status::Done,
            out: $out,
            message: "",
        }
    };
}

macro_rules! case {
    ($words:expr, $input:expr, $failing:expr, $status:expr, $out:expr, $message:expr $(,)?) => {
        crate::tests::rows::Row {
            words: $words,
            files: &[],
            input: $input,
            failing: $failing,
            status: $status,
            out: $out,
            message: $message,
        }
    };
}

macro_rules! case_over {
    (
        $files:expr, $words:expr, $input:expr, $failing:expr, $status:expr, $out:expr,
        $message:expr $(,)?
    ) => {
        crate::tests::rows::Row {
            words: $words,
            files: $files,
            input: $input,
            failing: $failing,
            status: $status,
            out: $out,
            message: $message,
        }
    };
}

macro_rules! usage {
    ($words:expr) => {
        crate::tests::rows::Row {
            words: $words,
            files: &[],
            input: "saw",
            failing: [0, 0, 0],
            status: crate::Status::Usage,
            out: "",
            message: "apertium: usage\n",
        }
    };
}

macro_rules! file_fault {
    ($file:expr) => { crate::Status::FileFault { file: $file } };
}

macro_rules! bad_dictionary {
    ($file:expr, $fault:expr, $line:expr) => {
        crate::Status::BadDictionary {
            file: $file,
            fault: $fault,
            line: $line,
        }
    };
}

macro_rules! bad_rules {
    ($file:expr, $fault:expr, $line:expr) => {
        crate::Status::BadRules {
            file: $file,
            fault: $fault,
            line: $line,
        }
    };
}

macro_rules! bad_compiled {
    ($file:expr, $fault:expr, $line:expr) => {
        crate::Status::BadCompiled {
            file: $file,
            fault: $fault,
            line: $line,
        }
    };
}

macro_rules! malformed {
    ($stage:expr, $kind:expr, $place:expr) => {
        crate::Status::Malformed {
            stage: $stage,
            kind: $kind,
            place: $place,
        }
    };
}

macro_rules! limit {
    ($stage:expr, $kind:expr, $place:expr) => {
        crate::Status::Limit {
            stage: $stage,
            kind: $kind,
            place: $place,
        }
    };
}

pub(super) use bad_compiled;
pub(super) use bad_dictionary;
pub(super) use bad_rules;
pub(super) use case;
pub(super) use case_over;
pub(super) use done;
pub(super) use done_over;
pub(super) use file_fault;
pub(super) use limit;
pub(super) use malformed;
pub(super) use usage;

pub(super) fn words_of(alloc: Global, text: &str) -> Result<Vec<String>, Fail> {
    let mut words = Vec::new(alloc);
    for word in text.split(' ') {
        if !word.is_empty() {
            words.push(String::from_str(alloc, word)?)?;
        }
    }
    Ok(words)
}

fn call_of(alloc: Global, number: u64) -> Result<Vec<u64>, Fail> {
    let mut calls = Vec::new(alloc);
    if number > 0 {
        calls.push(number)?;
    }
    Ok(calls)
}

fn add_all(files: &mut MemFiles, more: &[File]) -> Result<(), Fail> {
    for (name, text) in more {
        files.add(name, text.as_bytes())?;
    }
    Ok(())
}

/// The common files; the load or store of this number fails.
pub(super) fn files_of(alloc: Global, number: u64) -> Result<MemFiles, Fail> {
    let mut files = MemFiles::new(alloc, call_of(alloc, number)?);
    add_all(&mut files, FILES)?;
    Ok(files)
}

/// The status of a call with these words.
pub(super) fn called<S: Source, K: Sink>(
    alloc: Global,
    words: &str,
    files: &mut MemFiles,
    source: &mut S,
    sink: &mut K,
    err: &mut MemSink,
) -> Result<Status, Fail> {
    let words = words_of(alloc, words)?;
    Ok(apertium(alloc, words.as_slice(), files, source, sink, err))
}

/// A run: words, an input that comes in pieces of so many bytes, which take and which put fails,
/// and what it must give.
#[derive(Clone, Copy)]
pub(super) struct Run<'a> {
    pub(super) words: &'a str,
    pub(super) input: &'a [u8],
    pub(super) cut: usize,
    pub(super) take: u64,
    pub(super) put: u64,
    pub(super) status: Status,
    pub(super) out: &'a [u8],
    pub(super) message: &'a str,
}

/// A put that fails keeps nothing.
pub(super) fn check_run(
    rt: &impl Abort,
    alloc: Global,
    files: &mut MemFiles,
    run: &Run,
) -> Result<(), Fail> {
    let input = Vec::from_slice(alloc, run.input)?;
    let mut source = MemSource::new(input, run.cut.max(1), call_of(alloc, run.take)?);
    let room = run.out.len().saturating_add(1000);
    let mut sink = MemSink::new(alloc, room, call_of(alloc, run.put)?, 0)?;
    let mut err = MemSink::new(alloc, 1000, Vec::new(alloc), 0)?;
    let status = called(alloc, run.words, files, &mut source, &mut sink, &mut err)?;
    assert_eq!(rt; status, run.status, "of {}", run.words);
    assert!(rt; sink.written() == run.out, "of {}", run.words);
    assert_eq!(rt; err.written(), run.message.as_bytes(), "of {}", run.words);
    Ok(())
}

/// The input comes in pieces of so many bytes.
pub(super) fn check_over(
    rt: &impl Abort,
    alloc: Global,
    files: &mut MemFiles,
    row: &Row,
    cut: usize,
) -> Result<(), Fail> {
    let [_, take, put] = row.failing;
    let run = Run {
        words: row.words,
        input: row.input.as_bytes(),
        cut,
        take,
        put,
        status: row.status,
        out: row.out.as_bytes(),
        message: row.message,
    };
    check_run(rt, alloc, files, &run)
}

/// A row over new files, in pieces of each of these sizes.
fn check_row(rt: &impl Abort, alloc: Global, row: &Row, cuts: &[usize]) -> Result<(), Fail> {
    let [number, _, _] = row.failing;
    for cut in cuts {
        let mut files = files_of(alloc, number)?;
        add_all(&mut files, row.files)?;
        check_over(rt, alloc, &mut files, row, *cut)?;
    }
    Ok(())
}

/// Each row over new files, in pieces of each of these sizes.
pub(super) fn check_rows(
    rt: &impl Abort,
    alloc: Global,
    rows: &[Row],
    cuts: &[usize],
) -> Result<(), Fail> {
    for row in rows {
        check_row(rt, alloc, row, cuts)?;
    }
    Ok(())
}

/// Each row goes on with the files that the one before it left, in pieces of 7 bytes.
pub(super) fn check_kept(
    rt: &impl Abort,
    alloc: Global,
    files: &mut MemFiles,
    rows: &[Row],
) -> Result<(), Fail> {
    for row in rows {
        check_over(rt, alloc, files, row, 7)?;
    }
    Ok(())
}
