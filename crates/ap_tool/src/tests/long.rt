//! Rows of which a file, the input and the output are made of pieces, each so many times.
use crate::Status;
use crate::tests::rows::{Run, check_run, files_of};
use itoa::Buffer;
use std::alloc::{AllocError, Global};
use std::process::Abort;
use std::test::Fail;

/// A text in pieces, each so many times. In each copy of a piece its number, from 0, stands for
/// `#`, the next number for `%`, twice its number for a grave accent, the number behind that for
/// `|`, and a byte that begins no character for `?`.
pub(super) type Pieces = &'static [(&'static str, usize)];

/// A row with a file of its own: the words, the file's name and text, the input and the size of its
/// pieces, which take fails, and the status, the output and the message that it must give.
pub(super) struct Long {
    pub(super) words: &'static str,
    pub(super) name: &'static str,
    pub(super) file: Pieces,
    pub(super) input: Pieces,
    pub(super) cut: usize,
    pub(super) take: u64,
    pub(super) status: Status,
    pub(super) out: Pieces,
    pub(super) message: &'static str,
}

/// The number that stands for a mark.
fn number_of(mark: u8, number: usize) -> Option<usize> {
    match mark {
        b'#' => Some(number),
        b'%' => Some(number.saturating_add(1)),
        b'`' => Some(number.saturating_mul(2)),
        b'|' => Some(number.saturating_mul(2).saturating_add(1)),
        _ => None,
    }
}

fn push_copy(text: &mut Vec<u8>, piece: &str, number: usize) -> Result<(), AllocError> {
    for byte in piece.as_bytes() {
        match number_of(*byte, number) {
            Some(told) => text.extend_from_slice(Buffer::new().format(told).as_bytes())?,
            None if *byte == b'?' => text.push(255)?,
            None => text.push(*byte)?,
        }
    }
    Ok(())
}

/// Whether a byte stands for itself in a piece.
fn is_plain(byte: u8) -> bool {
    byte != b'?' && number_of(byte, 0).is_none()
}

fn push_copies(
    alloc: Global,
    text: &mut Vec<u8>,
    piece: &str,
    count: usize,
) -> Result<(), AllocError> {
    if let Some(byte) = piece.as_bytes().first()
        && piece.len() == 1
        && is_plain(*byte)
    {
        return text.extend_from_slice(vec![in alloc; *byte; count]?.as_slice());
    }
    for number in 0..count {
        push_copy(text, piece, number)?;
    }
    Ok(())
}

pub(super) fn made(alloc: Global, pieces: &[(&str, usize)]) -> Result<Vec<u8>, AllocError> {
    let mut text = Vec::new(alloc);
    for (piece, count) in pieces {
        push_copies(alloc, &mut text, piece, *count)?;
    }
    Ok(text)
}

fn check_long(rt: &impl Abort, alloc: Global, row: &Long) -> Result<(), Fail> {
    let mut files = files_of(alloc, 0)?;
    files.add(row.name, made(alloc, row.file)?.as_slice())?;
    let input = made(alloc, row.input)?;
    let out = made(alloc, row.out)?;
    let run = Run {
        words: row.words,
        input: input.as_slice(),
        cut: row.cut,
        take: row.take,
        put: 0,
        status: row.status,
        out: out.as_slice(),
        message: row.message,
    };
    check_run(rt, alloc, &mut files, &run)
}

/// Each row, over the common files and its own.
pub(super) fn check_all(rt: &impl Abort, alloc: Global, rows: &[Long]) -> Result<(), Fail> {
    for row in rows {
        check_long(rt, alloc, row)?;
    }
    Ok(())
}
