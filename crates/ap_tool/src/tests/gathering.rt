//! A stream is not gathered: bytes are put before the source ends, and a failed put leaves most of
//! the input in the source.
use crate::tests::long::made;
use crate::tests::rows::{called, files_of};
use crate::tests::watching::{Counting, Watching};
use ap_outside::{MemSink, MemSource};
use std::alloc::Global;
use std::cell::Cell;
use std::process::Abort;
use std::test::Fail;

/// A run that is watched: its words, its text and the size of the pieces that it comes in, how many
/// bytes are asked for at once, how many are put before the source ends at the least, and how many
/// are taken at the most where the first put fails.
#[derive(Clone, Copy)]
struct Watched<'a> {
    words: &'a str,
    text: &'a [u8],
    cut: usize,
    asked: usize,
    before: usize,
    most: usize,
}

fn check_watched(
    rt: &impl Abort,
    alloc: Global,
    watched: &Watched,
    fails: bool,
) -> Result<(), Fail> {
    let put = Cell::new(0);
    let text = Vec::from_slice(alloc, watched.text)?;
    let mut source = Watching {
        source: MemSource::new(text, watched.cut.max(1), Vec::new(alloc)),
        put: &put,
        given: 0,
        asked: 0,
        at_end: 0,
    };
    let mut sink = Counting {
        put: &put,
        fails,
        faults: 0,
    };
    let mut files = files_of(alloc, 0)?;
    let mut err = MemSink::new(alloc, 1000, Vec::new(alloc), 0)?;
    let status = called(
        alloc,
        watched.words,
        &mut files,
        &mut source,
        &mut sink,
        &mut err,
    )?;
    let number = if fails { 4 } else { 0 };
    assert!(rt; status.number() == number, "of {}", watched.words);
    assert!(rt; source.asked == watched.asked, "of {}", watched.words);
    if fails {
        assert!(rt; source.given < watched.most, "of {}", watched.words);
    } else {
        assert!(rt; source.given == watched.text.len(), "of {}", watched.words);
        assert!(rt; source.at_end > watched.before, "of {}", watched.words);
    }
    Ok(())
}

#[test]
fn a_stream_is_not_gathered(rt: HostRuntime) -> Result<(), Fail> {
    let alloc = rt.alloc();
    let text = made(alloc, &[("houses ", 4000)])?;
    let watched = Watched {
        words: "lt-proc -a M",
        text: text.as_slice(),
        cut: 64,
        asked: 65_536,
        before: 28_000,
        most: 8000,
    };
    check_watched(&rt, alloc, &watched, false)?;
    check_watched(&rt, alloc, &watched, true)
}

/// By pipes of 64 bytes. The source is asked for no more than a pipe holds.
#[test]
fn a_whole_row_gathers_nothing(rt: HostRuntime) -> Result<(), Fail> {
    let alloc = rt.alloc();
    let sentences = "The black dog[<`>] of the cat.\nblack cats[<|>] sleep.\n";
    let text = made(alloc, &[(sentences, 500)])?;
    assert!(rt; text.len() == 28_890);
    for words in [
        "run -B 64 MONO BI T1 T2 T3 GEN POST",
        "text -B 64 MONO BI T1 T2 T3 GEN POST",
    ] {
        let watched = Watched {
            words,
            text: text.as_slice(),
            cut: 65_536,
            asked: 64,
            before: 28_000,
            most: 1000,
        };
        check_watched(&rt, alloc, &watched, false)?;
        check_watched(&rt, alloc, &watched, true)?;
    }
    Ok(())
}
