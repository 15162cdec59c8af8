//! A line goes through as it comes: what was taken is answered before more is taken.
ghost use Rattle.std.specs.Prelude.{None};

use crate::Status;
use crate::tests::rows::{called, files_of};
use crate::tests::watching::Counting;
use ap_outside::{Failed, MemSink, MemSource, Source};
use std::alloc::{AllocError, Global};
use std::cell::Cell;
use std::process::Abort;
use std::test::Fail;

/// A text of three lines, each of which is taken by itself, with the counts of the bytes that were
/// put before each of them and before the end.
#[derive(Drop)]
struct Lines<'a> {
    source: MemSource,
    lengths: [usize; 3],
    left: usize,
    at: usize,
    put: &'a Cell<usize>,
    before: [usize; 3],
    at_end: usize,
}

impl Source for Lines<'_> {
    ghost left = { λ s. None };

    ghost faults = { λ s. ⟦<MemSource as Source>⟧.faults s.source };

    fn take(&mut self, into: &mut [u8]) -> Result<usize, Failed> {
        if self.left == 0 {
            if self.at < 3 {
                self.before[self.at] = self.put.get();
                self.left = self.lengths[self.at];
                self.at += 1;
            } else {
                self.at_end = self.put.get();
            }
        }
        let count = self.left.min(into.len());
        match self.source.take(&mut into[..count]) {
            Err(failed) => Err(failed),
            Ok(count) => {
                self.left = self.left.saturating_sub(count);
                Ok(count)
            }
        }
    }
}

/// Three lines, and the answer to each.
struct Answers {
    words: &'static str,
    lines: [&'static str; 3],
    given: [&'static str; 3],
}

fn text_of(alloc: Global, lines: &[&str]) -> Result<Vec<u8>, AllocError> {
    let mut text = Vec::new(alloc);
    for line in lines {
        text.extend_from_slice(line.as_bytes())?;
    }
    Ok(text)
}

/// A call answers each line before it takes the next one.
fn answers_each(rt: &impl Abort, alloc: Global, answers: &Answers) -> Result<(), Fail> {
    let put = Cell::new(0);
    let text = text_of(alloc, &answers.lines)?;
    let [one, two, three] = answers.lines;
    let mut source = Lines {
        source: MemSource::new(text, 1000, Vec::new(alloc)),
        lengths: [one.len(), two.len(), three.len()],
        left: 0,
        at: 0,
        put: &put,
        before: [0; 3],
        at_end: 0,
    };
    let mut sink = Counting {
        put: &put,
        fails: false,
        faults: 0,
    };
    let mut files = files_of(alloc, 0)?;
    let mut err = MemSink::new(alloc, 1000, Vec::new(alloc), 0)?;
    let status = called(
        alloc,
        answers.words,
        &mut files,
        &mut source,
        &mut sink,
        &mut err,
    )?;
    assert!(rt; status == Status::Done, "of {}", answers.words);
    let [first, second, third] = answers.given;
    let one = first.len();
    let two = one.saturating_add(second.len());
    let three = two.saturating_add(third.len());
    let before = [0, one, two];
    assert!(rt; source.before == before, "of {}", answers.words);
    assert!(rt; source.at_end == three, "of {}", answers.words);
    assert!(rt; put.get() == three, "of {}", answers.words);
    Ok(())
}

/// An answer is out before the next line is taken: two zero bytes behind a line feed end all that
/// is held before them, and come out too.
const ANSWERS: &[Answers] = &[
    Answers {
        words: "run MONO BI T1 T2 T3 GEN POST",
        lines: SAID,
        given: GIVEN,
    },
    Answers {
        words: "run -B 1 MONO BI T1 T2 T3 GEN POST",
        lines: SAID,
        given: GIVEN,
    },
    Answers {
        words: "text MONO BI T1 T2 T3 GEN POST",
        lines: SAID,
        given: GIVEN,
    },
    Answers {
        words: "transfer T1 BI",
        lines: [
            "^black<adj>$ ^dog<n><sg>$\n\0\0",
            "^black<adj>$\n\0\0",
            "^dog<n><sg>$\n\0\0",
        ],
        given: [
            "^nom_adj<SN><m><sg>{^perro<n><2><3>$ ^negro<adj><2><3>$}$\n\0\0",
            "^default<default>{^negro<adj>$}$\n\0\0",
            "^default<default>{^perro<n><m><sg>$}$\n\0\0",
        ],
    },
    Answers {
        words: "lt-proc -a MONO",
        lines: ["The cat.\n\0\0", "cat\n\0\0", "of x\n\0\0"],
        given: [
            "^The/The<det>$ ^cat/cat<n><sg>$^./.<sent>$\n\0\0",
            "^cat/cat<n><sg>$\n\0\0",
            "^of/of<pr>$ ^x/*x$\n\0\0",
        ],
    },
];

const SAID: [&str; 3] = [
    "The black dog of the cat.\n\0\0",
    "black cats sleep.\n\0\0",
    "cats.\n\0\0",
];

const GIVEN: [&str; 3] = [
    "El perro negro del gato.\n\0\0",
    "gatos negros *sleep.\n\0\0",
    "gatos.\n\0\0",
];

#[test]
fn a_line_is_answered_before_the_next_one(rt: HostRuntime) -> Result<(), Fail> {
    for answers in ANSWERS {
        answers_each(&rt, rt.alloc(), answers)?;
    }
    Ok(())
}
