use crate::Status;
use crate::tests::rows::{
    Row, bad_rules, called, case, check_rows, file_fault, files_of, malformed,
};
use ap_outside::{MemSink, MemSource};
use std::alloc::Global;
use std::process::Abort;
use std::test::Fail;

/// Four sentences, and their translations.
const SENTENCES: &str =
    "The black dog[<0>] of the cat.\nblack cats[<1>] sleep.\nThe black dog[<2>] of the cat.\nblack cats[<3>] sleep.\n";

const WHOLE: &str =
    "El perro negro[<0>] del gato.\ngatos negros[<1>] *sleep.\nEl perro negro[<2>] del gato.\ngatos negros[<3>] *sleep.\n";

const RUN: &str = "run MONO BI T1 T2 T3 GEN POST";

const READ: &str = "apertium: read fault\n";

/// Takes of 16 bytes fail, each in its turn, and then none.
const TAKES: &[Row] = &[
    case!(RUN, SENTENCES, [0, 1, 0], Status::ReadFault, "", READ),
    case!(
        RUN,
        SENTENCES,
        [0, 2, 0],
        Status::ReadFault,
        "El perro negro",
        READ
    ),
    case!(
        RUN,
        SENTENCES,
        [0, 3, 0],
        Status::ReadFault,
        "El perro negro[<0>] del gato.\n*b",
        READ
    ),
    case!(
        RUN,
        SENTENCES,
        [0, 4, 0],
        Status::ReadFault,
        "El perro negro[<0>] del gato.\ngatos negros[<1>] *s",
        READ
    ),
    case!(
        RUN,
        SENTENCES,
        [0, 5, 0],
        Status::ReadFault,
        "El perro negro[<0>] del gato.\ngatos negros[<1>] *sleep.\nEl #negro ",
        READ
    ),
    case!(
        RUN,
        SENTENCES,
        [0, 6, 0],
        Status::ReadFault,
        "El perro negro[<0>] del gato.\ngatos negros[<1>] *sleep.\nEl perro negro[<2>] del ",
        READ
    ),
    case!(
        RUN,
        SENTENCES,
        [0, 7, 0],
        Status::ReadFault,
        "El perro negro[<0>] del gato.\ngatos negros[<1>] *sleep.\nEl perro negro[<2>] del gato.\ngatos negros",
        READ
    ),
    case!(RUN, SENTENCES, [0, 8, 0], Status::ReadFault, WHOLE, READ),
    case!(RUN, SENTENCES, [0, 9, 0], Status::Done, WHOLE, ""),
];

#[test]
fn a_failed_take_leaves_what_it_cuts(rt: HostRuntime) -> Result<(), Fail> {
    check_rows(&rt, rt.alloc(), TAKES, &[16])
}

/// Translates by pipes of 8 bytes; the put of this number fails, and keeps 3 bytes. It gives the
/// status, where what was written is a front of the translation.
fn cut_by_a_put(rt: &impl Abort, alloc: Global, put: u64) -> Result<Status, Fail> {
    let words = "run -B 8 MONO BI T1 T2 T3 GEN POST";
    let mut files = files_of(alloc, 0)?;
    let input = Vec::from_slice(alloc, SENTENCES.as_bytes())?;
    let mut source = MemSource::new(input, 16, Vec::new(alloc));
    let mut sink = MemSink::new(alloc, 2000, Vec::from_slice(alloc, &[put])?, 3)?;
    let mut err = MemSink::new(alloc, 1000, Vec::new(alloc), 0)?;
    let status = called(alloc, words, &mut files, &mut source, &mut sink, &mut err)?;
    assert!(rt; WHOLE.as_bytes().starts_with(sink.written()));
    Ok(status)
}

#[test]
fn a_failed_put_leaves_a_front(rt: HostRuntime) -> Result<(), Fail> {
    let mut failed: u64 = 0;
    for put in 1..200 {
        match cut_by_a_put(&rt, rt.alloc(), put)? {
            Status::WriteFault => failed = failed.saturating_add(1),
            status => {
                assert_eq!(rt; status, Status::Done);
                break;
            }
        }
    }
    assert!(rt; failed > 10 && failed < 199);
    Ok(())
}

/// The first take and the first put would fail too.
const LOADS: &[Row] = &[
    case!(
        RUN,
        SENTENCES,
        [1, 1, 1],
        file_fault!(1),
        "",
        "apertium: MONO: file fault\n"
    ),
    case!(
        RUN,
        SENTENCES,
        [2, 1, 1],
        file_fault!(2),
        "",
        "apertium: BI: file fault\n"
    ),
    case!(
        RUN,
        SENTENCES,
        [3, 1, 1],
        file_fault!(3),
        "",
        "apertium: T1: file fault\n"
    ),
    case!(
        RUN,
        SENTENCES,
        [4, 1, 1],
        file_fault!(4),
        "",
        "apertium: T2: file fault\n"
    ),
    case!(
        RUN,
        SENTENCES,
        [5, 1, 1],
        file_fault!(5),
        "",
        "apertium: T3: file fault\n"
    ),
    case!(
        RUN,
        SENTENCES,
        [6, 1, 1],
        file_fault!(6),
        "",
        "apertium: GEN: file fault\n"
    ),
    case!(
        RUN,
        SENTENCES,
        [7, 1, 1],
        file_fault!(7),
        "",
        "apertium: POST: file fault\n"
    ),
];

#[test]
fn a_failed_load_is_answered_by_its_file(rt: HostRuntime) -> Result<(), Fail> {
    check_rows(&rt, rt.alloc(), LOADS, &[16])
}

const STORE: &[Row] = &[case!(
    "lt-comp lr M OUT",
    "",
    [2, 0, 0],
    file_fault!(3),
    "",
    "apertium: OUT: file fault\n"
)];

#[test]
fn a_failed_store_is_answered_by_its_file(rt: HostRuntime) -> Result<(), Fail> {
    check_rows(&rt, rt.alloc(), STORE, &[1])
}

/// The status and the output are the same where the message can't be put.
fn without_a_message(
    rt: &impl Abort,
    alloc: Global,
    words: &str,
    input: &str,
    wanted: Status,
    out: &str,
) -> Result<(), Fail> {
    let mut files = files_of(alloc, 0)?;
    let input = Vec::from_slice(alloc, input.as_bytes())?;
    let mut source = MemSource::new(input, 16, Vec::new(alloc));
    let mut sink = MemSink::new(alloc, 2000, Vec::new(alloc), 0)?;
    let mut err = MemSink::new(alloc, 1000, Vec::from_slice(alloc, &[1])?, 0)?;
    let status = called(alloc, words, &mut files, &mut source, &mut sink, &mut err)?;
    assert!(rt; status == wanted, "of {words}");
    assert!(rt; sink.written() == out.as_bytes(), "of {words}");
    assert!(rt; err.written().is_empty(), "of {words}");
    Ok(())
}

#[test]
fn a_failed_message_changes_nothing(rt: HostRuntime) -> Result<(), Fail> {
    let out = "^house/house<n><sg>$ ";
    without_a_message(
        &rt,
        rt.alloc(),
        "lt-proc -a M",
        "house ^x",
        malformed!(1, 2, 6),
        out,
    )?;
    without_a_message(
        &rt,
        rt.alloc(),
        "interchunk FR",
        "",
        bad_rules!(1, 8, 3),
        "",
    )
}
