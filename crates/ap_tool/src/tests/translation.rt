use crate::Status;
use crate::tests::long::{Long, Pieces, check_all, made};
use crate::tests::rows::{NONE, Row, bad_rules, case, check_rows, done};
use std::test::Fail;

const ROWS: &[Row] = &[
    done!(
        "run MONO BI T1 T2 T3 GEN POST",
        "The black dog[<0>] of the cat.\n",
        "El perro negro[<0>] del gato.\n",
    ),
    done!(
        "run -B 1 MONO BI T1 T2 T3 GEN POST",
        "The black dog[<0>] of the cat.\n",
        "El perro negro[<0>] del gato.\n",
    ),
    done!(
        "run -B 1048576 MONO BI T1 T2 T3 GEN POST",
        "The black dog[<0>] of the cat.\n",
        "El perro negro[<0>] del gato.\n",
    ),
];

/// With pipes of 65,536 bytes, and of the least and of the greatest room.
#[test]
fn a_sentence_is_translated(rt: HostRuntime) -> Result<(), Fail> {
    check_rows(&rt, rt.alloc(), ROWS, &[5])
}

const REFUSED: &[Row] = &[case!(
    "run MONO BI TD T2 T3 GEN POST",
    "The cat.",
    NONE,
    bad_rules!(3, 12, 1),
    "",
    "apertium: TD: line 1: rule fault 12 Misused\n",
)];

#[test]
fn rules_of_a_translation_make_chunks(rt: HostRuntime) -> Result<(), Fail> {
    check_rows(&rt, rt.alloc(), REFUSED, &[4])
}

/// Thirty sentences of two kinds by turns, each with its number in a superblank, and another one
/// behind it, and their translations.
const SAID: Pieces = &[(
    "The black dog[<`>] of the cat.[<p>]\nblack cats[<|>] sleep.[<p>]\n",
    15,
)];

const GIVEN: Pieces = &[(
    "El perro negro[<`>] del gato.[<p>]\ngatos negros[<|>] *sleep.[<p>]\n",
    15,
)];

const PAGES: &[Long] = &[
    Long {
        words: "run MONO BI T1 T2 T3 GEN POST",
        name: "OTHER",
        file: &[],
        input: SAID,
        cut: 65_536,
        take: 0,
        status: Status::Done,
        out: GIVEN,
        message: "",
    },
    Long {
        words: "run -B 1 MONO BI T1 T2 T3 GEN POST",
        name: "OTHER",
        file: &[],
        input: SAID,
        cut: 65_536,
        take: 0,
        status: Status::Done,
        out: GIVEN,
        message: "",
    },
    Long {
        words: "run -B 1048576 MONO BI T1 T2 T3 GEN POST",
        name: "OTHER",
        file: &[],
        input: SAID,
        cut: 65_536,
        take: 0,
        status: Status::Done,
        out: GIVEN,
        message: "",
    },
];

#[test]
fn a_page_is_translated_with_its_superblanks(rt: HostRuntime) -> Result<(), Fail> {
    let out = made(rt.alloc(), GIVEN)?;
    assert!(rt; out.len() == 1010);
    check_all(&rt, rt.alloc(), PAGES)
}

const CUT_OFF: &[Long] = &[Long {
    words: "run MONO BI T1 T2 T3 GEN POST",
    name: "OTHER",
    file: &[],
    input: &[(
        "The black dog[<`>] of the cat.\nblack cats[<|>] sleep.\n",
        15,
    )],
    cut: 16,
    take: 3,
    status: Status::ReadFault,
    out: &[("El perro negro[<0>] del gato.\n*b", 1)],
    message: "apertium: read fault\n",
}];

#[test]
fn a_failed_take_ends_a_translation(rt: HostRuntime) -> Result<(), Fail> {
    check_all(&rt, rt.alloc(), CUT_OFF)
}
