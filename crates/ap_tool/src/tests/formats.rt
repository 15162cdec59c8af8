use crate::Status;
use crate::tests::long::{Long, check_all};
use crate::tests::rows::{NONE, Row, bad_rules, case, check_rows, done, malformed};
use std::test::Fail;

const ROWS: &[Row] = &[
    done!("destxt", "a*b  c\n", "a\\*b[  ]c[\n]"),
    done!("retxt", "a\\*b[  ]c[\n]", "a*b  c\n"),
    done!("destxt", "a b", "a b"),
    done!("retxt", "[<b>] [\\]x]", "<b> ]x"),
    case!(
        "destxt x",
        "a",
        NONE,
        Status::Usage,
        "",
        "apertium: usage\n",
    ),
    case!(
        "retxt",
        "ab^c$",
        NONE,
        malformed!(1, 2, 2),
        "ab",
        "apertium: stage 1: byte 2: malformed 2 Stray\n",
    ),
];

#[test]
fn plain_texts_give_their_rows(rt: HostRuntime) -> Result<(), Fail> {
    check_rows(&rt, rt.alloc(), ROWS, &[1, 2, 3, 4, 5, 65_536])
}

const BYTES: &[Long] = &[Long {
    words: "destxt",
    name: "OTHER",
    file: &[],
    input: &[("ab?", 1)],
    cut: 2,
    take: 0,
    status: malformed!(1, 1, 2),
    out: &[("ab", 1)],
    message: "apertium: stage 1: byte 2: malformed 1 NotUtf8\n",
}];

#[test]
fn a_byte_that_begins_no_character_is_malformed(rt: HostRuntime) -> Result<(), Fail> {
    check_all(&rt, rt.alloc(), BYTES)
}

const TEXTS: &[Row] = &[
    done!(
        "text MONO BI T1 T2 T3 GEN POST",
        "The black dog\nof the cat.\n",
        "El perro negro\ndel gato.\n",
    ),
    done!(
        "text -B 1 MONO BI T1 T2 T3 GEN POST",
        "black\ndog\n",
        "perro\nnegro\n",
    ),
    case!(
        "text MONO BI TD T2 T3 GEN POST",
        "The cat.",
        NONE,
        bad_rules!(3, 12, 1),
        "",
        "apertium: TD: line 1: rule fault 12 Misused\n",
    ),
];

#[test]
fn plain_texts_are_translated(rt: HostRuntime) -> Result<(), Fail> {
    check_rows(&rt, rt.alloc(), TEXTS, &[7])
}
