use crate::Status;
use crate::tests::files::{BI, E, M};
use crate::tests::long::{Long, check_all, made};
use crate::tests::rows::{
    NONE, Row, Run, bad_compiled, bad_dictionary, bad_rules, case, check_rows, check_run, limit,
    malformed,
};
use ap_outside::MemFiles;
use std::alloc::{AllocError, Global};
use std::process::Abort;
use std::test::Fail;

/// Of a dictionary that breaks off in a line, the message.
fn broken_in(line: u64) -> &'static str {
    match line {
        1 => "apertium: F: line 1: dictionary fault 2 Syntax\n",
        2 => "apertium: F: line 2: dictionary fault 2 Syntax\n",
        3 => "apertium: F: line 3: dictionary fault 2 Syntax\n",
        4 => "apertium: F: line 4: dictionary fault 2 Syntax\n",
        5 => "apertium: F: line 5: dictionary fault 2 Syntax\n",
        _ => "apertium: F: line 6: dictionary fault 2 Syntax\n",
    }
}

/// A text that breaks off in that line is no dictionary.
fn check_broken(rt: &impl Abort, alloc: Global, text: &[u8], line: u64) -> Result<(), Fail> {
    let mut files = MemFiles::new(alloc, Vec::new(alloc));
    files.add("F", text)?;
    let run = Run {
        words: "lt-proc -a F",
        input: b"",
        cut: 7,
        take: 0,
        put: 0,
        status: bad_dictionary!(2, 2, line),
        out: b"",
        message: broken_in(line),
    };
    check_run(rt, alloc, &mut files, &run)
}

#[test]
fn a_dictionary_that_breaks_off_is_bad_syntax(rt: HostRuntime) -> Result<(), Fail> {
    let text = E.as_bytes();
    let mut line: u64 = 1;
    for end in 0..text.len() - 2 {
        check_broken(&rt, rt.alloc(), &text[..end], line)?;
        if text[end] == b'\n' {
            line = line.saturating_add(1);
        }
    }
    Ok(())
}

/// A byte that begins no character, a reference that isn't defined, and a declaration.
const BYTES: &[Long] = &[
    Long {
        words: "lt-proc -a F",
        name: "F",
        file: &[(
            "<dictionary>\n<section id=\"m\" type=\"standard\">\n<e><i>?a</i></e>\n<e><p><l></l><r>x</r></p></e>\n</section>\n</dictionary>\n",
            1,
        )],
        input: &[],
        cut: 7,
        take: 0,
        status: bad_dictionary!(2, 1, 3),
        out: &[],
        message: "apertium: F: line 3: dictionary fault 1 NotUtf8\n",
    },
    Long {
        words: "lt-proc -a F",
        name: "F",
        file: &[(
            "<dictionary>\n<section id=\"m\" type=\"standard\">\n<e><i>&x;a</i></e>\n<e><p><l></l><r>x</r></p></e>\n</section>\n</dictionary>\n",
            1,
        )],
        input: &[],
        cut: 7,
        take: 0,
        status: bad_dictionary!(2, 2, 3),
        out: &[],
        message: "apertium: F: line 3: dictionary fault 2 Syntax\n",
    },
    Long {
        words: "lt-proc -a F",
        name: "F",
        file: &[("<!DOCTYPE d [", 1)],
        input: &[],
        cut: 7,
        take: 0,
        status: bad_dictionary!(2, 2, 1),
        out: &[],
        message: "apertium: F: line 1: dictionary fault 2 Syntax\n",
    },
    Long {
        words: "lt-proc -g M",
        name: "M",
        file: &[(M, 1)],
        input: &[("^a?", 1)],
        cut: 2,
        take: 0,
        status: malformed!(1, 1, 0),
        out: &[],
        message: "apertium: stage 1: byte 0: malformed 1 NotUtf8\n",
    },
];

#[test]
fn a_bad_byte_or_reference_is_answered_at_its_place(rt: HostRuntime) -> Result<(), Fail> {
    check_all(&rt, rt.alloc(), BYTES)
}

/// Before and behind the `not` of a condition in a rule file.
const BEFORE: &str =
    "<interchunk>\n<section-def-cats><def-cat n=\"c\"><cat-item tags=\"c\"/></def-cat></section-def-cats>\n<section-rules><rule>\n<pattern><pattern-item n=\"c\"/></pattern>\n<action><choose><when><test>\n";

const WITHIN: &str = "\n<equal>\n<lit v=\"a\"/><lit v=\"a\"/>\n</equal>\n";

const BEHIND: &str = "\n</test></when></choose></action>\n</rule></section-rules>\n</interchunk>\n";

/// As many `not` as may be, and one more.
const NEGATED: &[Long] = &[
    Long {
        words: "interchunk F",
        name: "F",
        file: &[
            (BEFORE, 1),
            ("<not>", 191),
            (WITHIN, 1),
            ("</not>", 191),
            (BEHIND, 1),
        ],
        input: &[("^c<c>{}$", 1)],
        cut: 7,
        take: 0,
        status: Status::Done,
        out: &[],
        message: "",
    },
    Long {
        words: "interchunk F",
        name: "F",
        file: &[
            (BEFORE, 1),
            ("<not>", 192),
            (WITHIN, 1),
            ("</not>", 192),
            (BEHIND, 1),
        ],
        input: &[("^c<c>{}$", 1)],
        cut: 7,
        take: 0,
        status: bad_rules!(1, 6, 8),
        out: &[],
        message: "apertium: F: line 8: rule fault 6 Misplaced\n",
    },
];

#[test]
fn elements_nest_to_their_limit(rt: HostRuntime) -> Result<(), Fail> {
    check_all(&rt, rt.alloc(), NEGATED)
}

/// So many states are claimed, and so many that no number says it.
const CLAIMED: &[Long] = &[
    Long {
        words: "lt-proc -a F",
        name: "F",
        file: &[(
            "LTC1\nalphabet\nsection standard 1000000000000 0 0\nsection inconditional 1 0 0\nsection postblank 1 0 0\nsection preblank 1 0 0\nend\n",
            1,
        )],
        input: &[("a", 1)],
        cut: 7,
        take: 0,
        status: Status::Done,
        out: &[("a", 1)],
        message: "",
    },
    Long {
        words: "lt-proc -a F",
        name: "F",
        file: &[(
            "LTC1\nalphabet\nsection standard 18446744073709551616 0 0\nsection inconditional 1 0 0\nsection postblank 1 0 0\nsection preblank 1 0 0\nend\n",
            1,
        )],
        input: &[("a", 1)],
        cut: 7,
        take: 0,
        status: bad_compiled!(2, 3, 3),
        out: &[],
        message: "apertium: F: line 3: compiled fault 3 OutOfRange\n",
    },
];

#[test]
fn a_number_that_a_compiled_file_claims_costs_nothing(rt: HostRuntime) -> Result<(), Fail> {
    check_all(&rt, rt.alloc(), CLAIMED)
}

const STREAMS: &[Row] = &[
    case!(
        "pretransfer",
        "^a<>$",
        NONE,
        malformed!(1, 4, 0),
        "",
        "apertium: stage 1: byte 0: malformed 4 BadTag\n",
    ),
    case!(
        "pretransfer",
        "x $",
        NONE,
        malformed!(1, 2, 2),
        "x ",
        "apertium: stage 1: byte 2: malformed 2 Stray\n",
    ),
    case!(
        "first",
        "^a$",
        NONE,
        malformed!(1, 5, 0),
        "",
        "apertium: stage 1: byte 0: malformed 5 EmptyWord\n",
    ),
    case!(
        "first",
        "^/a$",
        NONE,
        malformed!(1, 5, 0),
        "",
        "apertium: stage 1: byte 0: malformed 5 EmptyWord\n",
    ),
    case!(
        "interchunk T2",
        "^a<x>{^b$",
        NONE,
        malformed!(1, 3, 0),
        "",
        "apertium: stage 1: byte 0: malformed 3 Unfinished\n",
    ),
];

#[test]
fn malformed_streams_are_answered_at_their_byte(rt: HostRuntime) -> Result<(), Fail> {
    check_rows(&rt, rt.alloc(), STREAMS, &[1, 2, 3, 5, 100])
}

/// Rules that double a variable at each match, and write it five times.
const TO: &str =
    "<transfer default=\"lu\">\n<section-def-cats><def-cat n=\"adj\"><cat-item tags=\"adj\"/></def-cat></section-def-cats>\n<section-def-vars><def-var n=\"v\" v=\"a\"/></section-def-vars>\n<section-rules><rule>\n<pattern><pattern-item n=\"adj\"/></pattern>\n<action><let><var n=\"v\"/><concat><var n=\"v\"/><var n=\"v\"/></concat></let>\n<out><lu><var n=\"v\"/></lu><lu><var n=\"v\"/></lu><lu><var n=\"v\"/></lu><lu><var n=\"v\"/></lu><lu><var n=\"v\"/></lu></out></action>\n</rule></section-rules>\n</transfer>\n";

/// What so many matches write.
fn doubled(alloc: Global, matches: u32) -> Result<Vec<u8>, AllocError> {
    let mut out = Vec::new(alloc);
    let mut count: usize = 1;
    for _ in 0..matches {
        count = count.saturating_mul(2);
        let unit = made(alloc, &[("^", 1), ("a", count), ("$", 1)])?;
        for _ in 0..5 {
            out.extend_from_slice(unit.as_slice())?;
        }
        out.push(b' ')?;
    }
    Ok(out)
}

#[test]
fn an_output_is_too_long(rt: HostRuntime) -> Result<(), Fail> {
    let alloc = rt.alloc();
    let mut files = MemFiles::new(alloc, Vec::new(alloc));
    files.add("TO", TO.as_bytes())?;
    files.add("BI", BI.as_bytes())?;
    let input = made(alloc, &[("^black<adj>$ ", 21), ("^black<adj>$", 1)])?;
    let out = doubled(alloc, 21)?;
    assert!(rt; out.len() == 20_971_741);
    let run = Run {
        words: "transfer TO BI",
        input: input.as_slice(),
        cut: 65_536,
        take: 0,
        put: 0,
        status: limit!(2, 5, 504),
        out: out.as_slice(),
        message: "apertium: stage 2: byte 504: limit 5 OutputTooLong\n",
    };
    check_run(&rt, alloc, &mut files, &run)
}
