use crate::Status;
use crate::tests::files::M;
use crate::tests::long::{Long, check_all};
use crate::tests::rows::{bad_dictionary, limit};
use std::test::Fail;

/// One letter within as many parentheses as may be, and within one more.
const NESTED: &[Long] = &[
    Long {
        words: "lt-proc -a Y",
        name: "Y",
        file: &[
            (
                "<dictionary>\n<section id=\"m\" type=\"standard\">\n<e><re>",
                1,
            ),
            ("(", 200),
            ("a", 1),
            (")", 200),
            ("</re></e>\n</section>\n</dictionary>\n", 1),
        ],
        input: &[("a", 1)],
        cut: 1,
        take: 0,
        status: Status::Done,
        out: &[("^a/a$", 1)],
        message: "",
    },
    Long {
        words: "lt-proc -a Y",
        name: "Y",
        file: &[
            (
                "<dictionary>\n<section id=\"m\" type=\"standard\">\n<e><re>",
                1,
            ),
            ("(", 201),
            ("a", 1),
            (")", 201),
            ("</re></e>\n</section>\n</dictionary>\n", 1),
        ],
        input: &[("a", 1)],
        cut: 1,
        take: 0,
        status: bad_dictionary!(2, 10, 3),
        out: &[],
        message: "apertium: Y: line 3: dictionary fault 10 BadRegex\n",
    },
];

#[test]
fn parentheses_nest_to_their_limit(rt: HostRuntime) -> Result<(), Fail> {
    check_all(&rt, rt.alloc(), NESTED)
}

const FILE: &[Long] = &[Long {
    words: "lt-proc -a M",
    name: "M",
    file: &[(" ", 67_108_865)],
    input: &[("a", 1)],
    cut: 65_536,
    take: 0,
    status: limit!(0, 6, 2),
    out: &[],
    message: "apertium: M: limit 6 FileTooLong\n",
}];

#[test]
fn a_file_is_too_long(rt: HostRuntime) -> Result<(), Fail> {
    check_all(&rt, rt.alloc(), FILE)
}

/// An item as long as may be, and one byte longer.
const ITEMS: &[Long] = &[
    Long {
        words: "lt-proc -a M",
        name: "M",
        file: &[(M, 1)],
        input: &[(" ", 4_194_304)],
        cut: 65_536,
        take: 0,
        status: Status::Done,
        out: &[(" ", 4_194_304)],
        message: "",
    },
    Long {
        words: "lt-proc -a M",
        name: "M",
        file: &[(M, 1)],
        input: &[(" ", 4_194_305)],
        cut: 65_536,
        take: 0,
        status: limit!(1, 1, 0),
        out: &[],
        message: "apertium: stage 1: byte 0: limit 1 ItemTooLong\n",
    },
];

#[test]
fn an_item_is_too_long(rt: HostRuntime) -> Result<(), Fail> {
    check_all(&rt, rt.alloc(), ITEMS)
}

/// A unit as long as may be, and one that is longer.
const UNITS: &[Long] = &[
    Long {
        words: "lt-proc -a M",
        name: "M",
        file: &[(M, 1)],
        input: &[("a", 2_097_150)],
        cut: 65_536,
        take: 0,
        status: Status::Done,
        out: &[
            ("^", 1),
            ("a", 2_097_150),
            ("/*", 1),
            ("a", 2_097_150),
            ("$", 1),
        ],
        message: "",
    },
    Long {
        words: "lt-proc -a M",
        name: "M",
        file: &[(M, 1)],
        input: &[("a", 2_097_151)],
        cut: 65_536,
        take: 0,
        status: limit!(1, 3, 0),
        out: &[],
        message: "apertium: stage 1: byte 0: limit 3 UnitTooLong\n",
    },
];

#[test]
fn a_unit_is_too_long(rt: HostRuntime) -> Result<(), Fail> {
    check_all(&rt, rt.alloc(), UNITS)
}
