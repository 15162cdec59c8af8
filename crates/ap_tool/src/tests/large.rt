//! Files of a size or a shape that would take a slow reader hours: each is answered well within the
//! time of a test.
use crate::Status;
use crate::tests::long::{Long, check_all};
use crate::tests::rows::{bad_dictionary, limit};
use std::test::Fail;

const OPEN: &[Long] = &[Long {
    words: "lt-proc -a F",
    name: "F",
    file: &[("<g>", 1_000_000)],
    input: &[],
    cut: 7,
    take: 0,
    status: bad_dictionary!(2, 2, 1),
    out: &[],
    message: "apertium: F: line 1: dictionary fault 2 Syntax\n",
}];

#[test]
fn a_million_open_elements_are_read(rt: HostRuntime) -> Result<(), Fail> {
    check_all(&rt, rt.alloc(), OPEN)
}

const ATTRIBUTES: &[Long] = &[Long {
    words: "lt-proc -a F",
    name: "F",
    file: &[("<dictionary", 1), ("\na#=''", 10_000), (" a9999=''/>", 1)],
    input: &[],
    cut: 7,
    take: 0,
    status: bad_dictionary!(2, 2, 1),
    out: &[],
    message: "apertium: F: line 1: dictionary fault 2 Syntax\n",
}];

#[test]
fn ten_thousand_attributes_are_read(rt: HostRuntime) -> Result<(), Fail> {
    check_all(&rt, rt.alloc(), ATTRIBUTES)
}

/// A dictionary with one entry that names a paradigm forty times. The paradigm gives `ab` the
/// right side `x` in two ways, so that 2 ^ 40 paths have one analysis.
const CHAIN: &[Long] = &[Long {
    words: "lt-proc -a F",
    name: "F",
    file: &[
        (
            "<dictionary><alphabet>ab</alphabet><pardefs><pardef n=\"p\"><e><p><l>ab</l><r>x</r></p></e>",
            1,
        ),
        (
            "<e><p><l>a</l><r></r></p><p><l>b</l><r>x</r></p></e></pardef></pardefs>",
            1,
        ),
        ("<section id=\"m\" type=\"standard\"><e>", 1),
        ("<par n=\"p\"/>", 40),
        ("</e></section></dictionary>", 1),
    ],
    input: &[("ab", 40)],
    cut: 7,
    take: 0,
    status: Status::Done,
    out: &[("^", 1), ("ab", 40), ("/", 1), ("x", 40), ("$", 1)],
    message: "",
}];

#[test]
fn paths_with_one_output_go_on_as_one(rt: HostRuntime) -> Result<(), Fail> {
    check_all(&rt, rt.alloc(), CHAIN)
}

const RULES: &[Long] = &[Long {
    words: "interchunk F",
    name: "F",
    file: &[
        ("<interchunk><section-def-cats>", 1),
        ("<def-cat n='c#'><cat-item tags='c#'/></def-cat>", 10_000),
        ("</section-def-cats><section-rules>", 1),
        (
            "<rule><pattern><pattern-item n='c#'/></pattern><action/></rule>",
            10_000,
        ),
        ("</section-rules></interchunk>", 1),
    ],
    input: &[("^a<c9999>{}$^a<d>{}$", 1)],
    cut: 7,
    take: 0,
    status: Status::Done,
    out: &[("^a<d>{}$", 1)],
    message: "",
}];

#[test]
fn ten_thousand_rules_are_read(rt: HostRuntime) -> Result<(), Fail> {
    check_all(&rt, rt.alloc(), RULES)
}

/// A rule that calls the last of a thousand macros, each of which calls the one before it.
const MACROS: &[Long] = &[Long {
    words: "transfer -b F",
    name: "F",
    file: &[
        (
            "<transfer default=\"lu\"><section-def-cats><def-cat n=\"adj\"><cat-item tags=\"adj\"/></def-cat></section-def-cats>",
            1,
        ),
        (
            "<section-def-macros><def-macro n=\"m0\" npar=\"1\"><let><clip pos=\"1\" side=\"tl\" part=\"lem\"/><lit v=\"blanco\"/></let></def-macro>",
            1,
        ),
        (
            "<def-macro n=\"m%\" npar=\"1\"><call-macro n=\"m#\"><with-param pos=\"1\"/></call-macro></def-macro>",
            999,
        ),
        (
            "</section-def-macros><section-rules><rule><pattern><pattern-item n=\"adj\"/></pattern><action><call-macro n=\"m999\"><with-param pos=\"1\"/></call-macro>",
            1,
        ),
        (
            "<out><lu><clip pos=\"1\" side=\"tl\" part=\"whole\"/></lu></out></action></rule></section-rules></transfer>",
            1,
        ),
    ],
    input: &[("^black<adj>/negro<adj>$", 1)],
    cut: 7,
    take: 0,
    status: Status::Done,
    out: &[("^blanco<adj>$", 1)],
    message: "",
}];

#[test]
fn macros_call_one_another(rt: HostRuntime) -> Result<(), Fail> {
    check_all(&rt, rt.alloc(), MACROS)
}

/// Of a word that a paradigm of two entries gives twenty times, 2 ^ 20 translations and 2 ^ 20
/// forms: more bytes than a unit may have.
const TWENTY: &[Long] = &[
    Long {
        words: "lt-proc -b F",
        name: "F",
        file: &[
            (
                "<dictionary><pardefs><pardef n=\"p\"><e><p><l>a</l><r>x</r></p></e><e><p><l>a</l><r>y</r></p></e></pardef></pardefs>",
                1,
            ),
            ("<section id=\"m\" type=\"standard\"><e>", 1),
            ("<par n=\"p\"/>", 20),
            ("</e></section></dictionary>", 1),
        ],
        input: &[("^", 1), ("a", 20), ("$", 1)],
        cut: 7,
        take: 0,
        status: limit!(1, 3, 0),
        out: &[],
        message: "apertium: stage 1: byte 0: limit 3 UnitTooLong\n",
    },
    Long {
        words: "lt-proc -g F",
        name: "F",
        file: &[
            (
                "<dictionary><pardefs><pardef n=\"p\"><e><p><l>x</l><r>a</r></p></e><e><p><l>y</l><r>a</r></p></e></pardef></pardefs>",
                1,
            ),
            ("<section id=\"m\" type=\"standard\"><e>", 1),
            ("<par n=\"p\"/>", 20),
            ("</e></section></dictionary>", 1),
        ],
        input: &[("^", 1), ("a", 20), ("$", 1)],
        cut: 7,
        take: 0,
        status: limit!(1, 3, 0),
        out: &[],
        message: "apertium: stage 1: byte 0: limit 3 UnitTooLong\n",
    },
];

#[test]
fn a_million_translations_are_too_long(rt: HostRuntime) -> Result<(), Fail> {
    check_all(&rt, rt.alloc(), TWENTY)
}

/// Of an alarm and a word that a paradigm of two entries gives twenty times the least of 2 ^ 20
/// right words is written.
const LEAST: &[Long] = &[Long {
    words: "lt-proc -p F",
    name: "F",
    file: &[
        (
            "<dictionary><pardefs><pardef n=\"p\"><e><p><l>a</l><r>y</r></p></e><e><p><l>a</l><r>x</r></p></e></pardef></pardefs>",
            1,
        ),
        (
            "<section id=\"m\" type=\"standard\"><e><p><l><a/></l><r></r></p>",
            1,
        ),
        ("<par n=\"p\"/>", 20),
        ("</e></section></dictionary>", 1),
    ],
    input: &[("~", 1), ("a", 20)],
    cut: 7,
    take: 0,
    status: Status::Done,
    out: &[("x", 20)],
    message: "",
}];

#[test]
fn the_least_of_a_million_words_is_written(rt: HostRuntime) -> Result<(), Fail> {
    check_all(&rt, rt.alloc(), LEAST)
}
