use crate::tests::rows::{Row, check_kept, check_rows, done, done_over, files_of};
use std::test::Fail;

/// Units with a form, with none, and such as aren't looked up.
const UNITS: &str = "^house<n><pl>$ ^cat<n><sg>$ ^*xyz$ ^@dog<n>$ ^a\\+b<n>$";

/// What generation makes of them by each kind of marks.
const MARKED: &str = "houses #cat *xyz @dog #a\\+b";

/// The sizes of pieces.
const CUTS: &[usize] = &[1, 2, 3, 4, 5, 7, 11, 17, 26, 65_536];

const GENERATED: &[Row] = &[
    done!("lt-proc -g M", UNITS, MARKED),
    done!("lt-proc -n M", UNITS, "houses cat xyz dog a\\+b"),
    done!(
        "lt-proc -d M",
        UNITS,
        "houses #cat<n><sg> *xyz @dog<n> #a\\+b<n>",
    ),
    done!("lt-proc -g M", "[<b>]^House<n><sg>$\\.", "[<b>]House\\."),
    done!("lt-proc -g -c M", "^House<n><sg>$", "#House"),
];

#[test]
fn generation_gives_its_rows(rt: HostRuntime) -> Result<(), Fail> {
    check_rows(&rt, rt.alloc(), GENERATED, CUTS)
}

const LOOKED_UP: &[Row] = &[
    done!(
        "lt-proc -b BI",
        "^dog<n><sg>$ ^fox<n><sg>$ ^*x$",
        "^dog<n><sg>/perro<n><m><sg>$ ^fox<n><sg>/@fox<n><sg>$ ^*x/*x$",
    ),
    done!(
        "lt-proc -b V",
        "[ ]^Dog<n><sg>$",
        "[ ]^Dog<n><sg>/Can<n><sg>/Perro<n><sg>$",
    ),
    done!("lt-proc -c -b V", "^Dog<n>$", "^Dog<n>/@Dog<n>$"),
];

#[test]
fn bilingual_lookup_gives_its_rows(rt: HostRuntime) -> Result<(), Fail> {
    check_rows(&rt, rt.alloc(), LOOKED_UP, CUTS)
}

const JOINED: &[Row] = &[
    done!(
        "lt-proc -p POST",
        "~de[<b>] el gat ~que",
        "del[<b>] gat que",
    ),
    done!("lt-proc -p POST", "\\~de el ~De  el", "\\~de el Del"),
    done!("lt-proc -p -c POST", "~De el", "De el"),
];

#[test]
fn post_generation_gives_its_rows(rt: HostRuntime) -> Result<(), Fail> {
    check_rows(&rt, rt.alloc(), JOINED, CUTS)
}

/// Each row goes on with the files of the one before it.
const COMPILED: &[Row] = &[
    done!(
        "lt-comp rl M OUT",
        "",
        "standard 23 26\ninconditional 3 2\npostblank 1 0\npreblank 1 0\n",
    ),
    done!("lt-proc -g OUT", UNITS, MARKED),
    done!(
        "lt-comp rl V OUT",
        "",
        "standard 10 10\ninconditional 1 0\npostblank 1 0\npreblank 1 0\n",
    ),
    done!("lt-proc -b OUT", "^can<n><sg>$", "^can<n><sg>/dog<n><sg>$"),
];

#[test]
fn compiled_files_are_looked_up(rt: HostRuntime) -> Result<(), Fail> {
    let alloc = rt.alloc();
    let mut files = files_of(alloc, 0)?;
    check_kept(&rt, alloc, &mut files, COMPILED)
}

/// One word with twelve others, and twelve words with one.
const MANY: &str =
    "<dictionary>\n<alphabet>abcdefghijklm</alphabet>\n<section id=\"m\" type=\"standard\">\n<e><p><l>a</l><r>ab</r></p></e><e><p><l>a</l><r>ac</r></p></e><e><p><l>a</l><r>ad</r></p></e><e><p><l>a</l><r>ae</r></p></e><e><p><l>a</l><r>af</r></p></e><e><p><l>a</l><r>ag</r></p></e><e><p><l>a</l><r>ah</r></p></e><e><p><l>a</l><r>ai</r></p></e><e><p><l>a</l><r>aj</r></p></e><e><p><l>a</l><r>ak</r></p></e><e><p><l>a</l><r>al</r></p></e><e><p><l>a</l><r>am</r></p></e>\n</section>\n</dictionary>\n";

const FORMS: &str =
    "<dictionary>\n<alphabet>abcdefghijklm</alphabet>\n<section id=\"m\" type=\"standard\">\n<e><p><l>ab</l><r>a</r></p></e><e><p><l>ac</l><r>a</r></p></e><e><p><l>ad</l><r>a</r></p></e><e><p><l>ae</l><r>a</r></p></e><e><p><l>af</l><r>a</r></p></e><e><p><l>ag</l><r>a</r></p></e><e><p><l>ah</l><r>a</r></p></e><e><p><l>ai</l><r>a</r></p></e><e><p><l>aj</l><r>a</r></p></e><e><p><l>ak</l><r>a</r></p></e><e><p><l>al</l><r>a</r></p></e><e><p><l>am</l><r>a</r></p></e>\n</section>\n</dictionary>\n";

const OTHERS: &[Row] = &[
    done_over!(
        &[("MANY", MANY)],
        "lt-proc -a MANY",
        "a",
        "^a/ab/ac/ad/ae/af/ag/ah/ai/aj/ak/al/am$",
    ),
    done_over!(
        &[("MANY", MANY)],
        "lt-proc -b MANY",
        "^a$",
        "^a/ab/ac/ad/ae/af/ag/ah/ai/aj/ak/al/am$",
    ),
    done_over!(
        &[("FORMS", FORMS)],
        "lt-proc -g FORMS",
        "^a$",
        "ab/ac/ad/ae/af/ag/ah/ai/aj/ak/al/am",
    ),
];

#[test]
fn words_with_many_others_get_each(rt: HostRuntime) -> Result<(), Fail> {
    check_rows(&rt, rt.alloc(), OTHERS, &[3])
}
