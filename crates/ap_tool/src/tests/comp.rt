use crate::Status;
use crate::tests::rows::{
    NONE, Row, bad_compiled, bad_dictionary, case, check_kept, check_over, done, file_fault,
    files_of, malformed,
};
use std::test::Fail;

/// What `lt-comp lr` writes of M.
const M_LINES: &str = "standard 23 26\ninconditional 3 2\npostblank 1 0\npreblank 1 0\n";

/// Each row of a table goes on with the files of the one before it.
const ROWS: &[Row] = &[
    done!("lt-comp lr M OUT", "not taken", M_LINES),
    done!("lt-proc -a OUT", "houses", "^houses/house<n><pl>$"),
    done!("lt-proc OUT", "", ""),
    done!(
        "lt-proc -a OUT",
        "Houses HOUSES",
        "^Houses/House<n><pl>$ ^HOUSES/HOUSE<n><pl>$",
    ),
    done!("lt-proc -a OUT", "housex", "^housex/*housex$"),
    done!(
        "lt-proc -a OUT",
        "saw.",
        "^saw/saw<n><sg>/see<vblex><past>$^./.<sent>$",
    ),
    done!(
        "lt-proc -a OUT",
        "in [<i>]front",
        "^in front/in front<adv>$[<i>]",
    ),
    done!(
        "lt-proc -a OUT",
        "house[<b>]s",
        "^house/house<n><sg>$[<b>]^s/*s$",
    ),
    case!(
        "lt-proc -a OUT",
        "house ^x",
        NONE,
        malformed!(1, 2, 6),
        "^house/house<n><sg>$ ",
        "apertium: stage 1: byte 6: malformed 2 Stray\n"
    ),
    case!(
        "lt-proc -a OUT",
        "house [<b",
        NONE,
        malformed!(1, 3, 5),
        "^house/house<n><sg>$",
        "apertium: stage 1: byte 5: malformed 3 Unfinished\n"
    ),
    done!(
        "lt-proc -c OUT",
        "Houses houses",
        "^Houses/*Houses$ ^houses/house<n><pl>$",
    ),
    done!("lt-proc -a OUT", "a\\*b", "^a/*a$\\*^b/*b$"),
];

#[test]
fn what_is_compiled_gives_the_rows_of_its_dictionary(rt: HostRuntime) -> Result<(), Fail> {
    let alloc = rt.alloc();
    let mut files = files_of(alloc, 0)?;
    check_kept(&rt, alloc, &mut files, ROWS)
}

const SIDES: &[Row] = &[
    done!(
        "lt-comp lr X OUT",
        "",
        "standard 2 1\ninconditional 1 0\npostblank 1 0\npreblank 1 0\n",
    ),
    done!("lt-proc OUT", "a bd", "^a/a$ bd"),
    done!(
        "lt-comp rl X OUT",
        "",
        "standard 3 2\ninconditional 1 0\npostblank 1 0\npreblank 1 0\n",
    ),
    case!(
        "lt-proc OUT",
        "a bd",
        NONE,
        bad_compiled!(1, 6, 2),
        "",
        "apertium: OUT: line 2: compiled fault 6 WrongWay\n"
    ),
    done!(
        "lt-comp lr G OUT",
        "",
        "standard 3 3\ninconditional 1 0\npostblank 1 0\npreblank 1 0\n",
    ),
    done!("lt-proc OUT", "ab c", "^ab/c$ c"),
    done!(
        "lt-comp rl E OUT",
        "",
        "standard 2 2\ninconditional 1 0\npostblank 1 0\npreblank 1 0\n",
    ),
    case!(
        "lt-proc OUT",
        "a bd",
        NONE,
        bad_compiled!(1, 6, 2),
        "",
        "apertium: OUT: line 2: compiled fault 6 WrongWay\n"
    ),
    done!("lt-expand X", "", "a:>:a\nbd:<:bd\n"),
];

#[test]
fn the_direction_says_which_side_is_read(rt: HostRuntime) -> Result<(), Fail> {
    let alloc = rt.alloc();
    let mut files = files_of(alloc, 0)?;
    check_kept(&rt, alloc, &mut files, SIDES)
}

/// Each of these leaves no file OUT.
const REFUSED: &[Row] = &[
    case!("lt-comp", "", NONE, Status::Usage, "", "apertium: usage\n"),
    case!(
        "lt-comp xx M OUT",
        "",
        NONE,
        Status::Usage,
        "",
        "apertium: usage\n"
    ),
    case!(
        "lt-comp lr M",
        "",
        NONE,
        Status::Usage,
        "",
        "apertium: usage\n"
    ),
    case!(
        "lt-comp lr -M OUT",
        "",
        NONE,
        Status::Usage,
        "",
        "apertium: usage\n"
    ),
    case!(
        "lt-comp lr M -OUT",
        "",
        NONE,
        Status::Usage,
        "",
        "apertium: usage\n"
    ),
    case!(
        "lt-comp lr M OUT OUT",
        "",
        NONE,
        Status::Usage,
        "",
        "apertium: usage\n"
    ),
    case!(
        "lt-comp lr NOPE OUT",
        "",
        NONE,
        file_fault!(2),
        "",
        "apertium: NOPE: file fault\n",
    ),
    case!(
        "lt-comp lr M OUT",
        "",
        [2, 0, 0],
        file_fault!(3),
        "",
        "apertium: OUT: file fault\n",
    ),
    case!(
        "lt-comp lr F1 OUT",
        "",
        NONE,
        bad_dictionary!(2, 8, 4),
        "",
        "apertium: F1: line 4: dictionary fault 8 UndeclaredSymbol\n"
    ),
    case!(
        "lt-comp lr E OUT",
        "",
        NONE,
        bad_dictionary!(2, 13, 4),
        "",
        "apertium: E: line 4: dictionary fault 13 EmptySide\n"
    ),
    case!(
        "lt-comp rl G OUT",
        "",
        NONE,
        bad_dictionary!(2, 13, 4),
        "",
        "apertium: G: line 4: dictionary fault 13 EmptySide\n"
    ),
    case!(
        "lt-comp lr C OUT",
        "",
        NONE,
        bad_dictionary!(2, 2, 1),
        "",
        "apertium: C: line 1: dictionary fault 2 Syntax\n"
    ),
];

#[test]
fn nothing_is_stored_after_a_refusal(rt: HostRuntime) -> Result<(), Fail> {
    let alloc = rt.alloc();
    for row in REFUSED {
        let [number, _, _] = row.failing;
        let mut files = files_of(alloc, number)?;
        check_over(&rt, alloc, &mut files, row, 4)?;
        assert!(rt; files.get("OUT").is_none(), "of {}", row.words);
    }
    Ok(())
}

const STORED: &[Row] = &[
    case!(
        "lt-comp lr M OUT",
        "",
        [0, 0, 1],
        Status::WriteFault,
        "",
        "apertium: write fault\n",
    ),
    done!("lt-proc OUT", "houses", "^houses/house<n><pl>$"),
];

#[test]
fn a_failed_put_comes_after_the_store(rt: HostRuntime) -> Result<(), Fail> {
    let alloc = rt.alloc();
    let mut files = files_of(alloc, 0)?;
    check_kept(&rt, alloc, &mut files, STORED)
}

/// M, its paradigm written out entry by entry.
const M2: &str =
    "<dictionary>\n<alphabet>abcdefghijklmnopqrstuvwxyz</alphabet>\n<sdefs><sdef n=\"n\"/><sdef n=\"sg\"/><sdef n=\"pl\"/><sdef n=\"vblex\"/>\n<sdef n=\"past\"/><sdef n=\"adv\"/><sdef n=\"sent\"/></sdefs>\n<section id=\"main\" type=\"standard\">\n<e><p><l>house</l><r>house<s n=\"n\"/><s n=\"sg\"/></r></p></e>\n<e><p><l>houses</l><r>house<s n=\"n\"/><s n=\"pl\"/></r></p></e>\n<e lm=\"saw\"><p><l>saw</l><r>saw<s n=\"n\"/><s n=\"sg\"/></r></p></e>\n<e lm=\"see\"><p><l>saw</l><r>see<s n=\"vblex\"/><s n=\"past\"/></r></p></e>\n<e lm=\"in front\"><p><l>in<b/>front</l><r>in<b/>front<s n=\"adv\"/></r></p></e>\n</section>\n<section id=\"final\" type=\"inconditional\">\n<e lm=\".\"><p><l>.</l><r>.<s n=\"sent\"/></r></p></e>\n</section>\n</dictionary>\n";

/// A dictionary of one word, and the text that is stored of it.
const ONE: &str =
    "<dictionary><alphabet>ab</alphabet><sdefs><sdef n=\"n\"/></sdefs><section id=\"m\" type=\"standard\"><e><p><l>a</l><r>a<s n=\"n\"/></r></p></e></section></dictionary>";

const ONE_STORED: &str =
    "LTC2\nway lr\nalphabet 65 66 97 98\nsection standard 3 2 1\n0 L97 L97 1\n1 - Tn 2\n2\nsection inconditional 1 0 0\nsection postblank 1 0 0\nsection preblank 1 0 0\nend\n";

/// What `lt-comp lr` writes of ONE.
const ONE_LINES: &str = "standard 3 2\ninconditional 1 0\npostblank 1 0\npreblank 1 0\n";

const EQUAL: &[Row] = &[
    done!("lt-comp lr M OUT", "", M_LINES),
    done!("lt-comp lr M2 OUT2", "", M_LINES),
    done!("lt-comp lr ONE OUT3", "", ONE_LINES),
];

#[test]
fn equal_strings_are_stored_as_equal_bytes(rt: HostRuntime) -> Result<(), Fail> {
    let alloc = rt.alloc();
    let mut files = files_of(alloc, 0)?;
    files.add("M2", M2.as_bytes())?;
    files.add("ONE", ONE.as_bytes())?;
    check_kept(&rt, alloc, &mut files, EQUAL)?;
    assert!(rt; files.get("OUT").is_some());
    assert!(rt; files.get("OUT") == files.get("OUT2"));
    assert!(rt; files.get("OUT3") == Some(ONE_STORED.as_bytes()));
    Ok(())
}
