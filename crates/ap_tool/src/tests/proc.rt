use crate::Status;
use crate::tests::rows::{
    NONE, Row, bad_compiled, bad_dictionary, case, check_rows, done, file_fault, malformed,
};
use std::test::Fail;

const ROWS: &[Row] = &[
    done!(
        "lt-proc -a P",
        "saw in saws",
        "^saw/saw<n><sg>/see<vblex><past>$ ^in/in<pr>$ ^saws/*saws$"
    ),
    done!(
        "lt-proc -a P",
        "saw 3",
        "^saw/saw<n><sg>/see<vblex><past>$ 3"
    ),
    done!("lt-proc -a M", "houses", "^houses/house<n><pl>$"),
    done!("lt-proc M", "", ""),
    done!("lt-proc M", "houses", "^houses/house<n><pl>$"),
    done!(
        "lt-proc -a M",
        "Houses HOUSES",
        "^Houses/House<n><pl>$ ^HOUSES/HOUSE<n><pl>$"
    ),
    done!("lt-proc -a M", "housex", "^housex/*housex$"),
    done!(
        "lt-proc -a M",
        "saw.",
        "^saw/saw<n><sg>/see<vblex><past>$^./.<sent>$"
    ),
    done!(
        "lt-proc -a M",
        "in [<i>]front",
        "^in front/in front<adv>$[<i>]"
    ),
    done!(
        "lt-proc -a M",
        "house[<b>]s",
        "^house/house<n><sg>$[<b>]^s/*s$"
    ),
    case!(
        "lt-proc -a M",
        "house ^x",
        NONE,
        malformed!(1, 2, 6),
        "^house/house<n><sg>$ ",
        "apertium: stage 1: byte 6: malformed 2 Stray\n",
    ),
    case!(
        "lt-proc -a M",
        "house [<b",
        NONE,
        malformed!(1, 3, 5),
        "^house/house<n><sg>$",
        "apertium: stage 1: byte 5: malformed 3 Unfinished\n",
    ),
    done!("lt-proc -a Q", "l'amic", "^l'/el<det>$ ^amic/*amic$"),
    done!(
        "lt-proc -a -c M",
        "Houses houses",
        "^Houses/*Houses$ ^houses/house<n><pl>$"
    ),
    done!(
        "lt-proc -c -a M",
        "Houses houses",
        "^Houses/*Houses$ ^houses/house<n><pl>$"
    ),
    done!(
        "lt-proc -c M",
        "Houses houses",
        "^Houses/*Houses$ ^houses/house<n><pl>$"
    ),
    done!("lt-proc -a M", "a\\*b", "^a/*a$\\*^b/*b$"),
    done!("lt-proc -a X", "a bd", "^a/a$ bd"),
    done!(
        "lt-proc M",
        "in  []front [x]in",
        "^in front/in front<adv>$[] [x]^in/*in$"
    ),
    done!(
        "lt-proc M",
        "sa\\w saw\\ .",
        "^saw/saw<n><sg>/see<vblex><past>$ ^saw/saw<n><sg>/see<vblex><past>$\\ ^./.<sent>$"
    ),
    done!(
        "lt-proc -a N",
        "l'amic's",
        "^l'/el<det>$ ^amic/*amic$ ^'s/'s<det>$"
    ),
    done!("lt-proc -a R", "12.5 3.", "^12.5/12.5<num>$ ^3/3<num>$."),
];

#[test]
fn analysis_gives_its_rows(rt: HostRuntime) -> Result<(), Fail> {
    check_rows(&rt, rt.alloc(), ROWS, &[1, 7, 65_536])
}

const REFUSED: &[Row] = &[
    case!(
        "lt-proc -a NOPE",
        "saw",
        NONE,
        file_fault!(2),
        "",
        "apertium: NOPE: file fault\n",
    ),
    case!(
        "lt-proc -c NOPE",
        "saw",
        NONE,
        file_fault!(2),
        "",
        "apertium: NOPE: file fault\n",
    ),
    case!(
        "lt-proc -a E",
        "a",
        NONE,
        bad_dictionary!(2, 13, 4),
        "",
        "apertium: E: line 4: dictionary fault 13 EmptySide\n",
    ),
    case!(
        "lt-proc E",
        "a",
        NONE,
        bad_dictionary!(1, 13, 4),
        "",
        "apertium: E: line 4: dictionary fault 13 EmptySide\n",
    ),
    case!(
        "lt-proc -a B",
        "a",
        NONE,
        bad_dictionary!(2, 10, 3),
        "",
        "apertium: B: line 3: dictionary fault 10 BadRegex\n",
    ),
    case!(
        "lt-proc -a F1",
        "a",
        NONE,
        bad_dictionary!(2, 8, 4),
        "",
        "apertium: F1: line 4: dictionary fault 8 UndeclaredSymbol\n",
    ),
    case!(
        "lt-proc -a F2",
        "a",
        NONE,
        bad_dictionary!(2, 2, 3),
        "",
        "apertium: F2: line 3: dictionary fault 2 Syntax\n",
    ),
    case!(
        "lt-proc -a F3",
        "a",
        NONE,
        bad_dictionary!(2, 11, 3),
        "",
        "apertium: F3: line 3: dictionary fault 11 Weighted\n",
    ),
];

#[test]
fn files_are_refused(rt: HostRuntime) -> Result<(), Fail> {
    check_rows(&rt, rt.alloc(), REFUSED, &[4])
}

const COMPILED: &[Row] = &[
    done!(
        "lt-proc -a C",
        "a b A ab",
        "^a/a<n>$ ^b/*b$ ^A/A<n>$ ^ab/*ab$"
    ),
    done!("lt-proc -c C", "a A", "^a/a<n>$ ^A/*A$"),
    case!(
        "lt-proc -a C1",
        "a",
        NONE,
        bad_compiled!(2, 2, 3),
        "",
        "apertium: C1: line 3: compiled fault 2 BadLine\n",
    ),
    case!(
        "lt-proc -a C2",
        "a",
        NONE,
        bad_compiled!(2, 4, 5),
        "",
        "apertium: C2: line 5: compiled fault 4 EmptyCycle\n",
    ),
    case!(
        "lt-proc -a C3",
        "a",
        NONE,
        bad_compiled!(2, 1, 1),
        "",
        "apertium: C3: line 1: compiled fault 1 BadHeader\n",
    ),
];

#[test]
fn compiled_files_give_their_rows(rt: HostRuntime) -> Result<(), Fail> {
    check_rows(&rt, rt.alloc(), COMPILED, &[3])
}

/// What is written until one call or another fails, and the messages.
const SAW: &str = "^saw/saw<n><sg>/see<vblex><past>$ ";

const MORE: &str = "^saw/saw<n><sg>/see<vblex><past>$ ^in/in<pr>$ ^s/*s$";

const ALL: &str = "^saw/saw<n><sg>/see<vblex><past>$ ^in/in<pr>$ ^saws/*saws$";

const READ: &str = "apertium: read fault\n";

const WRITE: &str = "apertium: write fault\n";

const FAILING: &[Row] = &[
    case!(
        "lt-proc -a P",
        "saw",
        [1, 0, 0],
        file_fault!(2),
        "",
        "apertium: P: file fault\n",
    ),
    case!(
        "lt-proc -a P",
        "saw in saws",
        [0, 1, 0],
        Status::ReadFault,
        "",
        READ,
    ),
    case!(
        "lt-proc -a P",
        "saw in saws",
        [0, 2, 0],
        Status::ReadFault,
        SAW,
        READ,
    ),
    case!(
        "lt-proc -a P",
        "saw in saws",
        [0, 3, 0],
        Status::ReadFault,
        MORE,
        READ,
    ),
    case!(
        "lt-proc -a P",
        "saw in saws",
        [0, 4, 0],
        Status::ReadFault,
        ALL,
        READ,
    ),
    case!(
        "lt-proc -a P",
        "saw in saws",
        [0, 5, 0],
        Status::Done,
        ALL,
        "",
    ),
    case!(
        "lt-proc -a P",
        "saw in saws",
        [0, 0, 1],
        Status::WriteFault,
        "",
        WRITE,
    ),
    case!(
        "lt-proc -a P",
        "saw in saws",
        [0, 2, 1],
        Status::WriteFault,
        "",
        WRITE,
    ),
    case!(
        "lt-proc -a P",
        "saw ^x",
        [0, 3, 0],
        malformed!(1, 2, 4),
        SAW,
        "apertium: stage 1: byte 4: malformed 2 Stray\n",
    ),
    case!(
        "lt-proc -a P",
        "saw [in",
        [0, 3, 0],
        Status::ReadFault,
        "^saw/saw<n><sg>/see<vblex><past>$",
        READ,
    ),
    case!(
        "lt-proc -a M",
        "houses",
        [0, 0, 1],
        Status::WriteFault,
        "",
        WRITE,
    ),
];

#[test]
fn a_failing_call_ends_the_run(rt: HostRuntime) -> Result<(), Fail> {
    check_rows(&rt, rt.alloc(), FAILING, &[4])
}
