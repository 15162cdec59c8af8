use crate::Status;
use crate::tests::rows::{NONE, Row, bad_dictionary, case, check_rows, done, file_fault};
use std::test::Fail;

/// The lines of M.
const LINES: &str =
    "house:house<n><sg>\nhouses:house<n><pl>\nsaw:saw<n><sg>\nsaw:see<vblex><past>\nin front:in front<adv>\n.:.<sent>\n";

const ROWS: &[Row] = &[
    done!("lt-expand M", "not taken", LINES),
    done!("lt-expand X", "", "a:>:a\nbd:<:bd\n"),
    case!(
        "lt-expand M",
        "",
        [0, 0, 1],
        Status::WriteFault,
        "",
        "apertium: write fault\n"
    ),
    case!(
        "lt-expand M",
        "",
        [1, 0, 0],
        file_fault!(1),
        "",
        "apertium: M: file fault\n",
    ),
    case!(
        "lt-expand F1",
        "",
        NONE,
        bad_dictionary!(1, 8, 4),
        "",
        "apertium: F1: line 4: dictionary fault 8 UndeclaredSymbol\n",
    ),
    case!(
        "lt-expand F2",
        "",
        NONE,
        bad_dictionary!(1, 2, 3),
        "",
        "apertium: F2: line 3: dictionary fault 2 Syntax\n",
    ),
    case!(
        "lt-expand F3",
        "",
        NONE,
        bad_dictionary!(1, 11, 3),
        "",
        "apertium: F3: line 3: dictionary fault 11 Weighted\n",
    ),
    case!(
        "lt-expand B",
        "",
        NONE,
        bad_dictionary!(1, 10, 3),
        "",
        "apertium: B: line 3: dictionary fault 10 BadRegex\n",
    ),
    done!(
        "lt-expand R",
        "",
        "__REGEXP__[0-9]+([.,][0-9]+)?:__REGEXP__[0-9]+([.,][0-9]+)?<num>\n"
    ),
    case!(
        "lt-expand C",
        "",
        NONE,
        bad_dictionary!(1, 2, 1),
        "",
        "apertium: C: line 1: dictionary fault 2 Syntax\n",
    ),
];

#[test]
fn expansion_gives_its_rows(rt: HostRuntime) -> Result<(), Fail> {
    check_rows(&rt, rt.alloc(), ROWS, &[4])
}
