use crate::tests::rows::{NONE, Row, bad_rules, case, check_rows};
use std::test::Fail;

const ROWS: &[Row] = &[
    case!(
        "interchunk FR",
        "^a<SN>{}$",
        NONE,
        bad_rules!(1, 8, 3),
        "",
        "apertium: FR: line 3: rule fault 8 UndefinedName\n"
    ),
    case!(
        "interchunk G1",
        "^a<SN>{}$",
        NONE,
        bad_rules!(1, 11, 1),
        "",
        "apertium: G1: line 1: rule fault 11 PatternLength\n"
    ),
    case!(
        "transfer G2 BI",
        "^a<SN>{}$",
        NONE,
        bad_rules!(1, 7, 1),
        "",
        "apertium: G2: line 1: rule fault 7 DuplicateName\n"
    ),
    case!(
        "postchunk G3",
        "^a<SN>{}$",
        NONE,
        bad_rules!(1, 6, 1),
        "",
        "apertium: G3: line 1: rule fault 6 Misplaced\n"
    ),
];

#[test]
fn rule_files_are_refused(rt: HostRuntime) -> Result<(), Fail> {
    check_rows(&rt, rt.alloc(), ROWS, &[4])
}
