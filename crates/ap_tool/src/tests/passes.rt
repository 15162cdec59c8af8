use crate::tests::rows::{NONE, Row, case, check_rows, done, malformed};
use std::test::Fail;

const ROWS: &[Row] = &[
    done!(
        "pretransfer",
        "^echar<vblex><ger>+lo<prn><enc># de menos$",
        "^echar# de menos<vblex><ger>$ ^lo<prn><enc>$",
    ),
    done!(
        "first",
        "^saw/saw<n><sg>/see<vblex><past>$ ^s/*s$",
        "^saw<n><sg>$ ^*s$",
    ),
    done!("first", "[<b>]^a/$\\[ .", "[<b>]\\[ ."),
    case!(
        "pretransfer",
        "^a<n>$[",
        NONE,
        malformed!(1, 3, 6),
        "^a<n>$",
        "apertium: stage 1: byte 6: malformed 3 Unfinished\n",
    ),
];

/// The sizes of pieces: 1 to 49.
const CUTS: &[usize] = &[
    1, 2, 3, 4, 5, 6, 7, 8, 9, 10, 11, 12, 13, 14, 15, 16, 17, 18, 19, 20, 21, 22, 23, 24, 25, 26,
    27, 28, 29, 30, 31, 32, 33, 34, 35, 36, 37, 38, 39, 40, 41, 42, 43, 44, 45, 46, 47, 48, 49,
];

#[test]
fn passes_give_their_rows(rt: HostRuntime) -> Result<(), Fail> {
    check_rows(&rt, rt.alloc(), ROWS, CUTS)
}
