use crate::tests::rows::{NONE, Row, bad_rules, case, check_rows, done};
use std::test::Fail;

/// A text with a unit of two readings behind one.
const SAW: &str = "^I/I<prn>$ ^saw/saw<n><sg>/see<vblex><past>$ ^./.<sent>$";

const ROWS: &[Row] = &[
    done!("choose K1", SAW, "^I<prn>$ ^see<vblex><past>$ ^.<sent>$"),
    done!("choose K2", SAW, "^I<prn>$ ^saw<n><sg>$ ^.<sent>$"),
    done!(
        "choose K3",
        "^x/p<a>/q<b>$[<1>]^y/r<c>$",
        "^q<b>$[<1>]^r<c>$",
    ),
    case!(
        "choose K4",
        SAW,
        NONE,
        bad_rules!(1, 14, 2),
        "",
        "apertium: K4: line 2: rule fault 14 BadPair\n",
    ),
];

#[test]
fn choose_gives_its_rows(rt: HostRuntime) -> Result<(), Fail> {
    check_rows(&rt, rt.alloc(), ROWS, &[1, 2, 3, 4, 5, 7, 11, 26, 65_536])
}
