use crate::tests::long::{Long, check_all};
use crate::tests::rows::{Row, check_rows, done, limit};
use std::test::Fail;

const ROWS: &[Row] = &[
    done!(
        "transfer T1 BI",
        "^dog<n><sg>$ ^*xyz$",
        "^default<default>{^perro<n><m><sg>$}$ ^unknown<unknown>{^*xyz$}$",
    ),
    done!(
        "transfer T1 BI",
        "^black<adj>$[<b>] ^dog<n><sg>$",
        "^nom_adj<SN><m><sg>{^perro<n><2><3>$[<b>] ^negro<adj><2><3>$}$",
    ),
    done!(
        "transfer TL BI",
        "^Dog<n><sg>$ ^fox<n><sg>$ ^black<adj>$",
        "^Perro<n><m><pl>$ ^@fox<n><pl>$ ^negro<adj>$",
    ),
    done!(
        "transfer -b T1",
        "^black<adj>/negro<adj>$ ^dog<n><sg>/perro<n><m><sg>/can<n><m><sg>$",
        "^nom_adj<SN><m><sg>{^perro<n><2><3>$ ^negro<adj><2><3>$}$",
    ),
    done!(
        "transfer -b T1",
        "^a/$ ^*x/*x$",
        "^default<default>{}$ ^unknown<unknown>{^*x$}$",
    ),
];

#[test]
fn transfer_gives_its_rows(rt: HostRuntime) -> Result<(), Fail> {
    check_rows(&rt, rt.alloc(), ROWS, &[1, 2, 3, 4, 5, 7, 11, 26, 65_536])
}

const FAULT: &[Long] = &[Long {
    words: "transfer TD BI",
    name: "OTHER",
    file: &[],
    input: &[("^black<adj>$ ", 22), ("^black<adj>$", 1)],
    cut: 100,
    take: 0,
    status: limit!(2, 4, 528),
    out: &[("^negro<adj>$ ", 22)],
    message: "apertium: stage 2: byte 528: limit 4 ValueTooLong\n",
}];

#[test]
fn a_fault_of_transfer_is_that_of_the_second_stage(rt: HostRuntime) -> Result<(), Fail> {
    check_all(&rt, rt.alloc(), FAULT)
}
