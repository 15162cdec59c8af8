use crate::tests::rows::{Row, check_rows, done};
use std::test::Fail;

const ROWS: &[Row] = &[
    done!(
        "interchunk T2S",
        "^a<SN><sg>{^x<n>$[<1>]^y<n>$}$[<2>]^v<SV>{^z<vblex>$}$",
        "^v<SV>{^z<vblex>$}$[<1>]^a<SN><sg>{^x<n>$[<2>]^y<n>$}$",
    ),
    done!(
        "interchunk T2",
        "^a<SN>{^x<2>$}$ [<b>]",
        "^a<SN>{^x<2>$}$ [<b>]",
    ),
    done!(
        "postchunk T3",
        "^adj_noun<SN><m><sg>{^perro<n><2><3>$[<b>]^negro<adj><2><3>$}$",
        "^perro<n><m><sg>$[<b>]^negro<adj><m><sg>$",
    ),
    done!(
        "postchunk T3S",
        "^Swap<SN><pl>{^perro<n><2>$ ^negro<adj><2><7>$}$",
        "^negro<adj><pl>$ ^Perro<n><pl>$",
    ),
];

#[test]
fn interchunk_and_postchunk_give_their_rows(rt: HostRuntime) -> Result<(), Fail> {
    check_rows(&rt, rt.alloc(), ROWS, &[1, 2, 3, 4, 5, 7, 11, 26, 65_536])
}
