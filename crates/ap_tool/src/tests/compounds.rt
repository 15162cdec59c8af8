use crate::tests::rows::{Row, check_rows, done_over};
use std::test::Fail;

/// Words that are parts of compounds alone, left ones and right ones.
const K: &str =
    "<dictionary>\n<alphabet>abcdefghijklmnopqrstuvwxyz</alphabet>\n<sdefs><sdef n=\"n\"/><sdef n=\"compound-only-L\"/><sdef n=\"compound-R\"/></sdefs>\n<section id=\"main\" type=\"standard\">\n<e><p><l>rain</l><r>rain<s n=\"n\"/><s n=\"compound-only-L\"/></r></p></e>\n<e><p><l>rainco</l><r>rainco<s n=\"n\"/><s n=\"compound-only-L\"/></r></p></e>\n<e><p><l>coat</l><r>coat<s n=\"n\"/><s n=\"compound-R\"/></r></p></e>\n<e><p><l>at</l><r>at<s n=\"n\"/><s n=\"compound-R\"/></r></p></e>\n</section>\n</dictionary>\n";

const ROWS: &[Row] = &[
    done_over!(
        &[("K", K)],
        "compound K",
        "Raincoat coat rain",
        "^Raincoat/Rain<n>+coat<n>/Rainco<n>+at<n>$ ^coat/coat<n>$ ^rain/*rain$",
    ),
    done_over!(
        &[("K", K)],
        "compound K",
        "rainraincoat",
        "^rainraincoat/rain<n>+rain<n>+coat<n>/rain<n>+rainco<n>+at<n>$",
    ),
    done_over!(
        &[("K", K)],
        "compound -c K",
        "Raincoat",
        "^Raincoat/*Raincoat$"
    ),
    done_over!(
        &[("K", K)],
        "compound K",
        "rainat[<b>] at.",
        "^rainat/rain<n>+at<n>$[<b>] ^at/at<n>$.",
    ),
];

#[test]
fn compounds_give_their_rows(rt: HostRuntime) -> Result<(), Fail> {
    check_rows(&rt, rt.alloc(), ROWS, &[1, 4, 65_536])
}
