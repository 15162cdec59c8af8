use crate::WorkSource;
use crate::tests::rows::{Row, check_rows, done};
use ap_outside::Source;
use std::test::Fail;

const ROWS: &[Row] = &[
    done!(
        "work 4",
        "",
        "sentences 4\ninput 108\noutput 112\nsuperblanks 4\n"
    ),
    done!(
        "work 30",
        "",
        "sentences 30\ninput 830\noutput 860\nsuperblanks 30\n"
    ),
];

#[test]
fn a_made_text_is_translated_and_counted(rt: HostRuntime) -> Result<(), Fail> {
    check_rows(&rt, rt.alloc(), ROWS, &[5])
}

#[test]
fn sentences_are_made_in_any_pieces(rt: HostRuntime) -> Result<(), Fail> {
    let text =
        "The black dog[<0>] of the cat.\nblack cats[<1>] sleep.\nThe black dog[<2>] of the cat.\n";
    for cut in [1, 7, 100] {
        let mut source = WorkSource::new(3);
        let mut made = Vec::new(rt.alloc());
        for _ in 0..100 {
            let mut piece = [0; 100];
            let room = piece.len().min(cut);
            let count = source.take(&mut piece[..room])?;
            made.extend_from_slice(&piece[..count])?;
        }
        assert_eq!(rt; made.as_slice(), text.as_bytes());
    }
    Ok(())
}
