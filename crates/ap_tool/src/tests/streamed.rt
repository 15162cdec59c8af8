//! A row that was run whole: as many stages as it is given.
use crate::tests::copied::Copied;
use ap_outside::{MemSink, MemSource};
use ap_pipe::{Outcome, Row, stream_row};
use std::test::Fail;

#[test]
fn a_row_is_run_by_its_stages(rt: HostRuntime) -> Result<(), Fail> {
    let alloc = rt.alloc();
    let mut row = Row::new(alloc);
    row.push(Copied::new(alloc, 2)?)?;
    row.push(Copied::new(alloc, 2)?)?;
    row.push(Copied::new(alloc, 2)?)?;
    let mut source = MemSource::new(Vec::from_slice(alloc, b"abcdefg")?, 3, Vec::new(alloc));
    let mut sink = MemSink::new(alloc, 1000, Vec::new(alloc), 0)?;
    assert_eq!(rt;
        stream_row(alloc, row, 3, &mut source, &mut sink),
        Outcome::Done
    );
    assert_eq!(rt; sink.written(), "abcdefg".as_bytes());
    Ok(())
}
