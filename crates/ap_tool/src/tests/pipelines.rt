//! Rows that were run: three stages that copy, through pipes of one byte and of more.
use crate::tests::copied::three;
use ap_outside::{MemSink, MemSource};
use ap_pipe::{Intake, Outcome, Pipeline, Round};
use std::test::Fail;

#[test]
fn all_is_given(rt: HostRuntime) -> Result<(), Fail> {
    let alloc = rt.alloc();
    for room in [1, 2, 3, 64] {
        let mut pipeline = Pipeline::new(alloc, three(alloc, 2)?, room)?;
        let mut source = MemSource::new(Vec::from_slice(alloc, b"abcdefg")?, 3, Vec::new(alloc));
        let mut sink = MemSink::new(alloc, 1000, Vec::new(alloc), 0)?;
        assert_eq!(rt; pipeline.intake(), Intake::Open);
        assert_eq!(rt; pipeline.run(&mut source, &mut sink), Outcome::Done);
        assert_eq!(rt; pipeline.intake(), Intake::Clean);
        assert_eq!(rt; sink.written(), "abcdefg".as_bytes());
        assert_eq!(rt;
            pipeline.round(&mut source, &mut sink),
            Round::Ended(Outcome::Done)
        );
    }
    Ok(())
}

#[test]
fn failed_calls_end_it(rt: HostRuntime) -> Result<(), Fail> {
    let alloc = rt.alloc();
    let mut pipeline = Pipeline::new(alloc, three(alloc, 2)?, 1)?;
    let mut source = MemSource::new(
        Vec::from_slice(alloc, b"abcdefg")?,
        3,
        Vec::from_slice(alloc, &[3])?,
    );
    let mut sink = MemSink::new(alloc, 1000, Vec::new(alloc), 0)?;
    assert_eq!(rt; pipeline.run(&mut source, &mut sink), Outcome::ReadFault);
    assert_eq!(rt; sink.written(), "ab".as_bytes());
    let mut pipeline = Pipeline::new(alloc, three(alloc, 2)?, 1)?;
    let mut source = MemSource::new(Vec::from_slice(alloc, b"abcdefg")?, 3, Vec::new(alloc));
    let mut sink = MemSink::new(alloc, 1000, Vec::from_slice(alloc, &[2])?, 0)?;
    assert_eq!(rt; pipeline.run(&mut source, &mut sink), Outcome::WriteFault);
    assert_eq!(rt; sink.written(), "a".as_bytes());
    Ok(())
}
