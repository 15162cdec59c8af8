//! Each adapter over std through the bound of its trait. What the objects in memory do is said by
//! their clauses.
use crate::{
    DiskFiles, Failed, Files, LoadRefusal, Sink, Source, StdSink, StdSource, StoreRefusal,
};
use std::alloc::Global;
use std::io::{ErrorKind, Read, Write};
use std::test::Fail;
use std::{env, fs, io, process};

fn take<S: Source>(source: &mut S, into: &mut [u8]) -> Result<usize, Failed> {
    source.take(into)
}

fn put<K: Sink>(sink: &mut K, piece: &str) -> Result<(), Failed> {
    sink.put(piece.as_bytes())
}

fn load<F: Files>(
    files: &mut F,
    alloc: Global,
    name: &str,
    most: u64,
) -> Result<Vec<u8>, LoadRefusal> {
    files.load(alloc, name, most)
}

fn store<F: Files>(files: &mut F, name: &str, text: &str) -> Result<(), StoreRefusal> {
    files.store(name, text.as_bytes())
}

/// Gives its bytes one at a time, then an error.
#[derive(Drop)]
struct Breaking<'a> {
    text: &'a [u8],
}

impl<'a> Read for Breaking<'a> {
    fn read(&mut self, buf: &mut [u8]) -> io::Result<usize> {
        match (self.text.split_first(), buf.first_mut()) {
            (Some((byte, rest)), Some(place)) => {
                *place = *byte;
                self.text = rest;
                Ok(1)
            }
            _ => Err(io::Error::from(ErrorKind::BrokenPipe)),
        }
    }
}

#[test]
fn a_source_over_a_reader(rt: HostRuntime) {
    let mut into = [0; 4];
    let mut source = StdSource::new("abc".as_bytes());
    assert_eq!(rt; take(&mut source, &mut into), Ok(3));
    assert_eq!(rt; into, *b"abc\0");
    assert_eq!(rt; take(&mut source, &mut into), Ok(0));
    let mut source = StdSource::new(Breaking {
        text: "d".as_bytes(),
    });
    assert_eq!(rt; take(&mut source, &mut into), Ok(1));
    assert_eq!(rt; into, *b"dbc\0");
    assert_eq!(rt; take(&mut source, &mut into), Err(Failed));
}

/// Takes at most two bytes a call and so many in all, and flushes or not.
#[derive(Drop)]
struct Narrow {
    got: Vec<u8>,
    most: usize,
    flushes: bool,
}

impl Write for Narrow {
    fn write(&mut self, buf: &[u8]) -> io::Result<usize> {
        let free = self.most.saturating_sub(self.got.len());
        let count = buf.len().min(free).min(2);
        self.got.extend_from_slice(&buf[..count])?;
        Ok(count)
    }

    fn flush(&mut self) -> io::Result<()> {
        if self.flushes {
            Ok(())
        } else {
            Err(io::Error::from(ErrorKind::BrokenPipe))
        }
    }
}

#[test]
fn a_sink_over_a_writer(rt: HostRuntime) {
    let rows = [
        (9, true, "abc", Ok(())),
        (9, false, "abc", Err(Failed)),
        (3, true, "abc", Ok(())),
        (2, true, "abc", Err(Failed)),
        (0, true, "", Ok(())),
    ];
    for (most, flushes, piece, want) in rows {
        let mut sink = StdSink::new(Narrow {
            got: Vec::new(rt.alloc()),
            most,
            flushes,
        });
        assert_eq!(rt; put(&mut sink, piece), want, "{most} {flushes} {piece}");
    }
}

#[test]
fn files_of_a_disk(rt: HostRuntime) -> Result<(), Fail> {
    let alloc = rt.alloc();
    let id = process::id(rt.process());
    let name = format!(in alloc; "belvahto-outside-{id}")?;
    let path = env::temp_dir(&rt)?.join(alloc, name.as_str())?;
    let path = path.to_str().ok_or("no path")?;
    let mut files = DiskFiles::new(&rt);
    assert_eq!(rt; store(&mut files, path, "abc"), Ok(()));
    assert_eq!(rt;
        load(&mut files, alloc, path, 3)?.as_slice(),
        "abc".as_bytes()
    );
    assert_eq!(rt;
        load(&mut files, alloc, path, 2).err(),
        Some(LoadRefusal::TooLong)
    );
    assert_eq!(rt; store(&mut files, path, "d"), Ok(()));
    assert_eq!(rt;
        load(&mut files, alloc, path, u64::MAX)?.as_slice(),
        "d".as_bytes()
    );
    fs::remove_file(&rt, path)?;
    assert_eq!(rt;
        load(&mut files, alloc, path, 3).err(),
        Some(LoadRefusal::Failed)
    );
    assert_eq!(rt; store(&mut files, "", "abc"), Err(StoreRefusal::Failed));
    Ok(())
}
