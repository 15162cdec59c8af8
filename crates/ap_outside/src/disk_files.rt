ghost use Rattle.std.specs.Prelude.{◌≡◌, ◌≤◌, ◌<◌, None, IfOk, IfErr, IfSome, OnOk, OnErr, IsErrAnd, IsErrOf, is_err, length};
ghost use Rattle.std.specs.IoError.{error_kind};
ghost use Rattle.ap_outside.specs.Causes.{SparesStoreFaults, raised};
ghost use Rattle.ap_outside.specs.Disk.{IsRefusalFor, WritesAll};
ghost use Rattle.ap_outside.specs.StoreCauses.{HasStoreCause};

use crate::files::{Files, LoadRefusal, StoreRefusal};
use std::alloc::Global;
use std::fs::File;
use std::io::{self, ErrorKind, Read, Write};
use std::rt;

/// The files of a runtime. It tells no contents, and gives one number as each of its counts.
#[derive(Drop)]
pub struct DiskFiles<R: Drop> {
    rt: R,
    faults: u64,
}

impl<R: rt::Files + Drop> DiskFiles<R> {
    /// The files of this runtime, with no faults.
    pub fn new(rt: R) -> DiskFiles<R>
        ensures { result.faults ≡ 0 }
    {
        DiskFiles { rt, faults: 0 }
    }
}

/// Why a file is not loaded, by the kind of error of opening or reading it.
fn refusal_of(kind: ErrorKind) -> LoadRefusal
    ensures { IsRefusalFor kind result }
{
    if kind == ErrorKind::OutOfMemory {
        return LoadRefusal::Memory;
    }
    LoadRefusal::Failed
}

/// What was read to the end, or to one byte beyond `most`.
fn read_of(bytes: Vec<u8>, read: io::Result<usize>, most: u64) -> Result<Vec<u8>, LoadRefusal>
    ensures whole { IfOk result (λ all. OnOk read (all.items ≡ bytes.items)) }
    ensures most { IfOk result (λ all. length all.items ≤ most) }
    ensures long { IsErrOf result LoadRefusal.TooLong → most < length bytes.items }
    ensures failed { IfErr read (λ error. IsErrAnd result (IsRefusalFor (error_kind error))) }
{
    match read {
        Err(error) => Err(refusal_of(error.kind())),
        Ok(_) => {
            if bytes.len() as u64 > most {
                return Err(LoadRefusal::TooLong);
            }
            Ok(bytes)
        }
    }
}

/// Reads to the end, at most one byte beyond `most`.
fn read_whole<F: Read + Drop>(alloc: Global, file: F, most: u64) -> Result<Vec<u8>, LoadRefusal>
    ensures most { IfOk result (λ bytes. length bytes.items ≤ most) }
    ensures whole { IfOk result (λ bytes. IfSome (F.remaining file) (λ all. bytes.items ≡ all)) }
    ensures too_long { IsErrOf result LoadRefusal.TooLong →
        IfSome (F.remaining file) (λ all. most < length all) }
{
    let mut bytes = Vec::new(alloc);
    let read = file.take(most.saturating_add(1)).read_to_end(&mut bytes);
    read_of(bytes, read, most)
}

/// Reads a file that was opened, or says why it wasn't.
fn load_opened<F: Read + Drop>(
    alloc: Global,
    opened: io::Result<F>,
    most: u64,
) -> Result<Vec<u8>, LoadRefusal>
    ensures most { IfOk result (λ bytes. length bytes.items ≤ most) }
    ensures whole { IfOk result (λ bytes. IfOk opened
        (λ file. IfSome (F.remaining file) (λ all. bytes.items ≡ all))) }
    ensures too_long { IsErrOf result LoadRefusal.TooLong →
        IfOk opened (λ file. IfSome (F.remaining file) (λ all. most < length all)) }
    ensures unopened { IfErr opened (λ error. IsErrAnd result (IsRefusalFor (error_kind error))) }
{
    match opened {
        Ok(file) => read_whole(alloc, file, most),
        Err(error) => Err(refusal_of(error.kind())),
    }
}

/// Writes all of the bytes to a file that was made, or says why it wasn't. A writer that takes
/// nothing of bytes that are left is an error.
fn write_whole<W: Write>(made: &mut io::Result<W>, bytes: &[u8]) -> io::Result<()>
    ensures { OnOk result (WritesAll W.contents made.old made.new bytes.now) }
{
    match made {
        Ok(file) => file.write_all(bytes),
        Err(error) => Err(*error),
    }
}

/// The answer of a store whose write went so.
fn store_of(written: io::Result<()>) -> Result<(), StoreRefusal>
    ensures same { is_err result ≡ is_err written }
    ensures failed { OnErr result (IsErrOf result StoreRefusal.Failed) }
{
    match written {
        Ok(()) => Ok(()),
        Err(_) => Err(StoreRefusal::Failed),
    }
}

/// Makes the file have exactly these bytes, and counts a failure.
fn store_whole<W: Write>(
    faults: &mut u64,
    made: &mut io::Result<W>,
    bytes: &[u8],
) -> Result<(), StoreRefusal>
    ensures whole { OnOk result (WritesAll W.contents made.old made.new bytes.now) }
    ensures failed { OnErr result (IsErrOf result StoreRefusal.Failed) }
    ensures cause { HasStoreCause faults.old faults.new result }
    ensures raised { OnErr result (faults.new ≡ raised faults.old) }
{
    let stored = store_of(write_whole(made, bytes));
    if stored.is_err() {
        *faults = faults.saturating_add(1);
    }
    stored
}

/// Loads the file that was opened, and counts a failure.
fn load_whole<F: Read + Drop>(
    alloc: Global,
    faults: &mut u64,
    opened: io::Result<F>,
    most: u64,
) -> Result<Vec<u8>, LoadRefusal>
    ensures most { IfOk result (λ bytes. length bytes.items ≤ most) }
    ensures whole { IfOk result (λ bytes. IfOk opened
        (λ file. IfSome (F.remaining file) (λ all. bytes.items ≡ all))) }
    ensures too_long { IsErrOf result LoadRefusal.TooLong →
        IfOk opened (λ file. IfSome (F.remaining file) (λ all. most < length all)) }
    ensures unopened { IfErr opened (λ error. IsErrAnd result (IsRefusalFor (error_kind error))) }
    ensures cause { SparesStoreFaults faults.old faults.new result }
    ensures raised { IsErrOf result LoadRefusal.Failed → faults.new ≡ raised faults.old }
{
    match load_opened(alloc, opened, most) {
        Ok(bytes) => Ok(bytes),
        Err(LoadRefusal::Failed) => {
            *faults = faults.saturating_add(1);
            Err(LoadRefusal::Failed)
        }
        Err(refusal) => Err(refusal),
    }
}

impl<R: rt::Files + Drop> Files for DiskFiles<R> {
    ghost contents = { λ _. None };

    ghost load_faults = { λ s _. s.faults };

    ghost store_faults = { λ s. s.faults };

    fn load(&mut self, alloc: Global, name: &str, most: u64) -> Result<Vec<u8>, LoadRefusal> {
        load_whole(alloc, &mut self.faults, File::open(&self.rt, name), most)
    }

    fn store(&mut self, name: &str, bytes: &[u8]) -> Result<(), StoreRefusal> {
        store_whole(&mut self.faults, &mut File::create(&self.rt, name), bytes)
    }
}
