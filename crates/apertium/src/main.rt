//! The program: it makes the real files, source and sinks, and runs the command of its words. A
//! word that is not UTF-8 makes no command.
//!
//! Everything else stands below: `ap_tool` has the call that runs a command, and docs/MAP.md goes
//! the way of a word through all crates. The file `HANDLES` says what the program may do besides
//! computing.
//!
//! # Calls
//!
//! - `main`: makes `DiskFiles`, a `StdSource` of standard input, and a `StdSink` each of standard
//!   output and of standard error; takes the words by `words_of`; makes the one call `apertium`;
//!   and ends with the number of its status. Where memory ran out already for the words, it says so
//!   and ends with that number.
//!
//! # What is promised
//!
//! - `main` is safe, and it ends. What the call does is promised by its contract, `Account` and
//!   `Tells`.
//! - That the words, the files and the streams are the ones that should be handed in, and that the
//!   program ends with the status's number, is not proved. The stored run of this crate shows it, a
//!   whole translation by the small pair in `data`, and so does `checks/statuses`, for each status
//!   that can be made from outside.
//! - What the objects over std really read, flush and store is trusted to a few calls of std.
//!
//! # Definitions to read first
//!
//! - `ap_command/specs/Account.antt`: `Account`: the promises of a run, one a field.
//! - `ap_command/specs/Statuses.antt`: `status_number`: the number with which the program ends.
//! - `ap_outside/specs/Told.antt`: what an object may tell; the real ones tell nothing.
#![tactic(auto)]

use ap_outside::{DiskFiles, StdSink, StdSource, words_of};
use ap_tool::{Status, apertium, exit_code, message};
use std::process::ExitCode;
use std::{env, io};

fn main(rt: HostRuntime) -> ExitCode {
    let mut err = StdSink::new(rt.stderr());
    let Ok(words) = words_of(rt.alloc(), env::args(&rt)) else {
        let status = Status::Memory;
        let _ = message(&status, &[], &mut err);
        return exit_code(&status);
    };
    let mut files = DiskFiles::new(&rt);
    let mut source = StdSource::new(rt.reader());
    let mut sink = StdSink::new(io::writer(&rt));
    let status = apertium(
        rt.alloc(),
        words.as_slice(),
        &mut files,
        &mut source,
        &mut sink,
        &mut err,
    );
    exit_code(&status)
}
