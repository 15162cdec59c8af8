//! The outside of the program: a source of bytes, a sink of bytes and files. Each is a trait that
//! says what it holds, where it tells, and how often it has failed. For each there is an object in
//! memory, which tells, and an adapter over std, which doesn't.
//!
//! A command is handed its files, its source and its sink, and touches nothing else. A contract can
//! say what bytes an object holds only where the object tells them. An object in memory does, so
//! that the tests can compare bytes; of a file of the disk or of standard input no contract can say
//! it. Each object counts its faults, so that a failed call has a cause that is seen.
//!
//! # Calls
//!
//! - The traits: `Source`, with `take`; `Sink`, with `put`; `Files`, with `load` and `store`.
//! - Their refusals: `Failed`, of a take or a put; `LoadRefusal`, not loaded, too long, or want of
//!   memory; `StoreRefusal`.
//! - In memory: `MemSource`, which gives pieces of at most a given size; `MemSink`, with its room;
//!   `MemFiles`. Each fails at the calls that it is told to fail at.
//! - Over std: `StdSource`, `StdSink`, and `DiskFiles`.
//! - `words_of`: the words of a command, all arguments but the program's own name.
//!
//! # What is promised
//!
//! There are no laws here; the promises are the clauses of the traits and of the calls.
//!
//! - After each call it is said what is left, written or contained, where that is told.
//! - A call fails only where the object's count of faults rose, or stood at its end already.
//! - The objects in memory keep this exactly, with calls that fail where they are told to. A failed
//!   load of a file in memory raises the count of that name alone.
//! - A load of a file of the disk gives all that the opened file has, and at most as many bytes as
//!   are asked for, or says why not. A store that succeeds wrote all bytes to the file that was
//!   made. Both are said over what opening and making answered; what the calls of std really read
//!   and write is trusted.
//! - `words_of` gives no words where one argument isn't UTF-8, and only want of memory fails it.
//!
//! # Definitions to read first
//!
//! - `specs/Told.antt`: `Takes`, `IsEnd`, `Puts`, `PutsFront`, `Loads`, `Stores`: what a call does
//!   to what is left, written or contained, where that is told.
//! - `specs/Causes.antt`: `Rose`, `HasCause`, `HasLoadCause`: a count never falls, and rises where
//!   a call failed.
//! - `specs/StoreCauses.antt`: `HasStoreCause`: the same of stores.
//! - `specs/Held.antt`: `place_of`, `content_of`: files in memory, by place.
//! - `specs/Disk.antt`: `IsRefusalFor`, `WritesAll`: why a file of the disk is not loaded, and that
//!   all bytes were written.
#![tactic(auto)]

mod arguments;
mod disk_files;
mod files;
mod mem_file;
mod mem_files;
mod mem_sink;
mod mem_source;
mod sink;
mod source;
mod std_sink;
mod std_source;
#[cfg(test)]
mod tests;

pub use arguments::words_of;
pub use disk_files::DiskFiles;
pub use files::{Files, LoadRefusal, StoreRefusal};
pub use mem_files::MemFiles;
pub use mem_sink::MemSink;
pub use mem_source::MemSource;
pub use sink::Sink;
pub use source::{Failed, Source};
pub use std_sink::StdSink;
pub use std_source::StdSource;
