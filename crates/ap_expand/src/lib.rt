//! The expansion of a dictionary: its lines, one at a time.
//!
//! This is what `lt-expand` writes: each way through each entry and the paradigms that it takes in,
//! as its left word and its right word, in the order of the document. A way that uses both an entry
//! that is kept from left to right alone and one that is kept from right to left alone writes no
//! line. A dictionary may have more lines than fit into memory, so they come one by one. Of a way
//! the crate keeps the place in each list of entries that is open, and nothing of the lines that
//! were given.
//!
//! # Calls
//!
//! - `Expansion::new`: all lines of a dictionary, which is sound, as each dictionary that is read
//!   is.
//! - `Expansion::next`: puts the next line into the room that it is handed, and answers whether
//!   there was one.
//!
//! Contracts see an `Expansion` as the list of the lines that are still to come.
//!
//! # What is promised
//!
//! There are no laws here; the promises are the clauses of the two calls.
//!
//! - A new expansion has exactly the lines of the dictionary, in the order of the document.
//! - `next` gives the first of the lines that are left, and those behind it are left then; or it
//!   answers that there is none.
//! - After want of memory the same line comes next.
//!
//! # Definitions to read first
//!
//! - `specs/Lines.antt`: `lines`, `way_line`, `dictionary_ways`: the lines of a dictionary, by
//!   recursion on its entries.
//! - `specs/Uses.antt`: what each way through something uses of entries that are kept in one
//!   direction alone.
//! - `specs/Search.antt`: the search for the next line, step by step: each step gives a line or
//!   none.
//! - `ap_dix/specs/Soundness.antt`: `IsSound`: why paradigms can be followed to an end.
#![tactic(auto)]

mod expansion;
mod frame;
mod line;
mod search;
mod uses;
mod walk;

pub use expansion::Expansion;
