//! Compiled dictionaries as text, the forms `LTC1` and `LTC2`: the writer and the reader.
//!
//! The files of lttoolbox are binary; these are texts in lines, which can be read by eye and
//! compared by `diff`. A file that a person or another program wrote is read with the same care as
//! a dictionary: it is accepted whole, or refused at the line of its first fault.
//!
//! ```text
//! LTC2          the form; LTC1 tells no direction, and has no line for it
//! way lr        or `way rl`
//! ..            the alphabet, by code points
//! ..            a section: its kind, and the numbers of its states, edges and final states
//! ..            its edges, a line each: the state it leaves, its two sides, the state it enters
//! ..            its final states, a line each; and so the other three sections
//! end
//! ```
//!
//! # Calls
//!
//! - `write_compiled`: the text of a compiled dictionary.
//! - `read_compiled`: the compiled dictionary that a text spells.
//! - `BinaryRefusal`, with a `BinaryFault`: its `BinaryKind` by number and name, and its line.
//!
//! # What is promised
//!
//! - A compiled dictionary is written as exactly its text, and read again as the same value
//!   (`reads_what_is_written`).
//! - A text is read exactly where it is the text of a direction or none, an alphabet and four
//!   sections without empty cycles and empty sides, of which trimming leaves the value
//!   (`spells_texts`, `spells_one`); and what is read is a compiled dictionary (`spells_compiled`).
//! - Else its first fault is told, with its line: the first line that has not its form, is not in
//!   order or not in range, or the first section with an empty cycle or side
//!   (`first_fault_in_sentences`, `has_one_fault`, `spells_without_fault`).
//! - The fault `WrongWay` is never that of a text: whether a direction is wanted, its place among
//!   the words says (`never_wrong_way`).
//!
//! # Definitions to read first
//!
//! - `specs/Text.antt`: `compiled_text`: the text of a compiled dictionary.
//! - `specs/Grammar.antt`: `IsTextOf`: the same without a reader.
//! - `specs/Faults.antt`: `HasFirstFault`, `IsLineFault`, `IsSectionFault`: the first fault, in
//!   sentences over lines.
//! - `specs/Spelling.antt`: `Spells`, `IsFirstFault`: what the code computes of a text.
//! - `specs/Held.antt`: `IsHeld`: what each value of the program holds: characters, UTF-8, numbers
//!   of 64 bits.
#![tactic(auto)]

mod alphabet;
mod file;
mod heads;
mod laws;
mod lines;
mod pieces;
mod reading;
mod refusal;
mod sections;
mod writing;

pub use laws::{
    first_fault_in_sentences, has_one_fault, never_wrong_way, reads_what_is_written,
    spells_compiled, spells_one, spells_texts, spells_without_fault,
};
pub use reading::read_compiled;
pub use refusal::{BinaryFault, BinaryKind, BinaryRefusal};
pub use writing::write_compiled;
