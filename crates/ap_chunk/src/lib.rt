//! Transfer, interchunk and postchunk: the categories of words, and the choice of a rule.
//!
//! The three stages are one handler, by the form of its rules. It holds the items that one match
//! must see together, finds the longest pattern of a rule that fits them, runs the rule
//! (`ap_exec`), fills the blanks in, and goes on behind the match. What variables hold goes on from
//! match to match.
//!
//! ```text
//! stage        reads       a match is                       writes
//! transfer     Bilingual   units, one blank at most         chunks, or units where these are the
//!                          between two                      default of the file
//! interchunk   Chunked     chunks, one blank at most        chunks
//!                          between two
//! postchunk    Chunked     one chunk, by its name's lemma   the units of its content
//! ```
//!
//! # Calls
//!
//! - The stages: `Transfer`, `Interchunk`, `Postchunk`; `ChunkWork`, the handler of all three.
//! - Categories: `takes`, whether one takes a word; `row`, which of all categories do.
//! - The choice of a rule: `Choosing`, unit by unit, with `Choice`.
//!
//! # What is promised
//!
//! - A unit of a match passes as of a category exactly where that category takes its word: in
//!   transfer its source, in interchunk and postchunk the name of the chunk (`rows_tell`).
//! - The rule with the longest pattern that fits is chosen, and of equally long ones the first in
//!   the file (`trying_all_chooses`), of which there is one (`one_is_chosen`).
//! - The span of a match is the greatest number of items from the front that may be seen together
//!   (`span_is_greatest`).
//! - The three stages give exactly the text of their definitions for every cut, with the variables
//!   from match to match and each limit at its byte; what they give depends on the plain rules
//!   alone (`plain_rules_decide`).
//! - By sound rules whose words are words of the program each keeps superblanks, those in chunks
//!   too (`transfer_keeps_superblanks`, `sound_transfer_keeps_superblanks`,
//!   `sound_interchunk_keeps_superblanks`, `sound_postchunk_keeps_superblanks`).
//! - By such rules what each writes, with a fault or without, is read on in the next dialect
//!   (`transfer_is_read`, `interchunk_is_read`, `postchunk_is_read`).
//!
//! # Definitions to read first
//!
//! - `specs/Categories.antt`: `Takes`, `TakeTags`: which words a category takes.
//! - `specs/Choice.antt`: `RuleFits`, `IsChosen`: the rule that is chosen.
//! - `specs/Spans.antt`: `IsGreatestSpan`: how many items must be seen.
//! - `specs/Matches.antt`: `matched_of`, `blanks_of`: what a match gives to a rule.
//! - `specs/Stages.antt`: `chunk_step`, `transferred_text`, `interchunked_text`,
//!   `postchunked_text`: the stages.
//! - `specs/Chunks.antt`: `chunk_words`: a chunk as postchunk reads it.
//! - `specs/Rows.antt`: `IsSeenBy`: the word by which an item is of a category.
#![tactic(auto)]

mod categories;
mod choice;
mod choosing;
mod chunk_work;
mod chunks;
mod interchunk;
mod keeping;
mod kept;
mod known;
mod laws;
mod matches;
mod parts;
mod patterns;
mod places;
mod postchunk;
mod search;
mod tags;
mod transfer;
mod translation;
mod unmatched;
mod words;
mod writing;

pub use categories::{row, takes};
pub use choice::Choice;
pub use choosing::Choosing;
pub use chunk_work::ChunkWork;
pub use interchunk::Interchunk;
pub use laws::{
    interchunk_is_read, one_is_chosen, plain_rules_decide, postchunk_is_read, rows_tell,
    sound_interchunk_keeps_superblanks, sound_postchunk_keeps_superblanks,
    sound_transfer_keeps_superblanks, span_is_greatest, transfer_is_read,
    transfer_keeps_superblanks, trying_all_chooses,
};
pub use postchunk::Postchunk;
pub use transfer::Transfer;
