//! The passes between analysis and transfer: `first`, which keeps the first reading of each unit,
//! and `pretransfer`, which takes the words of units apart.
//!
//! `first` stands in the place of a tagger. `pretransfer` does what `apertium-pretransfer` does:
//! the invariable part of a multiword, which begins with `#`, is moved in front of its first tag,
//! and a unit is split at the joins of its word. Both take each unit by itself, by an `Each` of
//! `ap_stream`; `FirstWork` is the handler to read first.
//!
//! # Calls
//!
//! - `First`: the stage; `FirstWork`: its handler.
//! - `Pretransfer`: the stage; `PretransferWork`: its handler.
//! - `split_word`: the words that pretransfer makes of one word.
//!
//! # What is promised
//!
//! - Both are exact for every cut, with the limit on what is written for one unit.
//! - The invariable part of a word begins with the first queue and runs to the next tag, the next
//!   join or the end; it is moved in front of the first tag where one stands before it. Then the
//!   word is split exactly at the joins with a tag somewhere before them, and empty parts are left
//!   out. There is one way to do so (`words_are_taken_apart`).
//! - Joined again the parts are the word with that part moved, where none was empty
//!   (`nothing_is_lost`); no part is empty (`none_is_empty`).
//! - A word with neither join nor queue stays as it is (`plain_words_stay`), and so does one
//!   without a tag (`tagless_words_stay`).
//! - What is made can be the word of a lexical unit (`split_words_are_words`,
//!   `first_readings_are_words`).
//! - Both keep superblanks, and what they write is read on as lexical text
//!   (`first_keeps_superblanks`, `pretransfer_keeps_superblanks`, `first_is_read`,
//!   `pretransfer_is_read`).
//!
//! # Definitions to read first
//!
//! - `specs/Laws.antt`: `IsTakenApart`, `IsMoved`, `IsSplit`: by cases, how a word is taken apart.
//! - `specs/Splitting.antt`: `split`, `moved`, `parts`: the same as functions, by places.
//! - `specs/Passes.antt`: `first_pass`, `split_pass`: the passes over a whole text; `first_reading`
//!   and `split_unit`, what is written for a unit.
#![tactic(auto)]

mod first;
mod laws;
mod moving;
mod parts;
mod places;
mod pretransfer;
mod splitting;
mod units;

pub use first::{First, FirstWork};
pub use laws::{
    first_is_read, first_keeps_superblanks, first_readings_are_words, none_is_empty,
    nothing_is_lost, plain_words_stay, pretransfer_is_read, pretransfer_keeps_superblanks,
    split_words_are_words, tagless_words_stay, words_are_taken_apart,
};
pub use pretransfer::{Pretransfer, PretransferWork};
pub use splitting::split_word;
