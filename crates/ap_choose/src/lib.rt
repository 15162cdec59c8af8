//! The pass `choose`: it keeps one reading of each unit of an analysed text, so that no forbidden
//! pair of tags stands in a row.
//!
//! It may stand in the place of `first`, as a small tagger by rules: a file says which two tags
//! never stand in a row. A sentence ends with its first unit whose first reading holds the tag
//! `sent`, with its 1,000th unit, or with the text. Of all choices of one reading of each of its
//! units the least without a forbidden pair is written: that with the earlier reading at the first
//! unit where two differ.
//!
//! ```text
//! # a comment; an empty line says nothing either
//! det vblex
//! ```
//!
//! Readings whose first tags are `det` and `vblex` don't stand in a row, in this order.
//!
//! # Calls
//!
//! - `read_pairs`: the forbidden pairs that a text says; `PairRefusal`: its first line that is
//!   none, or want of memory.
//! - `Forbidden`, a list of pairs; `Pair`, two names of tags.
//! - `Choose`: the stage; `ChooseWork`: its handler, which holds the items of one sentence.
//!
//! # What is promised
//!
//! - A text is read as forbidden pairs exactly where each line has a form, as the pairs that it
//!   says, and is refused exactly at its first line without one (`read_pairs`).
//! - The choice of a sentence is the least: it has no forbidden pair, and of any other such choice
//!   the first unit where the two differ has a later reading; and where there is none, it is the
//!   first reading of each unit (`the_least_choice_is_taken`). This holds for every cut, with the
//!   limit on a sentence (`Choose`).
//! - Without pairs `choose` writes what `first` writes, where neither has a fault
//!   (`without_pairs_the_first_readings`).
//! - A reading can be the word of a lexical unit, where it isn't empty (`readings_are_words`).
//! - Superblanks are kept, and what is written is read on as lexical text
//!   (`choose_keeps_superblanks`, `choose_is_read`).
//!
//! A choice is found in one walk backwards over the units, which of their readings can go on to the
//! end, and one forwards; it tries no list of choices.
//!
//! # Definitions to read first
//!
//! - `specs/Choice.antt`: `choices`, `is_allowed`, `chosen_places`: all choices, and the one that
//!   is taken.
//! - `specs/Laws.antt`: `IsLeast`, `LeastIsChosen`: that it is the least.
//! - `specs/Sentences.antt`: `sentence_length`, `choose_step`, `chosen_text`: the sentence at the
//!   front of items, and a whole text.
//! - `specs/Pairs.antt`: `Says`, `AreSaid`, `IsFirstBad`: what the lines of a file say.
//! - `specs/Choosing.antt`: `viable`, `picked`: the two walks.
#![tactic(auto)]

mod chance;
mod choose;
mod choose_work;
mod choosing;
mod forbidden;
mod laws;
mod numbers;
mod reading;
mod sentence;

pub use choose::Choose;
pub use choose_work::ChooseWork;
pub use forbidden::{Forbidden, Pair, PairRefusal};
pub use laws::{
    choose_is_read, choose_keeps_superblanks, readings_are_words, the_least_choice_is_taken,
    without_pairs_the_first_readings,
};
pub use reading::read_pairs;
