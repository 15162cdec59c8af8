//! Trimming of an analyser: what a bilingual dictionary can translate is left.
//!
//! Where an analyser knows a word that the bilingual dictionary doesn't, the word comes out with an
//! `@`. `lt-trim` takes such analyses away; this crate does it too, by a rule of its own. An
//! analysis stays where its right word holds a join or the queue of a multiword, or where
//! translation by the bilingual dictionary takes a prefix of it, where a small letter of a
//! dictionary fits its capital too.
//!
//! # Calls
//!
//! - `trim_by`: what of an analyser a bilingual dictionary can translate; both are values
//!   `Compiled` of `ap_fst`.
//!
//! # What is promised
//!
//! - Of the analyser exactly those label strings are left whose right word is kept by the rule.
//!   Each section is the canonical transducer of these, and the alphabet and the direction are the
//!   analyser's (`trim_by`).
//! - There is one such value (`trimmed_is_one`), and no transducer with at most one edge per state
//!   and label that accepts what is left of a kind of section has fewer states
//!   (`trimmed_is_least`).
//! - Of two analysers that have the same letters and one direction, and whose sections accept the
//!   same label strings in each kind, the same is left, by bilingual dictionaries that relate the
//!   same words (`same_is_left_of_the_same`).
//!
//! # How it is done
//!
//! An analyser is read together with what is known of its right word so far: whether it holds a
//! join or a queue, and where in the bilingual dictionary it stands. Pairs of a state and of what
//! is known are numbered as they are met: the product of automata. Then it is determinised and
//! minimised.
//!
//! # Definitions to read first
//!
//! - `specs/Trimming.antt`: `is_kept`, `IsTrimmedBy`: which right words are kept, and what is left;
//!   `SameLeaveSame`, `IsLeastFor`: the laws.
//! - `ap_lookup/specs/Translation.antt`: `prefix`: which prefix of a word translation takes.
//! - `specs/Reading.antt`: `Reads`, `ReadsWhole`: what of a word a transducer reads.
//! - `specs/Watching.antt`: `Sees`, `IsGood`: what is known of a right word so far.
//! - `specs/Stepping.antt`: `StepsTo`, and `specs/Products.antt`: `AreProduct`: one symbol more,
//!   and the pairs.
#![tactic(auto)]

mod closing;
mod laws;
mod pairs;
mod product;
mod reading;
mod sets;
mod states;
mod stepping;
mod trimming;
mod union;
mod watch;

pub use laws::{same_is_left_of_the_same, trimmed_is_least, trimmed_is_one};
pub use trimming::trim_by;
