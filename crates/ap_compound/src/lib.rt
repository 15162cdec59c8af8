//! Unknown words explained as compounds: a surface that no entry reads is split into words of which
//! the dictionary says that they may be parts of one.
//!
//! Right words of the dictionary bear the tag `compound-only-L`, for a part that stands in a
//! compound alone and never last, or `compound-R`, for one that may end a compound; the rule is
//! this program's own. A unit whose only reading is `*` and its surface gets the readings of the
//! splits with the fewest parts, two or more, joined by `+`; every other item is copied.
//!
//! # Calls
//!
//! - `Compounds`: the stage; `Compounds::readings`: the readings of one surface as a compound.
//! - `CompoundsWork`: its handler.
//! - `plain`: a dictionary as words alone are looked up in it, without the pairs that are for
//!   compounds alone and without the tag of right parts. Analysis before this stage goes by it.
//!
//! # What is promised
//!
//! - The readings of a surface stand in the order of words, each once; a word is among them exactly
//!   where the surface has letters alone, at most 256, and the word is that of a split of the
//!   surface into two parts or more of the dictionary, and no such split has fewer parts
//!   (`readings_are_exact`).
//! - Of a dictionary exactly the pairs are left that aren't left parts of compounds alone, with the
//!   tag of right parts left out (`plain`).
//! - A text is explained exactly for every cut, with the limit on a unit (`Compounds`).
//! - By a lexicon whose right words can be written, superblanks are kept, and what is written is
//!   read on as analysed text (`compound_keeps_superblanks`, `compound_is_read`).
//!
//! # Definitions to read first
//!
//! - `specs/Laws.antt`: `IsPart`, `IsSplitOf`, `IsFewestOf`, `IsCompoundReading`: by the pairs of a
//!   dictionary.
//! - `specs/Splits.antt`: `splits`, `fewest`, `compound_readings`: the same as functions of a
//!   lexicon.
//! - `specs/Tags.antt`: `left_tag`, `right_tag`, `without`: the two tags, and words without one.
//! - `specs/Plain.antt`: `IsPlainOf`: the dictionary without what is for compounds.
//! - `specs/Works.antt`: `explained`, `compounds_text`: what is written of a unit, and of a whole
//!   text.
//! - `specs/Places.antt`: `IsExplored`: what is known of the places of a surface.
#![tactic(auto)]

mod compounds;
mod compounds_work;
mod copying;
mod dictionary;
mod explainer;
mod exploring;
mod laws;
mod listing;
mod place;
mod reading;
mod rows;
mod tags;
mod unknown;

pub use compounds::Compounds;
pub use compounds_work::CompoundsWork;
pub use dictionary::plain;
pub use laws::{compound_is_read, compound_keeps_superblanks, readings_are_exact};
