//! Look-ups of words: their translations by a bilingual dictionary, and the forms that a dictionary
//! gives them; and the stages that look up the units of a text.
//!
//! These are three modes of `lt-proc`: bilingual lookup (`-b`), generation (`-g`, `-n`, `-d`) and
//! post-generation (`-p`). The first two take each unit by itself; the third looks on from an
//! alarm, the `~` before a form, over several items.
//!
//! # Calls
//!
//! - Translation: `translate`, of one word; `Translator`, of word after word, with live sets kept
//!   between; `Translation`, its heads and the symbols left over.
//! - Bilingual lookup: `Bilingual`, the stage; `BilingualWork`, its handler; `BilingualWriter`,
//!   what is written for one word.
//! - Generation: `Generation`, `GenerationWork`, `GenerationWriter`; `Marks`, how a word without a
//!   form is written.
//! - Post-generation: `PostGeneration`, `PostGenerationWork`.
//! - `WordWriter`, what a look-up writes for one word, and `ByWord`, which makes a `UnitWriter` of
//!   it.
//!
//! # What is promised
//!
//! - Of the prefixes of a word that hold its whole lemma and fit a left word the longest is taken;
//!   heads stand in order, each once; there is none exactly where no prefix is taken
//!   (`longest_prefix_is_taken`).
//! - By a compiled dictionary a word is a head exactly where some pair of any kind has a left word
//!   that fits that prefix, with the lemma's case (`heads_are_exact`).
//! - A word is a form of a unit's word exactly where some pair of any kind has a left word that
//!   fits the whole of it, with the lemma's case; forms stand in order, each once
//!   (`forms_are_exact`).
//! - Behind an alarm the greatest number of symbols that fit a left word is taken, where what must
//!   be seen together is within the limit; where none fits, the alarm alone is left out
//!   (`greatest_match_is_taken`). Of the right words of the match, with its case, the least is
//!   written (`least_word_is_written`).
//! - All three are exact for every cut, with the marks, slots and limits of their definitions.
//! - By a lexicon whose right words can be written, superblanks are kept
//!   (`bilingual_keeps_superblanks`, `generation_keeps_superblanks`,
//!   `post_generation_keeps_superblanks`), and what is written is read on (`bilingual_is_read`,
//!   `generation_is_read`, `post_generation_is_read`).
//!
//! # Definitions to read first
//!
//! - `specs/Exactly.antt`: `IsTranslation`, `FormsAreExact`, `IsGreatestMatch`, `IsLeastWord`: by
//!   cases, over the pairs of words that a dictionary relates.
//! - `specs/Translation.antt`: `translation`, `prefix`, `lemma`: the heads of a word as a function
//!   of a lexicon.
//! - `specs/Lookup.antt`: `bilingual`, `generated`, `formless`: what is written for a word, with
//!   its marks.
//! - `specs/PostGenerating.antt`: `post_step`, `is_alarm`: what post-generation does at the front
//!   of items.
//! - `specs/Works.antt`: `bilingual_text`, `generated_text`; `specs/PostWorks.antt`:
//!   `post_generated_text`: the same of whole texts.
#![tactic(auto)]

mod agreement;
mod bilingual;
mod bilingual_work;
mod bilingual_writer;
mod by_word;
mod generation;
mod generation_work;
mod generation_writer;
mod laws;
mod post_generation;
mod post_generation_work;
mod post_search;
mod post_writing;
mod translation;
mod translator;
mod word_writer;

pub use bilingual::Bilingual;
pub use bilingual_work::BilingualWork;
pub use bilingual_writer::BilingualWriter;
pub use by_word::ByWord;
pub use generation::Generation;
pub use generation_work::GenerationWork;
pub use generation_writer::{GenerationWriter, Marks};
pub use laws::{
    bilingual_is_read, bilingual_keeps_superblanks, forms_are_exact, generation_is_read,
    generation_keeps_superblanks, greatest_match_is_taken, heads_are_exact, least_word_is_written,
    longest_prefix_is_taken, post_generation_is_read, post_generation_keeps_superblanks,
};
pub use post_generation::PostGeneration;
pub use post_generation_work::PostGenerationWork;
pub use translation::{Translation, translate};
pub use translator::Translator;
pub use word_writer::WordWriter;
