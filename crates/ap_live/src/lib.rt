//! Live sets: the ways along which the inputs so far lead in a transducer, and the outputs of those
//! that end at a final state; those of the four sections of a compiled dictionary, and the lexicon
//! that they are of.
//!
//! Every look-up walks here: analysis by the letters of a text, bilingual lookup and generation by
//! the symbols of a word. A live set takes one input at a time, tells whether a word ends there or
//! can go on, gives the right words, and goes back.
//!
//! ```text
//! saw -> saw<n><sg> and saw -> see<vblex><past>, compiled; each edge has a place:
//!
//!    0  s:s  1    place 0          4   :<n>      6   place 5
//!    1  a:a  2          1          5   :<vblex>  7         6
//!    1  a:e  3          2          6   :<sg>     8         7
//!    2  w:w  4          3          7   :<past>   8         8     8 is final
//!    3  w:e  5          4
//!
//! way       a path that the inputs lead along, as places of edges, the last first:
//!           after `saw` one is 7 5 3 1 0, another 8 6 4 2 0. Edges that read nothing are in it.
//! node      a way in a live set: its state, the place of its last edge, and the node of the way
//!           before that edge. Node 0 is the start. Read back from a node at a final state, the
//!           right sides are the output, its last symbol first.
//! trail     the nodes of all ways, for each number of inputs from none on, those of more inputs
//!           behind those of fewer, and where each begin: after `saw` at 0, 1, 2 and 4, of 10.
//! link      an `Arrival`: a state that was reached, and the place of an edge by which it was.
//! row       the states reached after so many inputs, each once, the links that took the last
//!           input, those that read nothing, and whether a state is final. After `saw`: states
//!           4 5 6 7 8; taken 4 by 3, 5 by 4; silent 6 by 5, 7 by 6, 8 by 7, 8 by 8; final.
//! ways      a trail as long as the ways are few; from then on rows, which are as many as states
//!           however many ways lead to these. Cut back to fewer inputs, the trail goes on.
//! outline   the transducer in little room: for each state the place of its first edge, and bits
//!           that tell which small letters its edges may have on the left; for each edge codes of
//!           its two sides, and the state that it enters. Most letters are found by it alone.
//! ```
//!
//! # Calls
//!
//! - `Live`: a live set of one transducer: `start`, `step`, `cut`, `is_dead`, `accepts`, `finals`,
//!   `render_only`.
//! - `SectionLive`, `LiveSections`: the same of one section and of all four, where a section that
//!   accepts nothing costs nothing: `reads`, `reads_any`, `readings`.
//! - `Walked`: what earlier walks met, so that a later one need not go on where it is in the same
//!   states: `new`, `note`, `meets`, `pass`, `forget`.
//! - Right words: `any_readings` and `push_kind`, with the case of `case_carried`; `push_some`, some
//!   of them alone where there may be very many; `any_readings_within` and `are_told_longer`, by
//!   which words that are too long are told from some of them; `least_readings`, the least of them
//!   without all others; `sort_words`, words in order, each once; `writes_words`, whether right
//!   sides hold no white space.
//! - Laws that look at a dictionary: `words_are_readable`, `compiled_has_a_lexicon`,
//!   `sides_are_proper`.
//!
//! # What is promised
//!
//! - In a transducer without a cycle of edges that read nothing, whose right sides are proper, a
//!   live set has after any inputs exactly the outputs of the paths that fit them, in order, each
//!   once (`outputs_law`); in such a one that is trimmed it is dead exactly where the inputs fit no
//!   beginning of a left word (`viable_law`).
//! - Walks that are in the same states of each section go on alike (`Walked::meets`).
//! - The lexicon of a compiled dictionary is that of what its sections accept
//!   (`compiled_have_lexicons`, `compiled_has_a_lexicon`); a relation has one lexicon at most, and
//!   equal relations have the same (`one_lexicon`, `same_relation_same_lexicon`).
//! - The right words of every compiled dictionary can be written in a unit and are read again as
//!   they are written (`words_are_readable`); its right sides are proper (`sides_are_proper`).
//!
//! # Definitions to read first
//!
//! - `specs/Fitting.antt`: `Input`, `fits_inputs`: inputs with their flag for case.
//! - `specs/Outputs.antt`: `IsOutput`, `FitBeginning`: what a live set answers.
//! - `specs/Lexicon.antt`: `Lexicon`, `IsLexiconOf`: what a dictionary says of symbols.
//! - `specs/Walks.antt`: `GoAlike`, `IsWalked`: what earlier walks met.
//! - `specs/Trails.antt`: `Way`, `IsTrail`; `specs/Rows.antt`: `AreLiveRows`;
//!   `specs/Outlines.antt`: `IsOutline`; `specs/Lives.antt`: `IsLive`: the picture above.
#![tactic(auto)]

mod along;
mod arrivals;
mod backward;
mod held;
mod items;
mod laws;
mod least_ways;
mod lexicon_laws;
mod live;
mod live_rows;
mod live_sections;
mod met;
mod node_rows;
mod nodes;
mod notes;
mod only;
mod outline;
mod picking;
mod readable;
mod readings;
mod rows;
mod section_live;
mod some_ways;
mod states;
mod taken;
mod trail;
mod walked;
mod ways;
mod wording;

pub use laws::{outputs_law, viable_law};
pub use lexicon_laws::{
    compiled_has_a_lexicon, compiled_have_lexicons, one_lexicon, same_relation_same_lexicon,
    sides_are_proper,
};
pub use live::Live;
pub use live_sections::LiveSections;
pub use readable::words_are_readable;
pub use readings::{
    any_readings, any_readings_within, are_told_longer, case_carried, least_readings, push_kind,
    push_some,
};
pub use section_live::SectionLive;
pub use walked::Walked;
pub use wording::{sort_words, writes_words};
