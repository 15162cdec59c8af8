//! Dictionaries made into transducers whose label strings are those that the entries derive.
//!
//! This is what `lt-comp` does: entries that a direction keeps (`r="LR"`, `r="RL"`, `i="yes"`) are
//! joined, paradigms are put in, and each kind of section becomes one transducer. An analyser is
//! compiled from left to right, a generator from right to left; the side that is read is always the
//! left side of the result.
//!
//! # Calls
//!
//! - `compile`: a dictionary as a `Compiled` of `ap_fst`, in a direction: four transducers, the
//!   alphabet closed under case partners, and the direction.
//! - `CompileRefusal`: `EmptySide`, with the line of the first kept entry that derives an empty
//!   input side; or want of memory.
//!
//! # What is promised
//!
//! - Each of the four transducers is the canonical one of exactly the label strings that the kept
//!   entries of its sections derive in the direction (`compile`).
//! - An entry with an empty input side is refused, at the first such line (`compile`).
//! - Two dictionaries that derive the same label strings in each kind of section, and whose
//!   alphabets have one closure under case partners, are compiled to equal values in one direction
//!   (`same_strings_same_compiled`).
//! - No transducer with at most one edge per state and label that accepts what a kind of section
//!   derives has fewer states (`compiled_is_least`).
//! - Of time and memory nothing is promised. Each paradigm that is used is made canonical once, and
//!   let go after its last use; entries whose last parts agree share one draft of each of these
//!   parts.
//!
//! # Definitions to read first
//!
//! - `ap_dix/specs/Derivation.antt`: `Derives`, `Strings`: what entries derive, before any
//!   transducer.
//! - `specs/Compiling.antt`: `IsCompiledFrom`, `AcceptsStrings`, `AreCanonical`: what a dictionary
//!   is compiled to; `HaveSameStrings`, `HaveOneClosure`: when two are compiled to one value.
//! - `specs/Empties.antt`: `IsFirstEmpty`, `HasEmptyEntry`: the first entry with an empty input
//!   side.
//! - `specs/Gatherings.antt`: `Gathers`: entries gathered by the parts that they end with.
//! - `specs/LastUses.antt`: `AreLastUses`, `AreDraftsTo`: until when the draft of a paradigm is there.
//! - `ap_min/specs/Canonical.antt`: `IsCanonical`: the one transducer of its label strings.
#![tactic(auto)]

mod alphabet;
mod compiling;
mod drafts;
mod empties;
mod expressions;
mod gathering;
mod last_uses;
mod laws;
mod paradigms;
mod places;
mod sections;
mod small;

pub use compiling::{CompileRefusal, compile};
pub use laws::{compiled_is_least, same_strings_same_compiled};
