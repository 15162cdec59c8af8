//! Dictionaries: their values, what their entries derive, and the reader of a dictionary file.
//!
//! A dictionary file (`.dix`) is read as a value: its alphabet, its paradigms and its sections, in
//! the order of the file, with a number in place of each paradigm's name. What an entry means is
//! said here too, as the label strings that it derives; `ap_compile` makes transducers of these,
//! and `ap_expand` lists them as lines.
//!
//! # Calls
//!
//! - `read_dictionary`: reads a dictionary file.
//! - Refusals: `DixRefusal`, with a `DixFault`: its `DixKind` by number and name, and its line.
//! - The value: `Dictionary`; `Section`, with its `Kind`; `Pardef`, a paradigm; `Entry`, with its
//!   `Side`; `EntryPart`: one word on both sides, a pair of words, a paradigm by number, or an
//!   expression. `Sections`, `Pardefs`, `Entries` and `EntryParts` are lists of these.
//! - `Direction`, and `Side::takes`, whether an entry is kept in a direction (`r="LR"`, `r="RL"`).
//! - Expressions of the element `re`: `Expression`, which contracts see as a plain tree; `Expr`,
//!   `Exprs`, `Range` and `Ranges`, the tree of the code.
//!
//! # What is promised
//!
//! - A text is read as a dictionary exactly where the grammar of the notation spells from it a tree
//!   without fault, and as that tree's dictionary (`reads_what_the_grammar_spells`, `spells_one`).
//! - It is refused exactly for its first wrong byte or piece, or for the least of its tree's
//!   faults, by place and then by number (`refuses_by_the_first_fault`, `has_one_fault`,
//!   `spells_without_fault`).
//! - What is read is sound: paradigms name those above them alone, and no word holds a mark that it
//!   may not (`spells_is_sound`).
//! - An expression is read exactly where its text spells one by the grammar, and as that one
//!   (`expression_is_spelled`, `spells_one_expression`).
//!
//! # Definitions to read first
//!
//! - `specs/Derivation.antt`: `Derives`, `Strings`, `Relates`: the label strings of entries and of
//!   a kind of section, and the pairs of words that they relate; `is_kept`, which entries a
//!   direction keeps.
//! - `specs/Sentences.antt`: `SpellsDictionary`, `IsRefusedFor`: what a text says as a dictionary.
//! - `specs/Mistakes.antt`: `IsMistake`: the faults of names, expressions, weights and extensions.
//! - `specs/Soundness.antt`: `IsSound`: what holds of each dictionary that is read.
//! - `specs/Value.antt`: `dictionary`: the dictionary that a tree spells.
//! - `specs/Grammar.antt`: `SpellsExpr`, and `specs/Language.antt`: `Lang`: how an expression is
//!   written, and its strings.
#![tactic(auto)]

mod dictionary;
mod entries;
mod expr;
mod expression;
mod expressions;
mod faults;
mod laws;
mod pardefs;
mod pieces;
mod reading;
mod refusal;
mod sections;
mod stages;
mod tokens;
mod words;

pub use dictionary::{
    Dictionary, Direction, Entries, Entry, EntryPart, EntryParts, Kind, Pardef, Pardefs, Section,
    Sections, Side,
};
pub use expr::{Expr, Exprs, Range, Ranges};
pub use expression::Expression;
pub use laws::{
    expression_is_spelled, has_one_fault, reads_what_the_grammar_spells,
    refuses_by_the_first_fault, spells_is_sound, spells_one, spells_one_expression,
    spells_without_fault,
};
pub use reading::read_dictionary;
pub use refusal::{DixFault, DixKind, DixRefusal};
