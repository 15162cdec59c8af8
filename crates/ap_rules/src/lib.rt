//! Rule files: the trees of rules, and the reader of a rule file.
//!
//! The three forms of rule files, for transfer (`.t1x`), interchunk (`.t2x`) and postchunk
//! (`.t3x`), are read as one kind of value, `Rules`: what the sections define, and the rules, in
//! the order of the file, with a number in place of each name. What a rule does is said and
//! computed in `ap_exec`; which rule is chosen, in `ap_chunk`.
//!
//! # Calls
//!
//! - `read_rules`: reads a rule file of a `Form`.
//! - Refusals: `RuleRefusal`, with a `RuleFault`: its `RuleKind` by number and name, and its line.
//! - The file: `Rules`; `DefaultPiece`, how transfer writes a unit that no rule takes.
//! - What sections define: `DefCat` and `CatItem`, categories; `DefAttr` and `AttrItem`,
//!   attributes; `DefVar`; `DefList` and `ListItem`; `DefMacro`.
//! - Rules: `Rule` and `PatternItem`.
//! - Statements: `Statement`: `Let`, `ModifyCase`, `Append`, `Out`, `CallMacro`, `Choose` with its
//!   `When`; `Place`, what a statement may set.
//! - Conditions: `Condition`: `And`, `Or`, `Not`, `Comparison`, `Membership`.
//! - Values: `Value`: `Clip` with its `Side` and `ClipPart`, `Lit`, `LitTag`, `Var`, `B`, `CaseOf`,
//!   `GetCaseFrom`, `Concat`.
//! - Pieces of an output: `Piece`: `Lu`, `Mlu`, `Chunk` with its `ChunkPiece` and `Tag`,
//!   `ValueChunk`.
//!
//! # What is promised
//!
//! - A text is read as a rule file of a form exactly where the grammar spells from it a tree
//!   without fault, and as that tree's rules (`reads_what_the_grammar_spells`, `spells_one`).
//! - It is refused exactly for its first wrong byte or piece, or for the least fault of its tree,
//!   by place and then by number (`refuses_by_the_first_fault`, `has_one_fault`,
//!   `spells_without_fault`).
//! - Every tree without fault is some rules by the table, each element by its row and none passed
//!   over; it is read as these rules and no others (`reads_each_row`).
//! - The rules are sound: each number is that of something defined, a macro calls those above it
//!   alone, positions and lengths are those that may be (`spells_is_sound`).
//! - The words of what a text spells are words of the program (`spells_words`).
//!
//! # Definitions to read first
//!
//! - `specs/Plain.antt`: `PlainRules`, `PlainStatement`, `PlainCondition`, `PlainValue`,
//!   `PlainPiece`: rules as plain trees, of which all contracts speak.
//! - `specs/SectionRows.antt`: `AreRules`: which rules some elements are, one case for each row of
//!   the table; beside it `specs/StatementRows.antt`, `specs/ConditionRows.antt`,
//!   `specs/ValueRows.antt` and `specs/PieceRows.antt`.
//! - `specs/Sentences.antt`: `SpellsRules`, `IsRefusedFor`: what a text says as a rule file.
//! - `specs/Mistakes.antt`: `IsMistake`, and `specs/Faults.antt`: `is_undefined`, `has_bad_tags`,
//!   `has_bad_length`, `is_misused`: each fault by its sentence.
//! - `specs/Soundness.antt`: `IsSound`, and `specs/Worded.antt`: `AreWorded`: what holds of each
//!   file that is read.
#![tactic(auto)]

mod attribute;
mod children;
mod condition;
mod conditions;
mod defined;
mod faults;
mod laws;
mod piece;
mod pieces;
mod reading;
mod refusal;
mod rules;
mod sections;
mod statement;
mod statements;
mod texts;
mod value;
mod values;

pub use attribute::{AttrItem, DefAttr};
pub use condition::{And, Comparison, Condition, Membership, Not, Or};
pub use laws::{
    has_one_fault, reads_each_row, reads_what_the_grammar_spells, refuses_by_the_first_fault,
    spells_is_sound, spells_one, spells_without_fault, spells_words,
};
pub use piece::{Chunk, ChunkPiece, Lu, Mlu, Piece, Tag, ValueChunk};
pub use reading::read_rules;
pub use refusal::{RuleFault, RuleKind, RuleRefusal};
pub use rules::{
    CatItem, DefCat, DefList, DefMacro, DefVar, DefaultPiece, Form, ListItem, PatternItem, Rule,
    Rules,
};
pub use statement::{Append, CallMacro, Choose, Let, ModifyCase, Out, Place, Statement, When};
pub use value::{B, CaseOf, Clip, ClipPart, Concat, GetCaseFrom, Lit, LitTag, Side, Value, Var};
