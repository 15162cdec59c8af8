//! What a rule does to the units that it matches: its template, and the template with its slots
//! filled.
//!
//! `ap_chunk` finds the rule and the match; this crate runs it. The statements of the rule are run
//! in document order, macros with the units that they are given; what comes out is a template, the
//! pieces of the output with slots for blanks, and new values of the variables. Then the slots are
//! filled with the blanks of the match, in order.
//!
//! # Calls
//!
//! - What a rule is run on: `Matched` and `MatchedUnits`, each a `MatchedUnit`; `Vars`, what
//!   variables hold, from `Vars::start` on.
//! - `act`: what a rule does to a match. It gives a `Template` of `Piece`, each an `Atom` or a
//!   chunk with its `Atoms`.
//! - `fill`: the text of a template, by the `Blanks` of the match.
//! - `ExecRefusal`: a value or the output is too long, or want of memory.
//! - The same without copies, which the stages use: `act_lent` and `fill_lent`, over `Lent` units
//!   of `Held` words and `Divided` ones; `LentTemplate`, `LentPiece`, `LentAtom`, `LentAtoms`,
//!   `LentWord`; `let_go` and `Spare`, the room of words that nothing holds any longer.
//!
//! # What is promised
//!
//! - What a rule does is given by recursion on the rule's tree, in document order; its template and
//!   the variables are exactly these, with exactly when each of its two limits comes; after a
//!   refusal the variables are as before (`act`, `act_lent`).
//! - The slots of a template are filled by the blanks of the match, in order, exactly, with its
//!   limit (`fill`, `fill_lent`); a filled template spells its units, blanks and chunks, and its
//!   superblanks are those of the blanks, in order (`filling_keeps_superblanks`).
//! - Words are compared as lists of symbols, lowered where case doesn't count
//!   (`words_are_compared`).
//! - What is written to a part of a word is read there, by a condition on the value for each part;
//!   it stands at the stretch that was written over, what stands around it stays, and so does the
//!   other side of a border between head and queue (`written_parts_are_read`).
//! - Statements add pieces, and the limit on an output counts the bytes of these
//!   (`pieces_are_counted`).
//! - Of words of the program a rule makes such words alone (`running_keeps_words`); sound rules
//!   give chunks where they make chunks, and else units (`sound_rules_give`).
//! - Where no clip leaves out a queue, a rule does the same wherever these borders stand
//!   (`borders_do_not_matter`).
//!
//! # Definitions to read first
//!
//! - `specs/Acting.antt`: `act_of`: what a rule does to a match and the variables.
//! - `specs/Running.antt`: `run`, `macros_below`, `placed`: what statements do.
//! - `specs/Values.antt`: `value_of`, and `specs/Parts.antt`: `clip_of`, `span_of`: what values and
//!   clips give.
//! - `specs/Conditions.antt`: `holds`, and `specs/Comparing.antt`: `compared`: whether a condition
//!   holds.
//! - `specs/Writing.antt`: `written`: writing to a part of a unit.
//! - `specs/Pieces.antt`: `piece_of`, and `specs/Filling.antt`: `fill_of`: outputs, and slots.
//! - `ap_rules/specs/Plain.antt`: `PlainRules`: the trees that all this goes over.
#![tactic(auto)]

mod acting;
mod beginning;
mod border_laws;
mod changes;
mod clips;
mod comparing;
mod conditions;
mod divided;
mod filling;
mod filling_laws;
mod lending;
mod lent;
mod lent_template;
mod matched;
mod output;
mod pieces;
mod recasing;
mod refusal;
mod running;
mod running_laws;
mod size_laws;
mod sizes;
mod spare;
mod stack;
mod state;
mod template;
mod values;
mod vars;
mod word_laws;
mod writing;

pub use acting::{act, act_lent};
pub use border_laws::borders_do_not_matter;
pub use divided::Divided;
pub use filling::{fill, fill_lent};
pub use filling_laws::filling_keeps_superblanks;
pub use lent::{Held, Lent};
pub use lent_template::{LentAtom, LentAtoms, LentPiece, LentTemplate, LentWord, let_go};
pub use matched::{Matched, MatchedUnit, MatchedUnits};
pub use refusal::ExecRefusal;
pub use running_laws::{running_keeps_words, sound_rules_give};
pub use size_laws::pieces_are_counted;
pub use spare::Spare;
pub use template::{Atom, Atoms, Blanks, Piece, Template};
pub use vars::Vars;
pub use word_laws::{words_are_compared, written_parts_are_read};
