//! Plain texts: `destxt` makes a text of the stream of one, and `retxt` makes one of a text of the
//! stream.
//!
//! A deformatter and a reformatter for text without markup. `destxt` writes the characters that
//! mean something in the stream behind a backslash, and puts each run of white space that is not
//! one space into a superblank, so that line breaks go through the stages untouched; `retxt` takes
//! both away again. `text` is `run` with the two around it.
//!
//! ```text
//! a plain text    The "dog" <runs>.      with a line feed and two spaces behind `The`
//! destxt          The[..]"dog" \<runs\>.     .. is the white space as it was
//! ```
//!
//! # Calls
//!
//! - `Destxt`: the stage that makes a text of the stream.
//! - `Retxt`: the stage that makes a plain text.
//!
//! # What is promised
//!
//! - A plain text is made a text of the stream for every cut, with its first fault exactly: a byte
//!   that begins no character, a character that the end cuts, or a run of white space that is too
//!   long (`Destxt`).
//! - A text in UTF-8 without such a run comes back: of what `destxt` makes of it `retxt` makes that
//!   text (`plain_text_comes_back`).
//! - What `destxt` writes, up to its fault where it has one, is read as raw text to its end
//!   (`destxt_is_read`).
//! - Where `retxt` finds no fault, each character is given without its escape, and of each blank
//!   its white space and what stands bare or behind a backslash in its superblanks
//!   (`retxt_gives_bare_text`); of a blank nothing else is written (`bare_blanks_are_exact`).
//!
//! # Definitions to read first
//!
//! - `specs/Laws.antt`: `IsPlainText`, `ComesBack`, `GivesBare`: which texts come back, and what is
//!   given.
//! - `specs/BareTexts.antt`: `IsBareText`, `IsBareBlank`: by cases, what is kept of a generated
//!   text and of a blank.
//! - `specs/Pieces.antt`: `pieces_of`, `run_max`: the runs of white space and the characters of a
//!   plain text.
//! - `specs/Deformatted.antt`: `des_text`, and `specs/Reformatted.antt`: `ret_text`: the two stages
//!   over whole texts.
#![tactic(auto)]

mod blanks;
mod copied;
mod cutter;
mod deformat;
mod given;
mod items;
mod laws;
mod reformat;
mod reformatter;

pub use deformat::Destxt;
pub use laws::{
    bare_blanks_are_exact, destxt_is_read, plain_text_comes_back, retxt_gives_bare_text,
};
pub use reformat::Retxt;
