//! The stream between the stages: its items, a reader for each dialect, pipes, and stages over
//! bytes.
//!
//! A text of the stream comes in pieces of any size, and what a stage writes must not depend on
//! where it was cut. That is proved here once, for every tool: a tool states what it gives for a
//! list of whole items, as a `Handler`, and `Staged` does everything with bytes. docs/HANDLERS.md
//! says how a handler is made.
//!
//! ```text
//! text     saw [<b>]^it/it<prn>$.        dialect Analysed
//! items    s  a  w  blank  unit  .       the blank is ` [<b>]`: white space and superblanks
//! bytes    1  1  1  6      12    1       side by side are one blank
//!
//! pieces --take--> Reader --items--> Handler (Queue) --turn--> pending --give--> Pipe
//!        \------ known by the bytes in front, no item made ---/
//!
//! Where a reader stands (`Level`, `Mode`), and what one character more shows (`effect`):
//!
//! Start    white space -> Blank    [ -> Inside    \ -> Escape, then any character: plain, escaped
//!          ^ -> Word, where the dialect has units or chunks
//!          another character: plain, or Stray where the dialect refuses it
//! Blank    white space -> Blank    [ -> Inside
//!          anything else: the blank is whole, and that byte begins the next item
//! Inside   of a superblank: ] -> Blank    \ -> InsideEscape -> Inside    else -> Inside
//! Word     \ -> WordEscape -> Word    < -> Tag, but not in a surface    symbol -> Word
//!          / -> the next Word, in dialects whose units have several    $ : the unit is whole
//!          { : the chunk's name is whole -> Part    EmptyWord or Stray where these may not stand
//! Tag      of the name -> Tag    > behind a name -> Word    else BadTag
//! Part     in a chunk: blanks and Lexical units, as above    } -> Closed, then $ : it is whole
//! ```
//!
//! # Calls
//!
//! - Texts: `Dialect`; `Item`, which is a `Character`, a `Blank`, a `Unit` or a `Chunk` with its
//!   `Content` of `Inner` parts; `Read`, an item with its place and its size.
//! - Reading: `Reader` with its `Fed`; `decode`, the character in front; `Names`, the tags that
//!   were read last. Writing: `write_item`, `append_item`, `push_superblanks`.
//! - Faults: `StreamFault` or `StageFault`: `MalformedKind`, `LimitKind`, memory.
//! - Stages: `Stage` with its `Finish`; `Staged`, a stage made of a handler; `Pipe`.
//! - Handlers: `Handler` with its `Turn`; `Queue`, the items that one holds; `Each` with a
//!   `UnitWriter`, which takes each item by itself. `Copies`, `ByUnit`, `ByRun` and `ByFront` with
//!   its `Front` need not take item by item; `is_bare`, bytes of which each is an item.
//! - Limits: `UNIT_MAX`, `SPAN_MAX`, `FRONT_MAX`, `ROOM_MAX`.
//!
//! # What is promised
//!
//! - A text in pieces of any size is read as exactly the items of the whole text, with its faults
//!   and their places (`Reader`); and a stage gives its handler's meaning of the whole text for
//!   every cut, within bounds (`Staged`).
//! - What is read as a unit or a chunk are the bytes of one, by the notation, and such bytes are
//!   read as it (`units_are_by_the_notation`, `chunks_are_by_the_notation`).
//! - What is written of a unit or a chunk is read back, and what is read of one can be written
//!   (`units_read_back`, `units_are_words`, `chunks_read_back`, `chunks_can_be_written`,
//!   `words_are_spelt`).
//! - A text has one list of superblanks, those in chunks too (`one_list_of_superblanks`,
//!   `superblanks_of_texts_joined`, `read_texts_have_superblanks`, `superblanks_are_scanned`).
//! - A tool that takes each item by itself and makes no superblank of a unit keeps those of the
//!   text, and two such tools do (`each_item_keeps_superblanks`, `superblanks_are_kept_twice`).
//! - A text that is answered malformed has a first wrong byte, with which no text of the dialect
//!   goes on, or is unfinished (`malformed_texts_are_wrong`).
//! - A text of whole pieces is read to its end, or to an item over the limit, and such a tool
//!   writes one (`pieces_are_read`, `each_gives_pieces`). The limits are these numbers (`limits`).
//!
//! # Definitions to read first
//!
//! - `specs/Notation.antt`: `IsPlain`, `IsSuperblank`, `IsBlankText`, `IsUnitText`, `IsChunkText`:
//!   what a character, a superblank, a blank, a unit of each dialect and a chunk are, over the whole
//!   of their bytes.
//! - `specs/Pieces.antt`: `IsPiece`, `HasSuperblanks`: a text as a row of pieces, and its
//!   superblanks.
//! - `specs/Reading.antt`: `reads`, `first`, `last`: the items of a text, and what stops it, byte by
//!   byte as the code goes; `specs/Units.antt`: `rest`, and `specs/Chunks.antt`: `body`: the same
//!   of units and chunks.
//! - `specs/Told.antt`: `Told`, and `specs/Rest.antt`: `rest_of`: what is still to come of a stage.
//! - `specs/ReadOn.antt`: `IsReadOn`, `Links`: a stage whose text the next one reads.
#![tactic(auto)]

mod blank;
mod chunks;
mod copying;
mod crossing;
/// The character at the front of bytes that may go on.
pub mod decode;
mod dialect;
mod each;
mod effects;
mod examine;
mod fault;
mod front;
mod handler;
mod item;
mod kept_units;
mod laws;
mod level;
mod names;
mod pipe;
mod plain;
mod queue;
mod reader;
mod stage;
mod staged;
mod supers;
mod unit;
mod whole;
mod words;
mod write;

pub use blank::Blank;
pub use copying::{ByUnit, Copies};
pub use dialect::Dialect;
pub use each::{Each, UnitWriter};
pub use fault::{LimitKind, MalformedKind, StageFault, StreamFault};
pub use front::{ByFront, Front, is_bare};
pub use handler::{ByRun, Handler, Turn};
pub use item::{Character, Chunk, Content, Inner, Item, Read};
pub use laws::{
    chunks_are_by_the_notation, chunks_can_be_written, chunks_read_back, each_gives_pieces,
    each_item_keeps_superblanks, limits, malformed_texts_are_wrong, one_list_of_superblanks,
    pieces_are_read, read_texts_have_superblanks, superblanks_are_kept_twice,
    superblanks_are_scanned, superblanks_of_texts_joined, units_are_by_the_notation,
    units_are_words, units_read_back, words_are_spelt,
};
pub use names::Names;
pub use pipe::Pipe;
pub use queue::Queue;
pub use reader::{Fed, Reader};
pub use stage::{Finish, Stage};
pub use staged::Staged;
pub use supers::push_superblanks;
pub use unit::Unit;
pub use write::{append_item, write_item};

/// The most bytes that one unit, blank or chunk of a stream may have.
pub const UNIT_MAX: usize = 4_194_304;

/// The most bytes of input that are held for one match, and the most bytes that one rule gives.
pub const SPAN_MAX: usize = 16_777_216;

/// The most bytes that one step gives that is known by its bytes.
pub const FRONT_MAX: usize = 4_096;

/// The most bytes that one pipe may hold.
pub const ROOM_MAX: usize = 1_048_576;
