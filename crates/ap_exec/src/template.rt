use ap_stream::Blank;
use ap_symbol::{Sequence, Word};

/// A part of an output: a unit, a slot for a blank of the match, or one space.
#[derive(Debug, Drop)]
pub enum Atom {
    Unit(Word),
    Slot,
    Space,
}

/// The atoms of a chunk, in order.
pub type Atoms = Sequence<Atom>;

/// A piece of an output: an atom, or a chunk with its name and its tags, and the atoms in it.
#[derive(Debug, Drop)]
pub enum Piece {
    Atom(Atom),
    Chunk(Word, Atoms),
}

/// What a rule writes, before its slots are filled: its pieces, in order.
pub type Template = Sequence<Piece>;

/// The blanks of a match, in order.
pub type Blanks = Sequence<Blank>;
