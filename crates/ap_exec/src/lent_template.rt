//! What a rule writes, before its slots are filled, with the words of the match as they stand
//! there.
ghost use Rattle.std.specs.Prelude.{◌≡◌, ◌↔◌, [], IsTrue, IfOk, IfSome};
ghost use Rattle.ap_symbol.specs.Kinds.{first_word};
ghost use Rattle.ap_symbol.specs.Rendering.{rendering};
ghost use Rattle.ap_exec.specs.declared.template.Atom.TheVariants as atom;
ghost use Rattle.ap_exec.specs.declared.template.Piece.TheVariants as piece;

use crate::spare::Spare;
use ap_stream::{Names, Unit};
use ap_symbol::{Memory, Sequence, Word};
use std::alloc::Global;
use std::marker::Model;

/// How a word is held: made, lent, or as the first word of a unit, whose bytes these are.
#[derive(Debug, Drop)]
pub(crate) enum Wording<'a> {
    Made(Word),
    Lent(&'a Word),
    First(&'a Unit, &'a [u8]),
}

/// A word that a rule writes: one that it made, or one that was there before.
#[derive(Debug, Drop)]
pub struct LentWord<'a> {
    pub(crate) held: Wording<'a>,
}

impl<'a> Model for LentWord<'a> {
    ghost use Rattle.std.specs.Prelude.{List};
    ghost use Rattle.ap_symbol.specs.declared.symbol.Symbol.{Symbol};
    ghost use Rattle.ap_exec.specs.Wordings.{wording_in, IsWording};

    ghost Value = { List Symbol };

    ghost view = { λ w. wording_in w.held };

    ghost invariant = { λ w. IsWording w.held };
}

/// The first word of a unit, where the unit holds the bytes with which it is written.
fn first_held<'a>(unit: &'a Unit) -> Option<LentWord<'a>>
    ensures { IfSome result (λ word. word ≡ first_word unit.now) }
{
    match unit.bytes_at(0) {
        None => None,
        Some(bytes) => {
            if bytes.is_empty() {
                return None;
            }
            Some(LentWord {
                held: Wording::First(unit, bytes),
            })
        }
    }
}

/// The first word of a unit, newly made.
fn first_made<'a>(alloc: Global, unit: &Unit) -> Result<LentWord<'a>, Memory>
    ensures { IfOk result (λ word. word ≡ first_word unit.now) }
{
    let mut word = Word::new(alloc);
    unit.first(&mut Names::new(alloc), &mut word)?;
    Ok(LentWord {
        held: Wording::Made(word),
    })
}

impl<'a> LentWord<'a> {
    pub(crate) fn made(word: Word) -> LentWord<'a>
        ensures { result ≡ word }
    {
        LentWord {
            held: Wording::Made(word),
        }
    }

    pub(crate) fn lent(word: &'a Word) -> LentWord<'a>
        ensures { result ≡ word.now }
    {
        LentWord {
            held: Wording::Lent(word),
        }
    }

    /// The first word of a unit. It is made only where the unit holds other bytes than it is
    /// written with.
    pub(crate) fn first(alloc: Global, unit: &'a Unit) -> Result<LentWord<'a>, Memory>
        ensures { IfOk result (λ word. word ≡ first_word unit.now) }
    {
        match first_held(unit) {
            Some(word) => Ok(word),
            None => first_made(alloc, unit),
        }
    }

    /// Its bytes, as they are written.
    pub(crate) fn rendered(&self) -> &[u8]
        ensures { result.now ≡ rendering self.now }
    {
        match &self.held {
            Wording::Made(word) => word.rendered(),
            Wording::Lent(word) => word.rendered(),
            Wording::First(_, bytes) => bytes,
        }
    }

    /// Whether it has no symbol.
    pub(crate) fn is_empty(&self) -> bool
        ensures { IsTrue result ↔ (self.now ≡ []) }
    {
        match &self.held {
            Wording::Made(word) => word.is_empty(),
            Wording::Lent(word) => word.is_empty(),
            Wording::First(_, _) => false,
        }
    }

    /// Lets the word go; one that was made is spare.
    fn let_go(self, spare: &mut Spare) {
        match self.held {
            Wording::Made(word) => spare.put(word),
            Wording::Lent(_) | Wording::First(_, _) => {}
        }
    }
}

#[derive(Debug, Drop)]
pub(crate) enum AtomHeld<'a> {
    Unit(LentWord<'a>),
    Slot,
    Space,
}

/// A part of an output, which contracts see as an `Atom`.
#[derive(Debug, Drop)]
pub struct LentAtom<'a> {
    pub(crate) held: AtomHeld<'a>,
}

impl<'a> Model for LentAtom<'a> {
    ghost use Rattle.ap_exec.specs.declared.template.Atom.{Atom};
    ghost use Rattle.ap_exec.specs.LentAtoms.{atom_held};

    ghost Value = { Atom };

    ghost view = { λ a. atom_held a.held };
}

impl<'a> LentAtom<'a> {
    pub(crate) fn unit(word: LentWord<'a>) -> LentAtom<'a>
        ensures { result ≡ atom.Unit word.entry }
    {
        LentAtom {
            held: AtomHeld::Unit(word),
        }
    }

    pub(crate) fn slot() -> LentAtom<'a>
        ensures { result ≡ atom.Slot }
    {
        LentAtom {
            held: AtomHeld::Slot,
        }
    }

    pub(crate) fn space() -> LentAtom<'a>
        ensures { result ≡ atom.Space }
    {
        LentAtom {
            held: AtomHeld::Space,
        }
    }

    fn let_go(self, spare: &mut Spare) {
        match self.held {
            AtomHeld::Unit(word) => word.let_go(spare),
            AtomHeld::Slot | AtomHeld::Space => {}
        }
    }
}

/// The atoms of a chunk, in order.
pub type LentAtoms<'a> = Sequence<LentAtom<'a>>;

#[derive(Debug, Drop)]
pub(crate) enum PieceHeld<'a> {
    Atom(LentAtom<'a>),
    Chunk(LentWord<'a>, LentAtoms<'a>),
}

/// A piece of an output, which contracts see as a `Piece`.
#[derive(Debug, Drop)]
pub struct LentPiece<'a> {
    pub(crate) held: PieceHeld<'a>,
}

impl<'a> Model for LentPiece<'a> {
    ghost use Rattle.ap_exec.specs.declared.template.Piece.{Piece};
    ghost use Rattle.ap_exec.specs.LentPieces.{piece_held};

    ghost Value = { Piece };

    ghost view = { λ p. piece_held p.held };
}

impl<'a> LentPiece<'a> {
    pub(crate) fn atom(atom: LentAtom<'a>) -> LentPiece<'a>
        ensures { result ≡ piece.Atom atom.entry }
    {
        LentPiece {
            held: PieceHeld::Atom(atom),
        }
    }

    pub(crate) fn chunk(name: LentWord<'a>, atoms: LentAtoms<'a>) -> LentPiece<'a>
        ensures { result ≡ piece.Chunk name.entry atoms.entry }
    {
        LentPiece {
            held: PieceHeld::Chunk(name, atoms),
        }
    }

    fn let_go(self, spare: &mut Spare) {
        match self.held {
            PieceHeld::Atom(atom) => atom.let_go(spare),
            PieceHeld::Chunk(name, atoms) => {
                name.let_go(spare);
                let_atoms_go(atoms, spare);
            }
        }
    }
}

fn let_atoms_go(atoms: LentAtoms<'_>, spare: &mut Spare) {
    for atom in atoms.into_vec() {
        atom.let_go(spare);
    }
}

/// What a rule writes, before its slots are filled, which contracts see as a `Template`.
pub type LentTemplate<'a> = Sequence<LentPiece<'a>>;

/// Lets a template go; its words that were made are spare.
pub fn let_go(template: LentTemplate<'_>, spare: &mut Spare) {
    for piece in template.into_vec() {
        piece.let_go(spare);
    }
}
