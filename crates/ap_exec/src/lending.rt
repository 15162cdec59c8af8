//! Templates lent, and lent ones made templates.
ghost use Rattle.std.specs.Prelude.{◌≡◌, IfOk};

use crate::lent_template::{
    AtomHeld, LentAtom, LentAtoms, LentPiece, LentTemplate, LentWord, PieceHeld, Wording,
};
use crate::template::{Atom, Atoms, Piece, Template};
use ap_stream::Names;
use ap_symbol::{Memory, Sequence, Word};
use std::alloc::Global;

fn lend_atom<'a>(atom: &'a Atom) -> LentAtom<'a>
    ensures { result ≡ atom.now }
{
    match atom {
        Atom::Unit(word) => LentAtom::unit(LentWord::lent(word)),
        Atom::Slot => LentAtom::slot(),
        Atom::Space => LentAtom::space(),
    }
}

fn lend_atoms<'a>(alloc: Global, atoms: &'a [Atom]) -> Result<LentAtoms<'a>, Memory>
    ensures { IfOk result (λ made. made ≡ atoms.now) }
{
    let mut made = Sequence::new(alloc);
    for atom in atoms {
        made.push(lend_atom(atom))?;
    }
    Ok(made)
}

fn lend_piece<'a>(alloc: Global, piece: &'a Piece) -> Result<LentPiece<'a>, Memory>
    ensures { IfOk result (λ made. made ≡ piece.now) }
{
    match piece {
        Piece::Atom(atom) => Ok(LentPiece::atom(lend_atom(atom))),
        Piece::Chunk(name, atoms) => {
            let lent = lend_atoms(alloc, atoms.as_slice())?;
            Ok(LentPiece::chunk(LentWord::lent(name), lent))
        }
    }
}

/// The template, lent.
pub(crate) fn lend_template<'a>(
    alloc: Global,
    pieces: &'a [Piece],
) -> Result<LentTemplate<'a>, Memory>
    ensures { IfOk result (λ made. made ≡ pieces.now) }
{
    let mut made = Sequence::new(alloc);
    for piece in pieces {
        made.push(lend_piece(alloc, piece)?)?;
    }
    Ok(made)
}

/// A word of its own.
fn own_word(alloc: Global, word: &LentWord<'_>) -> Result<Word, Memory>
    ensures { IfOk result (λ made. made ≡ word.now) }
{
    match &word.held {
        Wording::Made(word) => word.copy(alloc),
        Wording::Lent(word) => word.copy(alloc),
        Wording::First(unit, _) => {
            let mut made = Word::new(alloc);
            unit.first(&mut Names::new(alloc), &mut made)?;
            Ok(made)
        }
    }
}

fn own_atom(alloc: Global, atom: &LentAtom<'_>) -> Result<Atom, Memory>
    ensures { IfOk result (λ made. made ≡ atom.now) }
{
    match &atom.held {
        AtomHeld::Unit(word) => Ok(Atom::Unit(own_word(alloc, word)?)),
        AtomHeld::Slot => Ok(Atom::Slot),
        AtomHeld::Space => Ok(Atom::Space),
    }
}

fn own_atoms(alloc: Global, atoms: &[LentAtom<'_>]) -> Result<Atoms, Memory>
    ensures { IfOk result (λ made. made ≡ atoms.now) }
{
    let mut made = Sequence::new(alloc);
    for atom in atoms {
        made.push(own_atom(alloc, atom)?)?;
    }
    Ok(made)
}

fn own_piece(alloc: Global, piece: &LentPiece<'_>) -> Result<Piece, Memory>
    ensures { IfOk result (λ made. made ≡ piece.now) }
{
    match &piece.held {
        PieceHeld::Atom(atom) => Ok(Piece::Atom(own_atom(alloc, atom)?)),
        PieceHeld::Chunk(name, atoms) => {
            let name = own_word(alloc, name)?;
            Ok(Piece::Chunk(name, own_atoms(alloc, atoms.as_slice())?))
        }
    }
}

/// A template of its own.
pub(crate) fn own_template(alloc: Global, pieces: &[LentPiece<'_>]) -> Result<Template, Memory>
    ensures { IfOk result (λ made. made ≡ pieces.now) }
{
    let mut made = Sequence::new(alloc);
    for piece in pieces {
        made.push(own_piece(alloc, piece)?)?;
    }
    Ok(made)
}
