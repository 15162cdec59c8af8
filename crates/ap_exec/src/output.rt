//! The pieces that a run has given so far, and the limit on them.
ghost use Rattle.std.specs.Prelude.{◌≡◌, ◌-◌, [], if◌then◌else◌, nat_le, Some as something, None as nothing};
ghost use Rattle.ap_exec.specs.Pieces.{unit_size, atom_size, atoms_size, piece_size, added};
ghost use Rattle.ap_exec.specs.Results.{Gives};

use crate::lent_template::{AtomHeld, LentAtom, LentPiece, LentTemplate, LentWord, PieceHeld};
use crate::refusal::ExecRefusal;
use ap_stream::SPAN_MAX;
use ap_symbol::Sequence;
use std::alloc::Global;
use std::marker::Model;

/// The pieces of an output, which contracts see as their list, and how many bytes the output may
/// still grow by.
#[derive(Drop)]
pub(crate) struct Output<'a> {
    pieces: LentTemplate<'a>,
    room: usize,
}

impl<'a> Model for Output<'a> {
    ghost use Rattle.std.specs.Prelude.{◌≡◌, ◌+◌, List};
    ghost use Rattle.ap_stream.specs.declared.TheConstants.{SPAN_MAX};
    ghost use Rattle.ap_exec.specs.Pieces.{pieces_size};
    ghost use Rattle.ap_exec.specs.declared.template.Piece.{Piece};

    ghost Value = { List Piece };

    ghost view = { λ o. o.pieces };

    ghost invariant = { λ o. o.room + pieces_size o.pieces ≡ SPAN_MAX };
}

/// What is left of a number, if that is enough.
fn less(room: usize, size: usize) -> Option<usize>
    ensures { result ≡ (if nat_le size room then something (room - size) else nothing) }
{
    if size <= room {
        Some(room - size)
    } else {
        None
    }
}

fn unit_size(word: &LentWord<'_>) -> usize
    ensures { result ≡ unit_size word.now }
{
    if word.is_empty() {
        0
    } else {
        word.rendered().len() + 2
    }
}

fn atom_size(atom: &LentAtom<'_>) -> usize
    ensures { result ≡ atom_size atom.now }
{
    match &atom.held {
        AtomHeld::Unit(word) => unit_size(word),
        AtomHeld::Slot => 0,
        AtomHeld::Space => 1,
    }
}

/// What is left after the atoms, if that is enough.
fn less_atoms(room: usize, atoms: &[LentAtom<'_>]) -> Option<usize>
    ensures { result ≡ (if nat_le (atoms_size atoms.now) room
        then something (room - atoms_size atoms.now) else nothing) }
{
    let mut left = room;
    for atom in atoms {
        match less(left, atom_size(atom)) {
            None => return None,
            Some(rest) => left = rest,
        }
    }
    Some(left)
}

/// What is left after a piece, if that is enough.
fn less_piece(room: usize, piece: &LentPiece<'_>) -> Option<usize>
    ensures { result ≡ (if nat_le (piece_size piece.now) room
        then something (room - piece_size piece.now) else nothing) }
{
    match &piece.held {
        PieceHeld::Atom(atom) => less(room, atom_size(atom)),
        PieceHeld::Chunk(name, atoms) => match less(room, name.rendered().len() + 4) {
            None => None,
            Some(rest) => less_atoms(rest, atoms.as_slice()),
        },
    }
}

impl<'a> Output<'a> {
    /// No pieces.
    pub(crate) fn new(alloc: Global) -> Output<'a>
        ensures { result ≡ [] }
    {
        Output {
            pieces: Sequence::new(alloc),
            room: SPAN_MAX,
        }
    }

    /// Adds a piece, unless the pieces have more bytes with it than an output may have.
    #[tactic(auto, unfolding(crate::specs::Pieces::added), using(crate::proofs::SizeLaws::fits_is))]
    pub(crate) fn push(&mut self, piece: LentPiece<'a>) -> Result<(), ExecRefusal>
        ensures { Gives (λ _. self.new) result (added piece.entry self.old) }
    {
        match less_piece(self.room, &piece) {
            None => Err(ExecRefusal::OutputTooLong),
            Some(left) => {
                self.pieces.push(piece)?;
                self.room = left;
                Ok(())
            }
        }
    }

    /// The pieces alone.
    pub(crate) fn into_template(self) -> LentTemplate<'a>
        ensures { result ≡ self.entry }
    {
        self.pieces
    }
}
