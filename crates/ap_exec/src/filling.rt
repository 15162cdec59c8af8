//! Filling the slots of a template.
ghost use Rattle.std.specs.Prelude.{◌≡◌, ◌++◌, ◌∷◌, [], OnOk};
ghost use Rattle.std.specs.List.{flat_map};
ghost use Rattle.ap_exec.specs.Results.{Gives};
ghost use Rattle.ap_exec.specs.Filling.{text, gap, word_marks, unit_marks, atom_marks, atoms_marks, chunk_marks, piece_marks, marks, left_over, fill_of, within_span};
ghost use Rattle.ap_exec.specs.FillingParts.{Appends, Writes};

use crate::lending::lend_template;
use crate::lent_template::{AtomHeld, LentAtom, LentPiece, LentTemplate, LentWord, PieceHeld};
use crate::refusal::ExecRefusal;
use crate::template::{Blanks, Template};
use ap_stream::{Blank, Item, SPAN_MAX, push_superblanks};
use ap_symbol::{Bytes, Memory};
use std::alloc::Global;

/// The blanks that are left, and what is written.
#[derive(Drop)]
struct Filling<'a> {
    blanks: &'a [Blank],
    out: Bytes,
}

/// Appends bytes, if an output may have so many.
fn put_bytes(bytes: &[u8], out: &mut Bytes) -> Result<(), ExecRefusal>
    ensures { Appends result out.old out.new bytes.now }
{
    let written = out.as_slice().len();
    if written > SPAN_MAX || bytes.len() > SPAN_MAX - written {
        return Err(ExecRefusal::OutputTooLong);
    }
    out.extend(bytes)?;
    Ok(())
}

fn put_text(bytes: &[u8], state: &mut Filling<'_>) -> Result<(), ExecRefusal>
    ensures { Writes result state.old state.new (text bytes.now ∷ []) }
{
    put_bytes(bytes, &mut state.out)
}

fn put_blank<'a>(
    blank: &'a Blank,
    rest: &'a [Blank],
    state: &mut Filling<'a>,
) -> Result<(), ExecRefusal>
    requires { state.old.blanks.now ≡ blank.now ∷ rest.now }
    ensures { Writes result state.old state.new (gap ∷ []) }
{
    put_bytes(blank.as_slice(), &mut state.out)?;
    state.blanks = rest;
    Ok(())
}

fn put_slot(state: &mut Filling<'_>) -> Result<(), ExecRefusal>
    ensures { Writes result state.old state.new (gap ∷ []) }
{
    match state.blanks.split_first() {
        None => put_text(b" ", state),
        Some((blank, rest)) => put_blank(blank, rest, state),
    }
}

fn put_word(word: &LentWord<'_>, state: &mut Filling<'_>) -> Result<(), ExecRefusal>
    ensures { Writes result state.old state.new (word_marks word.now) }
{
    put_text(b"^", state)?;
    put_text(word.rendered(), state)?;
    put_text(b"$", state)
}

fn put_unit(word: &LentWord<'_>, state: &mut Filling<'_>) -> Result<(), ExecRefusal>
    ensures { Writes result state.old state.new (unit_marks word.now) }
{
    if word.is_empty() {
        Ok(())
    } else {
        put_word(word, state)
    }
}

fn put_atom(atom: &LentAtom<'_>, state: &mut Filling<'_>) -> Result<(), ExecRefusal>
    ensures { Writes result state.old state.new (atom_marks atom.now) }
{
    match &atom.held {
        AtomHeld::Unit(word) => put_unit(word, state),
        AtomHeld::Slot => put_slot(state),
        AtomHeld::Space => put_text(b" ", state),
    }
}

fn put_atoms(atoms: &[LentAtom<'_>], state: &mut Filling<'_>) -> Result<(), ExecRefusal>
    ensures { Writes result state.old state.new (atoms_marks atoms.now) }
{
    'atoms: for atom in atoms {
        put_atom(atom, state)?;
    }
    Ok(())
}

fn put_chunk(
    name: &LentWord<'_>,
    atoms: &[LentAtom<'_>],
    state: &mut Filling<'_>,
) -> Result<(), ExecRefusal>
    ensures { Writes result state.old state.new (chunk_marks name.now atoms.now) }
{
    put_text(b"^", state)?;
    put_text(name.rendered(), state)?;
    put_text(b"{", state)?;
    put_atoms(atoms, state)?;
    put_text(b"}$", state)
}

fn put_piece(piece: &LentPiece<'_>, state: &mut Filling<'_>) -> Result<(), ExecRefusal>
    ensures { Writes result state.old state.new (piece_marks piece.now) }
{
    match &piece.held {
        PieceHeld::Atom(atom) => put_atom(atom, state),
        PieceHeld::Chunk(name, atoms) => put_chunk(name, atoms.as_slice(), state),
    }
}

fn put_pieces(pieces: &[LentPiece<'_>], state: &mut Filling<'_>) -> Result<(), ExecRefusal>
    ensures { Writes result state.old state.new (marks pieces.now) }
{
    'pieces: for piece in pieces {
        put_piece(piece, state)?;
    }
    Ok(())
}

/// Appends the superblanks of a blank.
fn push_left_over(alloc: Global, blank: &Blank, into: &mut Bytes) -> Result<(), Memory>
    ensures { OnOk result (into.new ≡ into.old ++ left_over blank.now) }
{
    let copied = Blank::from_slice(alloc, blank.as_slice())?;
    push_superblanks(&Item::Blank(copied), into)
}

/// Appends the superblanks of the blanks.
fn push_rest(alloc: Global, blanks: &[Blank], into: &mut Bytes) -> Result<(), Memory>
    ensures { OnOk result (into.new ≡ into.old ++ flat_map left_over blanks.now) }
{
    'blanks: for blank in blanks {
        push_left_over(alloc, blank, into)?;
    }
    Ok(())
}

fn bounded(out: Bytes) -> Result<Bytes, ExecRefusal>
    ensures { Gives (λ b. b) result (within_span out) }
{
    if out.as_slice().len() > SPAN_MAX {
        return Err(ExecRefusal::OutputTooLong);
    }
    Ok(out)
}

/// The text of a template: a unit as `^` and its word and `$`, an empty one as nothing; a chunk as
/// `^`, its name, what is in it between `{` and `}`, and `$` (the Apertium stream format). The
/// slots in order, those inside of chunks too, are the blanks in order, whole; a slot without a
/// blank is one space. The superblanks of the blanks that are left over follow.
///
/// `OutputTooLong` comes exactly where the text has more than `SPAN_MAX` bytes; `ValueTooLong`
/// never comes; `Memory` means want of memory.
pub fn fill(alloc: Global, template: &Template, blanks: &Blanks) -> Result<Bytes, ExecRefusal>
    ensures { Gives (λ b. b) result (fill_of template.now blanks.now) }
{
    let lent = lend_template(alloc, template.as_slice())?;
    fill_lent(alloc, &lent, blanks, Bytes::new(alloc))
}

/// The text of a lent template, as `fill` gives it, in the room of `out`, which is empty.
pub fn fill_lent(
    alloc: Global,
    template: &LentTemplate<'_>,
    blanks: &Blanks,
    out: Bytes,
) -> Result<Bytes, ExecRefusal>
    requires { out ≡ [] }
    ensures { Gives (λ b. b) result (fill_of template.now blanks.now) }
{
    let mut state = Filling {
        blanks: blanks.as_slice(),
        out,
    };
    put_pieces(template.as_slice(), &mut state)?;
    let Filling { blanks, mut out } = state;
    push_rest(alloc, blanks, &mut out)?;
    bounded(out)
}
