//! The pieces that an output adds.
ghost use Rattle.std.specs.Prelude.{◌≡◌, ◌++◌, [], map, IfOk, IfSome, OnOk, Ok};
ghost use Rattle.ap_symbol.specs.Words.{AreProper};
ghost use Rattle.ap_rules.specs.Plain.{chunk, value_chunk};
ghost use Rattle.ap_rules.specs.Views.{plain_value, plain_values, plain_chunk_piece, plain_chunk, plain_piece};
ghost use Rattle.ap_exec.specs.Compounds.{joined_to, all_joined, values_in, tag_in};
ghost use Rattle.ap_exec.specs.Pieces.{unit_of, units_of, compound, blank_atom, chunk_piece_of, chunk_pieces_of, tags_of, held_by, stated, name_of, atom_in, gives_content, content_of, contents_of, piece_of};
ghost use Rattle.ap_exec.specs.Parts.{word_on, clip_of};
ghost use Rattle.ap_exec.specs.Results.{Gives, seen};
ghost use Rattle.ap_exec.specs.States.{sight};
ghost use Rattle.ap_exec.specs.Values.{value_of};

use crate::clips::{side_in, unit_at};
use crate::lent::Lent;
use crate::lent_template::{LentAtom, LentAtoms, LentPiece, LentWord};
use crate::recasing::append_recased;
use crate::refusal::ExecRefusal;
use crate::spare::Spare;
use crate::state::View;
use crate::values::{append, push_values, var_at};
use ap_rules::{
    Chunk, ChunkPiece, Clip, ClipPart, Lu, Piece as StatedPiece, Side, Tag, Value, ValueChunk,
};
use ap_stream::{Inner, UNIT_MAX};
use ap_symbol::{Memory, Sequence, Symbol, Word, case_of_symbols};
use std::alloc::Global;

/// The atoms of a chunk for which room is made at once.
const ATOMS_ROOM: usize = 8;

/// The word of a unit: its values in order.
fn word_of(
    alloc: Global,
    view: &View<'_, '_>,
    spare: &mut Spare,
    values: &[Value],
) -> Result<Word, ExecRefusal>
    ensures { Gives (λ w. w) result (unit_of (sight view.now) (plain_values values.now)) }
{
    let mut word = spare.take(alloc)?;
    push_values(alloc, &*view, values, &mut word)?;
    Ok(word)
}

/// The word of the match that stands whole on a side of a unit, with its queue or without, where
/// the rule hasn't written to it.
#[tactic(auto, using(crate::proofs::Whole::taken_whole))]
fn lent_on<'u>(side: Side, queue: bool, unit: &Lent<'u>) -> Option<&'u Word>
    ensures { IfSome result (λ word. word.now ≡ word_on side queue unit.now) }
{
    match (side, queue) {
        (Side::Source, _) => unit.lent_source(),
        (Side::Target, true) => unit.lent_target(),
        (Side::Target, false) => {
            if unit.border() < unit.target().len() {
                return None;
            }
            unit.lent_target()
        }
    }
}

/// The word of the match that a clip gives whole.
#[tactic(auto, using(crate::proofs::Whole::clip_is))]
fn lent_by<'u>(view: &View<'_, 'u>, clip: &Clip) -> Option<&'u Word>
    ensures { IfSome result (λ word. word.now ≡ clip_of (sight view.now) clip.now) }
{
    if clip.part != ClipPart::Whole || clip.link_to.is_some() {
        return None;
    }
    match unit_at(view.positions, view.units, clip.pos) {
        None => None,
        Some(unit) => lent_on(side_in(view.world.form, clip.side), clip.queue, unit),
    }
}

/// The word of the match that a value gives, where it is a whole word that isn't too long for a
/// value.
#[tactic(auto, unfolding(crate::specs::Values::sized))]
fn lent_value<'u>(view: &View<'_, 'u>, value: &Value) -> Option<&'u Word>
    ensures { IfSome result (λ word. value_of (sight view.now) (plain_value value.now)
        ≡ Ok word.now) }
{
    match value {
        Value::Clip(clip) => match lent_by(&*view, clip) {
            None => None,
            Some(word) => {
                if word.rendered().len() > UNIT_MAX {
                    return None;
                }
                Some(word)
            }
        },
        _ => None,
    }
}

/// The word of the match that values give, where they are one value that gives a whole word.
#[tactic(auto, using(crate::proofs::Whole::unit_is))]
fn lent_whole<'u>(view: &View<'_, 'u>, values: &[Value]) -> Option<&'u Word>
    ensures { IfSome result (λ word. unit_of (sight view.now) (plain_values values.now)
        ≡ Ok word.now) }
{
    match values.split_first() {
        None => None,
        Some((value, more)) => {
            if !more.is_empty() {
                return None;
            }
            lent_value(&*view, value)
        }
    }
}

/// The word of a unit, which is lent where it stands in the match.
fn lent_word_of<'u>(
    alloc: Global,
    view: &View<'_, 'u>,
    spare: &mut Spare,
    values: &[Value],
) -> Result<LentWord<'u>, ExecRefusal>
    ensures { Gives (λ w. w) result (unit_of (sight view.now) (plain_values values.now)) }
{
    match lent_whole(&*view, values) {
        Some(word) => Ok(LentWord::lent(word)),
        None => {
            let word = word_of(alloc, &*view, spare, values)?;
            Ok(LentWord::made(word))
        }
    }
}

/// Joins a word to those before it, where it isn't empty.
fn join(alloc: Global, word: &Word, into: &mut Word) -> Result<(), Memory>
    ensures { OnOk result (into.new ≡ joined_to into.old word.now) }
{
    if word.is_empty() {
        return Ok(());
    }
    if !into.is_empty() {
        into.push(Symbol::Join)?;
    }
    append(alloc, word.symbols(), into)
}

fn push_units(
    alloc: Global,
    view: &View<'_, '_>,
    spare: &mut Spare,
    units: &[Lu],
    into: &mut Word,
) -> Result<(), ExecRefusal>
    ensures { Gives (λ _. into.new) result
        (seen (λ ws. all_joined into.old ws)
        (units_of (sight view.now) (map values_in units.now))) }
{
    'units: for unit in units {
        let word = word_of(alloc, &*view, spare, &unit.values)?;
        join(alloc, &word, into)?;
        spare.put(word);
    }
    Ok(())
}

/// One word of several units.
#[tactic(auto, using(crate::proofs::Compounds::all_joined_are))]
fn compound_of(
    alloc: Global,
    view: &View<'_, '_>,
    spare: &mut Spare,
    units: &[Lu],
) -> Result<Word, ExecRefusal>
    ensures { Gives (λ w. w) result
        (seen compound (units_of (sight view.now) (map values_in units.now))) }
{
    let mut word = spare.take(alloc)?;
    push_units(alloc, &*view, spare, units, &mut word)?;
    Ok(word)
}

/// A slot where the blank has a position, else a space.
fn blank_atom<'u>(pos: Option<usize>) -> LentAtom<'u>
    ensures { result ≡ blank_atom pos }
{
    match pos {
        None => LentAtom::space(),
        Some(_) => LentAtom::slot(),
    }
}

/// No atoms, with room for so many.
fn room_for<'u>(alloc: Global, count: usize) -> Result<LentAtoms<'u>, Memory>
    ensures { IfOk result (λ atoms. atoms ≡ []) }
{
    Ok(Sequence::from_vec(Vec::with_capacity(alloc, count)?))
}

fn chunk_piece_of<'u>(
    alloc: Global,
    view: &View<'_, 'u>,
    spare: &mut Spare,
    piece: &ChunkPiece,
) -> Result<LentAtom<'u>, ExecRefusal>
    ensures { Gives (λ a. a) result
        (chunk_piece_of (sight view.now) (plain_chunk_piece piece.now)) }
{
    match piece {
        ChunkPiece::Lu(held) => {
            let word = lent_word_of(alloc, &*view, spare, &held.values)?;
            Ok(LentAtom::unit(word))
        }
        ChunkPiece::Mlu(held) => {
            let word = compound_of(alloc, &*view, spare, &held.units)?;
            Ok(LentAtom::unit(LentWord::made(word)))
        }
        ChunkPiece::B(space) => Ok(blank_atom(space.pos)),
    }
}

fn chunk_pieces_of<'u>(
    alloc: Global,
    view: &View<'_, 'u>,
    spare: &mut Spare,
    pieces: &[ChunkPiece],
) -> Result<LentAtoms<'u>, ExecRefusal>
    ensures { Gives (λ a. a) result
        (chunk_pieces_of (sight view.now) (map plain_chunk_piece pieces.now)) }
{
    let mut made = room_for(alloc, pieces.len())?;
    'pieces: for piece in pieces {
        made.push(chunk_piece_of(alloc, &*view, spare, piece)?)?;
    }
    Ok(made)
}

fn push_tags(
    alloc: Global,
    view: &View<'_, '_>,
    tags: &[Tag],
    name: &mut Word,
) -> Result<(), ExecRefusal>
    ensures { Gives (λ _. name.new) result
        (seen (λ w. name.old ++ w) (tags_of (sight view.now) (map tag_in tags.now))) }
{
    'tags: for tag in tags {
        push_values(alloc, &*view, &tag.values, name)?;
    }
    Ok(())
}

/// What a variable holds, where one is given.
fn held_by<'a>(view: &View<'a, '_>, n: Option<usize>) -> &'a [Symbol]
    ensures value { result.now ≡ held_by (sight view.now).vars n }
    ensures proper { AreProper result.now }
{
    match n {
        None => &[],
        Some(n) => var_at(view.world.vars, view.fresh, n),
    }
}

/// The name that is stated, or what a variable holds.
fn stated<'a>(view: &View<'a, '_>, name: &'a Option<Word>, from: Option<usize>) -> &'a [Symbol]
    ensures value { result.now ≡ stated (sight view.now).vars name.now from }
    ensures proper { AreProper result.now }
{
    match name {
        None => held_by(&*view, from),
        Some(name) => name.symbols(),
    }
}

/// A chunk's name without its tags.
fn name_of(
    alloc: Global,
    view: &View<'_, '_>,
    spare: &mut Spare,
    held: &Chunk,
) -> Result<Word, Memory>
    ensures { IfOk result (λ name. name ≡ name_of (sight view.now).vars (plain_chunk held.now)) }
{
    let mut name = spare.take(alloc)?;
    let symbols = stated(&*view, &held.name, held.namefrom);
    match held.case {
        None => append(alloc, symbols, &mut name)?,
        Some(n) => {
            let case = case_of_symbols(var_at(view.world.vars, view.fresh, n));
            append_recased(alloc, case, symbols, &mut name)?;
        }
    }
    Ok(name)
}

/// A chunk as transfer makes it.
fn chunk_of<'u>(
    alloc: Global,
    view: &View<'_, 'u>,
    spare: &mut Spare,
    held: &Chunk,
) -> Result<LentPiece<'u>, ExecRefusal>
    ensures { Gives (λ p. p) result (piece_of (sight view.now) (chunk (plain_chunk held.now))) }
{
    let mut name = name_of(alloc, &*view, spare, held)?;
    push_tags(alloc, &*view, &held.tags, &mut name)?;
    let atoms = chunk_pieces_of(alloc, &*view, spare, &held.pieces)?;
    Ok(LentPiece::chunk(LentWord::made(name), atoms))
}

/// The atom that stands for a part of a chunk, with its word as it stands there.
fn atom_in<'u>(alloc: Global, part: &'u Inner) -> Result<LentAtom<'u>, Memory>
    ensures { IfOk result (λ a. a ≡ atom_in part.now) }
{
    match part {
        Inner::Unit(unit) => {
            let word = LentWord::first(alloc, unit)?;
            Ok(LentAtom::unit(word))
        }
        Inner::Blank(_) => Ok(LentAtom::slot()),
    }
}

fn push_parts<'u>(alloc: Global, parts: &'u [Inner], into: &mut LentAtoms<'u>) -> Result<(), Memory>
    ensures { OnOk result (into.new ≡ into.old ++ map atom_in parts.now) }
{
    'parts: for part in parts {
        into.push(atom_in(alloc, part)?)?;
    }
    Ok(())
}

/// Whether a clip gives the content of a chunk.
fn gives_content(part: ClipPart, link: &Option<Word>) -> bool
    ensures { result ≡ gives_content part link.now }
{
    match part {
        ClipPart::Content => true,
        ClipPart::Whole => link.is_none(),
        _ => false,
    }
}

/// Appends the content that a value of a chunk gives.
#[tactic(auto, using(crate::proofs::Trees::views))]
fn push_content<'u>(
    alloc: Global,
    view: &View<'_, 'u>,
    value: &Value,
    into: &mut LentAtoms<'u>,
) -> Result<(), Memory>
    ensures { OnOk result (into.new ≡ into.old
        ++ content_of (sight view.now) (plain_value value.now)) }
{
    match value {
        Value::Clip(clip) => {
            if !gives_content(clip.part, &clip.link_to) {
                return Ok(());
            }
            match unit_at(view.positions, view.units, clip.pos) {
                None => Ok(()),
                Some(unit) => push_parts(alloc, unit.content(), into),
            }
        }
        Value::Lit(_) | Value::LitTag(_) | Value::Var(_) | Value::GetCaseFrom(_) => Ok(()),
        Value::CaseOf(_) | Value::Concat(_) | Value::B(_) => Ok(()),
    }
}

fn push_contents<'u>(
    alloc: Global,
    view: &View<'_, 'u>,
    values: &[Value],
    into: &mut LentAtoms<'u>,
) -> Result<(), Memory>
    ensures { OnOk result (into.new ≡ into.old
        ++ contents_of (sight view.now) (plain_values values.now)) }
{
    'values: for value in values {
        push_content(alloc, &*view, value, into)?;
    }
    Ok(())
}

/// A chunk as interchunk makes it.
fn value_chunk_of<'u>(
    alloc: Global,
    view: &View<'_, 'u>,
    spare: &mut Spare,
    held: &ValueChunk,
) -> Result<LentPiece<'u>, ExecRefusal>
    ensures { Gives (λ p. p) result
        (piece_of (sight view.now) (value_chunk (plain_values held.now.values.items))) }
{
    let name = word_of(alloc, &*view, spare, &held.values)?;
    let mut atoms = room_for(alloc, ATOMS_ROOM)?;
    push_contents(alloc, &*view, &held.values, &mut atoms)?;
    Ok(LentPiece::chunk(LentWord::made(name), atoms))
}

/// A piece of the output.
pub(crate) fn piece_of<'u>(
    alloc: Global,
    view: &View<'_, 'u>,
    spare: &mut Spare,
    piece: &StatedPiece,
) -> Result<LentPiece<'u>, ExecRefusal>
    ensures { Gives (λ p. p) result (piece_of (sight view.now) (plain_piece piece.now)) }
{
    match piece {
        StatedPiece::B(space) => Ok(LentPiece::atom(blank_atom(space.pos))),
        StatedPiece::Lu(held) => {
            let word = lent_word_of(alloc, &*view, spare, &held.values)?;
            Ok(LentPiece::atom(LentAtom::unit(word)))
        }
        StatedPiece::Mlu(held) => {
            let word = compound_of(alloc, &*view, spare, &held.units)?;
            Ok(LentPiece::atom(LentAtom::unit(LentWord::made(word))))
        }
        StatedPiece::Chunk(held) => chunk_of(alloc, &*view, spare, held),
        StatedPiece::ValueChunk(held) => value_chunk_of(alloc, &*view, spare, held),
    }
}
