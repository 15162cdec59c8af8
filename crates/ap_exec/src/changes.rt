//! The single changes that statements make.
ghost use Rattle.std.specs.Prelude.{◌≡◌, ◌<◌, [], List, length, map, true, slice_set, OnOk, IfOk, Option, Ok, Some as something, vec_len};
ghost use Rattle.ap_symbol.specs.declared.symbol.Symbol.{Symbol};
ghost use Rattle.ap_symbol.specs.Words.{AreProper};
ghost use Rattle.ap_rules.specs.Plain.{assign, append, modify_case, out};
ghost use Rattle.ap_rules.specs.Views.{plain_value, plain_values, plain_piece};
ghost use Rattle.ap_exec.specs.Results.{Gives};
ghost use Rattle.ap_exec.specs.Running.{sight_of, with_var, with_part, with_place, recased_at, placed, outs, run, macros_below};
ghost use Rattle.ap_exec.specs.Setting.{IsHeld};
ghost use Rattle.ap_exec.specs.States.{overlaid, sight, definitions, run_state};
ghost use Rattle.ap_exec.specs.Values.{value_of};

use crate::clips::{number_at, part_at};
use crate::comparing::same_words;
use crate::lent_template::LentPiece;
use crate::pieces::piece_of;
use crate::recasing::append_recased;
use crate::refusal::ExecRefusal;
use crate::spare::Spare;
use crate::state::{State, View, World};
use crate::values::{append as push_all, append_to, direct, push_value, var_at};
use crate::writing::write_part;
use ap_rules::{Append, Clip, Let, ModifyCase, Out, Piece as StatedPiece, Place, Value};
use ap_symbol::{Memory, Symbol, Word, case_of};
use std::alloc::Global;
use std::mem;

/// What values are read from.
pub(crate) fn view_of<'a, 'u>(
    world: World<'a>,
    positions: &'a [Option<usize>],
    state: &'a State<'u>,
) -> View<'a, 'u>
    ensures { sight result ≡ sight_of (definitions world.entry) positions.now
        (run_state world.entry state.now) }
{
    View {
        world,
        positions,
        units: &state.units,
        fresh: &state.fresh,
    }
}

/// Makes the list of new values as long as this variable needs it.
fn reach(n: usize, fresh: &mut Vec<Option<Word>>) -> Result<(), Memory>
    ensures reached { OnOk result (n < length fresh.new.items) }
    ensures same { OnOk result ((base : List (List Symbol)) → overlaid base fresh.new.items
        ≡ overlaid base fresh.old.items) }
{
    'fresh: while fresh.len() <= n {
        fresh.push(None)?;
    }
    Ok(())
}

/// Puts in a new value. The one before is spare.
fn put_new(fresh: &mut Vec<Option<Word>>, n: usize, word: Word, spare: &mut Spare)
    requires { n < length fresh.old.items }
    ensures { fresh.new.items ≡ slice_set fresh.old.items n (something word) }
{
    let old = mem::replace(&mut fresh[n], Some(word));
    if let Some(old) = old {
        spare.put(old);
    }
}

/// Sets a variable.
pub(crate) fn set_var(
    world: World<'_>,
    n: usize,
    word: Word,
    state: &mut State<'_>,
    spare: &mut Spare,
) -> Result<(), Memory>
    ensures { OnOk result (run_state world.entry state.new
        ≡ with_var n word (run_state world.entry state.old)) }
{
    if n >= world.vars.len() {
        return Ok(());
    }
    reach(n, &mut state.fresh)?;
    put_new(&mut state.fresh, n, word, spare);
    Ok(())
}

/// Sets a part of the unit at a position.
fn set_part(
    alloc: Global,
    world: World<'_>,
    positions: &[Option<usize>],
    clip: &Clip,
    value: &Word,
    state: &mut State<'_>,
    spare: &mut Spare,
) -> Result<(), Memory>
    ensures { OnOk result (run_state world.entry state.new
        ≡ with_part (definitions world.entry) positions.now clip.now value.now
        (run_state world.entry state.old)) }
{
    match number_at(positions, clip.pos) {
        None => Ok(()),
        Some(n) => {
            if n >= state.units.len() {
                return Ok(());
            }
            let unit = &mut state.units[n];
            write_part(
                alloc,
                world.form,
                world.attributes,
                clip,
                value,
                unit,
                spare,
            )
        }
    }
}

/// Sets a place: a part of a unit, or a variable.
fn set_place(
    alloc: Global,
    world: World<'_>,
    positions: &[Option<usize>],
    place: &Place,
    value: Word,
    state: &mut State<'_>,
    spare: &mut Spare,
) -> Result<(), Memory>
    ensures { OnOk result (run_state world.entry state.new
        ≡ with_place (definitions world.entry) positions.now place.now value
        (run_state world.entry state.old)) }
{
    match place {
        Place::Clip(clip) => {
            set_part(alloc, world, positions, clip, &value, state, spare)?;
            spare.put(value);
            Ok(())
        }
        Place::Var(var) => set_var(world, var.n, value, state, spare),
    }
}

/// What stands at a place, in the case of a value.
fn recased_at(
    alloc: Global,
    view: &View<'_, '_>,
    spare: &mut Spare,
    place: &Place,
    value: &Word,
) -> Result<Word, Memory>
    ensures { IfOk result (λ word. word ≡ recased_at (sight view.now) place.now value.now) }
{
    let held = match place {
        Place::Clip(clip) => part_at(&*view, clip.pos, clip.part, clip.side, clip.queue),
        Place::Var(var) => var_at(view.world.vars, view.fresh, var.n),
    };
    let mut word = spare.take(alloc)?;
    append_recased(alloc, case_of(value), held, &mut word)?;
    Ok(word)
}

/// Whether the place is a variable that holds what the value gives, which is this word: then nothing
/// need be made.
fn is_held(view: &View<'_, '_>, place: &Place, value: &Value, word: &[Symbol]) -> bool
    requires { value_of (sight view.now) (plain_value value.now) ≡ Ok word.now }
    ensures { result ≡ true → IsHeld (sight view.now) place.now (plain_value value.now) }
{
    let _value = value;
    match place {
        Place::Clip(_) => false,
        Place::Var(var) => {
            let held = var_at(view.world.vars, view.fresh, var.n);
            same_words(word, held, false)
        }
    }
}

/// A word of these symbols.
fn copied(alloc: Global, spare: &mut Spare, symbols: &[Symbol]) -> Result<Word, Memory>
    requires { AreProper symbols.now }
    ensures { IfOk result (λ word. word ≡ symbols.now) }
{
    let mut word = spare.take(alloc)?;
    push_all(alloc, symbols, &mut word)?;
    Ok(word)
}

/// A word of what a value gives.
fn made(
    alloc: Global,
    view: &View<'_, '_>,
    spare: &mut Spare,
    value: &Value,
) -> Result<Word, ExecRefusal>
    ensures { Gives (λ w. w) result (value_of (sight view.now) (plain_value value.now)) }
{
    let mut word = spare.take(alloc)?;
    push_value(alloc, &*view, value, &mut word)?;
    Ok(word)
}

/// `let`: a place is set to a value.
pub(crate) fn assign(
    alloc: Global,
    world: World<'_>,
    positions: &[Option<usize>],
    held: &Let,
    state: &mut State<'_>,
    spare: &mut Spare,
) -> Result<(), ExecRefusal>
    ensures { Gives (λ _. run_state world.entry state.new) result
        (run (definitions world.entry) (macros_below (definitions world.entry) 0) positions.now
        (assign held.now.place (plain_value held.now.value)) (run_state world.entry state.old)) }
{
    let view = view_of(world, positions, state);
    let value = match direct(&view, &held.value) {
        None => made(alloc, &view, spare, &held.value)?,
        Some(word) => {
            if is_held(&view, &held.place, &held.value, word) {
                return Ok(());
            }
            copied(alloc, spare, word)?
        }
    };
    set_place(alloc, world, positions, &held.place, value, state, spare)?;
    Ok(())
}

/// `modify-case`: a place is put in the case of a value.
pub(crate) fn modify_case(
    alloc: Global,
    world: World<'_>,
    positions: &[Option<usize>],
    held: &ModifyCase,
    state: &mut State<'_>,
    spare: &mut Spare,
) -> Result<(), ExecRefusal>
    ensures { Gives (λ _. run_state world.entry state.new) result
        (run (definitions world.entry) (macros_below (definitions world.entry) 0) positions.now
        (modify_case held.now.place (plain_value held.now.value))
        (run_state world.entry state.old)) }
{
    let mut value = spare.take(alloc)?;
    push_value(
        alloc,
        &view_of(world, positions, state),
        &held.value,
        &mut value,
    )?;
    let view = view_of(world, positions, state);
    let word = recased_at(alloc, &view, spare, &held.place, &value)?;
    set_place(alloc, world, positions, &held.place, word, state, spare)?;
    spare.put(value);
    Ok(())
}

/// `append`: values are added to a variable.
pub(crate) fn append(
    alloc: Global,
    world: World<'_>,
    positions: &[Option<usize>],
    held: &Append,
    state: &mut State<'_>,
    spare: &mut Spare,
) -> Result<(), ExecRefusal>
    ensures { Gives (λ _. run_state world.entry state.new) result
        (run (definitions world.entry) (macros_below (definitions world.entry) 0) positions.now
        (append held.now.n (plain_values held.now.values.items))
        (run_state world.entry state.old)) }
{
    let word = append_to(
        alloc,
        &view_of(world, positions, state),
        spare,
        held.n,
        &held.values,
    )?;
    set_var(world, held.n, word, state, spare)?;
    Ok(())
}

/// Adds a piece to the output.
fn place<'u>(
    world: World<'_>,
    piece: LentPiece<'u>,
    state: &mut State<'u>,
) -> Result<(), ExecRefusal>
    ensures { Gives (λ _. run_state world.entry state.new) result
        (placed piece.entry (run_state world.entry state.old)) }
{
    let _world = world;
    state.pieces.push(piece)
}

/// Adds pieces to the output, in order.
fn put_pieces(
    alloc: Global,
    world: World<'_>,
    positions: &[Option<usize>],
    pieces: &[StatedPiece],
    state: &mut State<'_>,
    spare: &mut Spare,
) -> Result<(), ExecRefusal>
    ensures { Gives (λ _. run_state world.entry state.new) result
        (outs (definitions world.entry) positions.now (map plain_piece pieces.now)
        (run_state world.entry state.old)) }
{
    'pieces: for piece in pieces {
        let made = piece_of(alloc, &view_of(world, positions, state), spare, piece)?;
        place(world, made, state)?;
    }
    Ok(())
}

/// `out`: pieces are added to the output.
pub(crate) fn put_out(
    alloc: Global,
    world: World<'_>,
    positions: &[Option<usize>],
    held: &Out,
    state: &mut State<'_>,
    spare: &mut Spare,
) -> Result<(), ExecRefusal>
    ensures { Gives (λ _. run_state world.entry state.new) result
        (run (definitions world.entry) (macros_below (definitions world.entry) 0) positions.now
        (out (map plain_piece held.now.pieces.items)) (run_state world.entry state.old)) }
{
    put_pieces(alloc, world, positions, &held.pieces, state, spare)
}
