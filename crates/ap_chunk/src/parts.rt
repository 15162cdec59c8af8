//! What items are in a match.
ghost use Rattle.std.specs.Prelude.{◌≡◌, List, Bool, true, Ok, IfOk, OnOk};
ghost use Rattle.ap_symbol.specs.declared.symbol.Symbol.{Symbol};
ghost use Rattle.ap_chunk.specs.Kept.{IsTold, AreKept, AllKept};
ghost use Rattle.ap_chunk.specs.Known.{AreRowed};
ghost use Rattle.ap_chunk.specs.Parts.{word_of, part_of, unit_part, chunk_part};
ghost use Rattle.ap_chunk.specs.Searching.{IsKind};
ghost use Rattle.ap_chunk.specs.Tests.{row_of};
ghost use Rattle.ap_chunk.specs.Translations.{IsOf};

use crate::categories::row;
use crate::kept::{Kept, KeptRows, copy_of_key, copy_of_row};
use crate::known::{Known, KnownUnits};
use crate::places::KEY_MAX;
use crate::translation::Translation;
use ap_exec::{Divided, Spare};
use ap_rules::{Form, Rules};
use ap_stream::{Dialect, Item, Names, Unit};
use ap_symbol::{Memory, Word};
use std::alloc::Global;

/// What an item is in a match: a unit, whose row tells its categories, a blank, or what no match
/// holds.
#[derive(Clone, Copy, Debug, PartialEq, Eq)]
pub(crate) enum Kind {
    Unit,
    Blank,
    Other,
}

/// Room for a word and for the row that a unit is matched by, which is kept from item to item, and
/// the names that were met before; and words in whose room a rule makes others.
#[derive(Drop)]
pub(crate) struct Room {
    pub(crate) alloc: Global,
    pub(crate) names: Names,
    pub(crate) word: Word,
    pub(crate) row: Vec<bool>,
    pub(crate) spare: Spare,
}

impl Room {
    /// No room yet, which takes no memory.
    pub(crate) fn new(alloc: Global) -> Room {
        Room {
            alloc,
            names: Names::new(alloc),
            word: Word::new(alloc),
            row: Vec::new(alloc),
            spare: Spare::new(alloc),
        }
    }
}

/// Puts the word at a place of a unit into `into`; the empty one where there is none.
pub(crate) fn put_word(
    unit: &Unit,
    names: &mut Names,
    at: usize,
    into: &mut Word,
) -> Result<(), Memory>
    ensures { OnOk result (into.new ≡ word_of at unit.now) }
{
    let found = unit.word_at(names, at, into)?;
    if !found {
        into.clear();
    }
    Ok(())
}

/// The word at a place of a unit, newly made; the empty one where there is none.
pub(crate) fn word_at(unit: &Unit, at: usize, room: &mut Room) -> Result<Word, Memory>
    ensures word { IfOk result (λ word. word ≡ word_of at unit.now) }
    ensures row { room.new.row ≡ room.old.row }
{
    put_word(unit, &mut room.names, at, &mut room.word)?;
    room.word.copy(room.alloc)
}

/// Puts the row of the word with these bytes into `row`, if it is kept, and answers whether it is.
fn recall(rows: &KeptRows, key: &[u8], row: &mut Vec<bool>) -> Result<bool, Memory>
    ensures { (given : List Symbol → List Bool) → AreKept given rows.now.rows.items →
        result ≡ Ok true → IsTold given key.now row.new.items }
{
    match rows.find(key) {
        None => Ok(false),
        Some(kept) => {
            row.clear();
            row.extend_from_slice(kept)?;
            Ok(true)
        }
    }
}

/// Puts the row of a word into the room, and keeps it.
fn put_new_row(
    rules: &Rules,
    word: &Word,
    rows: &mut KeptRows,
    into: &mut Vec<bool>,
    alloc: Global,
) -> Result<(), Memory>
    requires { AreKept (row_of rules.now) rows.old.rows.items }
    ensures row { OnOk result (into.new.items ≡ row_of rules.now word.now) }
    ensures rows { AreKept (row_of rules.now) rows.new.rows.items }
{
    row(rules, word.symbols(), into)?;
    rows.keep(alloc, word, into.as_slice());
    Ok(())
}

/// Puts the row of a word into the room.
fn put_row(
    rules: &Rules,
    word: &Word,
    rows: &mut KeptRows,
    into: &mut Vec<bool>,
    alloc: Global,
) -> Result<(), Memory>
    requires { AreKept (row_of rules.now) rows.old.rows.items }
    ensures row { OnOk result (into.new.items ≡ row_of rules.now word.now) }
    ensures rows { AreKept (row_of rules.now) rows.new.rows.items }
{
    let _ = word.symbols();
    if recall(rows, word.rendered(), into)? {
        return Ok(());
    }
    put_new_row(rules, word, rows, into, alloc)
}

/// Puts the row of the first word of a unit into `row`, if it is kept, and answers whether it is.
fn recall_first(units: &KnownUnits, unit: &Unit, row: &mut Vec<bool>) -> Result<bool, Memory>
    ensures { (given : List Symbol → List Bool) → AreRowed given units.now.units.items →
        result ≡ Ok true → row.new.items ≡ given (word_of 0 unit.now) }
{
    match units.known(unit) {
        None => Ok(false),
        Some(known) => {
            row.clear();
            row.extend_from_slice(known.row.as_slice())?;
            Ok(true)
        }
    }
}

/// A unit with these bytes and this source, as it is kept. The room is used for its target.
fn translation(
    unit: &Unit,
    key: &[u8],
    source: Word,
    room: &mut Room,
) -> Result<Translation, Memory>
    requires key { IsOf key.now unit.now }
    requires source { source ≡ word_of 0 unit.now }
    ensures key { IfOk result (λ made. made ≡ key.now) }
    ensures row { room.new.row ≡ room.old.row }
{
    let key = copy_of_key(room.alloc, key)?;
    let target = word_at(unit, 1, room)?;
    Ok(Translation::new(key, Divided::new(source), Divided::new(target)))
}

/// Keeps a unit with this source, which has this row, where it was read and isn't long.
fn keep_unit(
    unit: &Unit,
    source: Word,
    units: &mut KnownUnits,
    room: &mut Room,
) -> Result<(), Memory>
    requires { source ≡ word_of 0 unit.now }
    ensures units { (given : List Symbol → List Bool) → room.old.row.items ≡ given source →
        AreRowed given units.old.units.items → AreRowed given units.new.units.items }
    ensures row { room.new.row ≡ room.old.row }
{
    match unit.read_in(Dialect::Bilingual) {
        None => Ok(()),
        Some(key) => {
            if key.len() > KEY_MAX {
                return Ok(());
            }
            let made = translation(unit, key, source, room)?;
            let row = copy_of_row(room.alloc, room.row.as_slice())?;
            units.keep(Known { unit: made, row })
        }
    }
}

/// Puts the row of the first word of a unit into the room.
fn put_first_row(
    rules: &Rules,
    unit: &Unit,
    units: &mut KnownUnits,
    room: &mut Room,
) -> Result<(), Memory>
    requires { AreRowed (row_of rules.now) units.old.units.items }
    ensures row { OnOk result (room.new.row.items ≡ row_of rules.now (word_of 0 unit.now)) }
    ensures units { AreRowed (row_of rules.now) units.new.units.items }
{
    if recall_first(units, unit, &mut room.row)? {
        return Ok(());
    }
    let source = word_at(unit, 0, room)?;
    row(rules, source.symbols(), &mut room.row)?;
    let _ = keep_unit(unit, source, units, room);
    Ok(())
}

/// A unit of transfer is matched by its first word.
fn look_at_unit(
    rules: &Rules,
    unit: &Unit,
    kept: &mut Kept,
    room: &mut Room,
) -> Result<Kind, Memory>
    requires { AllKept (row_of rules.now) kept.old }
    ensures kind { IfOk result
        (λ kind. IsKind kind room.new.row.items (unit_part rules.now rules.now.form unit.now)) }
    ensures kept { AllKept (row_of rules.now) kept.new }
{
    match rules.form {
        Form::Transfer => {
            put_first_row(rules, unit, &mut kept.units, room)?;
            Ok(Kind::Unit)
        }
        Form::Interchunk | Form::Postchunk => Ok(Kind::Other),
    }
}

/// In interchunk and postchunk a chunk is matched by its name.
fn look_at_chunk(
    rules: &Rules,
    name: &Word,
    kept: &mut Kept,
    room: &mut Room,
) -> Result<Kind, Memory>
    requires { AllKept (row_of rules.now) kept.old }
    ensures kind { IfOk result
        (λ kind. IsKind kind room.new.row.items (chunk_part rules.now rules.now.form name.now)) }
    ensures kept { AllKept (row_of rules.now) kept.new }
{
    match rules.form {
        Form::Transfer => Ok(Kind::Other),
        Form::Interchunk | Form::Postchunk => {
            put_row(rules, name, &mut kept.rows, &mut room.row, room.alloc)?;
            Ok(Kind::Unit)
        }
    }
}

/// What an item is in a match; of a unit, the row is put into the room.
pub(crate) fn look(
    rules: &Rules,
    item: &Item,
    kept: &mut Kept,
    room: &mut Room,
) -> Result<Kind, Memory>
    requires { AllKept (row_of rules.now) kept.old }
    ensures kind { IfOk result
        (λ kind. IsKind kind room.new.row.items (part_of rules.now item.now)) }
    ensures kept { AllKept (row_of rules.now) kept.new }
{
    match item {
        Item::Plain(_) => Ok(Kind::Other),
        Item::Blank(_) => Ok(Kind::Blank),
        Item::Unit(unit) => look_at_unit(rules, unit, kept, room),
        Item::Chunk(chunk) => look_at_chunk(rules, &chunk.name, kept, room),
    }
}
