//! Rows of words that were met before. What is kept is a hint alone: what is found is compared
//! with the bytes of the word that is sought.
ghost use Rattle.std.specs.Prelude.{◌≡◌, [], List, Bool, IfOk, IfSome};
ghost use Rattle.ap_symbol.specs.declared.symbol.Symbol.{Symbol};
ghost use Rattle.ap_chunk.specs.Kept.{IsTold, IsKept, AreKept};

use crate::known::KnownUnits;
use crate::places::{KEY_MAX, PLACES, free_places, is_same, key_place, set_place};
use ap_symbol::{Memory, Word, one_rendering};
use std::alloc::Global;

/// The bytes of a word, and its row.
#[derive(Drop)]
pub(crate) struct KeptRow {
    pub(crate) key: Vec<u8>,
    pub(crate) row: Vec<bool>,
}

/// The rows of words that were met. When there are too many, all are forgotten.
#[derive(Drop)]
pub(crate) struct KeptRows {
    pub(crate) rows: Vec<KeptRow>,
    places: Vec<u32>,
}

/// The row at a number, if it is of the word with these bytes.
fn told_at<'a>(rows: &'a [KeptRow], at: usize, key: &[u8]) -> Option<&'a [bool]>
    ensures { (given : List Symbol → List Bool) → AreKept given rows.now →
        IfSome result (λ row. IsTold given key.now row.now) }
{
    if at >= rows.len() {
        return None;
    }
    let kept = &rows[at];
    if is_same(kept.key.as_slice(), key) {
        return Some(kept.row.as_slice());
    }
    None
}

pub(crate) fn copy_of_key(alloc: Global, key: &[u8]) -> Result<Vec<u8>, Memory>
    ensures { IfOk result (λ copy. copy.items ≡ key.now) }
{
    Ok(Vec::from_slice(alloc, key)?)
}

pub(crate) fn copy_of_row(alloc: Global, row: &[bool]) -> Result<Vec<bool>, Memory>
    ensures { IfOk result (λ copy. copy.items ≡ row.now) }
{
    Ok(Vec::from_slice(alloc, row)?)
}

impl KeptRows {
    /// No rows, which takes no memory.
    pub(crate) fn new(alloc: Global) -> KeptRows
        ensures { result.rows.items ≡ [] }
    {
        KeptRows {
            rows: Vec::new(alloc),
            places: Vec::new(alloc),
        }
    }

    /// The row of the word with these bytes, if it is kept.
    pub(crate) fn find(&self, key: &[u8]) -> Option<&[bool]>
        ensures { (given : List Symbol → List Bool) → AreKept given self.now.rows.items →
            IfSome result (λ row. IsTold given key.now row.now) }
    {
        match self.places.get(key_place(key)) {
            None => None,
            Some(at) => told_at(self.rows.as_slice(), *at as usize, key),
        }
    }

    /// Forgets all, where there are no places yet or as many rows as places.
    fn make_room(&mut self) -> Result<(), Memory>
        ensures { (given : List Symbol → List Bool) → AreKept given self.old.rows.items →
            AreKept given self.new.rows.items }
    {
        if self.places.len() == PLACES && self.rows.len() < PLACES {
            return Ok(());
        }
        self.rows.clear();
        free_places(&mut self.places)
    }

    /// Adds a row, unless its word is long.
    fn add(&mut self, kept: KeptRow) -> Result<(), Memory>
        ensures { (given : List Symbol → List Bool) → IsKept given kept →
            AreKept given self.old.rows.items → AreKept given self.new.rows.items }
    {
        if kept.key.len() > KEY_MAX {
            return Ok(());
        }
        self.make_room()?;
        let held = self.rows.len();
        if held >= PLACES {
            return Ok(());
        }
        let at = key_place(kept.key.as_slice());
        set_place(&mut self.places, at, held as u32);
        self.rows.push(kept)?;
        Ok(())
    }

    /// Keeps a copy of a row.
    fn keep_copy(&mut self, alloc: Global, key: &[u8], row: &[bool]) -> Result<(), Memory>
        ensures { (given : List Symbol → List Bool) → IsTold given key.now row.now →
            AreKept given self.old.rows.items → AreKept given self.new.rows.items }
    {
        let key = copy_of_key(alloc, key)?;
        let row = copy_of_row(alloc, row)?;
        self.add(KeptRow { key, row })
    }

    /// Keeps the row of a word, if there is memory for it.
    pub(crate) fn keep(&mut self, alloc: Global, word: &Word, row: &[bool])
        ensures { (given : List Symbol → List Bool) → row.now ≡ given word.now →
            AreKept given self.old.rows.items → AreKept given self.new.rows.items }
    {
        let _ = word.symbols();
        one_rendering();
        let _ = self.keep_copy(alloc, word.rendered(), row);
    }
}

/// What is kept of the items that were met: the rows of names of chunks, and the units of transfer.
#[derive(Drop)]
pub(crate) struct Kept {
    pub(crate) rows: KeptRows,
    pub(crate) units: KnownUnits,
}

impl Kept {
    /// Nothing is kept yet, which takes no memory.
    pub(crate) fn new(alloc: Global) -> Kept
        ensures rows { result.rows.rows.items ≡ [] }
        ensures units { result.units.units.items ≡ [] }
    {
        Kept {
            rows: KeptRows::new(alloc),
            units: KnownUnits::new(alloc),
        }
    }
}
