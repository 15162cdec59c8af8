//! Units of transfer that were met before. Where one is sought is a hint alone: what is found is
//! compared with the bytes of the unit that is sought.
ghost use Rattle.std.specs.Prelude.{◌≡◌, [], List, Bool, IfSome};
ghost use Rattle.ap_symbol.specs.declared.symbol.Symbol.{Symbol};
ghost use Rattle.ap_chunk.specs.Known.{IsRowed, AreRowed};
ghost use Rattle.ap_chunk.specs.Parts.{word_of};
ghost use Rattle.ap_chunk.specs.Translations.{IsOf};

use crate::places::{PLACES, free_places, is_same, key_place, set_place};
use crate::translation::Translation;
use ap_stream::{Dialect, Unit};
use ap_symbol::Memory;
use std::alloc::Global;

/// A unit that was met, and the row of its source.
#[derive(Drop)]
pub(crate) struct Known {
    pub(crate) unit: Translation,
    pub(crate) row: Vec<bool>,
}

/// The units that were met. When there are too many, all are forgotten.
#[derive(Drop)]
pub(crate) struct KnownUnits {
    pub(crate) units: Vec<Known>,
    places: Vec<u32>,
}

/// The unit at a number, if these are its bytes.
fn known_at<'a>(units: &'a [Known], at: usize, key: &[u8]) -> Option<&'a Known>
    ensures keyed { IfSome result (λ known. known.now.unit ≡ key.now) }
    ensures rowed { (given : List Symbol → List Bool) → AreRowed given units.now →
        IfSome result (λ known. IsRowed given known.now) }
{
    if at >= units.len() {
        return None;
    }
    let known = &units[at];
    if is_same(known.unit.key(), key) {
        return Some(known);
    }
    None
}

impl KnownUnits {
    /// No units, which takes no memory.
    pub(crate) fn new(alloc: Global) -> KnownUnits
        ensures { result.units.items ≡ [] }
    {
        KnownUnits {
            units: Vec::new(alloc),
            places: Vec::new(alloc),
        }
    }

    /// The kept unit that has these bytes.
    fn find(&self, key: &[u8]) -> Option<&Known>
        ensures keyed { IfSome result (λ known. known.now.unit ≡ key.now) }
        ensures rowed { (given : List Symbol → List Bool) → AreRowed given self.now.units.items →
            IfSome result (λ known. IsRowed given known.now) }
    {
        match self.places.get(key_place(key)) {
            None => None,
            Some(at) => known_at(self.units.as_slice(), *at as usize, key),
        }
    }

    /// The kept unit that has the bytes of this one, if there is one.
    pub(crate) fn known(&self, unit: &Unit) -> Option<&Known>
        ensures read { IfSome result (λ known. IsOf known.now.unit unit.now) }
        ensures rowed { (given : List Symbol → List Bool) → AreRowed given self.now.units.items →
            IfSome result (λ known. known.now.row.items ≡ given (word_of 0 unit.now)) }
    {
        match unit.read_in(Dialect::Bilingual) {
            None => None,
            Some(key) => self.find(key),
        }
    }

    /// Forgets all, where there are no places yet or as many units as places.
    fn make_room(&mut self) -> Result<(), Memory>
        ensures { (given : List Symbol → List Bool) → AreRowed given self.old.units.items →
            AreRowed given self.new.units.items }
    {
        if self.places.len() == PLACES && self.units.len() < PLACES {
            return Ok(());
        }
        self.units.clear();
        free_places(&mut self.places)
    }

    /// Keeps a unit. The error means want of memory.
    pub(crate) fn keep(&mut self, known: Known) -> Result<(), Memory>
        ensures { (given : List Symbol → List Bool) → IsRowed given known →
            AreRowed given self.old.units.items → AreRowed given self.new.units.items }
    {
        self.make_room()?;
        let held = self.units.len();
        if held >= PLACES {
            return Ok(());
        }
        let at = key_place(known.unit.key());
        set_place(&mut self.places, at, held as u32);
        self.units.push(known)?;
        Ok(())
    }
}
