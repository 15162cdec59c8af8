ghost use Rattle.std.specs.Prelude.{◌≡◌, [], ◌<◌, Some, IfOk, length, slice_get};
ghost use Rattle.ap_det.specs.Numbered.{IsNumbered};

use ap_symbol::Memory;
use indexmap::IndexSet;
use std::alloc::Global;
use std::marker::Model;

/// Sets of states, as lists in ascending order, numbered from 0 on in the order in which they came.
/// Numbers are found by hashing.
#[derive(Debug, Drop)]
pub(crate) struct Sets {
    sets: IndexSet<Vec<usize>>,
}

impl Model for Sets {
    ghost use Rattle.std.specs.Prelude.{List, ℕ};
    ghost use Rattle.ap_det.specs.Numbered.{lists_of};

    ghost Value = { List (List ℕ) };

    ghost view = { λ s. lists_of s.sets.keys };
}

impl Sets {
    pub(crate) fn new(alloc: Global) -> Sets
        ensures { result ≡ [] }
    {
        Sets {
            sets: IndexSet::new(alloc),
        }
    }

    /// The set with a number.
    pub(crate) fn get(&self, number: usize) -> &[usize]
        requires { number < length self.now }
        ensures { slice_get self.now number ≡ Some result.now }
    {
        self.sets.get_index(number).unwrap().as_slice()
    }

    /// The number of a set, which is added unless it is there.
    pub(crate) fn number(&mut self, alloc: Global, set: &[usize]) -> Result<usize, Memory>
        ensures { IfOk result (λ number. IsNumbered self.old self.new set.now number) }
    {
        if let Some(number) = self.sets.get_index_of(set) {
            return Ok(number);
        }
        let owned = Vec::from_slice(alloc, set)?;
        let (number, _) = self.sets.insert_full(owned)?;
        Ok(number)
    }
}
