ghost use Rattle.std.specs.Prelude.{◌≡◌, ◌<◌, ◌^◌, ◌∷◌, [], length, slice_get, IfOk, OnOk};
ghost use Rattle.std.specs.Option.{OnSome};
ghost use Rattle.ap_fst.specs.Graphs.{place_of, Grows};

use ap_symbol::Memory;
use indexmap::IndexSet;
use std::alloc::Global;
use std::marker::Model;

/// States, each once, numbered in the order in which they came. Numbers are found by hashing.
#[derive(Debug, Drop)]
pub(crate) struct Numbering {
    states: IndexSet<usize>,
}

impl Model for Numbering {
    ghost use Rattle.std.specs.Prelude.{List, ℕ};

    ghost Value = { List ℕ };

    ghost view = { λ s. s.states.keys };
}

impl Numbering {
    /// One state.
    pub(crate) fn of(alloc: Global, state: usize) -> Result<Numbering, Memory>
        ensures { IfOk result (λ made. made ≡ state ∷ []) }
    {
        let mut states = IndexSet::new(alloc);
        states.insert(state)?;
        Ok(Numbering { states })
    }

    pub(crate) fn len(&self) -> usize
        ensures { result ≡ length self.now }
    {
        self.states.len()
    }

    /// The state with a number.
    pub(crate) fn get(&self, number: usize) -> Option<usize>
        ensures value { result ≡ slice_get self.now number }
        ensures bound { OnSome result (number < 2 ^ 63) }
    {
        if number >= self.states.len() {
            return None;
        }
        self.states.get_index(number).copied()
    }

    /// The number of a state.
    pub(crate) fn place(&self, state: usize) -> Option<usize>
        ensures { result ≡ place_of self.now state }
    {
        self.states.get_index_of(&state)
    }

    /// Adds a state, unless it is there.
    pub(crate) fn add(&mut self, state: usize) -> Result<(), Memory>
        ensures { OnOk result (Grows self.old (state ∷ []) self.new) }
    {
        self.states.insert(state)?;
        Ok(())
    }
}
