ghost use Rattle.std.specs.Prelude.{◌≡◌, ◌<◌, ◌^◌, ◌∷◌, [], slice_get, OnOk};
ghost use Rattle.std.specs.Option.{OnSome};
ghost use Rattle.ap_fst.specs.Graphs.{Grows};

use ap_symbol::Memory;
use indexmap::IndexSet;
use std::alloc::Global;
use std::marker::Model;

/// States, each once, in the order in which they came. Whether a state is there is found by
/// hashing.
#[derive(Debug, Drop)]
pub(crate) struct States {
    states: IndexSet<usize>,
}

impl Model for States {
    ghost use Rattle.std.specs.Prelude.{List, ℕ};

    ghost Value = { List ℕ };

    ghost view = { λ s. s.states.keys };
}

impl States {
    pub(crate) fn new(alloc: Global) -> States
        ensures { result ≡ [] }
    {
        States {
            states: IndexSet::new(alloc),
        }
    }

    /// The state at a place.
    pub(crate) fn get(&self, at: usize) -> Option<usize>
        ensures value { result ≡ slice_get self.now at }
        ensures bound { OnSome result (at < 2 ^ 63) }
    {
        if at >= self.states.len() {
            return None;
        }
        self.states.get_index(at).copied()
    }

    pub(crate) fn as_slice(&self) -> &[usize]
        ensures { result.now ≡ self.now }
    {
        self.states.as_slice()
    }

    /// Adds a state, unless it is there.
    pub(crate) fn add(&mut self, state: usize) -> Result<(), Memory>
        ensures { OnOk result (Grows self.old (state ∷ []) self.new) }
    {
        self.states.insert(state)?;
        Ok(())
    }
}
