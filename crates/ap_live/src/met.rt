ghost use Rattle.std.specs.Prelude.{◌≡◌, true};

use std::alloc::Global;

/// What a walk meets: of each section the states that its symbols so far lead to, in order, each
/// once.
#[derive(Debug, Drop)]
pub struct Met {
    pub standard: Vec<usize>,
    pub inconditional: Vec<usize>,
    pub postblank: Vec<usize>,
    pub preblank: Vec<usize>,
}

impl Met {
    ghost use Rattle.ap_live.specs.Walks.{IsSameMet};

    /// Whether it is the same.
    pub(crate) fn is_same(&self, other: &Met) -> bool
        ensures { result ≡ true → IsSameMet self.now other.now }
    {
        self.standard.as_slice() == other.standard.as_slice()
            && self.inconditional.as_slice() == other.inconditional.as_slice()
            && self.postblank.as_slice() == other.postblank.as_slice()
            && self.preblank.as_slice() == other.preblank.as_slice()
    }

    /// How many states there are in all sections.
    pub(crate) fn len(&self) -> usize {
        self.standard
            .len()
            .saturating_add(self.inconditional.len())
            .saturating_add(self.postblank.len())
            .saturating_add(self.preblank.len())
    }
}
