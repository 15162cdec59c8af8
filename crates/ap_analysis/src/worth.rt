/// After so many searches it is seen anew whether steps are worth keeping.
const WINDOW: u32 = 1024;

/// Where steps are sparse, one word in so many is looked for.
const STRIDE: u32 = 5;

/// Whether steps are worth keeping: each, unless few of the last words were recalled.
#[derive(Drop)]
pub(crate) struct Worth {
    recalled: u32,
    missed: u32,
    turn: u32,
    sparse: bool,
}

impl Worth {
    pub(crate) fn new() -> Worth {
        Worth {
            recalled: 0,
            missed: 0,
            turn: 0,
            sparse: false,
        }
    }

    /// Counts a step that was recalled, which used so many items.
    pub(crate) fn count(&mut self, used: usize) {
        if used > 1 {
            self.recalled = self.recalled.saturating_add(1);
        }
    }

    /// Whether the next word is looked for among the steps that are kept.
    pub(crate) fn is_asked(&mut self) -> bool {
        if !self.sparse {
            return true;
        }
        self.turn = self.turn.wrapping_add(1);
        self.turn % STRIDE == 0
    }

    /// Counts a step that was recalled, which used so many items, for all that weren't looked for.
    pub(crate) fn count_asked(&mut self, used: usize) {
        if used > 1 {
            let more = if self.sparse { STRIDE } else { 1 };
            self.recalled = self.recalled.saturating_add(more);
        }
    }

    /// Whether each step that is searched is kept.
    pub(crate) fn is_dense(&self) -> bool {
        !self.sparse
    }

    /// Counts a step that was searched, and answers whether it is worth keeping.
    pub(crate) fn is_worth(&mut self) -> bool {
        self.missed = self.missed.wrapping_add(1);
        if self.missed >= WINDOW {
            self.sparse = self.recalled < WINDOW / 2;
            self.recalled = 0;
            self.missed = 0;
        }
        !self.sparse || self.missed % 8 == 0
    }
}
