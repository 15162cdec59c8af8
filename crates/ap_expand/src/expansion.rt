ghost use Rattle.std.specs.Prelude.{◌≡◌, ◌∷◌, [], true, false, IfOk, OnErr};
ghost use Rattle.ap_dix.specs.Soundness.{IsSound};
ghost use Rattle.ap_expand.specs.Lines.{lines};

use crate::search::{Search, find};
use ap_dix::Dictionary;
use ap_symbol::{Bytes, Memory};
use std::alloc::Global;
use std::marker::Model;

/// The lines of a dictionary that are still to come (`lt-expand`, in the Apertium dictionary
/// format), which contracts see as the list of their bytes.
///
/// It holds a place in each list of entries that is open, so its memory is in proportion to the
/// parts of one way through the dictionary, and not to the number of its lines.
#[derive(Drop)]
pub struct Expansion<'a> {
    alloc: Global,
    search: Search<'a>,
}

impl<'a> Model for Expansion<'a> {
    ghost use Rattle.std.specs.Prelude.{List, ℕ};
    ghost use Rattle.ap_expand.specs.Search.{lines_among};
    ghost use Rattle.ap_expand.specs.Places.{search_trace, IsSearch};

    ghost Value = { List (List ℕ) };

    ghost view = { λ e. lines_among (search_trace e.search) };

    ghost invariant = { λ e. IsSearch e.search };
}

impl<'a> Expansion<'a> {
    /// All lines of the dictionary, which is sound. Refused only for want of memory.
    pub fn new(alloc: Global, dictionary: &'a Dictionary) -> Result<Expansion<'a>, Memory>
        requires { IsSound dictionary.now }
        ensures { IfOk result (λ made. made ≡ lines dictionary.now) }
    {
        let search = Search::new(
            alloc,
            dictionary.pardefs.as_slice(),
            dictionary.sections.as_slice(),
        )?;
        Ok(Expansion { alloc, search })
    }

    /// Puts the next line into `line`, without an end, and answers true; or answers false, where no
    /// line is left, and empties `line`.
    ///
    /// After a refusal, which means want of memory, `line` is empty, and the same line comes next.
    pub fn next(&mut self, line: &mut Bytes) -> Result<bool, Memory>
        ensures found { IfOk result (λ found. found ≡ true → self.old ≡ line.new ∷ self.new) }
        ensures end { IfOk result (λ found. found ≡ false → (self.old ≡ []) × (self.new ≡ [])
            × (line.new ≡ [])) }
        ensures same { OnErr result (self.new ≡ self.old) }
        ensures emptied { OnErr result (line.new ≡ []) }
    {
        find(self.alloc, &mut self.search, line)
    }
}
