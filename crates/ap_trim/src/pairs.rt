ghost use Rattle.std.specs.Prelude.{◌≡◌, [], ◌<◌, Some, IfOk, length, slice_get};
ghost use Rattle.ap_trim.specs.Numbers.{HasNumber};

use crate::watch::Watch;
use ap_symbol::Memory;
use indexmap::IndexSet;
use std::alloc::Global;
use std::marker::Model;

/// A state of the analyser, and what is known of the right word by which it was reached.
#[derive(Clone, Copy, Debug, PartialEq, Eq, Hash)]
pub(crate) struct Pair {
    pub(crate) state: usize,
    pub(crate) watch: Watch,
}

/// Pairs, numbered from 0 on in the order in which they came. Numbers are found by hashing.
#[derive(Debug, Drop)]
pub(crate) struct Pairs {
    pairs: IndexSet<Pair>,
}

impl Model for Pairs {
    ghost use Rattle.std.specs.Prelude.{List};
    ghost use Rattle.ap_trim.specs.declared.pairs.Pair.{Pair};

    ghost Value = { List Pair };

    ghost view = { λ p. p.pairs.keys };
}

impl Pairs {
    pub(crate) fn new(alloc: Global) -> Pairs
        ensures { result ≡ [] }
    {
        Pairs {
            pairs: IndexSet::new(alloc),
        }
    }

    pub(crate) fn len(&self) -> usize
        ensures { result ≡ length self.now }
    {
        self.pairs.len()
    }

    /// The pair with a number.
    pub(crate) fn get(&self, number: usize) -> Pair
        requires { number < length self.now }
        ensures { slice_get self.now number ≡ Some result }
    {
        *self.pairs.get_index(number).unwrap()
    }

    /// The number of a pair, which is added unless it is there.
    pub(crate) fn number(&mut self, pair: Pair) -> Result<usize, Memory>
        ensures { IfOk result (λ number. HasNumber self.old self.new pair number) }
    {
        let (number, _) = self.pairs.insert_full(pair)?;
        Ok(number)
    }
}
