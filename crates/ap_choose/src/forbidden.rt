ghost use Rattle.std.specs.Prelude.{◌≡◌, ◌++◌, ◌∷◌, [], OnOk, OnErr};

use ap_symbol::{Memory, TagName};
use std::alloc::Global;
use std::marker::Model;
use thiserror::Error;

/// Two names of tags: readings whose first tags are these don't stand in a row, in this order.
#[derive(Debug, Drop)]
pub struct Pair {
    pub first: TagName,
    pub second: TagName,
}

/// Forbidden pairs of tags, in the order of their text. Contracts see the list.
#[derive(Debug, Drop)]
pub struct Forbidden {
    pairs: Vec<Pair>,
}

impl Model for Forbidden {
    ghost use Rattle.std.specs.Prelude.{List};
    ghost use Rattle.ap_choose.specs.declared.forbidden.Pair.{Pair};

    ghost Value = { List Pair };

    ghost view = { λ f. f.pairs.items };
}

/// Why no forbidden pairs were read.
#[derive(Clone, Copy, Debug, PartialEq, Eq, Error)]
pub enum PairRefusal {
    /// The line of this number, counted from 1, is the first that is neither empty nor a comment nor
    /// a pair.
    #[error("line {line} is no pair of tags")]
    BadPair { line: u64 },
    /// Want of memory.
    #[error("out of memory")]
    Memory,
}

impl From<Memory> for PairRefusal {
    ghost use Rattle.std.specs.Prelude.{◌≡◌};
    ghost use Rattle.ap_choose.specs.declared.forbidden.PairRefusal.TheVariants.{Memory as no_memory};

    ghost from_gives = { λ _ e. e ≡ no_memory };

    fn from(_e: Memory) -> PairRefusal {
        PairRefusal::Memory
    }
}

impl Forbidden {
    /// No pairs, which takes no memory.
    pub fn new(alloc: Global) -> Forbidden
        ensures { result ≡ [] }
    {
        Forbidden {
            pairs: Vec::new(alloc),
        }
    }

    /// Appends a pair. After a refusal, which means want of memory, the list is unchanged.
    pub fn push(&mut self, pair: Pair) -> Result<(), Memory>
        ensures ok { OnOk result (self.new ≡ self.old ++ pair ∷ []) }
        ensures err { OnErr result (self.new ≡ self.old) }
    {
        self.pairs.push(pair)?;
        Ok(())
    }

    /// The pairs in order.
    pub fn as_slice(&self) -> &[Pair]
        ensures { result.now ≡ self.now }
    {
        self.pairs.as_slice()
    }
}
