//! Words of which it is known where their lemma ends.
ghost use Rattle.std.specs.Prelude.{◌≡◌};
ghost use Rattle.ap_exec.specs.Divided.{IsDivision};

use crate::clips::{head_len, lemma_len};
use ap_symbol::Word;
use std::marker::Model;

/// How many symbols of a word stand before its first tag, and before its first queue or tag.
#[derive(Clone, Copy, Debug)]
pub(crate) struct Division {
    pub(crate) lemma: usize,
    pub(crate) head: usize,
}

/// A word of which it is known where its lemma ends. Contracts see the word.
#[derive(Debug, Drop)]
pub struct Divided {
    word: Word,
    division: Division,
}

impl Model for Divided {
    ghost use Rattle.std.specs.Prelude.{List};
    ghost use Rattle.ap_symbol.specs.declared.symbol.Symbol.{Symbol};
    ghost use Rattle.ap_exec.specs.Divided.{IsDivision};

    ghost Value = { List Symbol };

    ghost view = { λ d. d.word };

    ghost invariant = { λ d. IsDivision d.word d.division };
}

impl Divided {
    /// The word, divided. It takes no memory.
    pub fn new(word: Word) -> Divided
        ensures { result ≡ word }
    {
        let symbols = word.symbols();
        let division = Division {
            lemma: lemma_len(symbols),
            head: head_len(symbols),
        };
        Divided { word, division }
    }

    /// The word.
    pub fn word(&self) -> &Word
        ensures { result.now ≡ self.now }
    {
        &self.word
    }

    /// Where it is divided.
    pub(crate) fn division(&self) -> Division
        ensures { IsDivision self.now result }
    {
        self.division
    }
}
