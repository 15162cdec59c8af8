ghost use Rattle.std.specs.Prelude.{◌≡◌, ◌↔◌, IsTrue};
ghost use Rattle.std.specs.Ordering.{nat_cmp};
ghost use Rattle.ap_fst.specs.Lists.{IsIn, Ascends};

use crate::fst::Fst;
use ap_symbol::Letters;
use std::marker::Model;

/// The four kinds of sections of a compiled dictionary.
#[derive(Clone, Copy, Debug, PartialEq, Eq)]
pub enum Kind2 {
    Standard,
    Inconditional,
    Postblank,
    Preblank,
}

/// The direction that a compiled dictionary was compiled in: from left to right, as for analysis,
/// from right to left, as for generation, or not told.
#[derive(Clone, Copy, Debug, PartialEq, Eq)]
pub enum Way {
    Lr,
    Rl,
    Untold,
}

/// A compiled dictionary: its alphabet, closed under case partners, its direction, and a transducer
/// for each kind of section.
#[derive(Debug, Drop)]
pub struct Compiled {
    alphabet: Letters,
    way: Way,
    standard: Fst,
    inconditional: Fst,
    postblank: Fst,
    preblank: Fst,
}

impl Model for Compiled {
    ghost use Rattle.ap_fst.specs.Sections.{Parts, IsCompiled};

    ghost Value = { Parts };

    ghost view = { λ c. record {
      alphabet = c.alphabet;
      way = c.way;
      standard =
          c.standard;
      inconditional = c.inconditional;
      postblank = c.postblank;
      preblank =
          c.preblank;
    } };

    ghost invariant = { λ c. IsCompiled
        (record {
          alphabet = c.alphabet;
          way = c.way;
          standard = c.standard;
          inconditional =
              c.inconditional;
          postblank = c.postblank;
          preblank = c.preblank;
        }) };
}

fn is_listed(letters: &[char], c: char) -> bool
    requires { Ascends nat_cmp letters.now }
    ensures { IsTrue result ↔ IsIn c letters.now }
{
    letters.binary_search(&c).is_ok()
}

impl Compiled {
    ghost use Rattle.ap_fst.specs.Sections.{Parts, IsCompiled, section_of};

    /// The compiled dictionary of these parts. It takes no memory. Each section is trimmed and has
    /// no empty cycle, no empty side and no label with Star, At, white space or a tag without the
    /// name of a tag; the alphabet ascends, is closed under case partners and holds no white space.
    pub fn new(
        alphabet: Letters,
        way: Way,
        standard: Fst,
        inconditional: Fst,
        postblank: Fst,
        preblank: Fst,
    ) -> Compiled
        requires { IsCompiled (record {
          alphabet = alphabet;
          way = way;
          standard =
              standard;
          inconditional = inconditional;
          postblank = postblank;
          preblank = preblank;
        }) }
        ensures { result ≡ record {
          alphabet = alphabet;
          way = way;
          standard =
              standard;
          inconditional = inconditional;
          postblank = postblank;
          preblank = preblank;
        } }
    {
        Compiled {
            alphabet,
            way,
            standard,
            inconditional,
            postblank,
            preblank,
        }
    }

    /// The alphabet.
    pub fn alphabet(&self) -> &Letters
        ensures value { result.now ≡ self.now.alphabet }
        ensures sound { IsCompiled self.now }
    {
        &self.alphabet
    }

    /// The direction that it was compiled in, as far as it is told. It takes no memory.
    pub fn way(&self) -> Way
        ensures value { result ≡ self.now.way }
        ensures sound { IsCompiled self.now }
    {
        self.way
    }

    /// The section of a kind.
    pub fn section(&self, kind: Kind2) -> &Fst
        ensures value { result.now ≡ section_of self.now kind }
        ensures sound { IsCompiled self.now }
    {
        match kind {
            Kind2::Standard => &self.standard,
            Kind2::Inconditional => &self.inconditional,
            Kind2::Postblank => &self.postblank,
            Kind2::Preblank => &self.preblank,
        }
    }

    /// Whether the alphabet holds the character. It is found by halving.
    pub fn is_alphabetic(&self, c: char) -> bool
        ensures { IsTrue result ↔ IsIn c self.now.alphabet }
    {
        is_listed(self.alphabet.as_slice(), c)
    }
}
