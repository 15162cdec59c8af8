ghost use Rattle.std.specs.Prelude.{◌≡◌, List};
ghost use Rattle.ap_symbol.specs.declared.symbol.Symbol.{Symbol};
ghost use Rattle.ap_chunk.specs.Parts.{word_of};
ghost use Rattle.ap_chunk.specs.Translations.{IsOf, IsTranslation};

use ap_exec::Divided;
use std::marker::Model;

/// The bytes of a unit, its source and its target. Contracts see the bytes.
#[derive(Drop)]
pub(crate) struct Translation {
    key: Vec<u8>,
    source: Divided,
    target: Divided,
}

impl Model for Translation {
    ghost use Rattle.std.specs.Prelude.{List, ℕ};
    ghost use Rattle.ap_chunk.specs.Translations.{IsTranslation};

    ghost Value = { List ℕ };

    ghost view = { λ t. t.key.items };

    ghost invariant = { λ t. IsTranslation t.key.items t.source t.target };
}

impl Translation {
    /// A unit with these bytes, this source and this target.
    pub(crate) fn new(key: Vec<u8>, source: Divided, target: Divided) -> Translation
        requires { IsTranslation key.items source target }
        ensures { result ≡ key.items }
    {
        Translation {
            key,
            source,
            target,
        }
    }

    /// The bytes of such a unit.
    pub(crate) fn key(&self) -> &[u8]
        ensures { result.now ≡ self.now }
    {
        self.key.as_slice()
    }

    /// The source of such a unit.
    pub(crate) fn source(&self) -> &Divided
        ensures { (words : List (List Symbol)) → IsOf self.now words →
            result.now ≡ word_of 0 words }
    {
        &self.source
    }

    /// The target of such a unit.
    pub(crate) fn target(&self) -> &Divided
        ensures { (words : List (List Symbol)) → IsOf self.now words →
            result.now ≡ word_of 1 words }
    {
        &self.target
    }
}
