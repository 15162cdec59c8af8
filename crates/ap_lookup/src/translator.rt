ghost use Rattle.std.specs.Prelude.{◌≡◌, ◌<◌, [], None, Ok, Bool, IfOk, IfSome};
ghost use Rattle.ap_symbol.specs.Alphabet.{has_letter};
ghost use Rattle.ap_live.specs.Lexicon.{lexicon_of, IsLexiconOf};
ghost use Rattle.ap_live.specs.Readings.{parted_size};
ghost use Rattle.ap_live.specs.Relations.{relation_of};
ghost use Rattle.ap_live.specs.SectionLives.{AreLive};
ghost use Rattle.ap_lookup.specs.Translation.{translation};
ghost use Rattle.ap_lookup.specs.Translating.{translated};

use crate::translation::{Translation, translate_from, translate_within};
use ap_fst::Compiled;
use ap_live::{LiveSections, compiled_has_a_lexicon};
use ap_symbol::{Memory, Word};
use std::alloc::Global;
use std::marker::Model;

/// Translates word after word by one compiled bilingual dictionary, as `translate` does. Live sets
/// are kept from word to word, with the rows that they know.
#[derive(Drop)]
pub struct Translator {
    alloc: Global,
    compiled: Compiled,
    sensitive: bool,
    /// Live sets that stand before the first symbol, if there are any.
    lives: Option<LiveSections>,
}

impl Model for Translator {
    ghost use Rattle.std.specs.Prelude.{[], IfSome};
    ghost use Rattle.ap_live.specs.SectionLives.{AreLive};
    ghost use Rattle.ap_lookup.specs.Looking.{Looking};

    ghost Value = { Looking };

    ghost view = { λ t. record { compiled = t.compiled; sensitive = t.sensitive } };

    ghost invariant = { λ t. IfSome t.lives (AreLive t.compiled t.sensitive []) };
}

/// Takes the live sets out, or begins with new ones.
pub(crate) fn take_lives(
    alloc: Global,
    compiled: &Compiled,
    kept: &mut Option<LiveSections>,
) -> Result<LiveSections, Memory>
    ensures lives { IfOk result (λ lives. (sensitive : Bool) →
        IfSome kept.old (AreLive compiled.now sensitive []) →
        AreLive compiled.now sensitive [] lives) }
    ensures none { kept.new ≡ None }
{
    match kept.take() {
        Some(lives) => Ok(lives),
        None => {
            let lives = LiveSections::start(alloc, compiled)?;
            Ok(lives)
        }
    }
}

/// Translates a word, and leaves the live sets as they were, unless it finds no memory.
fn translate_kept(
    alloc: Global,
    compiled: &Compiled,
    word: &Word,
    sensitive: bool,
    kept: &mut Option<LiveSections>,
) -> Result<Translation, Memory>
    requires { IfSome kept.old (AreLive compiled.now sensitive []) }
    ensures value { IfOk result (λ made. translated made
        ≡ translation (lexicon_of compiled.now sensitive) sensitive word.now) }
    ensures kept { IfSome kept.new (AreLive compiled.now sensitive []) }
{
    let mut lives = take_lives(alloc, compiled, kept)?;
    let made = translate_from(alloc, compiled, word, sensitive, &mut lives)?;
    lives.cut(0);
    *kept = Some(lives);
    Ok(made)
}

/// Translates a word as `translate_within` does, and leaves the live sets as they were, unless it
/// finds no memory.
fn translate_within_kept(
    alloc: Global,
    compiled: &Compiled,
    word: &Word,
    sensitive: bool,
    size: usize,
    kept: &mut Option<LiveSections>,
) -> Result<Option<Translation>, Memory>
    requires { IfSome kept.old (AreLive compiled.now sensitive []) }
    ensures value { IfOk result (λ found. IfSome found (λ made. translated made
        ≡ translation (lexicon_of compiled.now sensitive) sensitive word.now)) }
    ensures long { result ≡ Ok None → size < parted_size
        (translation (lexicon_of compiled.now sensitive) sensitive word.now).heads }
    ensures kept { IfSome kept.new (AreLive compiled.now sensitive []) }
{
    let mut lives = take_lives(alloc, compiled, kept)?;
    let made = translate_within(alloc, compiled, word, sensitive, size, &mut lives)?;
    lives.cut(0);
    *kept = Some(lives);
    Ok(made)
}

impl Translator {
    /// A translator by this dictionary, whose lexicon is that of what its sections relate. Where
    /// case counts, a symbol fits itself alone and heads keep their case. It takes no memory.
    pub fn new(alloc: Global, compiled: Compiled, sensitive: bool) -> Translator
        ensures compiled { result.compiled ≡ compiled }
        ensures sensitive { result.sensitive ≡ sensitive }
        ensures lexicon { IsLexiconOf (lexicon_of compiled sensitive) sensitive
            (has_letter compiled.alphabet) (relation_of compiled) }
    {
        compiled_has_a_lexicon(&compiled);
        Translator {
            alloc,
            compiled,
            sensitive,
            lives: None,
        }
    }

    /// The translation of a word, as `translate` gives it. The error means want of memory; the
    /// translator can be used again after it.
    pub fn translate(&mut self, word: &Word) -> Result<Translation, Memory>
        ensures value { IfOk result (λ made. translated made
            ≡ translation (lexicon_of self.old.compiled self.old.sensitive)
            self.old.sensitive word.now) }
        ensures same { self.new ≡ self.old }
    {
        translate_kept(
            self.alloc,
            &self.compiled,
            word,
            self.sensitive,
            &mut self.lives,
        )
    }
    /// The translation of a word, or none where some of its heads show that all of them have more
    /// bytes than so many, with one more byte for each. So not all are made where there are too many
    /// of them; where it gives the translation, they may have more bytes all the same. The error
    /// means want of memory; the translator can be used again after it.
    pub(crate) fn translate_within(
        &mut self,
        word: &Word,
        size: usize,
    ) -> Result<Option<Translation>, Memory>
        ensures value { IfOk result (λ found. IfSome found (λ made. translated made
            ≡ translation (lexicon_of self.old.compiled self.old.sensitive)
            self.old.sensitive word.now)) }
        ensures long { result ≡ Ok None → size < parted_size
            (translation (lexicon_of self.old.compiled self.old.sensitive)
            self.old.sensitive word.now).heads }
        ensures same { self.new ≡ self.old }
    {
        translate_within_kept(
            self.alloc,
            &self.compiled,
            word,
            self.sensitive,
            size,
            &mut self.lives,
        )
    }
}
