ghost use Rattle.std.specs.Prelude.{◌≡◌, ◌<◌, ◌++◌, List, true, false, Ok, OnOk, length, map};
ghost use Rattle.std.specs.List.{flat_map};
ghost use Rattle.ap_symbol.specs.declared.symbol.Symbol.TheVariants.{At};
ghost use Rattle.ap_stream.specs.Spelling.{slashed};
ghost use Rattle.ap_stream.specs.declared.TheConstants.{UNIT_MAX};
ghost use Rattle.ap_live.specs.Lexicon.{lexicon_of};
ghost use Rattle.ap_lookup.specs.Lookup.{bilingual, translations, translations_by};

use crate::translation::Translation;
use crate::translator::Translator;
use crate::word_writer::WordWriter;
use ap_fst::Compiled;
use ap_stream::UNIT_MAX;
use ap_symbol::{Bytes, Memory, Word, is_marked};
use std::alloc::Global;
use std::marker::Model;

/// Writes a word with its translations (`lt-proc -b`): `^source/translation$`, several translations
/// joined by `/`. They are the heads, each followed by the symbols left over. Without a head the
/// only translation is `@` and the word, and a word that begins with `*` or `@` is its own
/// translation.
#[derive(Drop)]
pub struct BilingualWriter {
    translator: Translator,
}

impl Model for BilingualWriter {
    ghost use Rattle.ap_lookup.specs.Looking.{Looking};

    ghost Value = { Looking };

    ghost view = { λ w. w.translator };
}

/// Appends the heads, each behind a `/` and followed by the symbols left over.
fn push_heads(heads: &[Word], rest: &Word, text: &mut Bytes) -> Result<(), Memory>
    ensures { OnOk result (text.new ≡ text.old
        ++ flat_map slashed (map (λ h. h ++ rest.now) heads.now)) }
{
    for head in heads {
        text.extend(b"/")?;
        text.extend(head.rendered())?;
        text.extend(rest.rendered())?;
    }
    Ok(())
}

/// Appends the translations of a word, each behind a `/`.
fn push_translations(word: &Word, made: &Translation, text: &mut Bytes) -> Result<(), Memory>
    ensures { OnOk result (text.new ≡ text.old
        ++ flat_map slashed (translations_by word.now made.now.heads made.now.rest)) }
{
    if made.heads.is_empty() {
        text.extend(b"/@")?;
        return text.extend(word.rendered());
    }
    push_heads(made.heads.as_slice(), &made.rest, text)
}

/// Looks a word up, and appends its translations, each behind a `/`. Answers whether it did: it may
/// leave them where they have more bytes than a unit may have.
fn push_translated(
    translator: &mut Translator,
    word: &Word,
    text: &mut Bytes,
) -> Result<bool, Memory>
    ensures text { result ≡ Ok true →
        text.new ≡ text.old ++ flat_map slashed
        (translations (lexicon_of translator.old.compiled translator.old.sensitive)
        translator.old.sensitive word.now) }
    ensures long { result ≡ Ok false → UNIT_MAX < length (flat_map slashed
        (translations (lexicon_of translator.old.compiled translator.old.sensitive)
        translator.old.sensitive word.now)) }
    ensures same { translator.new ≡ translator.old }
{
    if is_marked(word.symbols()) {
        text.extend(b"/")?;
        text.extend(word.rendered())?;
        return Ok(true);
    }
    let Some(made) = translator.translate_within(word, UNIT_MAX)? else {
        return Ok(false);
    };
    push_translations(word, &made, text)?;
    Ok(true)
}

impl BilingualWriter {
    /// A writer by this dictionary. It takes no memory.
    pub fn new(alloc: Global, compiled: Compiled, sensitive: bool) -> BilingualWriter
        ensures compiled { result.compiled ≡ compiled }
        ensures sensitive { result.sensitive ≡ sensitive }
    {
        BilingualWriter {
            translator: Translator::new(alloc, compiled, sensitive),
        }
    }
}

impl WordWriter for BilingualWriter {
    ghost given = { λ w word. bilingual (lexicon_of w.compiled w.sensitive) w.sensitive word };

    fn write(&mut self, word: &Word, into: &mut Bytes) -> Result<bool, Memory> {
        into.extend(b"^")?;
        into.extend(word.rendered())?;
        if !push_translated(&mut self.translator, word, into)? {
            return Ok(false);
        }
        into.extend(b"$")?;
        Ok(true)
    }
}
