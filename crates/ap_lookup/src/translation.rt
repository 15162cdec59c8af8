ghost use Rattle.std.specs.Prelude.{◌≡◌, ℕ, ◌+◌, ◌-◌, ◌<◌, ◌≤◌, Bool, true, false, None, Ok, List, [], ◌∷◌, ◌++◌, length, take, IfOk, IfSome, OnOk, OnErr};
ghost use Rattle.ap_symbol.specs.Alphabet.{has_letter};
ghost use Rattle.ap_symbol.specs.declared.symbol.Symbol.{Symbol};
ghost use Rattle.ap_live.specs.Greatest.{greatest};
ghost use Rattle.ap_live.specs.Lexicon.{lexicon_of, IsLexiconOf};
ghost use Rattle.ap_live.specs.Readings.{parted_size};
ghost use Rattle.ap_live.specs.Relations.{relation_of};
ghost use Rattle.ap_live.specs.SectionLives.{AreLive};
ghost use Rattle.ap_lookup.specs.Matching.{is_match};
ghost use Rattle.ap_lookup.specs.Translation.{lemma_length, untaken, translation, translated_at};
ghost use Rattle.ap_lookup.specs.Translating.{translated};

use ap_fst::Compiled;
use ap_live::{LiveSections, any_readings, any_readings_within, compiled_has_a_lexicon};
use ap_symbol::{Memory, Symbol, Word, Words, is_marked, is_tag};
use std::alloc::Global;

/// The right words of the part of a word that was found, in the order of words, each once, and the
/// symbols left over behind that part.
#[derive(Debug, Drop)]
pub struct Translation {
    pub heads: Words,
    pub rest: Word,
}

/// How many symbols stand before the first tag.
pub(crate) fn lemma_len(symbols: &[Symbol]) -> usize
    ensures value { result ≡ lemma_length symbols.now }
    ensures within { result ≤ length symbols.now }
{
    let mut at = 0;
    while at < symbols.len() {
        if is_tag(&symbols[at]) {
            return at;
        }
        at += 1;
    }
    at
}

/// Goes on by a symbol behind so many others, if all of them fit a beginning of a left word, and
/// answers whether they do.
pub(crate) fn step_one(
    compiled: &Compiled,
    sensitive: bool,
    symbol: &Symbol,
    at: usize,
    lives: &mut LiveSections,
) -> Result<bool, Memory>
    ensures on { result ≡ Ok true → (symbols : List Symbol) →
        AreLive compiled.now sensitive symbols lives.old →
        AreLive compiled.now sensitive (symbols ++ symbol.now ∷ []) lives.new
        × ((lexicon_of compiled.now sensitive).viable (symbols ++ symbol.now ∷ []) ≡ true) }
    ensures off { result ≡ Ok false → (symbols : List Symbol) → length symbols ≡ at →
        AreLive compiled.now sensitive symbols lives.old →
        AreLive compiled.now sensitive symbols lives.new
        × ((lexicon_of compiled.now sensitive).viable (symbols ++ symbol.now ∷ []) ≡ false) }
    ensures err { OnErr result ((symbols : List Symbol) →
        AreLive compiled.now sensitive symbols lives.old →
        AreLive compiled.now sensitive symbols lives.new) }
{
    lives.step(compiled, symbol, sensitive)?;
    if lives.is_dead(compiled) {
        lives.cut(at);
        return Ok(false);
    }
    Ok(true)
}

/// Steps over the symbols while they fit a beginning of a left word, and answers how many do.
fn step_all(
    compiled: &Compiled,
    sensitive: bool,
    symbols: &[Symbol],
    lives: &mut LiveSections,
) -> Result<usize, Memory>
    requires { AreLive compiled.now sensitive [] lives.old }
    ensures lives { IfOk result
        (λ n. AreLive compiled.now sensitive (take n symbols.now) lives.new) }
    ensures within { IfOk result (λ n. n ≤ length symbols.now) }
    ensures ends { IfOk result (λ n. (m : ℕ) → n < m → m ≤ length symbols.now →
        (lexicon_of compiled.now sensitive).viable (take m symbols.now) ≡ false) }
{
    let _ = compiled.alphabet();
    let mut at = 0;
    while at < symbols.len() {
        let fits = step_one(compiled, sensitive, &symbols[at], at, lives)?;
        if !fits {
            return Ok(at);
        }
        at += 1;
    }
    Ok(at)
}

/// Goes back to the longest front, of at least so many symbols, that fits a left word.
pub(crate) fn step_down(
    compiled: &Compiled,
    sensitive: bool,
    symbols: &[Symbol],
    least: usize,
    from: usize,
    lives: &mut LiveSections,
) -> usize
    requires lives { AreLive compiled.now sensitive (take from symbols.now) lives.old }
    requires within { from ≤ length symbols.now }
    ensures value { result ≡ greatest
        (is_match (lexicon_of compiled.now sensitive) least symbols.now) from }
    ensures within { result ≤ from }
    ensures kept { (seen : List Symbol) × AreLive compiled.now sensitive seen lives.new }
    ensures lives { 0 < result →
        AreLive compiled.now sensitive (take result symbols.now) lives.new }
    ensures none { result ≡ 0 → least ≤ from + 1 →
        AreLive compiled.now sensitive (take (least - 1) symbols.now) lives.new }
{
    let mut at = from;
    while at > 0 {
        if at < least {
            return 0;
        }
        if lives.reads_any(compiled) {
            return at;
        }
        at -= 1;
        lives.cut(at);
    }
    0
}

/// No head, and the whole word left over.
fn untranslated(alloc: Global, word: &Word) -> Result<Translation, Memory>
    ensures { IfOk result (λ made. translated made ≡ untaken word.now) }
{
    Ok(Translation {
        heads: Words::new(alloc),
        rest: word.copy(alloc)?,
    })
}

/// Goes on to the end of the prefix of a word that is taken, from before its first symbol, and
/// answers how many symbols that has: 0 where none is taken.
fn step_to_prefix(
    compiled: &Compiled,
    word: &Word,
    sensitive: bool,
    lemma: usize,
    lives: &mut LiveSections,
) -> Result<usize, Memory>
    requires lives { AreLive compiled.now sensitive [] lives.old }
    requires lemma { lemma ≡ lemma_length word.now }
    ensures value { IfOk result (λ n. translated_at (lexicon_of compiled.now sensitive) sensitive
        word.now n ≡ translation (lexicon_of compiled.now sensitive) sensitive word.now) }
    ensures within { IfOk result (λ n. n ≤ length word.now) }
    ensures lives { IfOk result (λ n. 0 < n →
        AreLive compiled.now sensitive (take n word.now) lives.new) }
    ensures kept { OnOk result
        ((seen : List Symbol) × AreLive compiled.now sensitive seen lives.new) }
{
    let _ = compiled.alphabet();
    let symbols = word.symbols();
    if is_marked(symbols) {
        return Ok(0);
    }
    let viable = step_all(compiled, sensitive, symbols, lives)?;
    let taken = step_down(compiled, sensitive, symbols, lemma, viable, lives);
    Ok(taken)
}

/// The translation of a word, with live sets that stand before its first symbol.
pub(crate) fn translate_from(
    alloc: Global,
    compiled: &Compiled,
    word: &Word,
    sensitive: bool,
    lives: &mut LiveSections,
) -> Result<Translation, Memory>
    requires { AreLive compiled.now sensitive [] lives.old }
    ensures value { IfOk result (λ made. translated made
        ≡ translation (lexicon_of compiled.now sensitive) sensitive word.now) }
    ensures kept { OnOk result
        ((seen : List Symbol) × AreLive compiled.now sensitive seen lives.new) }
{
    let symbols = word.symbols();
    let lemma = lemma_len(symbols);
    let taken = step_to_prefix(compiled, word, sensitive, lemma, lives)?;
    if taken == 0 {
        let whole = untranslated(alloc, word)?;
        return Ok(whole);
    }
    let heads = any_readings(alloc, compiled, sensitive, lives, &symbols[..lemma])?;
    let rest = word.part(alloc, taken, word.len())?;
    Ok(Translation { heads, rest })
}

/// The translation of a word, or none where some of its heads show that all of them have more bytes
/// than so many, with one more byte for each. The live sets stand before the first symbol.
pub(crate) fn translate_within(
    alloc: Global,
    compiled: &Compiled,
    word: &Word,
    sensitive: bool,
    size: usize,
    lives: &mut LiveSections,
) -> Result<Option<Translation>, Memory>
    requires { AreLive compiled.now sensitive [] lives.old }
    ensures value { IfOk result (λ found. IfSome found (λ made. translated made
        ≡ translation (lexicon_of compiled.now sensitive) sensitive word.now)) }
    ensures long { result ≡ Ok None → size < parted_size
        (translation (lexicon_of compiled.now sensitive) sensitive word.now).heads }
    ensures kept { OnOk result
        ((seen : List Symbol) × AreLive compiled.now sensitive seen lives.new) }
{
    let symbols = word.symbols();
    let lemma = lemma_len(symbols);
    let taken = step_to_prefix(compiled, word, sensitive, lemma, lives)?;
    if taken == 0 {
        let whole = untranslated(alloc, word)?;
        return Ok(Some(whole));
    }
    let seen = &symbols[..lemma];
    let Some(heads) = any_readings_within(alloc, compiled, sensitive, lives, seen, size)? else {
        return Ok(None);
    };
    let rest = word.part(alloc, taken, word.len())?;
    Ok(Some(Translation { heads, rest }))
}

/// The translation of a word by a compiled bilingual dictionary. Of the prefixes of the word that
/// hold its whole lemma (what stands before its first tag) and fit a left word of any kind, the
/// longest is taken: `heads` are its right words with the lemma's case, in the order of words, each
/// once, and `rest` is what follows it. Without such a prefix, and for a word that begins with `*`
/// or `@`, there is no head, and the whole word is left. Where case counts, a symbol fits itself
/// alone and heads keep their case. The error means want of memory.
///
/// The lexicon is that of what the sections of the dictionary relate; which words are heads is said
/// by `heads_are_exact`. Where many words are translated, a `Translator` costs less.
pub fn translate(
    alloc: Global,
    compiled: &Compiled,
    word: &Word,
    sensitive: bool,
) -> Result<Translation, Memory>
    ensures value { IfOk result (λ made. translated made
        ≡ translation (lexicon_of compiled.now sensitive) sensitive word.now) }
    ensures lexicon { IsLexiconOf (lexicon_of compiled.now sensitive) sensitive
        (has_letter compiled.now.alphabet) (relation_of compiled.now) }
{
    compiled_has_a_lexicon(compiled);
    let mut lives = LiveSections::start(alloc, compiled)?;
    translate_from(alloc, compiled, word, sensitive, &mut lives)
}
