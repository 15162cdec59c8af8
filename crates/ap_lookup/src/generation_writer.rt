ghost use Rattle.std.specs.Prelude.{◌≡◌, ◌≤◌, ◌<◌, ◌+◌, ◌++◌, List, [], drop, length, None, Ok, true, false, OnOk, IfOk, IfSome, IsTrue, if◌then◌else◌};
ghost use Rattle.std.specs.List.{flat_map};
ghost use Rattle.ap_symbol.specs.Kinds.{is_marked as marked_test};
ghost use Rattle.ap_symbol.specs.Rendering.{rendering};
ghost use Rattle.ap_stream.specs.Spelling.{slashed};
ghost use Rattle.ap_stream.specs.declared.TheConstants.{UNIT_MAX};
ghost use Rattle.ap_live.specs.Lexicon.{lexicon_of};
ghost use Rattle.ap_live.specs.Readings.{parted_size};
ghost use Rattle.ap_live.specs.SectionLives.{AreLive};
ghost use Rattle.ap_lookup.specs.Translation.{lemma, forms_of};
ghost use Rattle.ap_lookup.specs.Lookup.{generated, formed, formless, starred, unmatched, is_star as star_test};

use crate::translation::lemma_len;
use crate::translator::take_lives;
use crate::word_writer::WordWriter;
use ap_fst::Compiled;
use ap_live::{LiveSections, any_readings_within};
use ap_stream::UNIT_MAX;
use ap_symbol::{Bytes, Memory, Symbol, Word, Words, is_marked};
use std::alloc::Global;
use std::marker::Model;

/// Bytes of forms, with one more for each, that are more than a unit may have where the forms are
/// joined: one less stands between them than there are.
const TOO_MANY: usize = UNIT_MAX + 1;

/// How a word without a form is written: with its mark and its lemma (`lt-proc -g`), without a mark
/// (`-n`), or whole with its mark (`-d`).
#[derive(Clone, Copy, Debug, PartialEq, Eq)]
pub enum Marks {
    Marked,
    Clean,
    Tagged,
}

/// Writes the forms of a word (`lt-proc -g`, `-n`, `-d`): the right words of any kind whose left
/// word fits the whole word, with the lemma's case, in order, each once, joined by `/`. A word
/// without a form, and one that begins with `*` or `@`, is written as its marks say.
#[derive(Drop)]
pub struct GenerationWriter {
    alloc: Global,
    compiled: Compiled,
    marks: Marks,
    sensitive: bool,
    /// Live sets that stand before the first symbol, if there are any.
    lives: Option<LiveSections>,
}

impl Model for GenerationWriter {
    ghost use Rattle.std.specs.Prelude.{[], IfSome};
    ghost use Rattle.ap_live.specs.SectionLives.{AreLive};
    ghost use Rattle.ap_lookup.specs.Generating.{Generating};

    ghost Value = { Generating };

    ghost view = { λ w. record {
      compiled = w.compiled;
      marks = w.marks;
      sensitive =
          w.sensitive;
    } };

    ghost invariant = { λ w. IfSome w.lives (AreLive w.compiled w.sensitive []) };
}

fn is_star(symbols: &[Symbol]) -> bool
    ensures { result ≡ star_test symbols.now }
{
    match symbols {
        [] => false,
        [first, ..] => matches!(first, Symbol::Star),
    }
}

/// Appends the symbols from this place on, up to the first tag.
fn push_lemma(alloc: Global, word: &Word, from: usize, text: &mut Bytes) -> Result<(), Memory>
    requires { from ≤ length word.now }
    ensures { OnOk result (text.new ≡ text.old ++ rendering (lemma (drop from word.now))) }
{
    let len = lemma_len(&word.symbols()[from..]);
    let part = word.part(alloc, from, from + len)?;
    text.extend(part.rendered())
}

/// Appends a word without a form.
fn push_formless(alloc: Global, marks: Marks, word: &Word, text: &mut Bytes) -> Result<(), Memory>
    ensures { OnOk result (text.new ≡ text.old ++ formless marks word.now) }
{
    match marks {
        Marks::Marked => {
            text.extend(b"#")?;
            push_lemma(alloc, word, 0, text)
        }
        Marks::Clean => push_lemma(alloc, word, 0, text),
        Marks::Tagged => {
            text.extend(b"#")?;
            text.extend(word.rendered())
        }
    }
}

/// Appends words, each behind a `/`.
fn push_slashed(words: &[Word], text: &mut Bytes) -> Result<(), Memory>
    ensures { OnOk result (text.new ≡ text.old ++ flat_map slashed words.now) }
{
    for word in words {
        text.extend(b"/")?;
        text.extend(word.rendered())?;
    }
    Ok(())
}

/// Appends words joined by `/`, or a word without a form where there are none.
fn push_formed(
    alloc: Global,
    marks: Marks,
    word: &Word,
    words: &[Word],
    text: &mut Bytes,
) -> Result<(), Memory>
    ensures { OnOk result (text.new ≡ text.old ++ formed marks word.now words.now) }
{
    match words {
        [] => push_formless(alloc, marks, word, text),
        [first, rest @ ..] => {
            text.extend(first.rendered())?;
            push_slashed(rest, text)
        }
    }
}

/// Steps over all symbols.
fn step_whole(
    compiled: &Compiled,
    sensitive: bool,
    symbols: &[Symbol],
    lives: &mut LiveSections,
) -> Result<(), Memory>
    requires { AreLive compiled.now sensitive [] lives.old }
    ensures { OnOk result (AreLive compiled.now sensitive symbols.now lives.new) }
{
    let mut at = 0;
    while at < symbols.len() {
        lives.step(compiled, &symbols[at], sensitive)?;
        at += 1;
    }
    Ok(())
}

/// The right words of any kind that fit the whole word, with the lemma's case, in order, each once,
/// or none where some of them show that all of them, joined, have more bytes than a unit may have.
/// The live sets are left as they were, unless it finds no memory.
fn forms_kept(
    alloc: Global,
    compiled: &Compiled,
    word: &Word,
    sensitive: bool,
    kept: &mut Option<LiveSections>,
) -> Result<Option<Words>, Memory>
    requires { IfSome kept.old (AreLive compiled.now sensitive []) }
    ensures value { IfOk result (λ found. IfSome found (λ words.
        words ≡ forms_of (lexicon_of compiled.now sensitive) sensitive word.now word.now)) }
    ensures long { result ≡ Ok None → UNIT_MAX + 1 < parted_size
        (forms_of (lexicon_of compiled.now sensitive) sensitive word.now word.now) }
    ensures kept { IfSome kept.new (AreLive compiled.now sensitive []) }
{
    let mut lives = take_lives(alloc, compiled, kept)?;
    let symbols = word.symbols();
    let lemma = lemma_len(symbols);
    step_whole(compiled, sensitive, symbols, &mut lives)?;
    let seen = &symbols[..lemma];
    let words = any_readings_within(alloc, compiled, sensitive, &lives, seen, TOO_MANY)?;
    lives.cut(0);
    *kept = Some(lives);
    Ok(words)
}

/// Appends a word that begins with `*`.
fn push_starred(alloc: Global, marks: Marks, word: &Word, text: &mut Bytes) -> Result<(), Memory>
    requires { 0 < length word.now }
    ensures { OnOk result (text.new ≡ text.old ++ starred marks word.now) }
{
    match marks {
        Marks::Clean => {
            let part = word.part(alloc, 1, word.len())?;
            text.extend(part.rendered())
        }
        Marks::Marked | Marks::Tagged => text.extend(word.rendered()),
    }
}

/// Appends a word that begins with `@`.
fn push_unmatched(alloc: Global, marks: Marks, word: &Word, text: &mut Bytes) -> Result<(), Memory>
    requires { 0 < length word.now }
    ensures { OnOk result (text.new ≡ text.old ++ unmatched marks word.now) }
{
    match marks {
        Marks::Marked => {
            text.extend(b"@")?;
            push_lemma(alloc, word, 1, text)
        }
        Marks::Clean => push_lemma(alloc, word, 1, text),
        Marks::Tagged => text.extend(word.rendered()),
    }
}

/// Appends a word that begins with `*` or `@`.
fn push_marked(alloc: Global, marks: Marks, word: &Word, text: &mut Bytes) -> Result<(), Memory>
    requires { IsTrue (marked_test word.now) }
    ensures { OnOk result (text.new ≡ text.old
        ++ (if star_test word.now then starred marks word.now else unmatched marks word.now)) }
{
    if is_star(word.symbols()) {
        return push_starred(alloc, marks, word, text);
    }
    push_unmatched(alloc, marks, word, text)
}

/// Appends what a word gives, and answers whether it did: it may leave forms that have more bytes
/// than a unit may have.
fn push_generated(
    alloc: Global,
    compiled: &Compiled,
    marks: Marks,
    word: &Word,
    sensitive: bool,
    kept: &mut Option<LiveSections>,
    text: &mut Bytes,
) -> Result<bool, Memory>
    requires { IfSome kept.old (AreLive compiled.now sensitive []) }
    ensures text { result ≡ Ok true → text.new ≡ text.old
        ++ generated (lexicon_of compiled.now sensitive) marks sensitive word.now }
    ensures long { result ≡ Ok false → UNIT_MAX
        < length (generated (lexicon_of compiled.now sensitive) marks sensitive word.now) }
    ensures kept { IfSome kept.new (AreLive compiled.now sensitive []) }
{
    if is_marked(word.symbols()) {
        push_marked(alloc, marks, word, text)?;
        return Ok(true);
    }
    let Some(words) = forms_kept(alloc, compiled, word, sensitive, kept)? else {
        return Ok(false);
    };
    push_formed(alloc, marks, word, words.as_slice(), text)?;
    Ok(true)
}

impl GenerationWriter {
    /// A writer by this dictionary, which was compiled from right to left. It takes no memory.
    pub fn new(alloc: Global, compiled: Compiled, marks: Marks, sensitive: bool) -> GenerationWriter
        ensures compiled { result.compiled ≡ compiled }
        ensures marks { result.marks ≡ marks }
        ensures sensitive { result.sensitive ≡ sensitive }
    {
        GenerationWriter {
            alloc,
            compiled,
            marks,
            sensitive,
            lives: None,
        }
    }
}

impl WordWriter for GenerationWriter {
    ghost given = { λ w word. generated (lexicon_of w.compiled w.sensitive) w.marks
        w.sensitive word };

    fn write(&mut self, word: &Word, into: &mut Bytes) -> Result<bool, Memory> {
        push_generated(
            self.alloc,
            &self.compiled,
            self.marks,
            word,
            self.sensitive,
            &mut self.lives,
            into,
        )
    }
}
