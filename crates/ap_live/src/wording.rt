ghost use Rattle.std.specs.Prelude.{◌≡◌, ◌↔◌, List, IfOk, IsTrue, reverse, map};
ghost use Rattle.std.specs.List.{list_all};
ghost use Rattle.std.specs.List.Sorted.{IsStrictlySortedBy};
ghost use Rattle.ap_symbol.specs.Rendering.{word_cmp};
ghost use Rattle.ap_symbol.specs.Words.{AreProper, is_proper, is_word_symbol};
ghost use Rattle.ap_symbol.specs.declared.symbol.Symbol.{Symbol};
ghost use Rattle.ap_fst.specs.Lists.{IsIn};
ghost use Rattle.ap_live.specs.Found.{in_order};
ghost use Rattle.ap_live.specs.Outputs.{WritesProper, WritesWords, is_proper_side, is_word_side};

use crate::items::Symbols;
use ap_fst::{Edge, Fst};
use ap_symbol::{Memory, Symbol, Word, compare, one_rendering};
use std::alloc::Global;

/// About as many bytes does a symbol render to: a letter to one and up to four, a tag of two
/// letters to four.
pub(crate) const SYMBOL_BYTES: usize = 4;

/// The word whose symbols are these, the last first.
pub(crate) fn word_of(alloc: Global, back: Symbols) -> Result<Word, Memory>
    requires { IsTrue (list_all is_word_symbol back) }
    ensures is { IfOk result (λ word. word ≡ reverse back) }
    ensures proper { IfOk result (λ word. AreProper word) }
{
    let len = back.len();
    let mut symbols = back.into_vec();
    let mut word = Word::with_capacity(alloc, len, len.saturating_mul(SYMBOL_BYTES))?;
    while let Some(symbol) = symbols.pop() {
        word.push(symbol)?;
    }
    let _ = word.symbols();
    Ok(word)
}

pub(crate) fn words_of(alloc: Global, backs: Vec<Symbols>) -> Result<Vec<Word>, Memory>
    requires { (back : List Symbol) → IsIn back backs.items →
        IsTrue (list_all is_word_symbol back) }
    ensures is { IfOk result (λ words. words.items ≡ map reverse backs.items) }
    ensures proper { IfOk result (λ words. (w : List Symbol) → IsIn w words.items → AreProper w) }
{
    let mut words = Vec::with_capacity(alloc, backs.len())?;
    for back in backs {
        words.push(word_of(alloc, back)?)?;
    }
    Ok(words)
}

/// Puts words into the order of their rendered bytes, each once. It takes no memory.
pub fn sort_words(words: &mut Vec<Word>)
    requires { (w : List Symbol) → IsIn w words.old.items → AreProper w }
    ensures is { words.new.items ≡ in_order words.old.items }
    ensures members { (w : List Symbol) → IsIn w words.new.items ↔ IsIn w words.old.items }
    ensures order { IsStrictlySortedBy word_cmp words.new.items }
{
    if words.len() < 2 {
        return;
    }
    one_rendering();
    words.sort_unstable_by(|a, b| compare(a, b));
    words.dedup_by(|a, b| compare(a, b).is_eq());
}

/// The words of these symbols, each given with its last symbol first, in the order of their
/// rendered bytes, each once.
pub(crate) fn ordered_words(alloc: Global, backs: Vec<Symbols>) -> Result<Vec<Word>, Memory>
    requires { (back : List Symbol) → IsIn back backs.items →
        IsTrue (list_all is_word_symbol back) }
    ensures members { IfOk result (λ words. (w : List Symbol) →
        IsIn w words.items ↔ IsIn w (map reverse backs.items)) }
    ensures order { IfOk result (λ words. IsStrictlySortedBy word_cmp words.items) }
{
    let mut words = words_of(alloc, backs)?;
    sort_words(&mut words);
    Ok(words)
}

/// Whether a word may hold the symbol. A tag of the program bears the name of a tag.
fn is_word_symbol_of(symbol: &Symbol) -> bool
    ensures word { result ≡ is_word_symbol symbol.now }
    ensures proper { result ≡ is_proper symbol.now }
{
    match symbol {
        Symbol::Letter(c) => !matches!(*c, '\t' | '\n' | '\r' | ' '),
        Symbol::Tag(name) => {
            let _ = name.text();
            true
        }
        _ => true,
    }
}

fn writes_word(edge: &Edge) -> bool
    ensures word { result ≡ is_word_side edge.now.label.right }
    ensures proper { result ≡ is_proper_side edge.now.label.right }
{
    match &edge.label.right {
        None => true,
        Some(symbol) => is_word_symbol_of(symbol),
    }
}

fn all_write(edges: &[Edge]) -> bool
    ensures words { IsTrue result
        ↔ ((e : Edge) → IsIn e edges.now → IsTrue (is_word_side e.label.right)) }
    ensures proper { IsTrue result → (e : Edge) → IsIn e edges.now →
        IsTrue (is_proper_side e.label.right) }
{
    for edge in edges {
        if !writes_word(edge) {
            return false;
        }
    }
    true
}

/// Whether no label has a white-space letter (U+0009, U+000A, U+000D, U+0020) on its right side.
/// Then each right side is proper, since the tags of the program bear names of tags.
pub fn writes_words(fst: &Fst) -> bool
    ensures words { IsTrue result ↔ WritesWords fst.now }
    ensures proper { IsTrue result → WritesProper fst.now }
{
    all_write(fst.edges())
}
