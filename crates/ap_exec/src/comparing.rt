//! How words are compared.
ghost use Rattle.std.specs.Prelude.{◌≡◌, true, map};
ghost use Rattle.ap_symbol.specs.Fitting.{fits_lem};
ghost use Rattle.ap_exec.specs.Comparing.{same_symbols, same_words, is_begun_by, is_ended_by, holds_part, compared, compared_some};
ghost use Rattle.ap_exec.specs.Conditions.{word_in};
ghost use Rattle.ap_exec.specs.declared.comparing.Way.TheVariants.{Equals};

use crate::clips::are_apart;
use ap_rules::ListItem;
use ap_symbol::{Symbol, fits, lower};

/// What is asked of a word and another.
#[derive(Clone, Copy, Debug, PartialEq, Eq)]
pub(crate) enum Way {
    /// It is the other.
    Equals,
    /// It begins with the other.
    Begins,
    /// It ends with the other.
    Ends,
    /// It holds the other at some place.
    Contains,
}

/// Whether two symbols are equal.
fn same_exactly(s: &Symbol, t: &Symbol) -> bool
    ensures { result ≡ fits_lem true s.now t.now }
{
    !are_apart(s, t) && fits(s, t, true)
}

/// Whether two symbols are equal once their letters are in lower case.
#[tactic(auto, using(crate::proofs::SameLetters::letters_same))]
fn same_lowered(s: &Symbol, t: &Symbol) -> bool
    ensures { result ≡ same_symbols true s.now t.now }
{
    match s {
        Symbol::Letter(a) => match t {
            Symbol::Letter(b) => *a == *b || lower(*a) == lower(*b),
            _ => false,
        },
        _ => same_exactly(s, t),
    }
}

fn same_symbols(s: &Symbol, t: &Symbol, caseless: bool) -> bool
    ensures { result ≡ same_symbols caseless s.now t.now }
{
    if caseless {
        same_lowered(s, t)
    } else {
        same_exactly(s, t)
    }
}

#[tactic(auto, using(crate::proofs::SameLetters::other_lengths))]
pub(crate) fn same_words(a: &[Symbol], b: &[Symbol], caseless: bool) -> bool
    ensures { result ≡ same_words caseless a.now b.now }
{
    if a.len() != b.len() {
        return false;
    }
    if let ([s], [t]) = (a, b) {
        return same_symbols(s, t, caseless);
    }
    same_each(a, b, caseless)
}

/// Whether two words are equal symbol by symbol.
fn same_each(a: &[Symbol], b: &[Symbol], caseless: bool) -> bool
    ensures { result ≡ same_words caseless a.now b.now }
{
    let mut rest = b;
    for s in a {
        match rest.split_first() {
            None => return false,
            Some((t, more)) => {
                if !same_symbols(s, t, caseless) {
                    return false;
                }
                rest = more;
            }
        }
    }
    rest.is_empty()
}

fn is_begun_by(part: &[Symbol], word: &[Symbol], caseless: bool) -> bool
    ensures { result ≡ is_begun_by caseless part.now word.now }
{
    let mut rest = word;
    for s in part {
        match rest.split_first() {
            None => return false,
            Some((t, more)) => {
                if !same_symbols(s, t, caseless) {
                    return false;
                }
                rest = more;
            }
        }
    }
    true
}

fn is_ended_by(part: &[Symbol], word: &[Symbol], caseless: bool) -> bool
    ensures { result ≡ is_ended_by caseless part.now word.now }
{
    part.len() <= word.len() && same_words(part, &word[word.len() - part.len()..], caseless)
}

fn holds_part(part: &[Symbol], word: &[Symbol], caseless: bool) -> bool
    ensures { result ≡ holds_part caseless part.now word.now }
{
    let mut rest = word;
    'places: while let Some((_, more)) = rest.split_first() {
        if is_begun_by(part, rest, caseless) {
            return true;
        }
        rest = more;
    }
    is_begun_by(part, &[], caseless)
}

/// Whether a word is, begins with, ends with or holds another.
pub(crate) fn compared(way: Way, caseless: bool, word: &[Symbol], other: &[Symbol]) -> bool
    ensures { result ≡ compared way caseless word.now other.now }
{
    match way {
        Way::Equals => same_words(word, other, caseless),
        Way::Begins => is_begun_by(other, word, caseless),
        Way::Ends => is_ended_by(other, word, caseless),
        Way::Contains => holds_part(other, word, caseless),
    }
}

/// Whether a word is some item of a list, where items of another length are passed over.
#[tactic(auto, using(crate::proofs::SameLetters::other_lengths))]
fn is_some_item(caseless: bool, word: &[Symbol], items: &[ListItem]) -> bool
    ensures { result ≡ compared_some Equals caseless word.now (map word_in items.now) }
{
    let len = word.len();
    for item in items {
        if item.v.len() == len && same_each(word, item.v.symbols(), caseless) {
            return true;
        }
    }
    false
}

/// Whether it does so with some item of a list.
pub(crate) fn compared_some(way: Way, caseless: bool, word: &[Symbol], items: &[ListItem]) -> bool
    ensures { result ≡ compared_some way caseless word.now (map word_in items.now) }
{
    if matches!(way, Way::Equals) {
        return is_some_item(caseless, word, items);
    }
    for item in items {
        if compared(way, caseless, word, item.v.symbols()) {
            return true;
        }
    }
    false
}
