ghost use Rattle.std.specs.Prelude.{◌≡◌, IfOk, IsTrue};
ghost use Rattle.ap_symbol.specs.Recasing.{case_by, case_of_lem, change_letter, carry_lem, recase_lem};
ghost use Rattle.ap_symbol.specs.Words.{is_word_symbol};
ghost use Rattle.ap_symbol.specs.Changes.{change_lem, change_after, changed_lem};

use crate::case::{is_upper, lower, upper};
use crate::memory::Memory;
use crate::symbol::Symbol;
use crate::word::Word;
use std::alloc::Global;

/// The case of a word: none of its own, a capital at its start, or capitals throughout.
#[derive(Clone, Copy, Debug, PartialEq, Eq)]
pub enum Case {
    Low,
    First,
    All,
}

fn case_by(count: usize, first: bool, last: bool) -> Case
    ensures { result ≡ case_by count first last }
{
    if count >= 2 && first && last {
        Case::All
    } else if first {
        Case::First
    } else {
        Case::Low
    }
}

/// The case of a word. Only its letters count, and digits and marks are letters too. It is
/// `All` where there are at least two letters, the first and the last upper; otherwise `First`
/// where the first is upper; else `Low`.
pub fn case_of(word: &Word) -> Case
    ensures { result ≡ case_of_lem word.now }
{
    case_of_symbols(word.symbols())
}

/// The case of some symbols of a word, as `case_of` gives that of a word with these symbols.
pub fn case_of_symbols(symbols: &[Symbol]) -> Case
    ensures { result ≡ case_of_lem symbols.now }
{
    let mut count: usize = 0;
    let mut first_upper = false;
    let mut last_upper = false;
    for symbol in symbols {
        if let Symbol::Letter(c) = symbol {
            last_upper = is_upper(*c);
            if count == 0 {
                first_upper = last_upper;
            }
            count += 1;
        }
    }
    case_by(count, first_upper, last_upper)
}

/// What happens to a letter.
#[derive(Clone, Copy)]
pub(crate) enum Change {
    Keep,
    Lower,
    Upper,
}

impl Change {
    fn letter(self, c: char) -> char
        ensures { result ≡ change_lem self c }
    {
        match self {
            Change::Keep => c,
            Change::Lower => lower(c),
            Change::Upper => upper(c),
        }
    }

    #[tactic(auto, using(crate::proofs::Changes::change_white))]
    fn symbol(self, alloc: Global, symbol: &Symbol) -> Result<Symbol, Memory>
        requires { IsTrue (is_word_symbol symbol.now) }
        ensures value { IfOk result (λ made. made ≡ change_letter (change_lem self) symbol.now) }
        ensures word_symbol { IfOk result (λ made. IsTrue (is_word_symbol made)) }
    {
        match symbol {
            Symbol::Letter(c) => Ok(Symbol::Letter(self.letter(*c))),
            other => other.copy(alloc),
        }
    }

    /// The change from behind this symbol on.
    fn after(self, symbol: &Symbol, rest: Change) -> Change
        ensures { result ≡ change_after self symbol.now rest }
    {
        match symbol {
            Symbol::Letter(_) => rest,
            _ => self,
        }
    }
}

/// The word with one change of its first letter and another of the letters behind it.
fn changed(alloc: Global, word: &Word, first: Change, rest: Change) -> Result<Word, Memory>
    ensures { IfOk result (λ made. made ≡ changed_lem first rest word.now) }
{
    let mut made = Word::with_capacity(alloc, word.len(), word.rendered().len())?;
    let mut change = first;
    for symbol in word.symbols() {
        made.push(change.symbol(alloc, symbol)?)?;
        change = change.after(symbol, rest);
    }
    Ok(made)
}

/// The word with a case carried to it: `Low` gives it as it is, `First` puts its first letter in
/// upper case, also where that stands behind a tag, and `All` puts every letter in upper case.
/// The error means want of memory.
#[tactic(auto, using(crate::proofs::Changes::changed_each, crate::proofs::Changes::capital_alone))]
pub fn carry(alloc: Global, word: &Word, case: Case) -> Result<Word, Memory>
    ensures { IfOk result (λ made. made ≡ carry_lem case word.now) }
{
    match case {
        Case::Low => word.copy(alloc),
        Case::First => changed(alloc, word, Change::Upper, Change::Keep),
        Case::All => changed(alloc, word, Change::Upper, Change::Upper),
    }
}

/// The word put into a case: `Low` puts every letter in lower case, `First` does so and then puts
/// the first letter in upper case, and `All` puts every letter in upper case. The error means
/// want of memory.
#[tactic(auto, using(crate::proofs::Changes::changed_each, crate::proofs::Changes::capital_then_lower))]
pub fn recase(alloc: Global, word: &Word, case: Case) -> Result<Word, Memory>
    ensures { IfOk result (λ made. made ≡ recase_lem case word.now) }
{
    match case {
        Case::Low => changed(alloc, word, Change::Lower, Change::Lower),
        Case::First => changed(alloc, word, Change::Upper, Change::Lower),
        Case::All => changed(alloc, word, Change::Upper, Change::Upper),
    }
}
