//! Symbols put into a case, behind those of a word.
ghost use Rattle.std.specs.Prelude.{◌≡◌, ◌++◌, IfOk, OnOk, IsTrue};
ghost use Rattle.ap_symbol.specs.Recasing.{recase_lem, change_letter};
ghost use Rattle.ap_symbol.specs.Words.{AreProper, is_word_symbol};
ghost use Rattle.ap_exec.specs.Recased.{letter_by, case_behind, recased_by};

use ap_symbol::{Case, Memory, Symbol, Word, lower, upper};
use std::alloc::Global;

fn put_letter(up: bool, c: char) -> char
    ensures { result ≡ letter_by up c }
{
    if up { upper(c) } else { lower(c) }
}

/// A symbol, a letter in upper or in lower case.
#[tactic(auto, using(crate::proofs::Recased::white_stays))]
fn put_symbol(alloc: Global, up: bool, symbol: &Symbol) -> Result<Symbol, Memory>
    requires { IsTrue (is_word_symbol symbol.now) }
    ensures value { IfOk result (λ made. made ≡ change_letter (letter_by up) symbol.now) }
    ensures word_symbol { IfOk result (λ made. IsTrue (is_word_symbol made)) }
{
    match symbol {
        Symbol::Letter(c) => Ok(Symbol::Letter(put_letter(up, *c))),
        other => other.copy(alloc),
    }
}

/// The case from behind this symbol on.
fn behind(up: bool, symbol: &Symbol, rest: bool) -> bool
    ensures { result ≡ case_behind up symbol.now rest }
{
    match symbol {
        Symbol::Letter(_) => rest,
        _ => up,
    }
}

/// Appends symbols, the first letter in one case and the letters behind it in another.
fn append_by(
    alloc: Global,
    first: bool,
    rest: bool,
    symbols: &[Symbol],
    into: &mut Word,
) -> Result<(), Memory>
    requires { AreProper symbols.now }
    ensures { OnOk result (into.new ≡ into.old ++ recased_by first rest symbols.now) }
{
    let mut up = first;
    for symbol in symbols {
        into.push(put_symbol(alloc, up, symbol)?)?;
        up = behind(up, symbol, rest);
    }
    Ok(())
}

/// Appends symbols, put into a case.
#[tactic(auto, using(crate::proofs::Recased::low_is, crate::proofs::Recased::first_is, crate::proofs::Recased::all_is))]
pub(crate) fn append_recased(
    alloc: Global,
    case: Case,
    symbols: &[Symbol],
    into: &mut Word,
) -> Result<(), Memory>
    requires { AreProper symbols.now }
    ensures { OnOk result (into.new ≡ into.old ++ recase_lem case symbols.now) }
{
    match case {
        Case::Low => append_by(alloc, false, false, symbols, into),
        Case::First => append_by(alloc, true, false, symbols, into),
        Case::All => append_by(alloc, true, true, symbols, into),
    }
}
