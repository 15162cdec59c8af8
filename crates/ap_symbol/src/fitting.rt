ghost use Rattle.std.specs.Prelude.{◌≡◌, bytes_eq, IsTrue, ◌↔◌};
ghost use Rattle.ap_symbol.specs.Fitting.{Fits, fits_lem};

use crate::case::lower;
use crate::symbol::Symbol;

fn is_same_text(a: &str, b: &str) -> bool
    ensures { result ≡ bytes_eq a.now b.now }
{
    a == b
}

/// Whether a symbol of a dictionary or of a rule fits a symbol of the input: the two are equal,
/// or `sensitive` is false, both are letters and the lower partner of the input's letter is the
/// symbol's. So a lower symbol fits both cases, and an upper one fits upper case alone.
#[tactic(auto, using(crate::proofs::FittingSymbols::fits_is))]
pub fn fits(symbol: &Symbol, input: &Symbol, sensitive: bool) -> bool
    ensures value { result ≡ fits_lem sensitive symbol.now input.now }
    ensures exact { IsTrue result ↔ Fits sensitive symbol.now input.now }
{
    match (symbol, input) {
        (Symbol::Letter(s), Symbol::Letter(c)) => *s == *c || !sensitive && *s == lower(*c),
        (Symbol::Tag(s), Symbol::Tag(t)) => is_same_text(s.text(), t.text()),
        (Symbol::Blank, Symbol::Blank) => true,
        (Symbol::Join, Symbol::Join) => true,
        (Symbol::Queue, Symbol::Queue) => true,
        (Symbol::Alarm, Symbol::Alarm) => true,
        (Symbol::Star, Symbol::Star) => true,
        (Symbol::At, Symbol::At) => true,
        _ => false,
    }
}
