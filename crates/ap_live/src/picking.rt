ghost use Rattle.std.specs.Prelude.{◌≡◌, ◌↔◌, IsTrue, false, Some};
ghost use Rattle.std.specs.Option.{option_copied};
ghost use Rattle.ap_symbol.specs.declared.symbol.Symbol.TheVariants.{Letter};
ghost use Rattle.ap_live.specs.Fitting.{Input, pick_of, picks, fits_side};
ghost use Rattle.ap_live.specs.Spreads.{IsOther};

use ap_fst::Edge;
use ap_symbol::{Symbol, fits, lower};

/// Which edges are picked: those with an empty left side, or those that fit an input, where the
/// flag says whether case counts.
#[derive(Clone, Copy)]
pub(crate) enum Pick<'a> {
    Silent,
    Fitting(&'a Symbol, bool),
}

/// The lower partner of a letter, where it is another letter.
fn lower_other(c: char) -> Option<Symbol>
    ensures { IsOther (record { symbol = Letter c; sensitive = false }) result }
{
    if c.is_ascii_lowercase() {
        return None;
    }
    let small = lower(c);
    if small == c {
        return None;
    }
    Some(Symbol::Letter(small))
}

fn other_case(input: &Symbol, sensitive: bool) -> Option<Symbol>
    ensures { IsOther (record { symbol = input.now; sensitive = sensitive }) result }
{
    if sensitive {
        return None;
    }
    match input {
        Symbol::Letter(c) => lower_other(*c),
        _ => None,
    }
}

/// The symbol that fits the input beside the input itself: where case does not count, the lower
/// partner of an upper letter.
pub(crate) fn other_symbol(pick: Pick<'_>) -> Option<Symbol>
    ensures { (i : Input) → pick_of pick.entry ≡ Some i → IsOther i result }
{
    match pick {
        Pick::Silent => None,
        Pick::Fitting(input, sensitive) => other_case(input, sensitive),
    }
}

pub(crate) fn is_symbol(a: &Symbol, b: &Symbol) -> bool
    ensures { IsTrue result ↔ (a.now ≡ b.now) }
{
    fits(a, b, true)
}

pub(crate) fn is_letter(symbol: &Symbol) -> bool {
    matches!(symbol, Symbol::Letter(_))
}

fn is_other(symbol: &Symbol, other: Option<&Symbol>) -> bool
    ensures { IsTrue result ↔ (option_copied other.entry ≡ Some symbol.now) }
{
    match other {
        None => false,
        Some(wanted) => is_symbol(wanted, symbol),
    }
}

/// Whether the side has a symbol, and it is the input or the other that fits it.
fn is_fitting(side: &Option<Symbol>, input: &Symbol, other: Option<&Symbol>) -> bool
    ensures { (i : Input) → i.symbol ≡ input.now → IsOther i (option_copied other.entry) →
        result ≡ fits_side i side.now }
{
    match side {
        None => false,
        Some(symbol) => is_symbol(symbol, input) || is_other(symbol, other),
    }
}

/// Whether the edge is picked. `other` is the symbol that fits the input beside the input itself.
pub(crate) fn is_picked(edge: &Edge, pick: Pick<'_>, other: Option<&Symbol>) -> bool
    requires { (i : Input) → pick_of pick ≡ Some i → IsOther i (option_copied other) }
    ensures { result ≡ picks (pick_of pick.entry) edge.now }
{
    match pick {
        Pick::Silent => edge.label.left.is_none(),
        Pick::Fitting(input, _) => is_fitting(&edge.label.left, input, other),
    }
}
