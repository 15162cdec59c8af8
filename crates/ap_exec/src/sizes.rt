//! How many bytes symbols have.
ghost use Rattle.std.specs.Prelude.{◌≡◌, length, nat_le};
ghost use Rattle.ap_symbol.specs.Rendering.{is_escaped_lem, rendering, symbol_bytes};
ghost use Rattle.ap_stream.specs.declared.TheConstants.{UNIT_MAX};

use ap_stream::UNIT_MAX;
use ap_symbol::Symbol;

/// Whether a backslash stands before the letter.
fn is_escaped(c: char) -> bool
    ensures { result ≡ is_escaped_lem c }
{
    matches!(
        c,
        '^' | '$' | '/' | '<' | '>' | '{' | '}' | '\\' | '[' | ']' | '@' | '*' | '#' | '+' | '~'
    )
}

/// How many bytes a symbol has.
fn symbol_size(symbol: &Symbol) -> usize
    ensures { result ≡ length (symbol_bytes symbol.now) }
{
    match symbol {
        Symbol::Letter(c) => {
            if is_escaped(*c) {
                c.len_utf8() + 1
            } else {
                c.len_utf8()
            }
        }
        Symbol::Tag(name) => name.text().len() + 2,
        _ => 1,
    }
}

/// Whether the symbols have no more bytes than a value may have.
pub(crate) fn are_short(symbols: &[Symbol]) -> bool
    ensures { result ≡ nat_le (length (rendering symbols.now)) UNIT_MAX }
{
    let mut left = UNIT_MAX;
    for symbol in symbols {
        let size = symbol_size(symbol);
        if left < size {
            return false;
        }
        left -= size;
    }
    true
}
