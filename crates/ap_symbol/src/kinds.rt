ghost use Rattle.std.specs.Prelude.{◌≡◌};
ghost use Rattle.ap_symbol.specs.Kinds.{is_tag as tag_test, is_marked as marked_test};

use crate::symbol::Symbol;

/// Whether the symbol is a tag.
pub fn is_tag(symbol: &Symbol) -> bool
    ensures { result ≡ tag_test symbol.now }
{
    matches!(symbol, Symbol::Tag(_))
}

/// Whether the word begins with `*` or `@`, the marks of an unknown and of an untranslated word. An
/// empty word doesn't.
pub fn is_marked(symbols: &[Symbol]) -> bool
    ensures { result ≡ marked_test symbols.now }
{
    match symbols {
        [] => false,
        [first, ..] => matches!(first, Symbol::Star | Symbol::At),
    }
}
