ghost use Rattle.std.specs.Prelude.{◌≡◌, ◌+◌, ◌≤◌, length, drop};
ghost use Rattle.ap_symbol.specs.Kinds.{is_join as join_test};
ghost use Rattle.ap_passes.specs.Marks.{until};
ghost use Rattle.ap_passes.specs.Sought.{test_of};

use ap_symbol::Symbol;

/// What is sought in a word.
#[derive(Clone, Copy, Debug, PartialEq, Eq)]
pub(crate) enum Sought {
    /// A tag.
    Tag,
    /// A Queue.
    Queue,
    /// What ends an invariable part: a tag or a Join.
    PartEnd,
    /// What lets a word be taken apart: a Join or a Queue.
    Joint,
}

fn is_sought(sought: Sought, symbol: &Symbol) -> bool
    ensures { result ≡ test_of sought symbol.now }
{
    match sought {
        Sought::Tag => matches!(symbol, Symbol::Tag(_)),
        Sought::Queue => matches!(symbol, Symbol::Queue),
        Sought::PartEnd => matches!(symbol, Symbol::Tag(_) | Symbol::Join),
        Sought::Joint => matches!(symbol, Symbol::Join | Symbol::Queue),
    }
}

/// The place of the first symbol that is sought, from the place `from` on; the number of symbols
/// where there is none.
pub(crate) fn place_of(symbols: &[Symbol], from: usize, sought: Sought) -> usize
    requires { from ≤ length symbols.now }
    ensures value { result ≡ from + until (test_of sought) (drop from symbols.now) }
    ensures above { from ≤ result }
    ensures within { result ≤ length symbols.now }
{
    for at in from..symbols.len() {
        if is_sought(sought, &symbols[at]) {
            return at;
        }
    }
    symbols.len()
}

pub(crate) fn is_join(symbol: &Symbol) -> bool
    ensures { result ≡ join_test symbol.now }
{
    matches!(symbol, Symbol::Join)
}
