ghost use Rattle.std.specs.Prelude.{◌≡◌};
ghost use Rattle.ap_symbol.specs.Kinds.{is_joint as joint_test};

use ap_symbol::Symbol;

/// What is known of a right word so far. `Kept`: it is kept however it goes on. `Lemma`: it has no
/// tag and no joint, and the set with this number has the states that read it. `Tags`: it has a tag
/// and no joint, nothing of it is taken, and the set with this number has the states that read it.
#[derive(Clone, Copy, Debug, PartialEq, Eq, Hash)]
pub(crate) enum Watch {
    Kept,
    Lemma(usize),
    Tags(usize),
}

pub(crate) fn is_joint(symbol: &Symbol) -> bool
    ensures { result ≡ joint_test symbol.now }
{
    matches!(symbol, Symbol::Join | Symbol::Queue)
}
