ghost use Rattle.std.specs.Prelude.{◌≡◌, IfOk};
ghost use Rattle.ap_fst.specs.Sides.{has_side};

use ap_symbol::{Memory, Sequence, Symbol};
use std::alloc::Global;

/// What an edge reads and writes: a left symbol, a right symbol, or both. One of the two is there.
#[derive(Debug, Drop)]
pub struct Label {
    pub left: Option<Symbol>,
    pub right: Option<Symbol>,
}

/// A step of a transducer from a state to a state.
#[derive(Debug, Drop)]
pub struct Edge {
    pub from: usize,
    pub label: Label,
    pub to: usize,
}

/// A list of edges.
pub type Edges = Sequence<Edge>;

/// A list of states, by number.
pub type Finals = Sequence<usize>;

fn copy_side(alloc: Global, side: &Option<Symbol>) -> Result<Option<Symbol>, Memory>
    ensures { IfOk result (λ made. made ≡ side.now) }
{
    match side {
        None => Ok(None),
        Some(symbol) => Ok(Some(symbol.copy(alloc)?)),
    }
}

impl Label {
    /// An equal label.
    pub fn copy(&self, alloc: Global) -> Result<Label, Memory>
        ensures { IfOk result (λ made. made ≡ self.now) }
    {
        Ok(Label {
            left: copy_side(alloc, &self.left)?,
            right: copy_side(alloc, &self.right)?,
        })
    }

    /// Whether one of its sides has a symbol.
    pub fn has_side(&self) -> bool
        ensures { result ≡ has_side self.now }
    {
        self.left.is_some() || self.right.is_some()
    }
}
