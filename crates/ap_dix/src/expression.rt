ghost use Rattle.std.specs.Prelude.{◌≡◌};
ghost use Rattle.ap_dix.specs.Plain.{plain};

use crate::expr::Expr;
use std::marker::Model;

/// An expression of a dictionary, which contracts see as its plain tree.
#[derive(Debug, Drop)]
pub struct Expression {
    tree: Expr,
}

impl Model for Expression {
    ghost use Rattle.ap_dix.specs.Forms.{Form};
    ghost use Rattle.ap_dix.specs.Plain.{plain};
    ghost use Rattle.ap_dix.specs.Codes.{form_code};

    ghost Value = { Form };

    ghost coded = { form_code };

    ghost view = { λ e. plain e.tree };
}

impl Expression {
    /// The expression of a tree, which takes no memory.
    pub fn from_tree(tree: Expr) -> Expression
        ensures { result ≡ plain tree }
    {
        Expression { tree }
    }

    /// Its tree.
    pub fn tree(&self) -> &Expr
        ensures { plain result.now ≡ self.now }
    {
        &self.tree
    }
}
