ghost use Rattle.std.specs.Prelude.{◌≡◌, IfOk};
ghost use Rattle.ap_dix.specs.Machines.{expression};

use crate::expr::Expr;
use crate::expression::Expression;
use crate::pieces::pieces;
use crate::stages::choices;
use crate::tokens::tokens;
use ap_symbol::Memory;
use std::alloc::Global;

/// The expression that a text is; None where it is none. It takes time and memory in proportion to
/// the text, and calls nest as little as a parenthesis does in it: 200 deep at most.
pub fn read_expression(alloc: Global, text: &[char]) -> Result<Option<Expression>, Memory>
    ensures { IfOk result (λ made. made ≡ expression text.now) }
{
    let Some(pieces) = pieces(alloc, text)? else {
        return Ok(None);
    };
    let Some(tokens) = tokens(alloc, pieces.as_slice())? else {
        return Ok(None);
    };
    let Some(choices) = choices(alloc, tokens)? else {
        return Ok(None);
    };
    Ok(Some(Expression::from_tree(Expr::Either(choices))))
}
