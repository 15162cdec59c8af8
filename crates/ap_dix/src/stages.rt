ghost use Rattle.std.specs.Prelude.{◌≡◌, ◌++◌, map, reverse, IfOk, option_to_list};
ghost use Rattle.std.specs.Option.{option_map};
ghost use Rattle.ap_dix.specs.Grammar.{symbol_of, repeated};
ghost use Rattle.ap_dix.specs.Machines.{flushed, with_atom, closed, repeat_step, close_step, bar_step, stack_step, stack_end, choices_of};
ghost use Rattle.ap_dix.specs.Plain.{plain};
ghost use Rattle.ap_dix.specs.Views.{stage_of, stack_of};

use crate::expr::{Expr, Exprs};
use crate::tokens::{Repetition, Token};
use ap_symbol::{Memory, Symbol};
use std::alloc::Global;

/// How many parentheses may be open at once.
const DEPTH_MAX: usize = 200;

/// The expressions in a parenthesis that is open, or in the whole text: the sequences that are
/// over, the factors of the one that isn't, and the atom that may still be repeated.
#[derive(Drop)]
struct Stage {
    choices: Exprs,
    factors: Exprs,
    last: Option<Expr>,
}

/// What is open: the innermost, and those around it from the outside.
#[derive(Drop)]
struct Stack {
    top: Stage,
    below: Vec<Stage>,
}

fn symbol_of(c: char) -> Symbol
    ensures { result ≡ symbol_of c }
{
    if c == ' ' {
        Symbol::Blank
    } else {
        Symbol::Letter(c)
    }
}

fn repeated(sign: Repetition, atom: Box<Expr>) -> Expr
    ensures { plain result ≡ repeated sign (plain atom.value) }
{
    match sign {
        Repetition::AnyNumber => Expr::Star(atom),
        Repetition::AtLeastOnce => Expr::Plus(atom),
        Repetition::AtMostOnce => Expr::Opt(atom),
    }
}

/// The factors, the last atom too.
fn flushed(factors: Exprs, last: Option<Expr>) -> Result<Exprs, Memory>
    ensures { IfOk result (λ all. map plain all.items ≡ map plain factors.items
        ++ option_to_list (option_map plain last)) }
{
    let mut factors = factors;
    if let Some(atom) = last {
        factors.push(atom)?;
    }
    Ok(factors)
}

fn with_atom(stage: Stage, atom: Expr) -> Result<Stage, Memory>
    ensures { IfOk result (λ next. stage_of next ≡ with_atom (stage_of stage) (plain atom)) }
{
    let Stage {
        choices,
        factors,
        last,
    } = stage;
    Ok(Stage {
        choices,
        factors: flushed(factors, last)?,
        last: Some(atom),
    })
}

/// The sequences, the one that isn't over too; None where it has no factor.
fn closed(stage: Stage) -> Result<Option<Exprs>, Memory>
    ensures { IfOk result (λ all. option_map (λ made. map plain made.items) all
        ≡ closed (stage_of stage)) }
{
    let Stage {
        mut choices,
        factors,
        last,
    } = stage;
    let factors = flushed(factors, last)?;
    if factors.is_empty() {
        return Ok(None);
    }
    choices.push(Expr::Sequence(factors))?;
    Ok(Some(choices))
}

fn repeat_step(
    alloc: Global,
    top: Stage,
    below: Vec<Stage>,
    sign: Repetition,
) -> Result<Option<Stack>, Memory>
    ensures { IfOk result (λ next. option_map stack_of next
        ≡ repeat_step (stage_of top) (reverse (map stage_of below.items)) sign
        (stage_of top).last) }
{
    let Stage {
        choices,
        mut factors,
        last,
    } = top;
    match last {
        None => Ok(None),
        Some(atom) => {
            factors.push(repeated(sign, Box::new(alloc, atom)?))?;
            let top = Stage {
                choices,
                factors,
                last: None,
            };
            Ok(Some(Stack { top, below }))
        }
    }
}

fn close_step(below: Vec<Stage>, choices: Option<Exprs>) -> Result<Option<Stack>, Memory>
    ensures { IfOk result (λ next. option_map stack_of next
        ≡ close_step (reverse (map stage_of below.items))
        (option_map (λ made. map plain made.items) choices)) }
{
    let mut below = below;
    match (below.pop(), choices) {
        (Some(outer), Some(choices)) => {
            let top = with_atom(outer, Expr::Either(choices))?;
            Ok(Some(Stack { top, below }))
        }
        _ => Ok(None),
    }
}

fn bar_step(alloc: Global, below: Vec<Stage>, choices: Option<Exprs>) -> Option<Stack>
    ensures { option_map stack_of result
        ≡ bar_step (reverse (map stage_of below.items))
        (option_map (λ made. map plain made.items) choices) }
{
    match choices {
        None => None,
        Some(choices) => {
            let top = Stage {
                choices,
                factors: Vec::new(alloc),
                last: None,
            };
            Some(Stack { top, below })
        }
    }
}

/// A further parenthesis is opened; None where 200 are open.
fn open_step(alloc: Global, stack: Stack) -> Result<Option<Stack>, Memory>
    ensures { IfOk result (λ next. option_map stack_of next
        ≡ stack_step (stack_of stack) Token.Open) }
{
    let Stack { top, mut below } = stack;
    if below.len() >= DEPTH_MAX {
        return Ok(None);
    }
    below.push(top)?;
    let top = Stage {
        choices: Vec::new(alloc),
        factors: Vec::new(alloc),
        last: None,
    };
    Ok(Some(Stack { top, below }))
}

fn atom_step(stack: Stack, atom: Expr) -> Result<Stack, Memory>
    ensures { IfOk result (λ next. stack_of next
        ≡ record {
          top = with_atom (stack_of stack).top (plain atom);
          below =
              (stack_of stack).below;
        }) }
{
    let Stack { top, below } = stack;
    Ok(Stack {
        top: with_atom(top, atom)?,
        below,
    })
}

fn stack_step(alloc: Global, stack: Stack, token: Token) -> Result<Option<Stack>, Memory>
    ensures { IfOk result (λ next. option_map stack_of next ≡ stack_step (stack_of stack) token) }
{
    match token {
        Token::Character(c) => Ok(Some(atom_step(stack, Expr::One(symbol_of(c)))?)),
        Token::Class(ranges) => Ok(Some(atom_step(stack, Expr::Class(ranges))?)),
        Token::Open => open_step(alloc, stack),
        Token::Close => {
            let Stack { top, below } = stack;
            close_step(below, closed(top)?)
        }
        Token::Bar => {
            let Stack { top, below } = stack;
            Ok(bar_step(alloc, below, closed(top)?))
        }
        Token::Repeat(sign) => {
            let Stack { top, below } = stack;
            repeat_step(alloc, top, below, sign)
        }
    }
}

fn stack_end(stack: Stack) -> Result<Option<Exprs>, Memory>
    ensures { IfOk result (λ all. option_map (λ made. map plain made.items) all
        ≡ stack_end (stack_of stack)) }
{
    let Stack { top, below } = stack;
    if below.is_empty() {
        closed(top)
    } else {
        Ok(None)
    }
}

/// The choices that the tokens are, in a loop over a stack of what is open; None where they are no
/// expression.
pub fn choices(alloc: Global, tokens: Vec<Token>) -> Result<Option<Exprs>, Memory>
    ensures { IfOk result (λ all. option_map (λ made. map plain made.items) all
        ≡ choices_of tokens.items) }
{
    let top = Stage {
        choices: Vec::new(alloc),
        factors: Vec::new(alloc),
        last: None,
    };
    let mut stack = Stack {
        top,
        below: Vec::new(alloc),
    };
    for token in tokens {
        match stack_step(alloc, stack, token)? {
            None => return Ok(None),
            Some(next) => stack = next,
        }
    }
    let choices = stack_end(stack)?;
    Ok(choices)
}
