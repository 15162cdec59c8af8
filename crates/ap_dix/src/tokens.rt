ghost use Rattle.std.specs.Prelude.{◌≡◌, ◌++◌, List, IfOk};
ghost use Rattle.std.specs.Option.{option_map};
ghost use Rattle.ap_dix.specs.Grammar.{token_of};
ghost use Rattle.ap_dix.specs.Machines.{dash_step, member_step, class_step, outside_step, telling_step, telling_end, tokens_of};
ghost use Rattle.ap_dix.specs.Views.{telling_of};

use crate::expr::{Range, Ranges};
use crate::pieces::{Piece, is_reserved};
use ap_symbol::{Memory, Sequence};
use std::alloc::Global;

/// How often an atom may come: `*`, `+`, `?`.
#[derive(Clone, Copy, Debug)]
pub enum Repetition {
    AnyNumber,
    AtLeastOnce,
    AtMostOnce,
}

/// What an expression's text is made of: characters, classes and signs.
#[derive(Debug, Drop)]
pub enum Token {
    Character(char),
    Class(Ranges),
    Open,
    Close,
    Bar,
    Repeat(Repetition),
}

/// The member of a class that is begun: none, a character, or a character and `-`.
#[derive(Clone, Copy)]
pub enum Member {
    Fresh,
    Begun(char),
    Dashed(char),
}

/// The tokens so far, and the class that is open.
#[derive(Drop)]
struct Telling {
    made: Vec<Token>,
    class: Option<Vec<Range>>,
    member: Member,
}

fn token_of(piece: Piece) -> Option<Token>
    ensures { result ≡ token_of piece }
{
    let code = piece.code;
    if piece.escaped {
        return Some(Token::Character(code));
    }
    match code {
        '(' => Some(Token::Open),
        ')' => Some(Token::Close),
        '|' => Some(Token::Bar),
        '*' => Some(Token::Repeat(Repetition::AnyNumber)),
        '+' => Some(Token::Repeat(Repetition::AtLeastOnce)),
        '?' => Some(Token::Repeat(Repetition::AtMostOnce)),
        _ => {
            if is_reserved(code) {
                None
            } else {
                Some(Token::Character(code))
            }
        }
    }
}

fn dash_step(
    made: Vec<Token>,
    ranges: Vec<Range>,
    first: char,
    piece: Piece,
) -> Result<Option<Telling>, Memory>
    ensures { IfOk result (λ next. option_map telling_of next
        ≡ dash_step made.items ranges.items first piece) }
{
    if !piece.is_member() || piece.code < first {
        return Ok(None);
    }
    let mut ranges = ranges;
    ranges.push(Range {
        first,
        last: piece.code,
    })?;
    Ok(Some(Telling {
        made,
        class: Some(ranges),
        member: Member::Fresh,
    }))
}

fn member_step(
    made: Vec<Token>,
    ranges: Vec<Range>,
    piece: Piece,
) -> Result<Option<Telling>, Memory>
    ensures { IfOk result (λ next. option_map telling_of next
        ≡ member_step made.items ranges.items piece) }
{
    if piece.is_sign(']') {
        if ranges.is_empty() {
            return Ok(None);
        }
        let mut made = made;
        made.push(Token::Class(Sequence::from_vec(ranges)))?;
        return Ok(Some(Telling {
            made,
            class: None,
            member: Member::Fresh,
        }));
    }
    if !piece.is_member() {
        return Ok(None);
    }
    Ok(Some(Telling {
        made,
        class: Some(ranges),
        member: Member::Begun(piece.code),
    }))
}

fn class_step(
    made: Vec<Token>,
    ranges: Vec<Range>,
    member: Member,
    piece: Piece,
) -> Result<Option<Telling>, Memory>
    ensures { IfOk result (λ next. option_map telling_of next
        ≡ class_step made.items ranges.items member piece) }
{
    match member {
        Member::Fresh => member_step(made, ranges, piece),
        Member::Begun(c) => {
            if piece.is_sign('-') {
                return Ok(Some(Telling {
                    made,
                    class: Some(ranges),
                    member: Member::Dashed(c),
                }));
            }
            let mut ranges = ranges;
            ranges.push(Range { first: c, last: c })?;
            member_step(made, ranges, piece)
        }
        Member::Dashed(c) => dash_step(made, ranges, c, piece),
    }
}

fn outside_step(alloc: Global, made: Vec<Token>, piece: Piece) -> Result<Option<Telling>, Memory>
    ensures { IfOk result (λ next. option_map telling_of next ≡ outside_step made.items piece) }
{
    if piece.is_sign('[') {
        return Ok(Some(Telling {
            made,
            class: Some(Vec::new(alloc)),
            member: Member::Fresh,
        }));
    }
    match token_of(piece) {
        None => Ok(None),
        Some(token) => {
            let mut made = made;
            made.push(token)?;
            Ok(Some(Telling {
                made,
                class: None,
                member: Member::Fresh,
            }))
        }
    }
}

fn telling_step(alloc: Global, telling: Telling, piece: Piece) -> Result<Option<Telling>, Memory>
    ensures { IfOk result (λ next. option_map telling_of next
        ≡ telling_step (telling_of telling) piece) }
{
    let Telling {
        made,
        class,
        member,
    } = telling;
    match class {
        None => outside_step(alloc, made, piece),
        Some(ranges) => class_step(made, ranges, member, piece),
    }
}

fn telling_end(telling: Telling) -> Option<Vec<Token>>
    ensures { option_map (λ made. made.items) result ≡ telling_end (telling_of telling) }
{
    match telling.class {
        None => Some(telling.made),
        Some(_) => None,
    }
}

/// The tokens of these pieces; None where they have none: a class that isn't well formed, or `]` or
/// `^` outside of one.
pub fn tokens(alloc: Global, pieces: &[Piece]) -> Result<Option<Vec<Token>>, Memory>
    ensures { IfOk result (λ made. option_map (λ made. made.items) made ≡ tokens_of pieces.now) }
{
    let mut telling = Telling {
        made: Vec::new(alloc),
        class: None,
        member: Member::Fresh,
    };
    'pieces: for piece in pieces {
        match telling_step(alloc, telling, *piece)? {
            None => return Ok(None),
            Some(next) => telling = next,
        }
    }
    Ok(telling_end(telling))
}
