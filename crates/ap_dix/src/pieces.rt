ghost use Rattle.std.specs.Prelude.{◌≡◌, IfOk};
ghost use Rattle.std.specs.Option.{option_map};
ghost use Rattle.ap_dix.specs.Grammar.{is_skipped, is_sign, is_reserved, is_member};
ghost use Rattle.ap_dix.specs.Machines.{cut_step, cut_end, pieces_of};
ghost use Rattle.ap_dix.specs.Views.{cut_of};

use ap_symbol::{Memory, is_white};
use std::alloc::Global;

/// A character of an expression's text, and whether `\` stands before it.
#[derive(Clone, Copy, Debug)]
pub struct Piece {
    pub code: char,
    pub escaped: bool,
}

fn is_skipped(c: char) -> bool
    ensures { result ≡ is_skipped c }
{
    is_white(c) && c != ' '
}

/// One of `( ) [ ] * + ? | \ ^`.
pub fn is_reserved(c: char) -> bool
    ensures { result ≡ is_reserved c }
{
    matches!(
        c,
        '(' | ')' | '[' | ']' | '*' | '+' | '?' | '|' | '\\' | '^'
    )
}

impl Piece {
    /// Whether it is this sign, and doesn't stand for itself.
    pub fn is_sign(self, sign: char) -> bool
        ensures { result ≡ is_sign sign self }
    {
        !self.escaped && self.code == sign
    }

    /// Whether it may be a member of a class.
    pub fn is_member(self) -> bool
        ensures { result ≡ is_member self }
    {
        self.escaped || (!is_reserved(self.code) && self.code != '-' && self.code != ' ')
    }
}

/// The pieces so far, and whether `\` stands before the next character.
#[derive(Drop)]
struct Cut {
    made: Vec<Piece>,
    escaping: bool,
}

/// The next character is taken; None where it can't stand there.
fn cut_step(cut: Cut, c: char) -> Result<Option<Cut>, Memory>
    ensures { IfOk result (λ next. option_map cut_of next ≡ cut_step (cut_of cut) c) }
{
    let Cut { mut made, escaping } = cut;
    if escaping {
        if is_white(c) {
            return Ok(None);
        }
        made.push(Piece {
            code: c,
            escaped: true,
        })?;
        return Ok(Some(Cut {
            made,
            escaping: false,
        }));
    }
    if c == '\\' {
        return Ok(Some(Cut {
            made,
            escaping: true,
        }));
    }
    if is_skipped(c) {
        return Ok(Some(Cut { made, escaping }));
    }
    made.push(Piece {
        code: c,
        escaped: false,
    })?;
    Ok(Some(Cut {
        made,
        escaping: false,
    }))
}

fn cut_end(cut: Cut) -> Option<Vec<Piece>>
    ensures { option_map (λ made. made.items) result ≡ cut_end (cut_of cut) }
{
    if cut.escaping { None } else { Some(cut.made) }
}

/// The pieces of a text: white space other than U+0020 is skipped, and a character behind `\`
/// stands for itself. None where `\` ends the text or stands before white space.
pub fn pieces(alloc: Global, text: &[char]) -> Result<Option<Vec<Piece>>, Memory>
    ensures { IfOk result (λ made. option_map (λ made. made.items) made ≡ pieces_of text.now) }
{
    let mut cut = Cut {
        made: Vec::new(alloc),
        escaping: false,
    };
    'text: for c in text {
        match cut_step(cut, *c)? {
            None => return Ok(None),
            Some(next) => cut = next,
        }
    }
    Ok(cut_end(cut))
}
