ghost use Rattle.std.specs.Prelude.{◌≡◌, ◌↔◌, ◌+◌, ◌<◌, ◌≤◌, length, IfOk, IsTrue, take};
ghost use Rattle.std.specs.Ordering.{nat_cmp};
ghost use Rattle.ap_symbol.specs.Alphabet.{has_letter, is_closed};
ghost use Rattle.ap_fst.specs.Lists.{Ascends};
ghost use Rattle.ap_binary.specs.Reading.{Gives};
ghost use Rattle.ap_binary.specs.Pieces.{begins_with, next_letter_at, letters_in, alphabet_at};

use crate::pieces::{after_byte, after_word, character};
use crate::refusal::CutError;
use ap_symbol::{Letters, partner};
use std::alloc::Global;

fn begins_with(byte: u8, bytes: &[u8]) -> bool
    ensures { result ≡ begins_with byte bytes.now }
{
    match bytes {
        [] => false,
        [first, ..] => *first == byte,
    }
}

/// A space and a letter that is no less than `least`.
#[tactic(auto, unfolding(crate::specs::Pieces::next_letter_at))]
fn next_letter(least: u32, bytes: &[u8]) -> Result<(char, &[u8]), CutError>
    ensures gives { Gives (λ x. (x.0, x.1.now)) result (next_letter_at least bytes.now) }
    ensures shorter { IfOk result (λ x. length x.1.now < length bytes.now) }
{
    let rest = after_byte(b' ', bytes)?;
    let (letter, rest) = character(rest)?;
    if least <= letter as u32 {
        Ok((letter, rest))
    } else {
        Err(CutError::Bad)
    }
}

fn letters(alloc: Global, bytes: &[u8]) -> Result<(Letters, &[u8]), CutError>
    ensures gives { Gives (λ x. (x.0, x.1.now)) result (letters_in (length bytes.now) 0 bytes.now) }
    ensures shorter { IfOk result (λ x. length x.1.now ≤ length bytes.now) }
{
    let mut found = Letters::new(alloc);
    let mut least = 0;
    let mut rest = bytes;
    'letters: while begins_with(b' ', rest) {
        let (letter, after) = next_letter(least, rest)?;
        found.push(letter)?;
        least = letter as u32 + 1;
        rest = after;
    }
    Ok((found, rest))
}

fn is_listed(letters: &[char], c: char) -> bool
    requires { Ascends nat_cmp letters.now }
    ensures { result ≡ has_letter letters.now c }
{
    letters.binary_search(&c).is_ok()
}

/// Whether the partner of each letter is one of them.
fn is_closed(letters: &[char]) -> bool
    requires { Ascends nat_cmp letters.now }
    ensures { result ≡ is_closed letters.now }
{
    'letters: for letter in letters {
        if !is_listed(letters, partner(*letter)) {
            return false;
        }
    }
    true
}

/// The line of the alphabet, with its end.
#[tactic(auto, unfolding(crate::specs::Pieces::alphabet_at))]
pub(crate) fn alphabet(alloc: Global, bytes: &[u8]) -> Result<(Letters, &[u8]), CutError>
    ensures gives { Gives (λ x. (x.0, x.1.now)) result (alphabet_at bytes.now) }
    ensures shorter { IfOk result (λ x. length x.1.now < length bytes.now) }
{
    let rest = after_word(b"alphabet", bytes)?;
    let (letters, rest) = letters(alloc, rest)?;
    let rest = after_byte(b'\n', rest)?;
    if is_closed(letters.as_slice()) {
        Ok((letters, rest))
    } else {
        Err(CutError::Bad)
    }
}
