ghost use Rattle.std.specs.Prelude.{◌≡◌, ◌+◌, ◌-◌, ◌*◌, ◌<◌, ◌≤◌, ◌∷◌};
ghost use Rattle.std.specs.Char.{InScalarRange};
ghost use Rattle.ap_stream.specs.Chars.{char_at, tail2, tail3, tail4, is_tail as tail_test, is_second as second_test, front_of};

/// What bytes that may go on begin with: the start of a character, or nothing that begins one, or a
/// character and the number of its bytes.
#[derive(Clone, Copy, Debug, PartialEq, Eq)]
pub enum Decoded {
    Part,
    NotChar,
    Char { letter: char, size: usize },
}

/// The character with this code.
fn to_char(code: u32) -> char
    requires { InScalarRange code }
    ensures { result ≡ code }
{
    match char::from_u32(code) {
        Some(letter) => letter,
        None => unreachable!(),
    }
}

fn is_tail(b: u8) -> bool
    ensures { result ≡ tail_test b }
{
    128 <= b && b < 192
}

fn is_second(a: u8, b: u8) -> bool
    ensures { result ≡ second_test a b }
{
    is_tail(b)
        && match a {
            224 => 160 <= b,
            237 => b < 160,
            240 => 144 <= b,
            244 => b < 144,
            _ => true,
        }
}

fn decode2(a: u8, bytes: &[u8]) -> Decoded
    requires low { 194 ≤ a }
    requires high { a < 224 }
    ensures { front_of result ≡ tail2 a bytes.now }
{
    match bytes {
        [] => Decoded::Part,
        [b, ..] => {
            if is_tail(*b) {
                Decoded::Char {
                    letter: to_char(64 * (a as u32 - 192) + (*b as u32 - 128)),
                    size: 2,
                }
            } else {
                Decoded::NotChar
            }
        }
    }
}

fn decode3(a: u8, bytes: &[u8]) -> Decoded
    requires low { 224 ≤ a }
    requires high { a < 240 }
    ensures { front_of result ≡ tail3 a bytes.now }
{
    match bytes {
        [] => Decoded::Part,
        [b] => {
            if is_second(a, *b) {
                Decoded::Part
            } else {
                Decoded::NotChar
            }
        }
        [b, c, ..] => {
            if !is_second(a, *b) {
                Decoded::NotChar
            } else if !is_tail(*c) {
                Decoded::NotChar
            } else {
                Decoded::Char {
                    letter: to_char(
                        64 * (64 * (a as u32 - 224) + (*b as u32 - 128)) + (*c as u32 - 128),
                    ),
                    size: 3,
                }
            }
        }
    }
}

fn decode4(a: u8, bytes: &[u8]) -> Decoded
    requires low { 240 ≤ a }
    requires high { a < 245 }
    ensures { front_of result ≡ tail4 a bytes.now }
{
    match bytes {
        [] => Decoded::Part,
        [b] => {
            if is_second(a, *b) {
                Decoded::Part
            } else {
                Decoded::NotChar
            }
        }
        [b, c] => {
            if !is_second(a, *b) {
                Decoded::NotChar
            } else if !is_tail(*c) {
                Decoded::NotChar
            } else {
                Decoded::Part
            }
        }
        [b, c, d, ..] => {
            if !is_second(a, *b) {
                Decoded::NotChar
            } else if !is_tail(*c) {
                Decoded::NotChar
            } else if !is_tail(*d) {
                Decoded::NotChar
            } else {
                Decoded::Char {
                    letter: to_char(
                        64 * (64 * (64 * (a as u32 - 240) + (*b as u32 - 128)) + (*c as u32 - 128))
                            + (*d as u32 - 128),
                    ),
                    size: 4,
                }
            }
        }
    }
}

/// The same for bytes behind a first one that isn't ASCII.
#[inline(never)]
#[tactic(auto, unfolding(crate::specs::Chars::char_at))]
fn decode_long(first: u8, rest: &[u8]) -> Decoded
    requires { 128 ≤ first }
    ensures { front_of result ≡ char_at (first ∷ rest.now) }
{
    if first < 194 {
        Decoded::NotChar
    } else if first < 224 {
        decode2(first, rest)
    } else if first < 240 {
        decode3(first, rest)
    } else if first < 245 {
        decode4(first, rest)
    } else {
        Decoded::NotChar
    }
}

/// The character at the front of bytes that may go on, by the table of well-formed sequences of the
/// Unicode Standard.
#[inline(always)]
#[tactic(auto, unfolding(crate::specs::Chars::char_at))]
pub fn decode(bytes: &[u8]) -> Decoded
    ensures { front_of result ≡ char_at bytes.now }
{
    match bytes {
        [] => Decoded::Part,
        [first, rest @ ..] => {
            if *first < 128 {
                return Decoded::Char {
                    letter: *first as char,
                    size: 1,
                };
            }
            decode_long(*first, rest)
        }
    }
}
