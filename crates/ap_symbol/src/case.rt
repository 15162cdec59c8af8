ghost use Rattle.std.specs.Prelude.{◌≡◌, ◌<◌, ◌⊎◌};
ghost use Rattle.ap_symbol.specs.Case.{partner_lem, lower_lem, upper_lem, is_upper_lem, is_upper_by_32, is_upper_even, is_upper_odd};

/// Whether the letter is an upper one whose partner lies 32 above it.
fn is_upper_by_32(code: u32) -> bool
    ensures { result ≡ is_upper_by_32 code }
{
    matches!(
        code,
        0x41..=0x5A | 0xC0..=0xD6 | 0xD8..=0xDE | 0x391..=0x3A1 | 0x3A3..=0x3AB | 0x410..=0x42F
    )
}

fn is_upper_even(code: u32) -> bool
    ensures { result ≡ is_upper_even code }
{
    code % 2 == 0 && matches!(code, 0x100..=0x12F | 0x132..=0x137 | 0x14A..=0x177)
}

fn is_upper_odd(code: u32) -> bool
    ensures { result ≡ is_upper_odd code }
{
    code % 2 == 1 && matches!(code, 0x139..=0x148 | 0x179..=0x17E)
}

/// Whether the character is an upper letter of the case table.
pub fn is_upper(c: char) -> bool
    ensures { result ≡ is_upper_lem c }
{
    let code = c as u32;
    is_upper_by_32(code)
        || is_upper_even(code)
        || is_upper_odd(code)
        || matches!(code, 0x178 | 0x386 | 0x388..=0x38A | 0x38C | 0x38E..=0x38F | 0x400..=0x40F)
}

fn lower_code(code: u32) -> u32
    ensures value { result ≡ lower_lem code }
    ensures near { (result < 0xD800) ⊎ (result ≡ code) }
{
    if is_upper_by_32(code) {
        return code + 32;
    }
    if is_upper_even(code) {
        return code + 1;
    }
    if is_upper_odd(code) {
        return code + 1;
    }
    match code {
        0x178 => 0xFF,
        0x386 => 0x3AC,
        0x388..=0x38A => code + 37,
        0x38C => 0x3CC,
        0x38E..=0x38F => code + 63,
        0x400..=0x40F => code + 80,
        _ => code,
    }
}

fn upper_code(code: u32) -> u32
    ensures value { result ≡ upper_lem code }
    ensures near { (result < 0xD800) ⊎ (result ≡ code) }
{
    if is_upper_by_32(code.saturating_sub(32)) {
        return code - 32;
    }
    let above = code.saturating_sub(1);
    if is_upper_even(above) {
        return above;
    }
    if is_upper_odd(above) {
        return above;
    }
    match code {
        0xFF => 0x178,
        0x3AC => 0x386,
        0x3AD..=0x3AF => code - 37,
        0x3CC => 0x38C,
        0x3CD..=0x3CE => code - 63,
        0x450..=0x45F => code - 80,
        _ => code,
    }
}

/// The lower partner of an upper letter of the case table; every other character itself.
pub fn lower(c: char) -> char
    ensures { result ≡ lower_lem c }
{
    char::from_u32(lower_code(c as u32)).unwrap_or(c)
}

/// The upper partner of a lower letter of the case table; every other character itself.
pub fn upper(c: char) -> char
    ensures { result ≡ upper_lem c }
{
    char::from_u32(upper_code(c as u32)).unwrap_or(c)
}

/// The other letter of its pair in the case table; a character without a pair itself.
pub fn partner(c: char) -> char
    ensures { result ≡ partner_lem c }
{
    if is_upper(c) { lower(c) } else { upper(c) }
}
