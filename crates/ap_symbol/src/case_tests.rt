use crate::bytes::Bytes;
use crate::case::{is_upper, lower, partner, upper};
use crate::fitting::fits;
use crate::recasing::{Case, carry, case_of, recase};
use crate::rendering::render;
use crate::symbol::Symbol;
use crate::texts::text_word;
use crate::word::Word;
use std::alloc::Global;
use std::test::Fail;

/// The first and the last pair of each range of the case table.
const PAIRS: [(char, char); 31] = [
    ('\u{41}', '\u{61}'),
    ('\u{5A}', '\u{7A}'),
    ('\u{C0}', '\u{E0}'),
    ('\u{D6}', '\u{F6}'),
    ('\u{D8}', '\u{F8}'),
    ('\u{DE}', '\u{FE}'),
    ('\u{100}', '\u{101}'),
    ('\u{12E}', '\u{12F}'),
    ('\u{132}', '\u{133}'),
    ('\u{136}', '\u{137}'),
    ('\u{14A}', '\u{14B}'),
    ('\u{176}', '\u{177}'),
    ('\u{139}', '\u{13A}'),
    ('\u{147}', '\u{148}'),
    ('\u{179}', '\u{17A}'),
    ('\u{17D}', '\u{17E}'),
    ('\u{178}', '\u{FF}'),
    ('\u{386}', '\u{3AC}'),
    ('\u{388}', '\u{3AD}'),
    ('\u{38A}', '\u{3AF}'),
    ('\u{38C}', '\u{3CC}'),
    ('\u{38E}', '\u{3CD}'),
    ('\u{38F}', '\u{3CE}'),
    ('\u{391}', '\u{3B1}'),
    ('\u{3A1}', '\u{3C1}'),
    ('\u{3A3}', '\u{3C3}'),
    ('\u{3AB}', '\u{3CB}'),
    ('\u{400}', '\u{450}'),
    ('\u{40F}', '\u{45F}'),
    ('\u{410}', '\u{430}'),
    ('\u{42F}', '\u{44F}'),
];

/// Neighbours of the ranges, which have no partner.
const ALONE: [char; 27] = [
    '\u{0}',
    '\u{40}',
    '\u{5B}',
    '\u{60}',
    '\u{7B}',
    '\u{BF}',
    '\u{D7}',
    '\u{DF}',
    '\u{F7}',
    '\u{130}',
    '\u{131}',
    '\u{138}',
    '\u{149}',
    '\u{17F}',
    '\u{385}',
    '\u{387}',
    '\u{38B}',
    '\u{38D}',
    '\u{390}',
    '\u{3A2}',
    '\u{3B0}',
    '\u{3C2}',
    '\u{3CF}',
    '\u{3FF}',
    '\u{460}',
    '\u{2160}',
    '\u{10FFFF}',
];

#[test]
fn letters_have_their_partners(rt: HostRuntime) -> Result<(), Fail> {
    for (capital, small) in PAIRS {
        assert_eq!(rt; lower(capital), small);
        assert_eq!(rt; upper(small), capital);
        assert_eq!(rt; lower(small), small);
        assert_eq!(rt; upper(capital), capital);
        assert!(rt; is_upper(capital) && !is_upper(small));
        assert_eq!(rt; partner(capital), small);
    }
    for c in ALONE {
        assert_eq!(rt; lower(c), c);
        assert_eq!(rt; upper(c), c);
        assert!(rt; !is_upper(c));
    }
    Ok(())
}

fn rendered(alloc: Global, word: &Word) -> Result<Bytes, Fail> {
    let mut bytes = Bytes::new(alloc);
    render(alloc, word, &mut bytes)?;
    Ok(bytes)
}

#[test]
fn texts_spell_words(rt: HostRuntime) -> Result<(), Fail> {
    let alloc = rt.alloc();
    for (text, want) in [
        ("", ""),
        ("a<n>b", "a<n>b"),
        ("<a<b>", "\\<a<b>"),
        ("<>", "\\<\\>"),
        ("<n", "\\<n"),
        ("<n x>", "\\<n x\\>"),
        ("é<ñ>", "é<ñ>"),
        ("\\", "\\\\"),
        ("\\\\a", "\\\\a"),
        ("\\ \\<n>", " \\<n\\>"),
        ("a b\tc", "a b c"),
        ("+#~*@", "+#~*@"),
        ("\\+a", "\\+a"),
    ] {
        let word = text_word(alloc, text)?;
        assert_eq!(rt;
            rendered(alloc, &word)?.as_slice(),
            want.as_bytes(),
            "of {text}"
        );
    }
    Ok(())
}

#[test]
fn words_have_their_case(rt: HostRuntime) -> Result<(), Fail> {
    let alloc = rt.alloc();
    for (text, want) in [
        ("", Case::Low),
        ("a", Case::Low),
        ("aB", Case::Low),
        ("I", Case::First),
        ("U.S.", Case::First),
        ("House", Case::First),
        ("AB", Case::All),
        ("U.S", Case::All),
        ("<n>I<n>", Case::First),
        ("<n>A<a>B<n>", Case::All),
    ] {
        assert!(rt; case_of(&text_word(alloc, text)?) == want);
    }
    Ok(())
}

#[test]
fn words_are_put_into_a_case(rt: HostRuntime) -> Result<(), Fail> {
    let alloc = rt.alloc();
    for (text, case, carried, recased) in [
        ("hOUSE", Case::First, "HOUSE", "House"),
        ("hOUSE", Case::Low, "hOUSE", "house"),
        ("hOUSE", Case::All, "HOUSE", "HOUSE"),
        ("<n> é<n>Ñ", Case::First, "<n> É<n>Ñ", "<n> É<n>ñ"),
        ("<N>a1b", Case::All, "<N>A1B", "<N>A1B"),
    ] {
        let word = text_word(alloc, text)?;
        let made = carry(alloc, &word, case)?;
        assert_eq!(rt; rendered(alloc, &made)?.as_slice(), carried.as_bytes());
        let made = recase(alloc, &word, case)?;
        assert_eq!(rt; rendered(alloc, &made)?.as_slice(), recased.as_bytes());
    }
    Ok(())
}

#[test]
fn lower_symbols_fit_both_cases(rt: HostRuntime) -> Result<(), Fail> {
    for (symbol, input, sensitive, want) in [
        ('a', 'a', true, true),
        ('a', 'A', false, true),
        ('a', 'A', true, false),
        ('A', 'a', false, false),
        ('A', 'A', false, true),
        ('÷', '×', false, false),
    ] {
        let found = fits(&Symbol::Letter(symbol), &Symbol::Letter(input), sensitive);
        assert_eq!(rt; found, want);
    }
    assert!(rt; fits(&Symbol::Blank, &Symbol::Blank, true));
    assert!(rt; !fits(&Symbol::Blank, &Symbol::Letter('a'), false));
    Ok(())
}
