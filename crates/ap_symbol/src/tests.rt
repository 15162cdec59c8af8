use crate::bytes::Bytes;
use crate::rendering::{compare, render};
use crate::sequence::{Letters, Sequence, Words};
use crate::symbol::Symbol;
use crate::tag_name::TagName;
use crate::word::Word;
use std::alloc::Global;
use std::cmp::Ordering;
use std::test::Fail;

fn word_of(alloc: Global, text: &str, tag: &str) -> Result<Word, Fail> {
    let mut word = Word::new(alloc);
    for letter in text.chars() {
        if !matches!(letter, '\t' | '\n' | '\r' | ' ') {
            word.push(Symbol::Letter(letter))?;
        }
    }
    if let Some(name) = TagName::new(alloc, tag)? {
        word.push(Symbol::Tag(name))?;
    }
    Ok(word)
}

#[test]
fn each_symbol_is_rendered(rt: HostRuntime) -> Result<(), Fail> {
    let alloc = rt.alloc();
    let mut word = word_of(alloc, "aé^$/<>{}\\[]@*#+~", "n")?;
    word.push(Symbol::Blank)?;
    word.push(Symbol::Join)?;
    word.push(Symbol::Queue)?;
    word.push(Symbol::Alarm)?;
    word.push(Symbol::Star)?;
    word.push(Symbol::At)?;
    let mut into = Bytes::new(alloc);
    into.extend("x".as_bytes())?;
    render(alloc, &word.copy(alloc)?, &mut into)?;
    let want = "xaé\\^\\$\\/\\<\\>\\{\\}\\\\\\[\\]\\@\\*\\#\\+\\~<n> +#~*@";
    assert_eq!(rt; into.as_slice(), want.as_bytes());
    assert_eq!(rt; word.len(), 24);
    Ok(())
}

#[test]
fn tag_names_are_told_apart(rt: HostRuntime) -> Result<(), Fail> {
    for (text, want) in [
        ("", false),
        ("n", true),
        ("vblex", true),
        ("1", true),
        ("a b", false),
        ("a>", false),
        ("\\", false),
        ("a\r", false),
        ("a+", true),
    ] {
        let made = TagName::new(rt.alloc(), text)?;
        assert_eq!(rt; made.is_some(), want, "of {text}");
        if let Some(name) = made {
            assert!(rt; name.text() == text);
        }
    }
    Ok(())
}

#[test]
fn words_are_ordered_by_their_bytes(rt: HostRuntime) -> Result<(), Fail> {
    let alloc = rt.alloc();
    for (a, b, want) in [
        ("a", "b", Ordering::Less),
        ("a", "a", Ordering::Equal),
        ("z", "é", Ordering::Less),
        ("*", "a", Ordering::Less),
        ("ab", "a", Ordering::Greater),
    ] {
        let order = compare(&word_of(alloc, a, "")?, &word_of(alloc, b, "")?);
        assert!(rt; order == want);
    }
    Ok(())
}

#[test]
fn lists_hold_what_is_pushed(rt: HostRuntime) -> Result<(), Fail> {
    let alloc = rt.alloc();
    let mut letters = Letters::new(alloc);
    letters.push('a')?;
    letters.push('b')?;
    assert_eq!(rt; letters.get(1).copied(), Some('b'));
    assert!(rt; letters.get(2).is_none());
    assert_eq!(rt; letters.as_slice(), ['a', 'b'].as_slice());
    let again = Sequence::from_vec(letters.into_vec());
    assert_eq!(rt; again.len(), 2);
    let mut words = Words::new(alloc);
    assert!(rt; words.is_empty());
    words.push(word_of(alloc, "house", "n")?)?;
    assert_eq!(rt; words.len(), 1);
    Ok(())
}

#[test]
fn a_part_of_a_word_is_a_word(rt: HostRuntime) -> Result<(), Fail> {
    let alloc = rt.alloc();
    let word = word_of(alloc, "a+b", "n")?;
    if word.len() >= 4 {
        let part = word.part(alloc, 1, 4)?;
        assert_eq!(rt; part.rendered(), "\\+b<n>".as_bytes());
    }
    Ok(())
}
