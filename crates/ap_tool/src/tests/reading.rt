//! The items of each dialect and its faults, in pieces of one to seven bytes.
ghost use Rattle.std.specs.Prelude.{◌<◌};

use ap_stream::{Dialect, Fed, Reader, StreamFault, write_item};
use ap_symbol::{Bytes, Memory};
use std::alloc::Global;
use std::test::Fail;

fn note(alloc: Global, log: &mut Bytes, fault: StreamFault) -> Result<(), Memory> {
    let text = format!(in alloc; "{fault:?}")?;
    log.extend(text.as_str().as_bytes())
}

/// Reads one piece, and answers whether a fault came. Each item is written, and `|` behind it.
fn read_piece(
    alloc: Global,
    reader: &mut Reader,
    piece: &[u8],
    log: &mut Bytes,
) -> Result<bool, Memory> {
    let mut rest = piece;
    for _ in 0..100_000 {
        match reader.feed(rest) {
            Ok(
                Fed {
                    used,
                    item: Some(read),
                },
            ) => {
                rest = &rest[used..];
                write_item(alloc, &read.item, log)?;
                log.extend(b"|")?;
            }
            Ok(
                Fed {
                    used: _,
                    item: None,
                },
            ) => return Ok(false),
            Err(fault) => {
                note(alloc, log, fault)?;
                return Ok(true);
            }
        }
    }
    Ok(false)
}

/// What is written of the items of a text, read in pieces of so many bytes, and its fault.
fn copied(alloc: Global, dialect: Dialect, text: &[u8], size: usize) -> Result<Bytes, Memory>
    requires { 0 < size }
{
    let mut log = Bytes::new(alloc);
    let mut reader = Reader::new(alloc, dialect);
    for piece in text.chunks(size) {
        if read_piece(alloc, &mut reader, piece, &mut log)? {
            return Ok(log);
        }
    }
    match reader.end() {
        Ok(Some(read)) => {
            write_item(alloc, &read.item, &mut log)?;
            log.extend(b"|")?;
        }
        Ok(None) => {}
        Err(fault) => note(alloc, &mut log, fault)?,
    }
    Ok(log)
}

#[test]
fn items_are_read_in_any_pieces(rt: HostRuntime) -> Result<(), Fail> {
    let alloc = rt.alloc();
    let table: [(Dialect, &[u8], &str); 29] = [
        (Dialect::Raw, b"", ""),
        (
            Dialect::Raw,
            b"\xC3\xA9\xE2\x82\xAC\xF0\x9F\x98\x80",
            "\u{E9}|\u{20AC}|\u{1F600}|",
        ),
        (Dialect::Raw, b"\\[a", "\\[|a|"),
        (Dialect::Raw, b" [x] \t[y\\]z]a \n", " [x] \t[y\\]z]|a| \n|"),
        (
            Dialect::Raw,
            b"[[a]]",
            "[[a]|Malformed { kind: Stray, place: 4 }",
        ),
        (Dialect::Raw, b"a^", "a|Malformed { kind: Stray, place: 1 }"),
        (
            Dialect::Raw,
            b"a[b",
            "a|Malformed { kind: Unfinished, place: 1 }",
        ),
        (
            Dialect::Raw,
            b"a\\",
            "a|Malformed { kind: Unfinished, place: 1 }",
        ),
        (
            Dialect::Raw,
            b" a\xC3",
            " |a|Malformed { kind: Unfinished, place: 2 }",
        ),
        (
            Dialect::Raw,
            b"\xC0\x80",
            "Malformed { kind: NotUtf8, place: 0 }",
        ),
        (
            Dialect::Raw,
            b"a\xED\xA0\x80",
            "a|Malformed { kind: NotUtf8, place: 1 }",
        ),
        (
            Dialect::Raw,
            b"[\xFF]",
            "Malformed { kind: NotUtf8, place: 0 }",
        ),
        (
            Dialect::Raw,
            b"\xF4\x90\x80\x80",
            "Malformed { kind: NotUtf8, place: 0 }",
        ),
        (
            Dialect::Generated,
            b"~a/<@ ^",
            "~|a|/|<|@| |Malformed { kind: Stray, place: 6 }",
        ),
        (
            Dialect::Lexical,
            b"^house<n><pl>$ ^b<n>$",
            "^house<n><pl>$| |^b<n>$|",
        ),
        (Dialect::Lexical, b" \\^[^a$]^b$", " |\\^|[^a$]|^b$|"),
        (
            Dialect::Lexical,
            b"^$",
            "Malformed { kind: EmptyWord, place: 0 }",
        ),
        (
            Dialect::Lexical,
            b"^a/b$",
            "Malformed { kind: Stray, place: 0 }",
        ),
        (
            Dialect::Lexical,
            b"^a\\",
            "Malformed { kind: Unfinished, place: 0 }",
        ),
        (
            Dialect::Lexical,
            b"^<n\xC3a",
            "Malformed { kind: NotUtf8, place: 0 }",
        ),
        (
            Dialect::Lexical,
            b"^<a b>$",
            "Malformed { kind: BadTag, place: 0 }",
        ),
        (
            Dialect::Analysed,
            b"^saw/saw<n><sg>/see<vblex><past>$^a//$",
            "^saw/saw<n><sg>/see<vblex><past>$|^a//$|",
        ),
        (
            Dialect::Analysed,
            b"b^a$",
            "b|Malformed { kind: EmptyWord, place: 1 }",
        ),
        (
            Dialect::Analysed,
            b"^a<n>/a$",
            "Malformed { kind: Stray, place: 0 }",
        ),
        (
            Dialect::Analysed,
            b"^a@/a$",
            "Malformed { kind: Stray, place: 0 }",
        ),
        (Dialect::Bilingual, b"^*x/*x$^a<n>/$", "^*x/*x$|^a<n>/$|"),
        (
            Dialect::Bilingual,
            b"^/$",
            "Malformed { kind: EmptyWord, place: 0 }",
        ),
        (
            Dialect::Chunked,
            b"^SN<m><sg>{^dog<n><2>$ ^a<x>$}$ \\^x^{}$",
            "^SN<m><sg>{^dog<n><2>$ ^a<x>$}$| |\\^|x|^{}$|",
        ),
        (
            Dialect::Chunked,
            b"^n{ [a}$]\n^b$[\\]]}$a b{",
            "^n{ [a}$]\n^b$[\\]]}$|a| |b|Malformed { kind: Stray, place: 22 }",
        ),
    ];
    for (dialect, text, want) in table {
        for size in 1..8 {
            let got = copied(alloc, dialect, text, size)?;
            assert_eq!(rt; got.as_slice(), want.as_bytes(), "in pieces of {size}");
        }
    }
    Ok(())
}

#[test]
fn faults_of_chunks_are_shown(rt: HostRuntime) -> Result<(), Fail> {
    let alloc = rt.alloc();
    let table: [(&[u8], &str); 38] = [
        (b"^$", "Stray"),
        (b"^a$", "Stray"),
        (b"^a/", "Stray"),
        (b"^a}", "Stray"),
        (b"^a^", "Stray"),
        (b"^a>", "Stray"),
        (b"^a[", "Stray"),
        (b"^<>{}$", "BadTag"),
        (b"^a<n {", "BadTag"),
        (b"^\xFF", "NotUtf8"),
        (b"^\xC3a", "NotUtf8"),
        (b"^", "Unfinished"),
        (b"^a", "Unfinished"),
        (b"^a\\", "Unfinished"),
        (b"^a<n", "Unfinished"),
        (b"^a\xC3", "Unfinished"),
        (b"^{", "Unfinished"),
        (b"^{^a", "Unfinished"),
        (b"^{^a$", "Unfinished"),
        (b"^{ ", "Unfinished"),
        (b"^{[", "Unfinished"),
        (b"^{}", "Unfinished"),
        (b"^{a", "Stray"),
        (b"^{^a$b", "Stray"),
        (b"^{\\", "Stray"),
        (b"^{{", "Stray"),
        (b"^{]", "Stray"),
        (b"^{\xC3", "Stray"),
        (b"^{ \xF4", "Stray"),
        (b"^{\xFF", "NotUtf8"),
        (b"^{\x80", "NotUtf8"),
        (b"^{\xC0", "NotUtf8"),
        (b"^{[\xFF", "NotUtf8"),
        (b"^{^$", "EmptyWord"),
        (b"^{^a/", "Stray"),
        (b"^{^<>", "BadTag"),
        (b"^{}}", "Stray"),
        (b"^{}\xF5", "NotUtf8"),
    ];
    for (text, kind) in table {
        let want = format!(in alloc; "Malformed {{ kind: {kind}, place: 0 }}")?;
        for size in 1..8 {
            let got = copied(alloc, Dialect::Chunked, text, size)?;
            assert_eq!(rt;
                got.as_slice(),
                want.as_str().as_bytes(),
                "in pieces of {size}"
            );
        }
    }
    Ok(())
}
