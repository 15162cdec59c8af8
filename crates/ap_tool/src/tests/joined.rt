//! Joined transfer, as a plain program does it, and transfer behind its lookup: both give the same
//! text, unless a clip leaves out a queue.
ghost use Rattle.std.specs.Prelude.{◌≡◌, None, false, IfOk};
ghost use Rattle.ap_pipe.specs.Any.{any_ended, any_fault};

use ap_chunk::{Choice, Transfer, takes};
use ap_compile::compile;
use ap_dix::{Direction, read_dictionary};
use ap_exec::{Blanks, Matched, MatchedUnit, Vars, act, fill};
use ap_fst::Compiled;
use ap_lookup::{Bilingual, translate};
use ap_outside::{MemSink, MemSource};
use ap_pipe::{AnyStage, Outcome, Row, stream_row};
use ap_rules::{DefaultPiece, Form, PatternItem, Rules, read_rules};
use ap_stream::{Blank, Content, Dialect, Item, Names, Read, Reader, Unit, write_item};
use ap_symbol::{Bytes, Sequence, Symbol, Word};
use std::alloc::Global;
use std::test::Fail;

const BIDIX: &str =
    "<dictionary><sdefs><sdef n=\"n\"/><sdef n=\"m\"/><sdef n=\"adj\"/></sdefs><section id=\"main\" type=\"standard\"><e><p><l>dog<s n=\"n\"/></l><r>perro<s n=\"n\"/><s n=\"m\"/></r></p></e><e><p><l>black<s n=\"adj\"/></l><r>negro<s n=\"adj\"/></r></p></e></section></dictionary>";

/// A word with two heads, of which the second is the first in order, and one whose translation is
/// longer than the word is.
const HEADS: &str =
    "<dictionary><sdefs><sdef n=\"n\"/><sdef n=\"m\"/></sdefs><section id=\"main\" type=\"standard\"><e><p><l>dog<s n=\"n\"/></l><r>perro<s n=\"n\"/><s n=\"m\"/></r></p></e><e><p><l>dog<s n=\"n\"/></l><r>can<s n=\"n\"/><s n=\"m\"/></r></p></e><e><p><l>i<s n=\"n\"/></l><r>individuo<s n=\"n\"/><s n=\"m\"/></r></p></e></section></dictionary>";

/// An adjective before a noun, in a chunk.
const AGREE: &str =
    "<transfer default=\"chunk\"><section-def-cats><def-cat n=\"adj\"><cat-item tags=\"adj\"/></def-cat><def-cat n=\"nom\"><cat-item tags=\"n.*\"/></def-cat></section-def-cats><section-def-attrs><def-attr n=\"gen\"><attr-item tags=\"m\"/><attr-item tags=\"f\"/></def-attr><def-attr n=\"num\"><attr-item tags=\"sg\"/><attr-item tags=\"pl\"/></def-attr></section-def-attrs><section-rules><rule><pattern><pattern-item n=\"adj\"/><pattern-item n=\"nom\"/></pattern><action><out><chunk name=\"nom_adj\"><tags><tag><lit-tag v=\"SN\"/></tag><tag><clip pos=\"2\" side=\"tl\" part=\"gen\"/></tag><tag><clip pos=\"2\" side=\"tl\" part=\"num\"/></tag></tags><lu><clip pos=\"2\" side=\"tl\" part=\"lem\"/><lit-tag v=\"n\"/><clip pos=\"2\" side=\"tl\" part=\"gen\" link-to=\"2\"/><clip pos=\"2\" side=\"tl\" part=\"num\" link-to=\"3\"/></lu><b pos=\"1\"/><lu><clip pos=\"1\" side=\"tl\" part=\"lem\"/><lit-tag v=\"adj\"/><clip pos=\"2\" side=\"tl\" part=\"gen\" link-to=\"2\"/><clip pos=\"2\" side=\"tl\" part=\"num\" link-to=\"3\"/></lu></chunk></out></action></rule></section-rules></transfer>";

/// A variable that doubles.
const DOUBLE: &str =
    "<transfer default=\"lu\"><section-def-cats><def-cat n=\"adj\"><cat-item tags=\"adj\"/></def-cat></section-def-cats><section-def-vars><def-var n=\"v\" v=\"a\"/></section-def-vars><section-rules><rule><pattern><pattern-item n=\"adj\"/></pattern><action><let><var n=\"v\"/><concat><var n=\"v\"/><var n=\"v\"/></concat></let><out><lu><clip pos=\"1\" side=\"tl\" part=\"whole\"/></lu></out></action></rule></section-rules></transfer>";

/// A macro, and the case of another word.
const PLURAL: &str =
    "<transfer default=\"lu\"><section-def-cats><def-cat n=\"nom\"><cat-item tags=\"n.*\"/></def-cat></section-def-cats><section-def-attrs><def-attr n=\"num\"><attr-item tags=\"sg\"/><attr-item tags=\"pl\"/></def-attr></section-def-attrs><section-def-macros><def-macro n=\"many\" npar=\"1\"><let><clip pos=\"1\" side=\"tl\" part=\"num\"/><lit-tag v=\"pl\"/></let></def-macro></section-def-macros><section-rules><rule><pattern><pattern-item n=\"nom\"/></pattern><action><call-macro n=\"many\"><with-param pos=\"1\"/></call-macro><out><lu><get-case-from pos=\"1\"><clip pos=\"1\" side=\"tl\" part=\"lem\"/></get-case-from><clip pos=\"1\" side=\"tl\" part=\"tags\"/></lu></out></action></rule></section-rules></transfer>";

/// Of two nouns a part that begins in the head and ends in the queue is read, and one is given a
/// value; one noun gives a variable; three leave their blanks over.
const CROSS: &str =
    "<transfer default=\"lu\"><section-def-cats><def-cat n=\"nom\"><cat-item tags=\"n.*\"/></def-cat></section-def-cats><section-def-attrs><def-attr n=\"both\"><attr-item tags=\"m.sg\"/><attr-item tags=\"m.pl\"/></def-attr></section-def-attrs><section-def-vars><def-var n=\"v\" v=\"a\"/></section-def-vars><section-rules><rule><pattern><pattern-item n=\"nom\"/><pattern-item n=\"nom\"/></pattern><action><let><clip pos=\"1\" side=\"tl\" part=\"both\"/><lit-tag v=\"mf.sp\"/></let><out><lu><clip pos=\"1\" side=\"tl\" part=\"whole\"/></lu><b pos=\"1\"/><lu><clip pos=\"2\" side=\"tl\" part=\"lem\"/><clip pos=\"2\" side=\"tl\" part=\"both\"/></lu></out></action></rule><rule><pattern><pattern-item n=\"nom\"/></pattern><action><let><var n=\"v\"/><concat><var n=\"v\"/><var n=\"v\"/></concat></let><out><lu><var n=\"v\"/><clip pos=\"1\" side=\"tl\" part=\"tags\"/></lu></out></action></rule><rule><pattern><pattern-item n=\"nom\"/><pattern-item n=\"nom\"/><pattern-item n=\"nom\"/></pattern><action><out><lu><clip pos=\"3\" side=\"tl\" part=\"whole\"/></lu><lu><clip pos=\"1\" side=\"tl\" part=\"whole\"/></lu></out></action></rule></section-rules></transfer>";

/// A clip that leaves out the queue.
const NO_QUEUE: &str =
    "<transfer default=\"lu\"><section-def-cats><def-cat n=\"nom\"><cat-item tags=\"n.*\"/></def-cat></section-def-cats><section-rules><rule><pattern><pattern-item n=\"nom\"/></pattern><action><out><lu><clip pos=\"1\" side=\"tl\" part=\"whole\" queue=\"no\"/></lu></out></action></rule></section-rules></transfer>";

fn bidix_of(alloc: Global, bidix: &str) -> Result<Compiled, Fail> {
    let dictionary = read_dictionary(alloc, bidix.as_bytes())?;
    Ok(compile(alloc, &dictionary, Direction::Lr)?)
}

fn push_last(reader: &mut Reader, items: &mut Vec<Read>) -> Result<(), Fail> {
    for _ in 0..3 {
        if let Some(read) = reader.end()? {
            items.push(read)?;
        }
    }
    Ok(())
}

/// The items of a lexical text.
fn items_of(alloc: Global, text: &str) -> Result<Vec<Read>, Fail> {
    let mut reader = Reader::new(alloc, Dialect::Lexical);
    let mut items = Vec::new(alloc);
    let mut rest = text.as_bytes();
    for _ in 0..text.len() {
        let fed = reader.feed(rest)?;
        rest = &rest[fed.used..];
        if let Some(read) = fed.item {
            items.push(read)?;
        }
    }
    push_last(&mut reader, &mut items)?;
    Ok(items)
}

fn word_of(alloc: Global, unit: &Unit) -> Result<Word, Fail> {
    let mut word = Word::new(alloc);
    unit.first(&mut Names::new(alloc), &mut word)?;
    Ok(word)
}

/// The words of the units at the front, with at most one blank between two of them.
fn row_of(alloc: Global, reads: &[Read]) -> Result<Vec<Word>, Fail> {
    let mut words = Vec::new(alloc);
    let mut after = false;
    for read in reads {
        match &read.item {
            Item::Unit(unit) => words.push(word_of(alloc, unit)?)?,
            Item::Blank(_) if after => {}
            _ => return Ok(words),
        }
        after = matches!(&read.item, Item::Unit(_));
    }
    Ok(words)
}

fn is_of(rules: &Rules, category: usize, word: &Word) -> bool {
    match rules.categories.get(category) {
        None => false,
        Some(category) => takes(rules.form, category, word.symbols()),
    }
}

/// Whether a pattern fits the first of these words.
fn fits(rules: &Rules, pattern: &[PatternItem], words: &[Word]) -> bool {
    if pattern.len() > words.len() {
        return false;
    }
    for at in 0..pattern.len() {
        if !is_of(rules, pattern[at].n, &words[at]) {
            return false;
        }
    }
    true
}

/// Every rule is tried: of those with the longest pattern that fits, the first.
fn chosen(rules: &Rules, words: &[Word]) -> Choice {
    let mut best = Choice { rule: 0, size: 0 };
    for rule in 0..rules.rules.len() {
        let pattern = rules.rules[rule].pattern.as_slice();
        if pattern.len() > best.size && fits(rules, pattern, words) {
            best = Choice {
                rule,
                size: pattern.len(),
            };
        }
    }
    best
}

/// `@` and the word.
fn unknown(alloc: Global, word: &Word) -> Result<Word, Fail> {
    let mut made = Word::new(alloc);
    made.push(Symbol::At)?;
    for symbol in word.symbols() {
        made.push(symbol.copy(alloc)?)?;
    }
    Ok(made)
}

/// The head and the queue of a word's target.
fn target_of(alloc: Global, bidix: &Compiled, word: &Word) -> Result<(Word, Word), Fail> {
    if matches!(word.get(0), Some(Symbol::Star | Symbol::At)) {
        return Ok((word.copy(alloc)?, Word::new(alloc)));
    }
    let made = translate(alloc, bidix, word, false)?;
    match made.heads.get(0) {
        None => Ok((unknown(alloc, word)?, Word::new(alloc))),
        Some(head) => Ok((head.copy(alloc)?, made.rest.copy(alloc)?)),
    }
}

/// A unit, as a rule of joined transfer sees it.
fn seen(alloc: Global, bidix: &Compiled, unit: &Unit) -> Result<MatchedUnit, Fail> {
    let source = word_of(alloc, unit)?;
    let (head, queue) = target_of(alloc, bidix, &source)?;
    Ok(MatchedUnit {
        source,
        head,
        queue,
        content: Content::new(alloc),
    })
}

/// So many units from the front, and the blanks between them.
#[derive(Drop)]
struct Front {
    matched: Matched,
    blanks: Blanks,
    count: usize,
}

fn front_of(alloc: Global, bidix: &Compiled, reads: &[Read], size: usize) -> Result<Front, Fail> {
    let mut units = Sequence::new(alloc);
    let mut blanks = Sequence::new(alloc);
    let mut count: usize = 0;
    for read in reads {
        if units.len() == size {
            break;
        }
        match &read.item {
            Item::Unit(unit) => units.push(seen(alloc, bidix, unit)?)?,
            Item::Blank(blank) => blanks.push(Blank::from_slice(alloc, blank.as_slice())?)?,
            _ => {}
        }
        count = count.saturating_add(1);
    }
    Ok(Front {
        matched: Matched { chunk: None, units },
        blanks,
        count,
    })
}

fn put_target(unit: &MatchedUnit, out: &mut Bytes) -> Result<(), Fail> {
    if unit.head.is_empty() && unit.queue.is_empty() {
        return Ok(());
    }
    out.extend(b"^")?;
    out.extend(unit.head.rendered())?;
    out.extend(unit.queue.rendered())?;
    Ok(out.extend(b"$")?)
}

fn put_default(piece: DefaultPiece, unit: &MatchedUnit, out: &mut Bytes) -> Result<(), Fail> {
    match piece {
        DefaultPiece::Lu => put_target(unit, out),
        DefaultPiece::Chunk => {
            match unit.source.get(0) {
                Some(Symbol::Star) => out.extend(b"^unknown<unknown>{")?,
                _ => out.extend(b"^default<default>{")?,
            }
            put_target(unit, out)?;
            Ok(out.extend(b"}$")?)
        }
    }
}

/// Writes an item without a match.
fn put_lone(
    alloc: Global,
    bidix: &Compiled,
    rules: &Rules,
    item: &Item,
    out: &mut Bytes,
) -> Result<(), Fail> {
    match item {
        Item::Unit(unit) => put_default(rules.default, &seen(alloc, bidix, unit)?, out),
        _ => Ok(write_item(alloc, item, out)?),
    }
}

/// Writes what the first items give, and answers how many they are.
fn step(
    alloc: Global,
    bidix: &Compiled,
    rules: &Rules,
    reads: &[Read],
    vars: &mut Vars,
    out: &mut Bytes,
) -> Result<usize, Fail> {
    let words = row_of(alloc, reads)?;
    let Choice { rule, size } = chosen(rules, words.as_slice());
    if size == 0 {
        if let Some(read) = reads.first() {
            put_lone(alloc, bidix, rules, &read.item, out)?;
        }
        return Ok(1);
    }
    let front = front_of(alloc, bidix, reads, size)?;
    let template = act(alloc, rules, rule, &front.matched, vars)?;
    out.extend(fill(alloc, &template, &front.blanks)?.as_slice())?;
    Ok(front.count)
}

/// The plain program of joined transfer.
fn joined(alloc: Global, rules: &str, bidix: &str, text: &str) -> Result<Bytes, Fail> {
    let rules = read_rules(alloc, rules.as_bytes(), Form::Transfer)?;
    let bidix = bidix_of(alloc, bidix)?;
    let items = items_of(alloc, text)?;
    let mut vars = Vars::start(alloc, &rules)?;
    let mut out = Bytes::new(alloc);
    let mut skip: usize = 0;
    for at in 0..items.len() {
        if skip > 0 {
            skip -= 1;
        } else {
            let count = step(alloc, &bidix, &rules, &items[at..], &mut vars, &mut out)?;
            skip = count.saturating_sub(1);
        }
    }
    Ok(out)
}

fn lookup_stage(alloc: Global, bidix: &str) -> Result<AnyStage, Fail>
    ensures going { IfOk result (λ made. any_fault made ≡ None) }
    ensures open { IfOk result (λ made. any_ended made ≡ false) }
{
    let stage = Bilingual::new(alloc, bidix_of(alloc, bidix)?, false)?;
    Ok(AnyStage::Bilingual(stage))
}

fn transfer_stage(alloc: Global, rules: &str) -> Result<AnyStage, Fail>
    ensures going { IfOk result (λ made. any_fault made ≡ None) }
    ensures open { IfOk result (λ made. any_ended made ≡ false) }
{
    let rules = read_rules(alloc, rules.as_bytes(), Form::Transfer)?;
    match rules.form {
        Form::Transfer => {
            let stage = Transfer::new(alloc, rules)?;
            Ok(AnyStage::Transfer(stage))
        }
        _ => Err(Fail::new("rules of another form")),
    }
}

/// Bilingual lookup, and then transfer, in a row.
fn behind_lookup(alloc: Global, rules: &str, bidix: &str, text: &str) -> Result<Bytes, Fail> {
    let mut row = Row::new(alloc);
    row.push(lookup_stage(alloc, bidix)?)?;
    row.push(transfer_stage(alloc, rules)?)?;
    let mut source = MemSource::new(Vec::from_slice(alloc, text.as_bytes())?, 7, Vec::new(alloc));
    let mut sink = MemSink::new(alloc, 1000, Vec::new(alloc), 0)?;
    let mut out = Bytes::new(alloc);
    match stream_row(alloc, row, 16, &mut source, &mut sink) {
        Outcome::Done => out.extend(sink.written())?,
        _ => out.extend(b"fault")?,
    }
    Ok(out)
}

#[test]
fn both_give_the_same(rt: HostRuntime) -> Result<(), Fail> {
    let alloc = rt.alloc();
    for (rules, bidix, text, want) in [
        (
            AGREE,
            BIDIX,
            "^black<adj>$[<b>] ^dog<n><sg>$ ^dog<n><sg>$ ^*xyz$.",
            "^nom_adj<SN><m><sg>{^perro<n><2><3>$[<b>] ^negro<adj><2><3>$}$ ^default<default>{^perro<n><m><sg>$}$ ^unknown<unknown>{^*xyz$}$.",
        ),
        (
            DOUBLE,
            BIDIX,
            "^black<adj>$ ^Black<adj>$^@x$",
            "^negro<adj>$ ^Negro<adj>$^@x$",
        ),
        (
            PLURAL,
            BIDIX,
            "^Dog<n><sg>$ ^fox<n><sg>$ ^black<adj>$",
            "^Perro<n><m><pl>$ ^@fox<n><pl>$ ^negro<adj>$",
        ),
        (
            CROSS,
            HEADS,
            "ab ^dog<n><sg>$[<b>] [c]^i<n><pl><nom>$ ^@dog<n>$\\, ^fox<n><sg>$^*dog$[x] [y]^Dog<n><sg><nom>$[1] ^i<n><pl>$ [2]^I<n><sg><x>$.^dog<n><pl>$^dog<n><sg>$,^dog<n><pl>$  ",
            "ab ^can<n><mf><sp>$[<b>] [c]^individuo<m><pl>$ ^@dog<n>$\\, ^aa<n><sg>$^*dog$[x] [y]^Individuo<n><m><sg><x>$^Can<n><m><sg><nom>$[1][2].^can<n><mf><sp>$ ^can<m><sg>$,^aaaa<n><m><pl>$  ",
        ),
    ] {
        let one = joined(alloc, rules, bidix, text)?;
        assert_eq!(rt; one.as_slice(), want.as_bytes());
        let other = behind_lookup(alloc, rules, bidix, text)?;
        assert_eq!(rt; other.as_slice(), want.as_bytes());
    }
    Ok(())
}

#[test]
fn a_queue_that_is_left_out_tells_them_apart(rt: HostRuntime) -> Result<(), Fail> {
    let alloc = rt.alloc();
    let one = joined(alloc, NO_QUEUE, BIDIX, "^dog<n><sg>$")?;
    assert_eq!(rt; one.as_slice(), "^perro<n><m>$".as_bytes());
    let other = behind_lookup(alloc, NO_QUEUE, BIDIX, "^dog<n><sg>$")?;
    assert_eq!(rt; other.as_slice(), "^perro<n><m><sg>$".as_bytes());
    Ok(())
}
