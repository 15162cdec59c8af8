//! The parts of words, and what clips give.
ghost use Rattle.std.specs.Prelude.{◌≡◌, ◌≢◌, ◌+◌, ◌≤◌, ◌<◌, ◌^◌, true, false, length, map, None, IfSome};
ghost use Rattle.std.specs.List.{prefix_len};
ghost use Rattle.std.specs.Option.{option_copied};
ghost use Rattle.ap_symbol.specs.Fitting.{fits_lem};
ghost use Rattle.ap_symbol.specs.Kinds.{is_tag, is_queue};
ghost use Rattle.ap_symbol.specs.Rendering.{rendering, tag_bytes};
ghost use Rattle.ap_symbol.specs.Words.{AreProper};
ghost use Rattle.ap_exec.specs.Attributes.{BeginsWithTag};
ghost use Rattle.ap_exec.specs.Divided.{IsDivision};
ghost use Rattle.ap_exec.specs.Parts.{is_lemma, is_head, begins_with, item_fits, longer, longest, sought, tags_in, items_of, span_of, cut, side_in, word_on, part_at, linked, clip_of, case_at};
ghost use Rattle.ap_exec.specs.Ranges.{span};
ghost use Rattle.ap_exec.specs.States.{sight};
ghost use Rattle.ap_exec.specs.Units.{number_at, unit_at};

use crate::divided::Division;
use crate::lent::Lent;
use crate::state::View;
use ap_rules::{AttrItem, Clip, ClipPart, DefAttr, Form, Side};
use ap_symbol::{Case, Symbol, Word, case_of_symbols, fits, is_tag};

/// A part of a word: where it begins and how many symbols it has.
#[derive(Clone, Copy)]
pub(crate) struct Range {
    pub(crate) start: usize,
    pub(crate) count: usize,
}

fn is_queue(symbol: &Symbol) -> bool
    ensures { result ≡ is_queue symbol.now }
{
    matches!(symbol, Symbol::Queue)
}

/// How many symbols stand before the first tag.
pub(crate) fn lemma_len(word: &[Symbol]) -> usize
    ensures value { result ≡ prefix_len is_lemma word.now }
    ensures within { result ≤ length word.now }
{
    word.iter().take_while(|s| !is_tag(s)).count()
}

/// How many symbols stand before the first queue or tag.
pub(crate) fn head_len(word: &[Symbol]) -> usize
    ensures value { result ≡ prefix_len is_head word.now }
    ensures within { result ≤ length word.now }
{
    word.iter()
        .take_while(|s| !(is_tag(s) || is_queue(s)))
        .count()
}

/// How many symbols stand before the first tag, where that may be known.
fn lemma_in(word: &[Symbol], known: Option<Division>) -> usize
    requires { IfSome known (λ d. IsDivision word.now d) }
    ensures value { result ≡ prefix_len is_lemma word.now }
    ensures within { result ≤ length word.now }
{
    match known {
        None => lemma_len(word),
        Some(division) => division.lemma,
    }
}

/// How many symbols stand before the first queue or tag, where that may be known.
fn head_in(word: &[Symbol], known: Option<Division>) -> usize
    requires { IfSome known (λ d. IsDivision word.now d) }
    ensures value { result ≡ prefix_len is_head word.now }
    ensures within { result ≤ length word.now }
{
    match known {
        None => head_len(word),
        Some(division) => division.head,
    }
}

/// With how many tags the symbols begin.
fn tags_len(word: &[Symbol]) -> usize
    ensures value { result ≡ prefix_len is_tag word.now }
    ensures within { result ≤ length word.now }
{
    word.iter().take_while(|s| is_tag(s)).count()
}

fn begins_with(item: &[Symbol], word: &[Symbol]) -> bool
    ensures value { result ≡ begins_with item.now word.now }
    ensures within { result ≡ true → length item.now ≤ length word.now }
{
    let mut word = word;
    for s in item {
        match word.split_first() {
            None => return false,
            Some((t, more)) => {
                if !fits(s, t, true) {
                    return false;
                }
                word = more;
            }
        }
    }
    true
}

/// Whether two texts differ in their length or in their first byte.
fn differ(a: &[u8], b: &[u8]) -> bool
    ensures { result ≡ true → a.now ≢ b.now }
{
    if a.len() != b.len() {
        return true;
    }
    match (a.first(), b.first()) {
        (Some(first), Some(other)) => *first != *other,
        _ => false,
    }
}

/// Whether the two are tags that can be told apart at once.
pub(crate) fn are_apart(symbol: &Symbol, other: &Symbol) -> bool
    ensures { result ≡ true → fits_lem true symbol.now other.now ≡ false }
{
    match (symbol, other) {
        (Symbol::Tag(a), Symbol::Tag(b)) => differ(a.text().as_bytes(), b.text().as_bytes()),
        _ => false,
    }
}

/// The word begins with the item; an empty one never fits.
fn item_fits(item: &[Symbol], word: &[Symbol]) -> bool
    ensures value { result ≡ item_fits item.now word.now }
    ensures within { result ≡ true → length item.now ≤ length word.now }
{
    match (item.first(), word.first()) {
        (Some(first), Some(other)) => !are_apart(first, other) && begins_with(item, word),
        (None, _) => false,
        (_, None) => false,
    }
}

fn longer(best: Option<usize>, len: usize) -> Option<usize>
    ensures { result ≡ longer best len }
{
    match best {
        None => Some(len),
        Some(most) => Some(if most < len { len } else { most }),
    }
}

/// The name of the tag with which a word begins.
fn name_at(word: &[Symbol]) -> Option<&[u8]>
    ensures { IfSome result (λ name. BeginsWithTag name.now word.now) }
{
    match word.first() {
        Some(Symbol::Tag(name)) => Some(name.text().as_bytes()),
        _ => None,
    }
}

/// Whether the word begins with the item. Most items are one tag.
#[tactic(auto, using(crate::proofs::Attributes::one_fits))]
fn fits_at(item: &[Symbol], word: &[Symbol]) -> bool
    ensures value { result ≡ item_fits item.now word.now }
    ensures within { result ≡ true → length item.now ≤ length word.now }
{
    match item {
        [one] => match word.split_first() {
            None => false,
            Some((first, _)) => fits(one, first, true),
        },
        _ => item_fits(item, word),
    }
}

/// The length of the longest item that fits at the front of the word, which begins with the tag of
/// this name, where one is given.
fn longest_of(items: &[AttrItem], word: &[Symbol]) -> Option<usize>
    ensures value { result ≡ longest None (map tags_in items.now) word.now }
    ensures within { IfSome result (λ n. n ≤ length word.now) }
{
    let mut best = None;
    for item in items {
        if fits_at(item.tags.symbols(), word) {
            best = longer(best, item.tags.len());
        }
    }
    best
}

/// The length of the longest item of the attribute that fits at the front of the word.
#[tactic(auto, using(crate::proofs::Attributes::near_alone, crate::proofs::Attributes::none_near))]
fn longest(attribute: &DefAttr, word: &[Symbol]) -> Option<usize>
    ensures value { result ≡ longest None (map tags_in attribute.now) word.now }
    ensures within { IfSome result (λ n. n ≤ length word.now) }
{
    match name_at(word) {
        None => longest_of(attribute.items(), word),
        Some(name) => {
            let near = attribute.near(name);
            if near.is_empty() {
                return None;
            }
            longest_of(near, word)
        }
    }
}

/// Where an item of the attribute fits first, as long as the longest that fits there.
fn sought(start: usize, attribute: &DefAttr, word: &[Symbol]) -> Range
    requires { start + length word.now < 2 ^ 64 }
    ensures value { span result ≡ sought start (map tags_in attribute.now) word.now }
    ensures within { result.start + result.count ≤ start + length word.now }
{
    let mut rest = word;
    let mut at = start;
    'places: while let Some((_, more)) = rest.split_first() {
        if let Some(count) = longest(attribute, rest) {
            return Range { start: at, count };
        }
        at += 1;
        rest = more;
    }
    Range {
        start: at,
        count: 0,
    }
}

fn attribute_span(attributes: &[DefAttr], n: usize, start: usize, word: &[Symbol]) -> Range
    requires { start + length word.now < 2 ^ 64 }
    ensures value { span result ≡ sought start (items_of attributes.now n) word.now }
    ensures within { result.start + result.count ≤ start + length word.now }
{
    match attributes.get(n) {
        None => Range {
            start: start + word.len(),
            count: 0,
        },
        Some(attribute) => sought(start, attribute, word),
    }
}

/// Where a part of a word stands. Where the word is divided may be known.
pub(crate) fn span_of(
    attributes: &[DefAttr],
    part: ClipPart,
    word: &[Symbol],
    known: Option<Division>,
) -> Range
    requires { IfSome known (λ d. IsDivision word.now d) }
    ensures value { span result ≡ span_of attributes.now part word.now }
    ensures within { result.start + result.count ≤ length word.now }
{
    match part {
        ClipPart::Lem => Range {
            start: 0,
            count: lemma_in(word, known),
        },
        ClipPart::Lemh => Range {
            start: 0,
            count: head_in(word, known),
        },
        ClipPart::Lemq => {
            let start = head_in(word, known);
            Range {
                start,
                count: lemma_in(word, known).saturating_sub(start),
            }
        }
        ClipPart::Tags => {
            let start = lemma_in(word, known);
            Range {
                start,
                count: tags_len(&word[start..]),
            }
        }
        ClipPart::Whole => Range {
            start: 0,
            count: word.len(),
        },
        ClipPart::Content => Range { start: 0, count: 0 },
        ClipPart::Attribute(n) => {
            let start = lemma_in(word, known);
            attribute_span(attributes, n, start, &word[start..])
        }
    }
}

/// The symbols of a word at a range, as far as there are any.
pub(crate) fn cut(range: Range, word: &[Symbol]) -> &[Symbol]
    requires { AreProper word.now }
    ensures value { result.now ≡ cut (span range) word.now }
    ensures proper { AreProper result.now }
{
    let start = range.start.min(word.len());
    let rest = &word[start..];
    let count = range.count.min(rest.len());
    &rest[..count]
}

/// Outside of transfer there is one word, whatever the side.
pub(crate) fn side_in(form: Form, side: Side) -> Side
    ensures { result ≡ side_in form side }
{
    match form {
        Form::Transfer => side,
        Form::Interchunk | Form::Postchunk => Side::Target,
    }
}

/// The word on a side of a unit, with its queue or without.
#[tactic(auto, using(crate::proofs::Proper::proper_take))]
pub(crate) fn word_on<'a>(side: Side, queue: bool, unit: &'a Lent<'_>) -> &'a [Symbol]
    ensures value { result.now ≡ word_on side queue unit.now }
    ensures within { length result.now ≤ length (word_on side true unit.now) }
    ensures proper { AreProper result.now }
{
    match (side, queue) {
        (Side::Source, _) => unit.source().symbols(),
        (Side::Target, true) => unit.target().symbols(),
        (Side::Target, false) => {
            let target = unit.target().symbols();
            &target[..unit.border().min(target.len())]
        }
    }
}

/// Where the word on a side of a unit is divided, with its queue or without, where that is known.
pub(crate) fn division_on(side: Side, queue: bool, unit: &Lent<'_>) -> Option<Division>
    ensures { IfSome result (λ d. IsDivision (word_on side queue unit.now) d) }
{
    match (side, queue) {
        (Side::Source, _) => unit.source_division(),
        (Side::Target, true) => unit.target_division(),
        (Side::Target, false) => {
            if unit.border() < unit.target().len() {
                return None;
            }
            unit.target_division()
        }
    }
}

/// The number of the unit that stands at a position.
pub(crate) fn number_at(positions: &[Option<usize>], pos: usize) -> Option<usize>
    ensures { result ≡ number_at positions.now pos }
{
    match positions.get(pos) {
        None => None,
        Some(unit) => *unit,
    }
}

/// The unit that stands at a position.
pub(crate) fn unit_at<'a, 'u>(
    positions: &[Option<usize>],
    units: &'a [Lent<'u>],
    pos: usize,
) -> Option<&'a Lent<'u>>
    ensures { option_copied result ≡ unit_at positions.now units.now pos }
{
    match number_at(positions, pos) {
        None => None,
        Some(n) => units.get(n),
    }
}

/// A part of the word on a side of a unit.
pub(crate) fn part_on<'a>(
    attributes: &[DefAttr],
    part: ClipPart,
    side: Side,
    queue: bool,
    unit: &'a Lent<'_>,
) -> &'a [Symbol]
    ensures value { result.now ≡ cut (span_of attributes.now part (word_on side queue unit.now))
        (word_on side queue unit.now) }
    ensures proper { AreProper result.now }
{
    let word = word_on(side, queue, unit);
    let known = division_on(side, queue, unit);
    cut(span_of(attributes, part, word, known), word)
}

/// A part of the word at a position.
#[tactic(auto, using(crate::proofs::Whole::cut_nothing))]
pub(crate) fn part_at<'a>(
    view: &View<'a, '_>,
    pos: usize,
    part: ClipPart,
    side: Side,
    queue: bool,
) -> &'a [Symbol]
    ensures value { result.now ≡ part_at (sight view.now) pos part side queue }
    ensures proper { AreProper result.now }
{
    match unit_at(view.positions, view.units, pos) {
        None => &[],
        Some(unit) => {
            let side = side_in(view.world.form, side);
            part_on(view.world.attributes, part, side, queue, unit)
        }
    }
}

fn linked<'a>(link: &'a Option<Word>, part: &'a [Symbol]) -> &'a [Symbol]
    requires { AreProper part.now }
    ensures value { result.now ≡ linked link.now part.now }
    ensures proper { AreProper result.now }
{
    match link {
        None => part,
        Some(link) => {
            if part.is_empty() {
                part
            } else {
                link.symbols()
            }
        }
    }
}

/// What a clip gives: a part of the word at a position, or the link in its place.
pub(crate) fn clip_of<'a>(view: &View<'a, '_>, clip: &'a Clip) -> &'a [Symbol]
    ensures value { result.now ≡ clip_of (sight view.now) clip.now }
    ensures proper { AreProper result.now }
{
    let part = part_at(&*view, clip.pos, clip.part, clip.side, clip.queue);
    linked(&clip.link_to, part)
}

/// The case of the lemma at a position.
pub(crate) fn case_at(view: &View<'_, '_>, pos: usize) -> Case
    ensures { result ≡ case_at (sight view.now) pos }
{
    case_of_symbols(part_at(&*view, pos, ClipPart::Lem, Side::Source, true))
}
