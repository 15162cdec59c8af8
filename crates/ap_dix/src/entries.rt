ghost use Rattle.std.specs.Prelude.{◌≡◌, IfOk};
ghost use Rattle.std.specs.Option.{option_copied};
ghost use Rattle.ap_markup.specs.View.{parts_of, tag_of};
ghost use Rattle.ap_dix.specs.WordText.{texts};
ghost use Rattle.ap_dix.specs.Value.{expression_part, entry_part, entry_parts, entry, entries, side_of, is_yes};

use crate::dictionary::{Entries, Entry, EntryPart, EntryParts, Side};
use crate::expressions::read_expression;
use crate::words::{texts, word_of};
use ap_markup::{Names, Node, Part, child, fitted, is_named, is_text, name_of, value_of};
use ap_symbol::{Memory, Sequence, Text};
use std::alloc::Global;

/// The expression that the text of an element is.
fn expression_part(alloc: Global, node: &Node) -> Result<Option<EntryPart>, Memory>
    ensures { IfOk result (λ made. made ≡ expression_part (texts (parts_of node.now.parts.items))) }
{
    let text = texts(alloc, &node.parts)?;
    match read_expression(alloc, text.as_slice())? {
        None => Ok(None),
        Some(expression) => {
            let text = Text::from_slice(alloc, text.as_slice())?;
            Ok(Some(EntryPart::Expression(expression, text)))
        }
    }
}

/// The part of an entry that an element is, where the paradigms of these names stand above.
fn entry_part(alloc: Global, names: &Names, node: &Node) -> Result<Option<EntryPart>, Memory>
    ensures { IfOk result (λ made. made
        ≡ entry_part names.now (tag_of node.now) (parts_of node.now.parts.items)) }
{
    if is_named("i", node) {
        return Ok(Some(EntryPart::Identity(word_of(alloc, &node.parts)?)));
    }
    if is_named("p", node) {
        let left = word_of(alloc, child("l", &node.parts))?;
        let right = word_of(alloc, child("r", &node.parts))?;
        return Ok(Some(EntryPart::Pair(left, right)));
    }
    if is_named("par", node) {
        return Ok(match names.number_of(name_of(node)) {
            Some(n) => Some(EntryPart::Paradigm(n)),
            None => None,
        });
    }
    if is_named("re", node) {
        return expression_part(alloc, node);
    }
    Ok(None)
}

fn entry_parts(alloc: Global, names: &Names, parts: &[Part]) -> Result<EntryParts, Memory>
    ensures { IfOk result (λ made. made ≡ entry_parts names.now (parts_of parts.now)) }
{
    let mut made = Sequence::new(alloc);
    'parts: for part in parts {
        match part {
            Part::Run(_, _) => {}
            Part::Element(node) => {
                if let Some(one) = entry_part(alloc, names, node)? {
                    made.push(one)?;
                }
            }
        }
    }
    Ok(fitted(made))
}

/// The directions that `r` leaves.
fn side_of(value: Option<&[char]>) -> Side
    ensures { result ≡ side_of (option_copied value.entry) }
{
    match value {
        None => Side::Both,
        Some(value) => {
            if is_text("LR", value) {
                Side::LrOnly
            } else if is_text("RL", value) {
                Side::RlOnly
            } else {
                Side::Both
            }
        }
    }
}

fn is_yes(value: Option<&[char]>) -> bool
    ensures { result ≡ is_yes (option_copied value.entry) }
{
    match value {
        None => false,
        Some(value) => is_text("yes", value),
    }
}

fn entry(alloc: Global, names: &Names, node: &Node) -> Result<Entry, Memory>
    ensures { IfOk result (λ made. made
        ≡ entry names.now (tag_of node.now) (parts_of node.now.parts.items)) }
{
    let given = node.attributes.as_slice();
    Ok(Entry {
        line: node.line,
        side: side_of(value_of("r", given)),
        ignored: is_yes(value_of("i", given)),
        parts: entry_parts(alloc, names, &node.parts)?,
    })
}

/// The entries among the parts, where the paradigms of these names stand above.
pub fn entries(alloc: Global, names: &Names, parts: &[Part]) -> Result<Entries, Memory>
    ensures { IfOk result (λ made. made ≡ entries names.now (parts_of parts.now)) }
{
    let mut made = Sequence::new(alloc);
    'parts: for part in parts {
        match part {
            Part::Run(_, _) => {}
            Part::Element(node) => {
                if is_named("e", node) {
                    made.push(entry(alloc, names, node)?)?;
                }
            }
        }
    }
    Ok(fitted(made))
}

/// How many of the parts are elements.
fn elements_in(parts: &[Part]) -> usize {
    parts
        .iter()
        .filter(|part| matches!(part, Part::Element(_)))
        .count()
}

/// The entries among the parts, as `entries` makes them: each part is let go once its entry is
/// made. Room for all entries is taken first.
#[tactic(auto, using(crate::proofs::Taken::entries_run, crate::proofs::Taken::entries_yes, crate::proofs::Taken::entries_no), unfolding(crate::specs::Value::entries))]
pub fn into_entries(alloc: Global, names: &Names, parts: Vec<Part>) -> Result<Entries, Memory>
    ensures { IfOk result (λ made. made ≡ entries names.now (parts_of parts.items)) }
{
    let mut made = Sequence::from_vec(Vec::with_capacity(alloc, elements_in(&parts))?);
    'parts: for part in parts {
        match part {
            Part::Run(_, _) => {}
            Part::Element(node) => {
                if is_named("e", &node) {
                    made.push(entry(alloc, names, &node)?)?;
                }
            }
        }
    }
    Ok(fitted(made))
}
