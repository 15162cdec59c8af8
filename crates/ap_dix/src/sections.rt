ghost use Rattle.std.specs.Prelude.{◌≡◌, ◌++◌, [], IfOk, OnOk, filter, not};
ghost use Rattle.std.specs.Option.{option_copied};
ghost use Rattle.ap_symbol.specs.Words.{is_white};
ghost use Rattle.ap_markup.specs.View.{parts_of, tag_of};
ghost use Rattle.ap_dix.specs.Value.{alphabet, dictionary, kind_of, pardefs, section, sections};

use crate::dictionary::{Dictionary, Kind, Pardefs, Section, Sections};
use crate::entries::into_entries;
use crate::pardefs::{names_of, pardefs};
use ap_markup::{Names, Node, Part, child, is_named, is_text, value_of};
use ap_symbol::{Letters, Memory, Sequence, is_white};
use std::alloc::Global;

fn kind_of(value: Option<&[char]>) -> Kind
    ensures { result ≡ kind_of (option_copied value.entry) }
{
    match value {
        None => Kind::Standard,
        Some(value) => {
            if is_text("inconditional", value) {
                Kind::Inconditional
            } else if is_text("postblank", value) {
                Kind::Postblank
            } else if is_text("preblank", value) {
                Kind::Preblank
            } else {
                Kind::Standard
            }
        }
    }
}

fn section(alloc: Global, names: &Names, node: Node) -> Result<Section, Memory>
    ensures { IfOk result (λ made. made
        ≡ section names.now (tag_of node) (parts_of node.parts.items)) }
{
    let Node {
        name: _,
        attributes,
        parts,
        line: _,
        place: _,
    } = node;
    Ok(Section {
        kind: kind_of(value_of("type", attributes.as_slice())),
        entries: into_entries(alloc, names, parts)?,
    })
}

/// The sections among the parts: each part is let go once its section is made.
#[tactic(auto, using(crate::proofs::Taken::sections_run, crate::proofs::Taken::sections_yes, crate::proofs::Taken::sections_no), unfolding(crate::specs::Value::sections))]
fn sections(alloc: Global, names: &Names, parts: Vec<Part>) -> Result<Sections, Memory>
    ensures { IfOk result (λ made. made ≡ sections names.now (parts_of parts.items)) }
{
    let mut made = Sequence::new(alloc);
    'parts: for part in parts {
        match part {
            Part::Run(_, _) => {}
            Part::Element(node) => {
                if is_named("section", &node) {
                    made.push(section(alloc, names, node)?)?;
                }
            }
        }
    }
    Ok(made)
}

/// Appends the characters other than white space.
fn add_letters(letters: &mut Letters, text: &[char]) -> Result<(), Memory>
    ensures { OnOk result (letters.new ≡ letters.old ++ filter (λ c. not (is_white c)) text.now) }
{
    'text: for c in text {
        if !is_white(*c) {
            letters.push(*c)?;
        }
    }
    Ok(())
}

fn alphabet(alloc: Global, parts: &[Part]) -> Result<Letters, Memory>
    ensures { IfOk result (λ made. made ≡ alphabet (parts_of parts.now)) }
{
    let mut made = Sequence::new(alloc);
    'parts: for part in parts {
        match part {
            Part::Run(text, _) => {
                add_letters(&mut made, text.as_slice())?;
            }
            Part::Element(_) => {}
        }
    }
    Ok(made)
}

fn paradigms(alloc: Global, parts: &[Part]) -> Result<Pardefs, Memory>
    ensures { IfOk result (λ made. made ≡ pardefs [] (parts_of parts.now)) }
{
    let mut names = Names::new(alloc);
    pardefs(alloc, &mut names, parts)
}

/// The dictionary whose root has these parts. The parts are let go as they are read.
#[tactic(auto, using(crate::proofs::Taken::names_made))]
pub fn dictionary(alloc: Global, parts: Vec<Part>) -> Result<Dictionary, Memory>
    ensures { IfOk result (λ made. made ≡ dictionary (parts_of parts.items)) }
{
    let alphabet = alphabet(alloc, child("alphabet", &parts))?;
    let pardefs = paradigms(alloc, child("pardefs", &parts))?;
    let sections = sections(alloc, &names_of(alloc, pardefs.as_slice())?, parts)?;
    Ok(Dictionary {
        alphabet,
        pardefs,
        sections,
    })
}
