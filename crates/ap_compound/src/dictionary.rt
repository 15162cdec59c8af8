ghost use Rattle.std.specs.Prelude.{◌≡◌, IfOk};
ghost use Rattle.std.specs.List.{filter};
ghost use Rattle.ap_fst.specs.Sections.{IsSection};
ghost use Rattle.ap_compound.specs.Plain.{is_left_side, stays_alone, alone, IsPlainSection, IsPlainOf};
ghost use Rattle.ap_compound.specs.Tags.{right_tag};

use crate::copying::copy_letters;
use crate::tags::is_left_tag;
use ap_fst::{Compiled, Draft, Edge, Edges, Finals, Fst, Kind2, trim, without_empty};
use ap_symbol::{Memory, Symbol, TagName};
use std::alloc::Global;

fn is_left_side(side: &Option<Symbol>) -> bool
    ensures { result ≡ is_left_side side.now }
{
    match side {
        None => false,
        Some(symbol) => is_left_tag(symbol),
    }
}

/// The edges that don't write the tag of left parts.
fn edges_alone(alloc: Global, edges: &[Edge]) -> Result<Edges, Memory>
    ensures { IfOk result (λ made. made ≡ filter stays_alone edges.now) }
{
    let mut made = Edges::new(alloc);
    for edge in edges {
        if !is_left_side(&edge.label.right) {
            let label = edge.label.copy(alloc)?;
            made.push(Edge {
                from: edge.from,
                label,
                to: edge.to,
            })?;
        }
    }
    Ok(made)
}

fn copy_finals(alloc: Global, finals: &[usize]) -> Result<Finals, Memory>
    ensures { IfOk result (λ made. made ≡ finals.now) }
{
    let copied = Vec::from_slice(alloc, finals)?;
    Ok(Finals::from_vec(copied))
}

/// The transducer without the label strings that write the tag of left parts.
fn alone(alloc: Global, fst: &Fst) -> Result<Fst, Memory>
    ensures { IfOk result (λ made. made ≡ alone fst.now) }
{
    let edges = edges_alone(alloc, fst.edges())?;
    let finals = copy_finals(alloc, fst.finals())?;
    Ok(Fst::build(fst.states(), edges, finals))
}

fn plain_section(alloc: Global, section: &Fst, tag: &TagName) -> Result<Fst, Memory>
    requires { tag.now ≡ right_tag }
    ensures plain { IfOk result (λ made. IsPlainSection section.now made) }
    ensures section { IfOk result (λ made. IsSection section.now → IsSection made) }
{
    let fst = alone(alloc, section)?;
    let draft = Draft::without_right(alloc, &fst, tag)?;
    let loose = without_empty(alloc, &draft)?;
    let made = trim(alloc, &loose)?;
    let _ = made.states();
    Ok(made)
}

/// The tag of right parts.
fn right_name(alloc: Global) -> Result<TagName, Memory>
    ensures { IfOk result (λ made. made ≡ right_tag) }
{
    match TagName::new(alloc, "compound-R")? {
        Some(name) => Ok(name),
        None => Err(Memory),
    }
}

/// A dictionary as words alone are looked up in it: without the pairs whose right word holds the
/// tag `compound-only-L`, and with each tag `compound-R` left out of the right words. The alphabet
/// and the direction are the same. The error means want of memory.
pub fn plain(alloc: Global, compiled: &Compiled) -> Result<Compiled, Memory>
    ensures { IfOk result (λ made. IsPlainOf compiled.now made) }
{
    let tag = right_name(alloc)?;
    let alphabet = copy_letters(alloc, compiled.alphabet())?;
    let standard = plain_section(alloc, compiled.section(Kind2::Standard), &tag)?;
    let inconditional = plain_section(alloc, compiled.section(Kind2::Inconditional), &tag)?;
    let postblank = plain_section(alloc, compiled.section(Kind2::Postblank), &tag)?;
    let preblank = plain_section(alloc, compiled.section(Kind2::Preblank), &tag)?;
    Ok(Compiled::new(
        alphabet,
        compiled.way(),
        standard,
        inconditional,
        postblank,
        preblank,
    ))
}
