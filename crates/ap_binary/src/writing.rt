ghost use Rattle.std.specs.Prelude.{◌≡◌, ◌++◌, ◌^◌, ◌<◌, ◌&&◌, true, Some, IfOk, OnOk, codes, decimal, length};
ghost use Rattle.std.specs.List.{flat_map, list_all};
ghost use Rattle.ap_symbol.specs.TagNames.{is_tag_name};
ghost use Rattle.ap_fst.specs.Sections.{IsCompiled, section_of};
ghost use Rattle.ap_binary.specs.Held.{is_held_side, is_held_label, is_held_edge, IsHeldMachine, AreHeldSections};
ghost use Rattle.ap_binary.specs.Pieces.{is_character, is_utf8};
ghost use Rattle.ap_binary.specs.Spelling.{Spells};
ghost use Rattle.ap_binary.specs.Text.{side_text, then_space, then_end, edge_text, final_text, section_name, head_text, section_text, sections_text, letter_text, alphabet_text, header_text, compiled_text};

use ap_fst::{Compiled, Edge, Fst, Kind2, Label, Way};
use ap_symbol::{Bytes, Memory, Symbol, TagName};
use itoa::Buffer;
use std::alloc::Global;

fn put_number(number: u64, into: &mut Bytes) -> Result<(), Memory>
    ensures text { OnOk result (into.new ≡ into.old ++ decimal number) }
    ensures held { number < 2 ^ 64 }
{
    into.extend(Buffer::new().format(number).as_bytes())
}

/// The code point of a letter.
fn put_code(letter: char, into: &mut Bytes) -> Result<(), Memory>
    ensures text { OnOk result (into.new ≡ into.old ++ decimal letter) }
    ensures held { is_character letter ≡ true }
{
    put_number(letter as u64, into)
}

fn put_name(name: &TagName, into: &mut Bytes) -> Result<(), Memory>
    ensures text { OnOk result (into.new ≡ into.old ++ name.now) }
    ensures held { (is_utf8 name.now && is_tag_name name.now) ≡ true }
{
    into.extend(name.text().as_bytes())
}

fn put_symbol(symbol: &Symbol, into: &mut Bytes) -> Result<(), Memory>
    ensures text { OnOk result (into.new ≡ into.old ++ side_text (Some symbol.now)) }
    ensures held { OnOk result (is_held_side (Some symbol.now) ≡ true) }
{
    match symbol {
        Symbol::Letter(letter) => {
            into.extend(b"L")?;
            put_code(*letter, into)
        }
        Symbol::Tag(name) => {
            into.extend(b"T")?;
            put_name(name, into)
        }
        Symbol::Blank => into.extend(b"B"),
        Symbol::Join => into.extend(b"J"),
        Symbol::Queue => into.extend(b"Q"),
        Symbol::Alarm => into.extend(b"A"),
        Symbol::Star => into.extend(b"*"),
        Symbol::At => into.extend(b"@"),
    }
}

fn put_side(side: &Option<Symbol>, into: &mut Bytes) -> Result<(), Memory>
    ensures text { OnOk result (into.new ≡ into.old ++ side_text side.now) }
    ensures held { OnOk result (is_held_side side.now ≡ true) }
{
    match side {
        None => into.extend(b"-"),
        Some(symbol) => put_symbol(symbol, into),
    }
}

/// A number and the space behind it.
fn put_field(number: u64, into: &mut Bytes) -> Result<(), Memory>
    ensures text { OnOk result (into.new ≡ into.old ++ then_space (decimal number)) }
    ensures held { number < 2 ^ 64 }
{
    put_number(number, into)?;
    into.extend(b" ")
}

/// The last number of a line.
fn put_last(number: u64, into: &mut Bytes) -> Result<(), Memory>
    ensures text { OnOk result (into.new ≡ into.old ++ then_end (decimal number)) }
    ensures held { number < 2 ^ 64 }
{
    put_number(number, into)?;
    into.extend(b"\n")
}

/// A side and the space behind it.
fn put_side_field(side: &Option<Symbol>, into: &mut Bytes) -> Result<(), Memory>
    ensures text { OnOk result (into.new ≡ into.old ++ then_space (side_text side.now)) }
    ensures held { OnOk result (is_held_side side.now ≡ true) }
{
    put_side(side, into)?;
    into.extend(b" ")
}

/// The two sides and the spaces behind them.
fn put_label(label: &Label, into: &mut Bytes) -> Result<(), Memory>
    ensures text { OnOk result
        (into.new ≡ into.old ++ (then_space (side_text label.now.left)
        ++ then_space (side_text label.now.right))) }
    ensures held { OnOk result (is_held_label label.now ≡ true) }
{
    put_side_field(&label.left, into)?;
    put_side_field(&label.right, into)
}

fn put_edge(edge: &Edge, into: &mut Bytes) -> Result<(), Memory>
    ensures text { OnOk result (into.new ≡ into.old ++ edge_text edge.now) }
    ensures held { OnOk result (is_held_edge edge.now ≡ true) }
{
    put_field(edge.from as u64, into)?;
    put_label(&edge.label, into)?;
    put_last(edge.to as u64, into)
}

fn put_edges(edges: &[Edge], into: &mut Bytes) -> Result<(), Memory>
    ensures text { OnOk result (into.new ≡ into.old ++ flat_map edge_text edges.now) }
    ensures held { OnOk result (list_all is_held_edge edges.now ≡ true) }
{
    'edges: for edge in edges {
        put_edge(edge, into)?;
    }
    Ok(())
}

fn put_final(state: usize, into: &mut Bytes) -> Result<(), Memory>
    ensures { OnOk result (into.new ≡ into.old ++ final_text state) }
{
    put_last(state as u64, into)
}

fn put_finals(finals: &[usize], into: &mut Bytes) -> Result<(), Memory>
    ensures { OnOk result (into.new ≡ into.old ++ flat_map final_text finals.now) }
{
    'finals: for state in finals {
        put_final(*state, into)?;
    }
    Ok(())
}

/// The name of a kind of sections, as files write it.
pub(crate) fn section_name(kind: Kind2) -> &'static str
    ensures { result.now ≡ section_name kind }
{
    match kind {
        Kind2::Standard => "standard",
        Kind2::Inconditional => "inconditional",
        Kind2::Postblank => "postblank",
        Kind2::Preblank => "preblank",
    }
}

fn put_kind(kind: Kind2, into: &mut Bytes) -> Result<(), Memory>
    ensures { OnOk result (into.new ≡ into.old
        ++ (codes "section " ++ then_space (section_name kind))) }
{
    into.extend(b"section ")?;
    into.extend(section_name(kind).as_bytes())?;
    into.extend(b" ")
}

fn put_counts(fst: &Fst, into: &mut Bytes) -> Result<(), Memory>
    ensures text { OnOk result
        (into.new ≡ into.old ++ (then_space (decimal fst.now.states)
        ++ (then_space (decimal (length fst.now.edges))
        ++ then_end (decimal (length fst.now.finals))))) }
    ensures held { OnOk result ((fst.now.states < 2 ^ 64) × (length fst.now.edges < 2 ^ 64)
        × (length fst.now.finals < 2 ^ 64)) }
{
    put_field(fst.states() as u64, into)?;
    put_field(fst.edges().len() as u64, into)?;
    put_last(fst.finals().len() as u64, into)
}

fn put_head(kind: Kind2, fst: &Fst, into: &mut Bytes) -> Result<(), Memory>
    ensures text { OnOk result (into.new ≡ into.old ++ head_text kind fst.now) }
    ensures held { OnOk result ((fst.now.states < 2 ^ 64) × (length fst.now.edges < 2 ^ 64)
        × (length fst.now.finals < 2 ^ 64)) }
{
    put_kind(kind, into)?;
    put_counts(fst, into)
}

fn put_section(kind: Kind2, fst: &Fst, into: &mut Bytes) -> Result<(), Memory>
    ensures text { OnOk result (into.new ≡ into.old ++ section_text kind fst.now) }
    ensures held { OnOk result (IsHeldMachine fst.now) }
{
    put_head(kind, fst, into)?;
    put_edges(fst.edges(), into)?;
    put_finals(fst.finals(), into)
}

fn put_letter(letter: char, into: &mut Bytes) -> Result<(), Memory>
    ensures text { OnOk result (into.new ≡ into.old ++ letter_text letter) }
    ensures held { is_character letter ≡ true }
{
    into.extend(b" ")?;
    put_code(letter, into)
}

fn put_letters(letters: &[char], into: &mut Bytes) -> Result<(), Memory>
    ensures text { OnOk result (into.new ≡ into.old ++ flat_map letter_text letters.now) }
    ensures held { OnOk result (list_all is_character letters.now ≡ true) }
{
    'letters: for letter in letters {
        put_letter(*letter, into)?;
    }
    Ok(())
}

fn put_alphabet(letters: &[char], into: &mut Bytes) -> Result<(), Memory>
    ensures text { OnOk result (into.new ≡ into.old ++ alphabet_text letters.now) }
    ensures held { OnOk result (list_all is_character letters.now ≡ true) }
{
    into.extend(b"alphabet")?;
    put_letters(letters, into)?;
    into.extend(b"\n")
}

fn put_section_of(compiled: &Compiled, kind: Kind2, into: &mut Bytes) -> Result<(), Memory>
    ensures text { OnOk result
        (into.new ≡ into.old ++ section_text kind (section_of compiled.now kind)) }
    ensures held { OnOk result (IsHeldMachine (section_of compiled.now kind)) }
{
    put_section(kind, compiled.section(kind), into)
}

fn put_sections(compiled: &Compiled, into: &mut Bytes) -> Result<(), Memory>
    ensures text { OnOk result (into.new ≡ into.old ++ sections_text compiled.now) }
    ensures held { OnOk result (AreHeldSections compiled.now) }
{
    put_section_of(compiled, Kind2::Standard, into)?;
    put_section_of(compiled, Kind2::Inconditional, into)?;
    put_section_of(compiled, Kind2::Postblank, into)?;
    put_section_of(compiled, Kind2::Preblank, into)
}

/// What stands before the alphabet.
fn put_header(way: Way, into: &mut Bytes) -> Result<(), Memory>
    ensures { OnOk result (into.new ≡ into.old ++ header_text way) }
{
    match way {
        Way::Untold => into.extend(b"LTC1\n"),
        Way::Lr => into.extend(b"LTC2\nway lr\n"),
        Way::Rl => into.extend(b"LTC2\nway rl\n"),
    }
}

fn put_front(compiled: &Compiled, into: &mut Bytes) -> Result<(), Memory>
    ensures text { OnOk result
        (into.new ≡ into.old ++ (header_text compiled.now.way
        ++ alphabet_text compiled.now.alphabet)) }
    ensures held { OnOk result (list_all is_character compiled.now.alphabet ≡ true) }
    ensures sound { OnOk result (IsCompiled compiled.now) }
{
    put_header(compiled.way(), into)?;
    put_alphabet(compiled.alphabet().as_slice(), into)
}

fn put_rest(compiled: &Compiled, into: &mut Bytes) -> Result<(), Memory>
    ensures text { OnOk result
        (into.new ≡ into.old ++ (sections_text compiled.now ++ codes "end\n")) }
    ensures held { OnOk result (AreHeldSections compiled.now) }
{
    put_sections(compiled, into)?;
    into.extend(b"end\n")
}

/// The text of a compiled dictionary: `LTC1` where it tells no direction, else `LTC2` and a line
/// `way lr` or `way rl`; the alphabet by its code points; for each kind of
/// sections in the order standard, inconditional, postblank, preblank a line with the numbers of
/// states, edges and final states, then the edges and then the final states, a line each; and
/// `end`. Numbers are decimal, and fields are parted by spaces. `read_compiled` reads it again as
/// the same value. The error means want of memory.
#[tactic(auto, unfolding(crate::specs::Text::compiled_text))]
pub fn write_compiled(alloc: Global, compiled: &Compiled) -> Result<Bytes, Memory>
    ensures text { IfOk result (λ text. text ≡ compiled_text compiled.now) }
    ensures reads { IfOk result (λ text. Spells text compiled.now) }
{
    let mut text = Bytes::new(alloc);
    put_front(compiled, &mut text)?;
    put_rest(compiled, &mut text)?;
    Ok(text)
}
