ghost use Rattle.std.specs.Prelude.{◌≡◌, IfOk, false, map, codes};
ghost use Rattle.std.specs.Option.{option_copied, option_map};
ghost use Rattle.ap_markup.specs.View.{tag_of};
ghost use Rattle.ap_markup.specs.Views.{pairs};
ghost use Rattle.ap_rules.specs.Children.{children_in, children_of};
ghost use Rattle.ap_rules.specs.Pieces as read;
ghost use Rattle.ap_rules.specs.Scopes.{scope};
ghost use Rattle.ap_rules.specs.Texts.{number_in};
ghost use Rattle.ap_markup.specs.Said.{value_of};
ghost use Rattle.ap_rules.specs.Views.{plain_chunk, plain_chunk_piece, plain_piece, plain_values};

use crate::children::{next_element, within};
use crate::faults::is_transfer;
use crate::piece::{Chunk, ChunkPiece, Lu, Mlu, Piece, Tag, ValueChunk};
use crate::texts::{number_in, word_of};
use crate::value::B;
use crate::values::{Scope, values};
use ap_markup::{Names, Node, Part, is_named, value_of};
use ap_symbol::{Memory, Word};
use std::alloc::Global;

/// The units among the parts.
fn units(alloc: Global, s: Scope<'_, '_>, parts: &[Part]) -> Result<Vec<Lu>, Memory>
    ensures { IfOk result (λ made. map (λ u. plain_values u.values.items) made.items
        ≡ read.rows_named (codes "lu") (scope s.entry) (children_in parts.now)) }
{
    let mut made = Vec::new(alloc);
    let mut rest = parts;
    'rest: while let Some((node, more)) = next_element(rest) {
        if is_named("lu", node) {
            let values = values(alloc, s, false, &node.parts)?;
            made.push(Lu { values })?;
        }
        rest = more;
    }
    Ok(made)
}

/// The tags among the parts.
fn tags(alloc: Global, s: Scope<'_, '_>, parts: &[Part]) -> Result<Vec<Tag>, Memory>
    ensures { IfOk result (λ made. map (λ t. plain_values t.values.items) made.items
        ≡ read.rows_named (codes "tag") (scope s.entry) (children_in parts.now)) }
{
    let mut made = Vec::new(alloc);
    let mut rest = parts;
    'rest: while let Some((node, more)) = next_element(rest) {
        if is_named("tag", node) {
            let values = values(alloc, s, false, &node.parts)?;
            made.push(Tag { values })?;
        }
        rest = more;
    }
    Ok(made)
}

fn blank(node: &Node) -> B
    ensures { result.pos ≡ number_in 1 99 (value_of (codes "pos") (pairs node.now.attributes)) }
{
    B {
        pos: number_in(1, 99, value_of("pos", node.attributes.as_slice())),
    }
}

fn chunk_piece(alloc: Global, s: Scope<'_, '_>, node: &Node) -> Result<Option<ChunkPiece>, Memory>
    ensures { IfOk result (λ made. option_map plain_chunk_piece made
        ≡ read.chunk_piece (scope s.entry) (tag_of node.now) (children_of node.now)) }
{
    if is_named("lu", node) {
        let values = values(alloc, s, false, &node.parts)?;
        return Ok(Some(ChunkPiece::Lu(Lu { values })));
    }
    if is_named("mlu", node) {
        let units = units(alloc, s, &node.parts)?;
        return Ok(Some(ChunkPiece::Mlu(Mlu { units })));
    }
    if is_named("b", node) {
        return Ok(Some(ChunkPiece::B(blank(node))));
    }
    Ok(None)
}

fn chunk_pieces(alloc: Global, s: Scope<'_, '_>, parts: &[Part]) -> Result<Vec<ChunkPiece>, Memory>
    ensures { IfOk result (λ made. map plain_chunk_piece made.items
        ≡ read.chunk_pieces (scope s.entry) (children_in parts.now)) }
{
    let mut made = Vec::new(alloc);
    let mut rest = parts;
    'rest: while let Some((node, more)) = next_element(rest) {
        if let Some(one) = chunk_piece(alloc, s, node)? {
            made.push(one)?;
        }
        rest = more;
    }
    Ok(made)
}

/// The variable whose name is given: none where no name is given. None where no variable has it.
fn variable_given(vars: &Names, name: Option<&[char]>) -> Option<Option<usize>>
    ensures { result ≡ read.variable_given vars.now (option_copied name.entry) }
{
    match name {
        None => Some(None),
        Some(name) => match vars.number_of(name) {
            Some(n) => Some(Some(n)),
            None => None,
        },
    }
}

/// The word of a value, where it is given.
pub fn word_given(alloc: Global, value: Option<&[char]>) -> Result<Option<Word>, Memory>
    ensures { IfOk result (λ made. made ≡ read.word_given (option_copied value.entry)) }
{
    match value {
        None => Ok(None),
        Some(text) => Ok(Some(word_of(alloc, text)?)),
    }
}

/// One of the two names of a chunk is there.
fn is_named_once(name: &Option<Word>, namefrom: Option<usize>) -> bool
    ensures { result ≡ read.is_named_once name.now namefrom }
{
    match (name, namefrom) {
        (None, None) => false,
        (None, Some(_)) => true,
        (Some(_), None) => true,
        (Some(_), Some(_)) => false,
    }
}

/// A chunk of transfer.
fn chunk_of(alloc: Global, s: Scope<'_, '_>, node: &Node) -> Result<Option<Chunk>, Memory>
    ensures { IfOk result (λ made. option_map plain_chunk made
        ≡ read.chunk_of (scope s.entry) (pairs node.now.attributes) (children_of node.now)) }
{
    let given = node.attributes.as_slice();
    let Some(namefrom) = variable_given(&s.names.vars, value_of("namefrom", given)) else {
        return Ok(None);
    };
    let Some(case) = variable_given(&s.names.vars, value_of("case", given)) else {
        return Ok(None);
    };
    let name = word_given(alloc, value_of("name", given))?;
    if !is_named_once(&name, namefrom) {
        return Ok(None);
    }
    let tags = tags(alloc, s, within("tags", &node.parts))?;
    let pieces = chunk_pieces(alloc, s, &node.parts)?;
    Ok(Some(Chunk {
        name,
        namefrom,
        case,
        tags,
        pieces,
    }))
}

/// A chunk as the form of the file has it.
fn any_chunk(alloc: Global, s: Scope<'_, '_>, node: &Node) -> Result<Option<Piece>, Memory>
    ensures { IfOk result (λ made. option_map plain_piece made
        ≡ read.any_chunk (scope s.entry) (tag_of node.now) (children_of node.now)) }
{
    if is_transfer(s.form) {
        return Ok(chunk_of(alloc, s, node)?.map(Piece::Chunk));
    }
    let values = values(alloc, s, true, &node.parts)?;
    Ok(Some(Piece::ValueChunk(ValueChunk { values })))
}

/// The piece that an element is: a blank; a chunk where outputs hold chunks, and units where they
/// don't.
fn piece(alloc: Global, s: Scope<'_, '_>, node: &Node) -> Result<Option<Piece>, Memory>
    ensures { IfOk result (λ made. option_map plain_piece made
        ≡ read.piece (scope s.entry) (tag_of node.now) (children_of node.now)) }
{
    if is_named("b", node) {
        return Ok(Some(Piece::B(blank(node))));
    }
    if is_named("chunk", node) {
        return if s.chunks {
            any_chunk(alloc, s, node)
        } else {
            Ok(None)
        };
    }
    if is_named("lu", node) {
        if s.chunks {
            return Ok(None);
        }
        let values = values(alloc, s, false, &node.parts)?;
        return Ok(Some(Piece::Lu(Lu { values })));
    }
    if is_named("mlu", node) {
        if s.chunks {
            return Ok(None);
        }
        let units = units(alloc, s, &node.parts)?;
        return Ok(Some(Piece::Mlu(Mlu { units })));
    }
    Ok(None)
}

/// The pieces among the parts of an output.
pub fn pieces(alloc: Global, s: Scope<'_, '_>, parts: &[Part]) -> Result<Vec<Piece>, Memory>
    ensures { IfOk result (λ made. map plain_piece made.items
        ≡ read.pieces (scope s.entry) (children_in parts.now)) }
{
    let mut made = Vec::new(alloc);
    let mut rest = parts;
    'rest: while let Some((node, more)) = next_element(rest) {
        if let Some(one) = piece(alloc, s, node)? {
            made.push(one)?;
        }
        rest = more;
    }
    Ok(made)
}
