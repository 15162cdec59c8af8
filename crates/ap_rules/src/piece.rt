use crate::value::{B, Value};
use ap_symbol::Word;

/// `lu`: a unit of its values.
#[derive(Drop)]
pub struct Lu {
    pub values: Vec<Value>,
}

/// `mlu`: one unit of several units' words.
#[derive(Drop)]
pub struct Mlu {
    pub units: Vec<Lu>,
}

/// `tag`: a tag of a chunk.
#[derive(Drop)]
pub struct Tag {
    pub values: Vec<Value>,
}

/// A piece of a chunk that transfer makes.
#[derive(Drop)]
pub enum ChunkPiece {
    Lu(Lu),
    Mlu(Mlu),
    B(B),
}

/// `chunk` in transfer: a chunk with a name, tags and pieces.
#[derive(Drop)]
pub struct Chunk {
    /// The name, where it is stated.
    pub name: Option<Word>,
    /// The number of the variable that holds the name, where it isn't stated.
    pub namefrom: Option<usize>,
    /// The number of the variable in whose case the name is put, where one is given.
    pub case: Option<usize>,
    pub tags: Vec<Tag>,
    pub pieces: Vec<ChunkPiece>,
}

/// `chunk` in interchunk: a chunk whose name and content its values give.
#[derive(Drop)]
pub struct ValueChunk {
    pub values: Vec<Value>,
}

/// A piece of an output.
#[derive(Drop)]
pub enum Piece {
    B(B),
    Lu(Lu),
    Mlu(Mlu),
    Chunk(Chunk),
    ValueChunk(ValueChunk),
}
