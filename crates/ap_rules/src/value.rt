use ap_symbol::Word;

/// Which side of a unit is read: the unit itself, or its translation.
#[derive(Clone, Copy, Debug, PartialEq, Eq)]
pub enum Side {
    Source,
    Target,
}

/// The part of a word that a clip reads.
#[derive(Clone, Copy, Debug, PartialEq, Eq)]
pub enum ClipPart {
    /// `lem`: what stands before the first tag.
    Lem,
    /// `lemh`: what stands before the first queue or tag.
    Lemh,
    /// `lemq`: the part of `lem` from its first queue.
    Lemq,
    /// `tags`: the run of tags from the first tag.
    Tags,
    /// `whole`: all of it.
    Whole,
    /// `chcontent`: the content of a chunk.
    Content,
    /// The attribute of this number, counted from 0.
    Attribute(usize),
}

/// `clip`: a part of the unit at a position.
#[derive(Drop)]
pub struct Clip {
    /// The position, counted from 1; in postchunk 0 is the chunk.
    pub pos: usize,
    pub part: ClipPart,
    /// Outside of transfer always the target.
    pub side: Side,
    /// Whether the target's queue is read too.
    pub queue: bool,
    /// The tag that stands in place of the part where the part isn't empty.
    pub link_to: Option<Word>,
}

/// `case-of`: the case of a part of the unit at a position.
#[derive(Clone, Copy)]
pub struct CaseOf {
    /// The position, counted from 1; in postchunk 0 is the chunk.
    pub pos: usize,
    pub part: ClipPart,
    /// Outside of transfer always the target.
    pub side: Side,
}

/// `lit`: a word.
#[derive(Drop)]
pub struct Lit {
    pub v: Word,
}

/// `lit-tag`: tags.
#[derive(Drop)]
pub struct LitTag {
    pub v: Word,
}

/// `var`: what a variable holds.
#[derive(Clone, Copy)]
pub struct Var {
    /// The variable's number, counted from 0.
    pub n: usize,
}

/// `b`: a blank; in an output the blank of the match at a position, where one is given.
#[derive(Clone, Copy)]
pub struct B {
    /// The position, counted from 1.
    pub pos: Option<usize>,
}

/// `get-case-from`: a value in the case of the unit at a position.
#[cycle(value)]
#[derive(Drop)]
pub struct GetCaseFrom {
    /// The position, counted from 1; in postchunk 0 is the chunk.
    pub pos: usize,
    pub value: Box<Value>,
}

/// `concat`: values one after another.
#[cycle(value)]
#[derive(Drop)]
pub struct Concat {
    pub values: Vec<Value>,
}

/// A value: a word that a rule reads or makes.
#[cycle(value)]
#[derive(Drop)]
pub enum Value {
    Clip(Clip),
    Lit(Lit),
    LitTag(LitTag),
    Var(Var),
    GetCaseFrom(GetCaseFrom),
    CaseOf(CaseOf),
    Concat(Concat),
    B(B),
}
