use ap_stream::Content;
use ap_symbol::{Sequence, Word};

/// A unit of a match. What its form doesn't give it is empty.
#[derive(Debug, Drop)]
pub struct MatchedUnit {
    /// In transfer the unit.
    pub source: Word,
    /// In transfer the head of its target, in interchunk the chunk's name with its tags, in
    /// postchunk the word.
    pub head: Word,
    /// In transfer the queue of its target.
    pub queue: Word,
    /// In interchunk what the chunk holds.
    pub content: Content,
}

/// The units of a match in order.
pub type MatchedUnits = Sequence<MatchedUnit>;

/// What a rule is run on.
#[derive(Debug, Drop)]
pub struct Matched {
    /// In postchunk, and there alone, the chunk's name with its tags.
    pub chunk: Option<Word>,
    pub units: MatchedUnits,
}
