ghost use Rattle.ap_exec.specs.SizeLaws.{PiecesAreAdded, LimitIsBySizes, OutputsAreWithin, TextsAreCounted};

/// The law that the limit on an output counts the bytes of its pieces: statements add pieces behind
/// those that stand there, and a piece is too long exactly where the pieces with it have more than
/// `SPAN_MAX` bytes, slots aside; no rule gives more, and these bytes are those that are written for
/// them. It is a statement alone and does nothing.
pub fn pieces_are_counted()
    ensures added { PiecesAreAdded }
    ensures limit { LimitIsBySizes }
    ensures within { OutputsAreWithin }
    ensures texts { TextsAreCounted }
{}
