ghost use Rattle.ap_stream.specs.Limits.{LimitsAre};
ghost use Rattle.ap_stream.specs.Laws.{ReadsBack, ReadsWords, ChunksReadBack, ChunksAreWritten, WordsAreSpelt, UnitsAreRead, ReadAreUnits, AreOneUnit, ChunksAreRead, ReadAreChunks, AreOneChunk};
ghost use Rattle.ap_stream.specs.Pieces.{TextsJoin, OneList, ReadTextsHave, EachKeeps, KeptTwice, ScanFinds};
ghost use Rattle.ap_stream.specs.ReadOn.{PiecesAreRead, EachIsPieces, MalformedAreWrong};

/// The numbers of the limits. It is a statement alone and does nothing.
pub fn limits()
    ensures { LimitsAre }
{}

/// The law of units. The bytes of a unit, by the notation, are read as its words, whatever follows;
/// what is read as a unit are such bytes; and they have one list of words. It is a statement alone
/// and does nothing.
pub fn units_are_by_the_notation()
    ensures read { UnitsAreRead }
    ensures written { ReadAreUnits }
    ensures one { AreOneUnit }
{}

/// The law of chunks. The bytes of a chunk, by the notation, are read as it, whatever follows; what
/// is read as a chunk are such bytes; and they are those of one chunk. It is a statement alone and
/// does nothing.
pub fn chunks_are_by_the_notation()
    ensures read { ChunksAreRead }
    ensures written { ReadAreChunks }
    ensures one { AreOneChunk }
{}

/// The law that what is written of a unit is read back. It is a statement alone and does nothing.
pub fn units_read_back()
    ensures { ReadsBack }
{}

/// The law that the words of a unit that is read are words of a unit of the dialect, so that they
/// can be written and read again. It is a statement alone and does nothing.
pub fn units_are_words()
    ensures { ReadsWords }
{}

/// The law that what is written of a chunk is read back. It is a statement alone and does nothing.
pub fn chunks_read_back()
    ensures { ChunksReadBack }
{}

/// The law that the name of a chunk that is read is a word, and that its content is of units of one
/// word and of blanks, no two blanks side by side, so that it can be written and read again. It is
/// a statement alone and does nothing.
pub fn chunks_can_be_written()
    ensures { ChunksAreWritten }
{}

/// The law that every word of the program can be written in a unit or as a chunk's name, and be
/// read again. It is a statement alone and does nothing.
pub fn words_are_spelt()
    ensures { WordsAreSpelt }
{}

/// The law that one text behind another has the superblanks of both, in order. It is a statement
/// alone and does nothing.
pub fn superblanks_of_texts_joined()
    ensures { TextsJoin }
{}

/// The law that a text has one list of superblanks in a dialect, if any. It is a statement alone
/// and does nothing.
pub fn one_list_of_superblanks()
    ensures { OneList }
{}

/// The law that a text that is read to its end without a fault has the superblanks of its blanks.
/// It is a statement alone and does nothing.
pub fn read_texts_have_superblanks()
    ensures { ReadTextsHave }
{}

/// The law that a tool that takes each item by itself, and makes no superblank of a unit, keeps the
/// superblanks of a text. It is a statement alone and does nothing.
pub fn each_item_keeps_superblanks()
    ensures { EachKeeps }
{}

/// The law that superblanks that two tools keep, one after the other, are kept from the first text
/// to the last. It is a statement alone and does nothing.
pub fn superblanks_are_kept_twice()
    ensures { KeptTwice }
{}

/// The law that the superblanks of a text are those that a scan of it finds, item by item. It is a
/// statement alone and does nothing.
pub fn superblanks_are_scanned()
    ensures { ScanFinds }
{}

/// The law that a text that is a row of pieces of a dialect is read by it to its end, or to an item
/// over the limit: no piece of it is malformed. It is a statement alone and does nothing.
pub fn pieces_are_read()
    ensures { PiecesAreRead }
{}

/// The law that a tool that takes each item by itself, and makes no superblank of a unit, writes a
/// row of pieces, whatever stops its reading, and up to a fault of its own. It is a statement alone
/// and does nothing.
pub fn each_gives_pieces()
    ensures { EachIsPieces }
{}

/// The law of malformed texts. Where reading answers a malformed text, behind pieces that end at
/// that place stand bytes with which some text of the dialect begins, and then the first wrong
/// byte, with which none does; or the text is unfinished: it is none of the dialect, and some begin
/// with it. It is a statement alone and does nothing.
pub fn malformed_texts_are_wrong()
    ensures { MalformedAreWrong }
{}
