ghost use Rattle.ap_chunk.specs.Going.{OneIsChosen, TriesAll};
ghost use Rattle.ap_chunk.specs.Laws.{PlainRulesDecide, TransferKeeps, SoundGivesWritten, SoundTransferKeeps, SoundInterchunkKeeps, SoundPostchunkKeeps, TransferIsRead, InterchunkIsRead, PostchunkIsRead};
ghost use Rattle.ap_chunk.specs.Rows.{RowsTell, UnitsTell};
ghost use Rattle.ap_chunk.specs.Spans.{SpanIsGreatest};

/// The law that trying every rule on the whole list chooses the rule with the longest pattern that
/// fits, and among equally long ones the one earlier in the file. It is a statement alone and does
/// nothing.
pub fn trying_all_chooses()
    ensures { TriesAll }
{}

/// The law that one choice alone is so. It is a statement alone and does nothing.
pub fn one_is_chosen()
    ensures { OneIsChosen }
{}

/// The law that a unit with the row of a word is of those categories that take the word, and of no
/// others: it passes as of a number exactly where a category of that number is there and takes the
/// word. So is an item of a match, in transfer by the source of a unit and in interchunk and
/// postchunk by the name of a chunk. It is a statement alone and does nothing.
pub fn rows_tell()
    ensures row { RowsTell }
    ensures unit { UnitsTell }
{}

/// The law that the span of a match is the greatest number of items from the front that may be seen
/// together: units with one blank at most between two of them, which fit the beginning of some
/// pattern, and of a longer one where a blank stands last. It is a statement alone and does
/// nothing.
pub fn span_is_greatest()
    ensures { SpanIsGreatest }
{}

/// The law that transfer keeps superblanks, by rules whose words can be written and that give
/// chunks alone where they are the default, and else units alone: where it gives a text without a
/// fault, the superblanks of that text, read as chunks or as units, are those of the input, in
/// order, whole. It is a statement alone and does nothing.
pub fn transfer_keeps_superblanks()
    ensures { TransferKeeps }
{}

/// The law that transfer keeps superblanks by all rules that are sound and whose words are words of
/// the program: their words can be written, they give chunks alone where they are the default, and
/// else units alone; so where it gives a text without a fault, the superblanks of that text, read
/// as chunks or as units, are those of the input, in order, whole. It is a statement alone and does
/// nothing.
pub fn sound_transfer_keeps_superblanks()
    ensures gives { SoundGivesWritten }
    ensures keeps { SoundTransferKeeps }
{}

/// The law that interchunk keeps superblanks by all rules that are sound and whose words are words
/// of the program: where it gives a text without a fault, the superblanks of that text of chunks,
/// those in its chunks too, are those of the input, in order, whole. It is a statement alone and
/// does nothing.
pub fn sound_interchunk_keeps_superblanks()
    ensures { SoundInterchunkKeeps }
{}

/// The law that postchunk keeps superblanks by all rules that are sound and whose words are words
/// of the program: where it gives a text without a fault, the superblanks of that text of units are
/// those of the input, those in its chunks too, in order, whole. It is a statement alone and does
/// nothing.
pub fn sound_postchunk_keeps_superblanks()
    ensures { SoundPostchunkKeeps }
{}

/// The law that what transfer writes by sound rules whose words are words of the program, with a
/// fault or without, is read on as chunks or as units, as the default says: to its end, or to an
/// item over the limit; and that a Bilingual text that is read on is never malformed for it. It is
/// a statement alone and does nothing.
pub fn transfer_is_read()
    ensures { TransferIsRead }
{}

/// The law that what interchunk writes by sound rules whose words are words of the program, with a
/// fault or without, is read on as a text of chunks: to its end, or to an item over the limit; and
/// that a Chunked text that is read on is never malformed for it. It is a statement alone and does
/// nothing.
pub fn interchunk_is_read()
    ensures { InterchunkIsRead }
{}

/// The law that what postchunk writes by sound rules whose words are words of the program, with a
/// fault or without, is read on as a text of units: to its end, or to an item over the limit; and
/// that a Chunked text that is read on is never malformed for it. It is a statement alone and does
/// nothing.
pub fn postchunk_is_read()
    ensures { PostchunkIsRead }
{}

/// The law that what the stages give depends on the plain rules alone, which is all that a rule
/// file says. It is a statement alone and does nothing.
pub fn plain_rules_decide()
    ensures { PlainRulesDecide }
{}
