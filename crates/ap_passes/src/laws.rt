ghost use Rattle.ap_passes.specs.Laws.{NothingIsLost, TakesApart, ApartOnce, NoneIsEmpty, PlainStays, TaglessStays, SplitReads, FirstReads, FirstKeeps, SplitKeeps, FirstIsRead, SplitIsRead};

/// The law of taking a word apart that begins with neither `*` nor `@`. Its invariable part begins
/// with the first Queue and runs to the next tag, the next Join or the end; it is moved in front of
/// the first tag where a tag stands before it, and else the word stays. Then the word is split
/// exactly at the Joins that have a tag somewhere before them, and of the parts those are left that
/// aren't empty. There is one way to take a word apart so. It is a statement alone and does nothing.
pub fn words_are_taken_apart()
    ensures apart { TakesApart }
    ensures once { ApartOnce }
{}

/// The law that nothing of a word is lost where no part is empty: its words joined again by Joins
/// are the word with its invariable part moved. It is a statement alone and does nothing.
pub fn nothing_is_lost()
    ensures { NothingIsLost }
{}

/// The law that no word that is made of a word is empty. It is a statement alone and does nothing.
pub fn none_is_empty()
    ensures { NoneIsEmpty }
{}

/// The law that a word with neither Join nor Queue stays as it is. It is a statement alone and does
/// nothing.
pub fn plain_words_stay()
    ensures { PlainStays }
{}

/// The law that a word without a tag stays as it is. It is a statement alone and does nothing.
pub fn tagless_words_stay()
    ensures { TaglessStays }
{}

/// The law that the words that are made of the word of a lexical unit can be words of lexical
/// units; so what is written of them is read back. It is a statement alone and does nothing.
pub fn split_words_are_words()
    ensures { SplitReads }
{}

/// The law that the first reading of an analysed unit can be the word of a lexical unit, where it
/// isn't empty. It is a statement alone and does nothing.
pub fn first_readings_are_words()
    ensures { FirstReads }
{}

/// The law that `first` keeps superblanks: where it gives a text without a fault, the superblanks
/// of that text are those of the input, in order, whole. It is a statement alone and does nothing.
pub fn first_keeps_superblanks()
    ensures { FirstKeeps }
{}

/// The law that `pretransfer` keeps superblanks: where it gives a text without a fault, the
/// superblanks of that text are those of the input, in order, whole. It is a statement alone and
/// does nothing.
pub fn pretransfer_keeps_superblanks()
    ensures { SplitKeeps }
{}

/// The law that what `first` writes of any text is read as lexical text to its end, or to an item
/// over the limit, whatever fault stops `first`; and that an analysed text that is read so is never
/// malformed for it. It is a statement alone and does nothing.
pub fn first_is_read()
    ensures { FirstIsRead }
{}

/// The law that what `pretransfer` writes of any text is read as lexical text to its end, or to an
/// item over the limit, whatever fault stops `pretransfer`; and that a lexical text that is read so
/// is never malformed for it. It is a statement alone and does nothing.
pub fn pretransfer_is_read()
    ensures { SplitIsRead }
{}
