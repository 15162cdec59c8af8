ghost use Rattle.ap_choose.specs.Laws.{ChooseIsRead, ChooseKeeps, LeastIsChosen, NoPairsFirst, ReadingReads};

/// The law that `choose` keeps superblanks: where it gives a text without a fault, the
/// superblanks of that text are those of the input, in order, whole. It is a statement alone and
/// does nothing.
pub fn choose_keeps_superblanks()
    ensures { ChooseKeeps }
{}

/// The law that what `choose` writes of any text is read as lexical text to its end, or to an item
/// over the limit, whatever fault stops `choose`; and that an analysed text that is read so is
/// never malformed for it. It is a statement alone and does nothing.
pub fn choose_is_read()
    ensures { ChooseIsRead }
{}

/// The law that without forbidden pairs `choose` writes what `first` writes, where neither has a
/// fault. It is a statement alone and does nothing.
pub fn without_pairs_the_first_readings()
    ensures { NoPairsFirst }
{}

/// The law that a reading of an analysed unit can be the word of a lexical unit, where it isn't
/// empty. It is a statement alone and does nothing.
pub fn readings_are_words()
    ensures { ReadingReads }
{}

/// The law that the choice of a sentence is the least: it is a choice of one reading of each unit
/// without a forbidden pair, and of any other such choice the first unit where the two differ has a
/// later reading; and where there is none, it is the first reading of each unit. It is a statement
/// alone and does nothing.
pub fn the_least_choice_is_taken()
    ensures { LeastIsChosen }
{}
