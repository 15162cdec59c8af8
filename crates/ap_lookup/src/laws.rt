ghost use Rattle.std.specs.Prelude.{◌≡◌, ◌↔◌, ℕ, Bool, false, List, []};
ghost use Rattle.std.specs.List.Sorted.{IsStrictlySortedBy};
ghost use Rattle.ap_symbol.specs.Kinds.{is_marked};
ghost use Rattle.ap_symbol.specs.Rendering.{word_cmp};
ghost use Rattle.ap_symbol.specs.declared.symbol.Symbol.{Symbol};
ghost use Rattle.ap_live.specs.Lexicon.{Lexicon};
ghost use Rattle.ap_lookup.specs.Laws.{IsLongest, HasNone, BilingualKeeps, GenerationKeeps, PostGenerationKeeps, BilingualIsRead, GenerationIsRead, PostGenerationIsRead};
ghost use Rattle.ap_lookup.specs.Exactly.{FormsAreExact, FormsAreWritten, HeadsAreExact, GreatestIsTaken, AlarmIsLeftOut, LeastIsWritten};
ghost use Rattle.ap_lookup.specs.Translation.{taken, untaken, translation};

use ap_symbol::one_rendering;

/// The law of translation, whatever the lexicon: of the prefixes that hold the whole lemma and fit
/// a left word the longest is taken. Where there is none, and for a word that begins with `*` or
/// `@`, there is no head and the whole word is left, and only then is there no head. Heads stand in
/// the order of words, each once.
pub fn longest_prefix_is_taken()
    ensures longest { (lexicon : Lexicon) (sensitive : Bool) (word : List Symbol) (n : ℕ) →
        is_marked word ≡ false → IsLongest lexicon word n → translation lexicon sensitive word
        ≡ taken lexicon sensitive word n }
    ensures none { (lexicon : Lexicon) (sensitive : Bool) (word : List Symbol) →
        HasNone lexicon word → translation lexicon sensitive word ≡ untaken word }
    ensures no_head { (lexicon : Lexicon) (sensitive : Bool) (word : List Symbol) →
        (((translation lexicon sensitive word).heads ≡ []) ↔ HasNone lexicon word) }
    ensures order { (lexicon : Lexicon) (sensitive : Bool) (word : List Symbol) →
        IsStrictlySortedBy word_cmp (translation lexicon sensitive word).heads }
{}

/// The law of translation by a compiled dictionary. Of the fronts of a word that hold its whole
/// lemma and fit a left word of some kind the longest is taken: a word is a head exactly where some
/// pair of any kind has a left word that fits that front, and the head is its right word with the
/// case of the lemma; heads stand in the order of words, each once, and what follows the front is
/// left. A word that begins with `*` or `@`, and one without such a front, has no head and is left
/// whole.
pub fn heads_are_exact()
    ensures { HeadsAreExact }
{
    one_rendering();
}

/// The law of generation by a compiled dictionary. A word is a form of a unit's word exactly where
/// some pair of any kind has a left word that fits the whole of it, and the form is its right word
/// with the case of the lemma. Forms stand in the order of words, each once, and they are written
/// for each word that begins with neither `*` nor `@`.
pub fn forms_are_exact()
    ensures exact { FormsAreExact }
    ensures written { FormsAreWritten }
{
    one_rendering();
}

/// The law of matches of post-generation by a compiled dictionary. Where items begin with an alarm,
/// and those that must be seen together are within the limit, the greatest number of symbols that
/// fit a left word of some kind is taken, and the least of its right words is written; and where
/// none fit, the alarm alone is left out.
pub fn greatest_match_is_taken()
    ensures taken { GreatestIsTaken }
    ensures none { AlarmIsLeftOut }
{
    one_rendering();
}

/// The law of the word that post-generation writes by a compiled dictionary: it is a right word of
/// what was matched, with its case, and none such stands before it in the order of words.
pub fn least_word_is_written()
    ensures { LeastIsWritten }
{
    one_rendering();
}

/// The law that bilingual lookup keeps superblanks, by a lexicon whose right words can be written:
/// where it gives a text without a fault, the superblanks of that text are those of the input, in
/// order, whole. It is a statement alone and does nothing.
pub fn bilingual_keeps_superblanks()
    ensures { BilingualKeeps }
{}

/// The law that generation keeps superblanks, by a lexicon whose right words can be written: where
/// it gives a text without a fault, the superblanks of that text are those of the input, in order,
/// whole. It is a statement alone and does nothing.
pub fn generation_keeps_superblanks()
    ensures { GenerationKeeps }
{}

/// The law that post-generation keeps superblanks, by a lexicon whose right words can be written:
/// where it gives a text without a fault, the superblanks of that text are those of the input, in
/// order, whole. It is a statement alone and does nothing.
pub fn post_generation_keeps_superblanks()
    ensures { PostGenerationKeeps }
{}

/// The law that what bilingual lookup writes of any text, by a lexicon whose right words can be
/// written, is read as bilingual text to its end, or to an item over the limit, whatever fault
/// stops the look-up; and that a lexical text that is read so is never malformed for it. It is a
/// statement alone and does nothing.
pub fn bilingual_is_read()
    ensures { BilingualIsRead }
{}

/// The law that what generation writes of any text, by a lexicon whose right words can be written,
/// is read as generated text to its end, or to an item over the limit, whatever fault stops
/// generation; and that a lexical text that is read so is never malformed for it. It is a statement
/// alone and does nothing.
pub fn generation_is_read()
    ensures { GenerationIsRead }
{}

/// The law that what post-generation writes of any text, by a lexicon whose right words can be
/// written, is read as generated text to its end, or to an item over the limit, whatever fault
/// stops post-generation; and that a generated text that is read so is never malformed for it. It
/// is a statement alone and does nothing.
pub fn post_generation_is_read()
    ensures { PostGenerationIsRead }
{}
