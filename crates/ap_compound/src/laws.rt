ghost use Rattle.ap_compound.specs.Laws.{ReadingsAreExact, CompoundKeeps, CompoundIsRead};

use ap_symbol::one_rendering;

/// The law that explaining unknown words as compounds keeps superblanks, by a lexicon whose right
/// words can be written: where it gives a text without a fault, the superblanks of that text are
/// those of the input, in order, whole. It is a statement alone and does nothing.
pub fn compound_keeps_superblanks()
    ensures { CompoundKeeps }
{}

/// The law that what is written where unknown words are explained is read as analysed text to its
/// end, or to an item over the limit, whatever fault stops it, by a lexicon whose right words can be
/// written; and that an analysed text that is read so is never malformed for it. It is a statement
/// alone and does nothing.
pub fn compound_is_read()
    ensures { CompoundIsRead }
{}

/// The law of readings as a compound. They stand in the order of words, each once; and a word is
/// among them exactly where the surface has letters alone, at most 256, and the word is that of a
/// split of the surface into two parts or more of the dictionary, and no such split has fewer parts.
pub fn readings_are_exact()
    ensures { ReadingsAreExact }
{
    one_rendering();
}
