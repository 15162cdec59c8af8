ghost use Rattle.std.specs.Prelude.{Bool};
ghost use Rattle.ap_live.specs.Lexicon.{lexicon_of};
ghost use Rattle.ap_pipe.specs.JoinedLaws.{TransferSees, JoinedAgrees, JoinedRowsAgree};

use ap_fst::Compiled;
use ap_live::words_are_readable;

/// Says that joined transfer, which looks units up by itself, agrees with bilingual lookup and then
/// transfer: by every compiled bilingual dictionary and by rules of transfer in which no clip leaves
/// out a queue, both give the same text for every lexical text for which neither has a fault. And
/// transfer of a bilingual text is the same definition over what a rule sees of a unit. It looks at
/// each label of the dictionary once, and changes nothing.
pub fn joined_agrees(bilingual: &Compiled)
    ensures agrees { (sensitive : Bool) → JoinedAgrees (lexicon_of bilingual.now sensitive) }
    ensures sees { TransferSees }
{
    words_are_readable(bilingual);
}

/// Says that a whole row of stages with joined transfer agrees with the row that has bilingual
/// lookup and transfer in its place, by every compiled bilingual dictionary, for every text for which
/// neither has a fault. It looks at each label of the dictionary once, and changes nothing.
pub fn joined_rows_agree(bilingual: &Compiled)
    ensures { (sensitive : Bool) → JoinedRowsAgree (lexicon_of bilingual.now sensitive) }
{
    words_are_readable(bilingual);
}
