ghost use Rattle.ap_symbol.specs.CaseLaws.{PartnersAreInverse, NoLetterIsBoth, UpperLettersMove, LowerLettersMove, CaseSettles, LowerIsNeverUpper, ComesBackUnlessUpper, WhiteSpaceStays, PartnerOfPartner, StaysProper, StaysCoded, KeepsBytes};
ghost use Rattle.ap_symbol.specs.Alphabet.{ClosureIsClosed};

/// The laws of the case table: partners are inverse to one another, no character is both an
/// upper and a lower letter, and exactly the letters of the table are changed.
pub fn partners_are_inverse()
    ensures inverse { PartnersAreInverse }
    ensures not_both { NoLetterIsBoth }
    ensures upper_moves { UpperLettersMove }
    ensures lower_moves { LowerLettersMove }
    ensures partner { PartnerOfPartner }
{}

/// One change of case after another: the last one counts. A character comes back from upper
/// case exactly where it isn't upper.
pub fn the_last_change_counts()
    ensures settles { CaseSettles }
    ensures never_upper { LowerIsNeverUpper }
    ensures comes_back { ComesBackUnlessUpper }
{}

/// No change of case makes or takes away white space, or changes the number of a word's bytes,
/// and words stay proper under it, their letters characters.
pub fn case_keeps_words()
    ensures white { WhiteSpaceStays }
    ensures proper { StaysProper }
    ensures coded { StaysCoded }
    ensures bytes { KeepsBytes }
{}

/// The closure of an alphabet under case partners is closed under them.
pub fn closure_is_closed()
    ensures { ClosureIsClosed }
{}
