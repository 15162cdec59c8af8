ghost use Rattle.ap_exec.specs.RunningLaws.{RunningKeepsWords, StartingKeepsWords, SoundRulesGive};

/// The law that running a rule keeps words what they are: where the words of the rules, of the
/// match and of the variables are words of the program, so are those that the rule gives and leaves
/// in the variables; and so are those that the variables hold at the start. It is a statement alone
/// and does nothing.
pub fn running_keeps_words()
    ensures keeps { RunningKeepsWords }
    ensures start { StartingKeepsWords }
{}

/// The law that sound rules whose outputs hold chunks, as those of transfer do where chunks are the
/// default, give chunks and blanks alone, and other sound rules give units and blanks alone. It is
/// a statement alone and does nothing.
pub fn sound_rules_give()
    ensures { SoundRulesGive }
{}
