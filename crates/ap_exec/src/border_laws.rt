ghost use Rattle.ap_exec.specs.Borderless.{BordersDoNotMatter};

/// The law that borders between heads and queues don't matter to rules in which no clip leaves out
/// a queue: a rule gives the same pieces and leaves the same in the variables, or is refused for
/// the same limit, where each target of the match is all head. It is a statement alone and does
/// nothing.
pub fn borders_do_not_matter()
    ensures { BordersDoNotMatter }
{}
