ghost use Rattle.ap_exec.specs.FillingLaws.{FillSpells, FillKeeps};

/// The law of what a template with its slots filled comes to: its text spells its units, chunks and
/// blanks, and behind them stand the superblanks of the blanks left over; so it has the superblanks
/// of the blanks, those inside of chunks too, in order. Where it has no chunk, a text that is read
/// as units has them. It is a statement alone and does nothing.
pub fn filling_keeps_superblanks()
    ensures spells { FillSpells }
    ensures keeps { FillKeeps }
{}
