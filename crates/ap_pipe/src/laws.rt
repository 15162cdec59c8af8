ghost use Rattle.ap_pipe.specs.Behind.{BehindTheFirst};

/// The law that in a row of stages, each of which reads what the one before it writes, no fault of
/// a stage behind the first is that its text is malformed. It is a statement alone and does
/// nothing.
pub fn behind_the_first()
    ensures { BehindTheFirst }
{}
