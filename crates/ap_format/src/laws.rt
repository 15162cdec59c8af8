ghost use Rattle.ap_format.specs.Laws.{ComesBack, IsReadRaw, GivesBare, BareBlanksAre};

/// The law that a text in UTF-8 comes back: where no run of white space has more than
/// `UNIT_MAX - 2` bytes, `destxt` finds no fault in it, and of what `destxt` makes of it `retxt`
/// makes that text. It is a statement alone and does nothing.
pub fn plain_text_comes_back()
    ensures { ComesBack }
{}

/// The law that what `destxt` writes, up to its fault where it has one, is read as raw text to its
/// end. It is a statement alone and does nothing.
pub fn destxt_is_read()
    ensures { IsReadRaw }
{}

/// The law of `retxt`: where it finds no fault in a text, the text is a row of plain characters and
/// of blanks, and what is given is, one after another, each character without its escape, and of
/// each blank its white space and what stands in the brackets of its superblanks: each bare
/// character other than `]` and `\`, and each character behind a backslash. It is a statement alone
/// and does nothing.
pub fn retxt_gives_bare_text()
    ensures { GivesBare }
{}

/// The law that of a blank nothing else than that is written. It is a statement alone and does
/// nothing.
pub fn bare_blanks_are_exact()
    ensures { BareBlanksAre }
{}
