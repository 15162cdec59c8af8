/// What the items of a text are, by the Apertium stream format.
#[derive(Clone, Copy, Debug, PartialEq, Eq)]
pub enum Dialect {
    /// Plain characters and blanks.
    Raw,
    /// Units `^surface/reading$` with one or more readings.
    Analysed,
    /// Units `^word$`.
    Lexical,
    /// Units `^word/word$` with one or more translations.
    Bilingual,
    /// Chunks `^name{content}$`.
    Chunked,
    /// Plain characters and blanks, where an unescaped `~` is the alarm.
    Generated,
}
