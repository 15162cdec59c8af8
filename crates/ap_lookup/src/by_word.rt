ghost use Rattle.std.specs.Prelude.{◌≡◌, List};
ghost use Rattle.ap_symbol.specs.Kinds.{first_word};
ghost use Rattle.ap_symbol.specs.declared.symbol.Symbol.{Symbol};

use crate::word_writer::WordWriter;
use ap_stream::{Names, Unit, UnitWriter};
use ap_symbol::{Bytes, Memory, Word};
use std::alloc::Global;
use std::marker::Model;
use std::mem;

/// Writes for a unit what a writer writes for its first word.
#[derive(Drop)]
pub struct ByWord<W: WordWriter + Drop> {
    alloc: Global,
    writer: W,
    /// The names of tags that were read last.
    names: Names,
    /// Room for the word of a unit.
    word: Word,
}

impl<W: WordWriter + Drop> Model for ByWord<W> {
    ghost Value = { W };

    ghost view = { λ b. b.writer };
}

impl<W: WordWriter + Drop> ByWord<W> {
    /// By this writer. It takes no memory.
    pub fn new(alloc: Global, writer: W) -> ByWord<W>
        ensures { result ≡ writer }
    {
        ByWord {
            alloc,
            writer,
            names: Names::new(alloc),
            word: Word::new(alloc),
        }
    }
}

impl<W: WordWriter + Drop> UnitWriter for ByWord<W> {
    ghost given = { λ b words. W.given b (first_word words) };

    fn write(&mut self, unit: &Unit, into: &mut Bytes) -> Result<bool, Memory> {
        let mut word = mem::replace(&mut self.word, Word::new(self.alloc));
        unit.first(&mut self.names, &mut word)?;
        let is_written = self.writer.write(&word, into)?;
        self.word = word;
        Ok(is_written)
    }
}
