ghost use Rattle.std.specs.Prelude.{◌≡◌, length, false, None, IfOk};
ghost use Rattle.ap_stream.specs.Each.{held_items, held_size};
ghost use Rattle.ap_stream.specs.declared.dialect.Dialect.TheVariants.{Lexical};
ghost use Rattle.ap_lookup.specs.Works.{generation_work, generated_unit};
ghost use Rattle.ap_live.specs.Lexicon.{lexicon_of};

use crate::by_word::ByWord;
use crate::generation_writer::{GenerationWriter, Marks};
use ap_fst::Compiled;
use ap_stream::{ByUnit, Copies, Dialect, Each, Handler, Read, StageFault, Turn};
use ap_symbol::{Bytes, Memory};
use std::alloc::Global;
use std::marker::Model;

/// Generation of items (`lt-proc -g`, `-n`, `-d`): a `Handler` over the items of a Lexical text.
/// Each unit is written as `GenerationWriter` writes its word; every other item is copied as it is
/// spelled.
#[derive(Drop)]
pub struct GenerationWork {
    each: Each<ByWord<GenerationWriter>>,
}

impl Model for GenerationWork {
    ghost use Rattle.ap_stream.specs.Each.{Single};
    ghost use Rattle.ap_lookup.specs.Generating.{Generating};

    ghost Value = { Single Generating };

    ghost view = { λ w. w.each };
}

impl GenerationWork {
    /// The work by this dictionary, which holds nothing.
    pub fn new(
        alloc: Global,
        compiled: Compiled,
        marks: Marks,
        sensitive: bool,
    ) -> Result<GenerationWork, Memory>
        ensures compiled { IfOk result (λ work. work.writer.compiled ≡ compiled) }
        ensures marks { IfOk result (λ work. work.writer.marks ≡ marks) }
        ensures sensitive { IfOk result (λ work. work.writer.sensitive ≡ sensitive) }
        ensures dialect { IfOk result (λ work. work.dialect ≡ Lexical) }
        ensures item { IfOk result (λ work. work.item ≡ None) }
        ensures finished { IfOk result (λ work. work.finished ≡ false) }
    {
        let writer = GenerationWriter::new(alloc, compiled, marks, sensitive);
        Ok(GenerationWork {
            each: Each::new(alloc, Dialect::Lexical, ByWord::new(alloc, writer)),
        })
    }
}

impl Handler for GenerationWork {
    ghost work = { generation_work };

    ghost dialect = { λ h. h.dialect };

    ghost count = { λ h. length (held_items h.item) };

    ghost held = { λ h. held_size h.item };

    ghost span = { λ _. 0 };

    ghost finished = { λ h. h.finished };

    ghost wants = { λ h. h.item ≡ None };

    fn push(&mut self, read: Read) -> Result<(), Memory> {
        self.each.push(read)
    }

    fn finish(&mut self) {
        self.each.finish();
    }

    fn turn(&mut self, into: &mut Bytes) -> Result<Turn, StageFault> {
        self.each.turn(into)
    }
}

impl Copies for GenerationWork {
    fn is_free(&self) -> bool {
        self.each.is_free()
    }
}

impl ByUnit for GenerationWork {
    fn recall(&mut self, piece: &[u8], into: &mut Bytes) -> Result<usize, Memory> {
        self.each.recall(piece, into)
    }

    fn unit(&mut self, bytes: &[u8], into: &mut Bytes) -> Result<bool, Memory> {
        self.each.unit(bytes, into)
    }
}
