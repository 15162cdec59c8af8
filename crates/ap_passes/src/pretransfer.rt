ghost use Rattle.std.specs.Prelude.{◌≡◌, ℕ, List, [], length, false, None, refl};
ghost use Rattle.ap_stream.specs.Each.{held_items, held_size};
ghost use Rattle.ap_stream.specs.Told.{Ending};
ghost use Rattle.ap_stream.specs.Rest.{rest_of, reads_of, held_of};
ghost use Rattle.ap_stream.specs.declared.dialect.Dialect.TheVariants.{Lexical};
ghost use Rattle.ap_passes.specs.Passes.{split_unit, split_pass, split_work};

use crate::splitting::write_split;
use crate::units::write_whole;
use ap_stream::{
    ByUnit, Copies, Dialect, Each, Finish, Handler, Names, Pipe, Read, Stage, StageFault, Staged,
    Turn, Unit, UnitWriter,
};
use ap_symbol::{Bytes, Memory, Word};
use std::alloc::Global;
use std::marker::Model;

/// Writes the words that are made of the word of a unit.
#[derive(Drop)]
struct PretransferWriter {
    alloc: Global,
    /// The names of tags that were read last.
    names: Names,
    /// Room for the word of a unit.
    word: Word,
    /// Room for a word whose invariable part is moved.
    whole: Word,
    /// Room for a part of a word.
    part: Word,
}

impl UnitWriter for PretransferWriter {
    ghost given = { λ _ words. split_unit words };

    fn write(&mut self, unit: &Unit, into: &mut Bytes) -> Result<bool, Memory> {
        let copied = match unit.bytes_at(0) {
            Some(bytes) => write_whole(bytes, into)?,
            None => false,
        };
        if copied {
            return Ok(true);
        }
        unit.first(&mut self.names, &mut self.word)?;
        write_split(
            self.alloc,
            &self.word,
            &mut self.whole,
            &mut self.part,
            into,
        )?;
        Ok(true)
    }
}

/// Units taken apart: a `Handler` over the items of a lexical text.
#[derive(Drop)]
pub struct PretransferWork {
    each: Each<PretransferWriter>,
}

impl Model for PretransferWork {
    ghost use Rattle.ap_passes.specs.Passes.{Passing};

    ghost Value = { Passing };

    ghost view = { λ w. record {
      dialect = w.each.dialect;
      item = w.each.item;
      finished =
          w.each.finished;
    } };
}

impl PretransferWork {
    /// The work, which holds nothing. It takes no memory.
    pub fn new(alloc: Global) -> PretransferWork
        ensures dialect { result.dialect ≡ Lexical }
        ensures item { result.item ≡ None }
        ensures finished { result.finished ≡ false }
    {
        let writer = PretransferWriter {
            alloc,
            names: Names::new(alloc),
            word: Word::new(alloc),
            whole: Word::new(alloc),
            part: Word::new(alloc),
        };
        PretransferWork {
            each: Each::new(alloc, Dialect::Lexical, writer),
        }
    }
}

impl Handler for PretransferWork {
    ghost work = { split_work };

    ghost dialect = { λ h. h.dialect };

    ghost count = { λ h. length (held_items h.item) };

    ghost held = { λ h. held_size h.item };

    ghost span = { λ _. 0 };

    ghost finished = { λ h. h.finished };

    ghost wants = { λ h. h.item ≡ None };

    fn push(&mut self, read: Read) -> Result<(), Memory> {
        self.each.push(read)
    }

    fn finish(&mut self) {
        self.each.finish()
    }

    fn turn(&mut self, into: &mut Bytes) -> Result<Turn, StageFault> {
        self.each.turn(into)
    }
}

impl Copies for PretransferWork {
    fn is_free(&self) -> bool {
        self.each.is_free()
    }
}

impl ByUnit for PretransferWork {
    fn recall(&mut self, piece: &[u8], into: &mut Bytes) -> Result<usize, Memory> {
        self.each.recall(piece, into)
    }

    fn unit(&mut self, bytes: &[u8], into: &mut Bytes) -> Result<bool, Memory> {
        self.each.unit(bytes, into)
    }
}

/// A lexical text whose words are taken apart, as `apertium-pretransfer` does: a `Stage` over
/// bytes.
///
/// A unit that begins with `*` or `@` is copied. In the word of another the invariable part runs
/// from the first `#` to the next tag, the next `+` or the end; where a tag stands before it, it is
/// moved in front of the first tag. Then the word is split at each `+` that has a tag somewhere
/// before it, and its parts that aren't empty are written as units with one space between. Any
/// other item is copied.
///
/// A unit of which more than `UNIT_MAX` bytes are to be written is answered by the limit
/// `UnitTooLong` at its place.
#[derive(Drop)]
pub struct Pretransfer {
    stage: Staged<PretransferWork>,
}

impl Model for Pretransfer {
    ghost use Rattle.ap_stream.specs.Seat.{Seat};
    ghost use Rattle.ap_passes.specs.Passes.{Passing};

    ghost Value = { Seat Passing };

    ghost view = { λ p. p.stage };
}

impl Pretransfer {
    /// A new stage, which takes no memory.
    pub fn new(alloc: Global) -> Pretransfer
        ensures rest { (x : List ℕ) (e : Ending) → rest_of split_work result x e ≡ split_pass x e }
        ensures pending { result.pending ≡ [] }
        ensures ended { result.ended ≡ false }
        ensures fault { result.fault ≡ None }
    {
        Pretransfer {
            stage: Staged::new(alloc, Dialect::Lexical, PretransferWork::new(alloc)),
        }
    }
}

impl Stage for Pretransfer {
    ghost rest = { λ s. rest_of split_work s };

    ghost pending = { λ s. s.pending };

    ghost held = { λ s. held_of (λ h. held_size h.item) s };

    ghost ended = { λ s. s.ended };

    ghost fault = { λ s. s.fault };

    fn take(&mut self, piece: &[u8]) -> Result<usize, StageFault> {
        self.stage.take_units(piece)
    }

    fn end(&mut self) -> Result<Finish, StageFault> {
        self.stage.end()
    }

    fn give(&mut self, into: &mut Pipe) -> usize {
        self.stage.give(into)
    }

    fn pending(&self) -> usize {
        self.stage.pending()
    }

    ghost rest_is = { λ s x. record {
      stop = (reads_of s x).stop;
      made = split_work s.handler (reads_of s x).items;
      is = λ e. refl;
    } };
}
