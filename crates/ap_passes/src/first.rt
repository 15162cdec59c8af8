ghost use Rattle.std.specs.Prelude.{◌≡◌, ℕ, List, [], length, false, None, refl};
ghost use Rattle.ap_stream.specs.Each.{held_items, held_size};
ghost use Rattle.ap_stream.specs.Told.{Ending};
ghost use Rattle.ap_stream.specs.Rest.{rest_of, reads_of, held_of};
ghost use Rattle.ap_stream.specs.declared.dialect.Dialect.TheVariants.{Analysed};
ghost use Rattle.ap_passes.specs.Passes.{first_reading, first_pass, first_work};

use crate::units::write_filled;
use ap_stream::{
    ByUnit, Copies, Dialect, Each, Finish, Handler, Names, Pipe, Read, Stage, StageFault, Staged,
    Turn, Unit, UnitWriter,
};
use ap_symbol::{Bytes, Memory, Word};
use std::alloc::Global;
use std::marker::Model;

/// Writes the first reading of a unit.
#[derive(Drop)]
struct FirstWriter {
    /// The names of tags that were read last.
    names: Names,
    /// Room for a reading that was spelled in another way than it is written.
    reading: Word,
}

impl UnitWriter for FirstWriter {
    ghost given = { λ _ words. first_reading words };

    fn write(&mut self, unit: &Unit, into: &mut Bytes) -> Result<bool, Memory> {
        match unit.bytes_at(1) {
            Some(bytes) => write_filled(bytes, into)?,
            None => {
                if unit.word_at(&mut self.names, 1, &mut self.reading)? {
                    write_filled(self.reading.rendered(), into)?;
                }
            }
        }
        Ok(true)
    }
}

/// The first readings of analysed units: a `Handler` over the items of an analysed text.
#[derive(Drop)]
pub struct FirstWork {
    each: Each<FirstWriter>,
}

impl Model for FirstWork {
    ghost use Rattle.ap_passes.specs.Passes.{Passing};

    ghost Value = { Passing };

    ghost view = { λ w. record {
      dialect = w.each.dialect;
      item = w.each.item;
      finished =
          w.each.finished;
    } };
}

impl FirstWork {
    /// The work, which holds nothing. It takes no memory.
    pub fn new(alloc: Global) -> FirstWork
        ensures dialect { result.dialect ≡ Analysed }
        ensures item { result.item ≡ None }
        ensures finished { result.finished ≡ false }
    {
        let writer = FirstWriter {
            names: Names::new(alloc),
            reading: Word::new(alloc),
        };
        FirstWork {
            each: Each::new(alloc, Dialect::Analysed, writer),
        }
    }
}

impl Handler for FirstWork {
    ghost work = { first_work };

    ghost dialect = { λ h. h.dialect };

    ghost count = { λ h. length (held_items h.item) };

    ghost held = { λ h. held_size h.item };

    ghost span = { λ _. 0 };

    ghost finished = { λ h. h.finished };

    ghost wants = { λ h. h.item ≡ None };

    fn push(&mut self, read: Read) -> Result<(), Memory> {
        self.each.push(read)
    }

    fn finish(&mut self) {
        self.each.finish()
    }

    fn turn(&mut self, into: &mut Bytes) -> Result<Turn, StageFault> {
        self.each.turn(into)
    }
}

impl Copies for FirstWork {
    fn is_free(&self) -> bool {
        self.each.is_free()
    }
}

impl ByUnit for FirstWork {
    fn recall(&mut self, piece: &[u8], into: &mut Bytes) -> Result<usize, Memory> {
        self.each.recall(piece, into)
    }

    fn unit(&mut self, bytes: &[u8], into: &mut Bytes) -> Result<bool, Memory> {
        self.each.unit(bytes, into)
    }
}

/// The first reading of each unit of an analysed text, as a unit: a `Stage` over bytes. Of a unit
/// whose first reading is empty nothing is written; any other item is copied.
///
/// A unit of which more than `UNIT_MAX` bytes are to be written is answered by the limit
/// `UnitTooLong` at its place.
#[derive(Drop)]
pub struct First {
    stage: Staged<FirstWork>,
}

impl Model for First {
    ghost use Rattle.ap_stream.specs.Seat.{Seat};
    ghost use Rattle.ap_passes.specs.Passes.{Passing};

    ghost Value = { Seat Passing };

    ghost view = { λ f. f.stage };
}

impl First {
    /// A new stage, which takes no memory.
    pub fn new(alloc: Global) -> First
        ensures rest { (x : List ℕ) (e : Ending) → rest_of first_work result x e ≡ first_pass x e }
        ensures pending { result.pending ≡ [] }
        ensures ended { result.ended ≡ false }
        ensures fault { result.fault ≡ None }
    {
        First {
            stage: Staged::new(alloc, Dialect::Analysed, FirstWork::new(alloc)),
        }
    }
}

impl Stage for First {
    ghost rest = { λ s. rest_of first_work s };

    ghost pending = { λ s. s.pending };

    ghost held = { λ s. held_of (λ h. held_size h.item) s };

    ghost ended = { λ s. s.ended };

    ghost fault = { λ s. s.fault };

    fn take(&mut self, piece: &[u8]) -> Result<usize, StageFault> {
        self.stage.take_units(piece)
    }

    fn end(&mut self) -> Result<Finish, StageFault> {
        self.stage.end()
    }

    fn give(&mut self, into: &mut Pipe) -> usize {
        self.stage.give(into)
    }

    fn pending(&self) -> usize {
        self.stage.pending()
    }

    ghost rest_is = { λ s x. record {
      stop = (reads_of s x).stop;
      made = first_work s.handler (reads_of s x).items;
      is = λ e. refl;
    } };
}
