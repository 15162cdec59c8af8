ghost use Rattle.std.specs.Prelude.{◌≡◌, length, false, None, IfOk};
ghost use Rattle.ap_stream.specs.Each.{held_items, held_size};
ghost use Rattle.ap_stream.specs.declared.dialect.Dialect.TheVariants.{Analysed};
ghost use Rattle.ap_compound.specs.Works.{compounds_work};

use crate::copying::copy_of;
use crate::explainer::Explainer;
use ap_fst::Compiled;
use ap_stream::{Dialect, Each, Handler, Read, StageFault, Turn};
use ap_symbol::{Bytes, Memory};
use std::alloc::Global;
use std::marker::Model;
use std::rc::Rc;

/// Unknown words explained as compounds: a `Handler` over the items of an analysed text. Each unit
/// is written as `Explainer` writes it; every other item is copied as it is spelled.
#[derive(Drop)]
pub struct CompoundsWork {
    each: Each<Explainer>,
}

impl Model for CompoundsWork {
    ghost use Rattle.ap_stream.specs.Each.{Single};
    ghost use Rattle.ap_compound.specs.Works.{Explaining};

    ghost Value = { Single Explaining };

    ghost view = { λ w. w.each };
}

impl CompoundsWork {
    /// The work by this dictionary, which holds nothing. The error means want of memory.
    pub fn new(alloc: Global, compiled: &Compiled, sensitive: bool) -> Result<CompoundsWork, Memory>
        ensures compiled { IfOk result (λ work. work.writer.compiled ≡ compiled.now) }
        ensures sensitive { IfOk result (λ work. work.writer.sensitive ≡ sensitive) }
        ensures dialect { IfOk result (λ work. work.dialect ≡ Analysed) }
        ensures item { IfOk result (λ work. work.item ≡ None) }
        ensures finished { IfOk result (λ work. work.finished ≡ false) }
    {
        let copied = copy_of(alloc, compiled)?;
        let shared = Rc::new(alloc, copied)?;
        Ok(CompoundsWork::sharing(alloc, shared, sensitive))
    }

    /// The same by a dictionary that is shared. It takes no memory.
    pub(crate) fn sharing(alloc: Global, compiled: Rc<Compiled>, sensitive: bool) -> CompoundsWork
        ensures compiled { result.writer.compiled ≡ compiled.value }
        ensures sensitive { result.writer.sensitive ≡ sensitive }
        ensures dialect { result.dialect ≡ Analysed }
        ensures item { result.item ≡ None }
        ensures finished { result.finished ≡ false }
    {
        let writer = Explainer::new(alloc, compiled, sensitive);
        CompoundsWork {
            each: Each::new(alloc, Dialect::Analysed, writer),
        }
    }
}

impl Handler for CompoundsWork {
    ghost work = { compounds_work };

    ghost dialect = { λ h. h.dialect };

    ghost count = { λ h. length (held_items h.item) };

    ghost held = { λ h. held_size h.item };

    ghost span = { λ _. 0 };

    ghost finished = { λ h. h.finished };

    ghost wants = { λ h. h.item ≡ None };

    fn push(&mut self, read: Read) -> Result<(), Memory> {
        self.each.push(read)
    }

    fn finish(&mut self) {
        self.each.finish();
    }

    fn turn(&mut self, into: &mut Bytes) -> Result<Turn, StageFault> {
        self.each.turn(into)
    }
}
