ghost use Rattle.std.specs.Prelude.{◌≡◌, IfOk};
ghost use Rattle.ap_fst.specs.Trimming.{IsTrimmed};

use ap_fst::{Compiled, Fst, Kind2, trim};
use ap_symbol::{Letters, Memory};
use std::alloc::Global;

/// A copy of the letters.
pub(crate) fn copy_letters(alloc: Global, letters: &Letters) -> Result<Letters, Memory>
    ensures { IfOk result (λ made. made ≡ letters.now) }
{
    let copied = Vec::from_slice(alloc, letters.as_slice())?;
    Ok(Letters::from_vec(copied))
}

/// A copy of a transducer that is trimmed.
fn copy_trimmed(alloc: Global, fst: &Fst) -> Result<Fst, Memory>
    ensures { IfOk result (λ made. IsTrimmed fst.now → made ≡ fst.now) }
{
    trim(alloc, fst)
}

/// An equal dictionary.
pub(crate) fn copy_of(alloc: Global, compiled: &Compiled) -> Result<Compiled, Memory>
    ensures { IfOk result (λ made. made ≡ compiled.now) }
{
    let alphabet = copy_letters(alloc, compiled.alphabet())?;
    let standard = copy_trimmed(alloc, compiled.section(Kind2::Standard))?;
    let inconditional = copy_trimmed(alloc, compiled.section(Kind2::Inconditional))?;
    let postblank = copy_trimmed(alloc, compiled.section(Kind2::Postblank))?;
    let preblank = copy_trimmed(alloc, compiled.section(Kind2::Preblank))?;
    Ok(Compiled::new(
        alphabet,
        compiled.way(),
        standard,
        inconditional,
        postblank,
        preblank,
    ))
}
