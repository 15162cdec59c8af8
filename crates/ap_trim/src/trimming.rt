ghost use Rattle.std.specs.Prelude.{◌≡◌, IfOk};
ghost use Rattle.ap_fst.specs.Sections.{IsSection};
ghost use Rattle.ap_min.specs.Canonical.{IsCanonical};
ghost use Rattle.ap_trim.specs.Sections.{IsKeptOf};
ghost use Rattle.ap_trim.specs.Trimming.{IsTrimmedBy};

use crate::product::product;
use crate::union::union_of;
use ap_det::{Dfst, determinise};
use ap_fst::{Compiled, Fst, Kind2};
use ap_min::minimise;
use ap_symbol::{Letters, Memory};
use std::alloc::Global;

fn copy_letters(alloc: Global, letters: &Letters) -> Result<Letters, Memory>
    ensures { IfOk result (λ made. made ≡ letters.now) }
{
    let copied = Vec::from_slice(alloc, letters.as_slice())?;
    Ok(Letters::from_vec(copied))
}

/// What is kept of a section, of which at most one edge with a label is made to leave each state.
fn kept_strings(alloc: Global, section: &Fst, bilingual: &Fst) -> Result<Fst, Memory>
    ensures { IfOk result (λ made. IsKeptOf section.now bilingual.now made) }
{
    let one = determinise(alloc, section)?;
    let made = product(alloc, one.as_fst(), bilingual)?;
    Ok(made)
}

/// The same with at most one edge per state and label. What it is made from is let go.
fn determined(alloc: Global, section: &Fst, bilingual: &Fst) -> Result<Dfst, Memory>
    ensures { IfOk result (λ made. IsKeptOf section.now bilingual.now made) }
{
    let made = kept_strings(alloc, section, bilingual)?;
    let one = determinise(alloc, &made)?;
    Ok(one)
}

/// The canonical transducer of what is kept of a section.
pub(crate) fn trimmed_section(alloc: Global, section: &Fst, bilingual: &Fst) -> Result<Fst, Memory>
    ensures kept { IfOk result (λ made. IsKeptOf section.now bilingual.now made) }
    ensures canonical { IfOk result (λ made. IsCanonical made) }
    ensures section { IfOk result (λ made. IsSection section.now → IsSection made) }
{
    let one = determined(alloc, section, bilingual)?;
    let small = minimise(alloc, &one)?;
    Ok(small.into_fst())
}

/// What of an analyser a bilingual dictionary can translate. An analysis stays where its right word
/// holds a join or a queue, or where translation by the bilingual dictionary takes a prefix of it:
/// one that holds its whole lemma and that a left word fits as in bilingual lookup, where a small
/// letter of the dictionary fits its capital too, and a capital itself alone. Each section of the
/// result is the canonical transducer of the label strings that stay; the alphabet and the direction
/// are the analyser's. The rule is this program's own. The error means want of memory.
pub fn trim_by(alloc: Global, mono: &Compiled, bilingual: &Compiled) -> Result<Compiled, Memory>
    ensures { IfOk result (λ made. IsTrimmedBy mono.now bilingual.now made) }
{
    let words = union_of(alloc, bilingual)?;
    let _bilingual = bilingual.alphabet();
    let alphabet = copy_letters(alloc, mono.alphabet())?;
    let standard = trimmed_section(alloc, mono.section(Kind2::Standard), &words)?;
    let inconditional = trimmed_section(alloc, mono.section(Kind2::Inconditional), &words)?;
    let postblank = trimmed_section(alloc, mono.section(Kind2::Postblank), &words)?;
    let preblank = trimmed_section(alloc, mono.section(Kind2::Preblank), &words)?;
    Ok(Compiled::new(
        alphabet,
        mono.way(),
        standard,
        inconditional,
        postblank,
        preblank,
    ))
}
