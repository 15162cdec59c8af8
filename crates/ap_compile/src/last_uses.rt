ghost use Rattle.std.specs.Prelude.{◌≡◌, ◌<◌, ◌≤◌, ◌++◌, ℕ, get_or, length, IfOk, OnOk};
ghost use Rattle.ap_compile.specs.LastUses.{paradigm_of, paradigms_of, paradigms_in, AreLater, AreUsedTo, CoverPardefs, CoverSections, AreLastUses};

use ap_dix::{Dictionary, Entry, EntryPart, Pardef, Section};
use ap_symbol::Memory;
use std::alloc::Global;

/// Appends the number of the paradigm that the part names, if it names one.
fn push_paradigm(used: &mut Vec<usize>, part: &EntryPart) -> Result<(), Memory>
    ensures { OnOk result (used.new.items ≡ used.old.items ++ paradigm_of part.now) }
{
    if let EntryPart::Paradigm(n) = part {
        used.push(*n)?;
    }
    Ok(())
}

/// Appends those that the parts name, in order.
fn push_paradigms(used: &mut Vec<usize>, parts: &[EntryPart]) -> Result<(), Memory>
    ensures { OnOk result (used.new.items ≡ used.old.items ++ paradigms_of parts.now) }
{
    for part in parts {
        push_paradigm(used, part)?;
    }
    Ok(())
}

/// The numbers of the paradigms that the entries name, in order.
pub(crate) fn used_paradigms(alloc: Global, entries: &[Entry]) -> Result<Vec<usize>, Memory>
    ensures { IfOk result (λ used. used.items ≡ paradigms_in entries.now) }
{
    let mut used = Vec::new(alloc);
    for entry in entries {
        push_paradigms(&mut used, entry.parts.as_slice())?;
    }
    Ok(used)
}

/// The last use of a paradigm.
pub(crate) fn last_use(last: &[usize], n: usize) -> usize
    ensures { result ≡ get_or last.now n 0 }
{
    match last.get(n) {
        Some(at) => *at,
        None => 0,
    }
}

/// Notes that the paradigm is used there.
fn note_use(last: &mut Vec<usize>, n: usize, at: usize)
    ensures later { AreLater last.old.items last.new.items }
    ensures noted { n < length last.new.items → at ≤ get_or last.new.items n 0 }
{
    if n < last.len() && last[n] < at {
        last[n] = at;
    }
}

/// Notes that each of the paradigms is used there.
fn note_uses(last: &mut Vec<usize>, used: &[usize], at: usize)
    ensures later { AreLater last.old.items last.new.items }
    ensures noted { AreUsedTo last.new.items used.now at }
{
    for n in used {
        note_use(last, *n, at);
    }
}

/// Notes what the entries of each paradigm use.
fn note_pardefs(alloc: Global, last: &mut Vec<usize>, pardefs: &[Pardef]) -> Result<(), Memory>
    ensures later { OnOk result (AreLater last.old.items last.new.items) }
    ensures noted { OnOk result (CoverPardefs last.new.items pardefs.now) }
{
    for at in 0..pardefs.len() {
        let used = used_paradigms(alloc, pardefs[at].entries.as_slice())?;
        note_uses(last, used.as_slice(), at);
    }
    Ok(())
}

/// Notes what the entries of the sections use, as a use of that number.
fn note_sections(
    alloc: Global,
    last: &mut Vec<usize>,
    sections: &[Section],
    at: usize,
) -> Result<(), Memory>
    ensures later { OnOk result (AreLater last.old.items last.new.items) }
    ensures noted { OnOk result (CoverSections last.new.items sections.now at) }
{
    for section in sections {
        let used = used_paradigms(alloc, section.entries.as_slice())?;
        note_uses(last, used.as_slice(), at);
    }
    Ok(())
}

/// So many zeros.
fn no_uses(alloc: Global, count: usize) -> Result<Vec<usize>, Memory>
    ensures { IfOk result (λ last. length last.items ≡ count) }
{
    let mut last = Vec::new(alloc);
    for _ in 0..count {
        last.push(0)?;
    }
    Ok(last)
}

/// For each paradigm the number of the last paradigm that uses it; where a section does, the count
/// of the paradigms.
pub(crate) fn last_uses(alloc: Global, dictionary: &Dictionary) -> Result<Vec<usize>, Memory>
    ensures { IfOk result (λ last. AreLastUses dictionary.now last.items) }
{
    let pardefs = dictionary.pardefs.as_slice();
    let mut last = no_uses(alloc, pardefs.len())?;
    note_pardefs(alloc, &mut last, pardefs)?;
    note_sections(
        alloc,
        &mut last,
        dictionary.sections.as_slice(),
        pardefs.len(),
    )?;
    Ok(last)
}
