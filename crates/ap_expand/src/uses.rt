ghost use Rattle.std.specs.Prelude.{◌≡◌, [], IfOk, length, get_or, drop};
ghost use Rattle.ap_expand.specs.Uses.{both, neither, with_uses, shared_uses, part_uses, parts_uses, side_uses, entry_uses, with_entry_uses, entries_uses, pardefs_uses, is_barren};

use ap_dix::{Entry, EntryPart, Pardef, Side};
use ap_symbol::Memory;
use std::alloc::Global;

/// What each way through a paradigm or an entry uses: an entry that is kept from left to right
/// alone, and one that is kept from right to left alone. Where there is no way, that is both.
#[derive(Clone, Copy)]
pub(crate) struct Uses {
    pub(crate) lr: bool,
    pub(crate) rl: bool,
}

/// What ways use that use the one thing and then the other.
fn behind(a: Uses, b: Uses) -> Uses
    ensures { result ≡ with_uses a b }
{
    Uses {
        lr: a.lr || b.lr,
        rl: a.rl || b.rl,
    }
}

/// What ways use that use the one thing or the other.
fn beside(a: Uses, b: Uses) -> Uses
    ensures { result ≡ shared_uses a b }
{
    Uses {
        lr: a.lr && b.lr,
        rl: a.rl && b.rl,
    }
}

fn uses_at(uses: &[Uses], number: usize) -> Uses
    ensures { result ≡ get_or uses.now number both }
{
    if number < uses.len() {
        uses[number]
    } else {
        Uses { lr: true, rl: true }
    }
}

fn part_uses(uses: &[Uses], part: &EntryPart) -> Uses
    ensures { result ≡ part_uses uses.now part.now }
{
    match part {
        EntryPart::Paradigm(number) => uses_at(uses, *number),
        _ => Uses {
            lr: false,
            rl: false,
        },
    }
}

fn parts_uses(uses: &[Uses], parts: &[EntryPart]) -> Uses
    ensures { result ≡ parts_uses uses.now parts.now }
{
    let mut made = Uses {
        lr: false,
        rl: false,
    };
    for part in parts {
        made = behind(made, part_uses(uses, part));
    }
    made
}

fn side_uses(side: Side) -> Uses
    ensures { result ≡ side_uses side }
{
    Uses {
        lr: matches!(side, Side::LrOnly),
        rl: matches!(side, Side::RlOnly),
    }
}

fn entry_uses(uses: &[Uses], entry: &Entry) -> Uses
    ensures { result ≡ entry_uses uses.now entry.now }
{
    let parts = parts_uses(uses, entry.parts.as_slice());
    behind(side_uses(entry.side), parts)
}

/// The same with an entry more, unless it is ignored.
fn with_entry(uses: &[Uses], made: Uses, entry: &Entry) -> Uses
    ensures { result ≡ with_entry_uses uses.now made entry.now }
{
    if entry.ignored {
        return made;
    }
    beside(made, entry_uses(uses, entry))
}

fn entries_uses(uses: &[Uses], entries: &[Entry]) -> Uses
    ensures { result ≡ entries_uses uses.now entries.now }
{
    let mut made = Uses { lr: true, rl: true };
    for entry in entries {
        made = with_entry(uses, made, entry);
    }
    made
}

/// What each way through a paradigm uses, for each of the paradigms, by their numbers.
pub(crate) fn paradigm_uses(alloc: Global, pardefs: &[Pardef]) -> Result<Vec<Uses>, Memory>
    ensures { IfOk result (λ uses. uses.items ≡ pardefs_uses [] pardefs.now) }
{
    let mut uses = Vec::new(alloc);
    for pardef in pardefs {
        let made = entries_uses(uses.as_slice(), pardef.entries.as_slice());
        uses.push(made)?;
    }
    Ok(uses)
}

/// Whether each way on through the entry would use entries of both kinds, and so write no line. The
/// first two say which kinds were used before it.
pub(crate) fn is_barren(uses: &[Uses], lr: bool, rl: bool, entry: &Entry) -> bool
    ensures { result ≡ is_barren uses.now lr rl entry.now }
{
    let more = entry_uses(uses, entry);
    (lr || more.lr) && (rl || more.rl)
}
