ghost use Rattle.std.specs.Prelude.{◌≡◌, ◌↔◌, ◌+◌, List, length, false, IsTrue, IfOk, IfSome, None as nothing, Some as something, slice_get};
ghost use Rattle.std.specs.List.{list_all};
ghost use Rattle.ap_dix.specs.Soundness.{IsSound};
ghost use Rattle.ap_dix.specs.declared.dictionary.Dictionary.{Dictionary as Lexicon};
ghost use Rattle.ap_fst.specs.Paths.{Accepts};
ghost use Rattle.ap_fst.specs.declared.label.Label.{Label};
ghost use Rattle.ap_compile.specs.Drafts.{IsDraftOf, Any, Spells, AreDrafts, AreDraftedSections, IsRenamed, is_drafted_entry};
ghost use Rattle.ap_compile.specs.LastUses.{AreReleased, AreDraftsTo};

use crate::drafts::{is_entry_kept, part_draft};
use crate::gathering::entries_draft;
use crate::last_uses::{last_use, last_uses, used_paradigms};
use crate::small::canonical_form;
use ap_dix::{Dictionary, Direction, Entry, EntryPart, Pardef};
use ap_fst::Draft;
use ap_symbol::Memory;
use std::alloc::Global;

/// A draft of the same label strings: that of their canonical transducer.
fn small_draft(alloc: Global, draft: Draft) -> Result<Draft, Memory>
    ensures { IfOk result (λ made. (w : List Label) → Accepts made w ↔ Accepts draft w) }
{
    let small = canonical_form(alloc, draft)?;
    let made = Draft::of(alloc, &small)?;
    Ok(made)
}

/// The paradigm that is all that these entries are: there is one entry, it is kept, and has that
/// part alone.
fn renamed(direction: Direction, entries: &[Entry]) -> Option<&EntryPart>
    ensures { IfSome result (λ part. IsRenamed direction entries.now part.now) }
{
    let [entry] = entries else {
        return None;
    };
    let [part] = entry.parts.as_slice() else {
        return None;
    };
    if is_entry_kept(direction, entry) && matches!(part, EntryPart::Paradigm(_)) {
        return Some(part);
    }
    None
}

/// Accepts what the kept ones of these entries derive. It is made small once, since it is copied
/// wherever the paradigm of these entries is used; where it is another paradigm under a new name,
/// that one is small already.
fn paradigm_draft(
    alloc: Global,
    direction: Direction,
    drafts: &[Option<Draft>],
    entries: &[Entry],
) -> Result<Draft, Memory>
    requires { IsTrue (list_all (is_drafted_entry drafts.now) entries.now) }
    ensures { IfOk result (λ made. (d : Lexicon) → AreDrafts d direction drafts.now →
        IsDraftOf (Any (Spells d direction) entries.now) made) }
{
    if let Some(part) = renamed(direction, entries) {
        return part_draft(alloc, direction, drafts, part);
    }
    let draft = entries_draft(alloc, direction, drafts, entries)?;
    let made = small_draft(alloc, draft)?;
    Ok(made)
}

/// The same where the paradigm of these entries is used; where it isn't, none.
fn used_draft(
    alloc: Global,
    direction: Direction,
    drafts: &[Option<Draft>],
    entries: &[Entry],
    is_used: bool,
) -> Result<Option<Draft>, Memory>
    requires { IsTrue (list_all (is_drafted_entry drafts.now) entries.now) }
    ensures none { IfOk result (λ made. made ≡ nothing → is_used ≡ false) }
    ensures made { IfOk result (λ made. IfSome made
        (λ draft. (d : Lexicon) → AreDrafts d direction drafts.now →
        IsDraftOf (Any (Spells d direction) entries.now) draft)) }
{
    if !is_used {
        return Ok(None);
    }
    let draft = paradigm_draft(alloc, direction, drafts, entries)?;
    Ok(Some(draft))
}

/// Lets go the draft of a paradigm, if it is used no later than this.
fn release_one(drafts: &mut Vec<Option<Draft>>, last: &[usize], n: usize, at: usize)
    ensures { AreReleased last.now at drafts.old.items drafts.new.items }
{
    if n < drafts.len() && last_use(last, n) <= at {
        drafts[n] = None;
    }
}

/// Lets go those of the paradigms' drafts that are used no later than this.
fn release(drafts: &mut Vec<Option<Draft>>, last: &[usize], paradigms: &[usize], at: usize)
    ensures { AreReleased last.now at drafts.old.items drafts.new.items }
{
    for n in paradigms {
        release_one(drafts, last, *n, at);
    }
}

/// The draft of the next paradigm is made of those that its entries use. Of these, those that
/// nothing more uses are let go.
fn with_paradigm(
    alloc: Global,
    direction: Direction,
    last: &[usize],
    drafts: Vec<Option<Draft>>,
    pardef: &Pardef,
) -> Result<Vec<Option<Draft>>, Memory>
    requires { IsTrue (list_all (is_drafted_entry drafts.items) pardef.now.entries) }
    ensures { IfOk result (λ made. (d : Lexicon) →
        AreDraftsTo d direction last.now (length drafts.items) drafts.items →
        slice_get d.pardefs (length drafts.items) ≡ something pardef.now →
        AreDraftsTo d direction last.now (length drafts.items + 1) made.items) }
{
    let at = drafts.len();
    let entries = pardef.entries.as_slice();
    let is_used = at < last_use(last, at);
    let draft = used_draft(alloc, direction, drafts.as_slice(), entries, is_used)?;
    let used = used_paradigms(alloc, entries)?;
    let mut all = drafts;
    all.push(draft)?;
    release(&mut all, last, used.as_slice(), at);
    Ok(all)
}

/// A draft in few states for each paradigm that a section uses. The other paradigms' drafts are let
/// go after their last use.
pub fn paradigm_drafts(
    alloc: Global,
    direction: Direction,
    dictionary: &Dictionary,
) -> Result<Vec<Option<Draft>>, Memory>
    requires { IsSound dictionary.now }
    ensures drafts { IfOk result (λ drafts. AreDrafts dictionary.now direction drafts.items) }
    ensures drafted { IfOk result
        (λ drafts. AreDraftedSections drafts.items dictionary.now.sections) }
{
    let last = last_uses(alloc, dictionary)?;
    let mut drafts = Vec::new(alloc);
    for pardef in dictionary.pardefs.as_slice() {
        drafts = with_paradigm(alloc, direction, last.as_slice(), drafts, pardef)?;
    }
    Ok(drafts)
}
