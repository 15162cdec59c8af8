ghost use Rattle.std.specs.Prelude.{◌≡◌, ◌↔◌, List, IsTrue, IfOk};
ghost use Rattle.std.specs.List.{list_all};
ghost use Rattle.ap_dix.specs.Derivation.{Strings};
ghost use Rattle.ap_dix.specs.declared.dictionary.Dictionary.{Dictionary as Lexicon};
ghost use Rattle.ap_fst.specs.Walks.{AcceptsLabels};
ghost use Rattle.ap_fst.specs.declared.label.Label.{Label};
ghost use Rattle.ap_min.specs.Canonical.{IsCanonical};
ghost use Rattle.ap_compile.specs.Labels.{derived_labels, ArePlain};
ghost use Rattle.ap_compile.specs.Drafts.{IsDraftOf, IsMoreBy, Any, SpellsIn, AreDrafts, AreDraftedSections, is_drafted_entry};

use crate::gathering::entries_draft;
use crate::small::canonical_form;
use ap_dix::{Dictionary, Direction, Kind, Section};
use ap_fst::{Draft, Fst};
use ap_symbol::Memory;
use std::alloc::Global;

fn with_section(
    alloc: Global,
    direction: Direction,
    drafts: &[Option<Draft>],
    kind: Kind,
    made: Draft,
    section: &Section,
) -> Result<Draft, Memory>
    requires { IsTrue (list_all (is_drafted_entry drafts.now) section.now.entries) }
    ensures { IfOk result (λ all. (d : Lexicon) → AreDrafts d direction drafts.now →
        IsMoreBy (SpellsIn d direction kind section.now) made all) }
{
    if section.kind != kind {
        return Ok(made);
    }
    let more = entries_draft(alloc, direction, drafts, section.entries.as_slice())?;
    made.either(more)
}

/// Accepts what the kept entries of the sections of a kind derive.
fn kind_draft(
    alloc: Global,
    direction: Direction,
    drafts: &[Option<Draft>],
    kind: Kind,
    sections: &[Section],
) -> Result<Draft, Memory>
    requires { AreDraftedSections drafts.now sections.now }
    ensures { IfOk result (λ made. (d : Lexicon) → AreDrafts d direction drafts.now →
        IsDraftOf (Any (SpellsIn d direction kind) sections.now) made) }
{
    let mut made = Draft::nothing(alloc)?;
    for section in sections {
        made = with_section(alloc, direction, drafts, kind, made, section)?;
    }
    Ok(made)
}

/// The transducer of the sections of a kind: the canonical one of exactly the label strings that a
/// kept entry of such a section derives in the direction. The drafts are those of the paradigms
/// that these entries use.
pub fn section(
    alloc: Global,
    direction: Direction,
    dictionary: &Dictionary,
    drafts: &[Option<Draft>],
    kind: Kind,
) -> Result<Fst, Memory>
    requires drafts { AreDrafts dictionary.now direction drafts.now }
    requires drafted { AreDraftedSections drafts.now dictionary.now.sections }
    ensures strings { IfOk result (λ fst. (w : List Label) →
        AcceptsLabels fst w ↔ Strings dictionary.now direction kind (derived_labels w)) }
    ensures plain { IfOk result (λ fst. (w : List Label) → AcceptsLabels fst w → ArePlain w) }
    ensures canonical { IfOk result (λ fst. IsCanonical fst) }
{
    let draft = kind_draft(
        alloc,
        direction,
        drafts,
        kind,
        dictionary.sections.as_slice(),
    )?;
    let fst = canonical_form(alloc, draft)?;
    Ok(fst)
}
