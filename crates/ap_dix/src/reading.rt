ghost use Rattle.std.specs.Prelude.{◌≡◌, IfOk, IfErr, Ok, Err};
ghost use Rattle.ap_markup.specs.Tree.{Done};
ghost use Rattle.ap_markup.specs.View.{node_then};
ghost use Rattle.ap_dix.specs.Refusals.{IfFault};
ghost use Rattle.ap_dix.specs.Soundness.{IsSound};
ghost use Rattle.ap_dix.specs.Spelling.{Spells, IsFirstFault, kind_of, mark_of, fault_of, judged};

use crate::dictionary::Dictionary;
use crate::faults::first_mark;
use crate::refusal::{DixFault, DixKind, DixRefusal};
use crate::sections::dictionary;
use ap_markup::{
    Elements, Mark, MarkupFault, MarkupKind, MarkupRefusal, Table, read_elements, sooner,
};
use std::alloc::Global;

fn kind_of(kind: MarkupKind) -> DixKind
    ensures { result ≡ kind_of kind }
{
    match kind {
        MarkupKind::NotUtf8 => DixKind::NotUtf8,
        MarkupKind::Syntax => DixKind::Syntax,
        MarkupKind::UnknownElement => DixKind::UnknownElement,
        MarkupKind::UnknownAttribute => DixKind::UnknownAttribute,
        MarkupKind::MissingAttribute => DixKind::MissingAttribute,
        MarkupKind::Misplaced => DixKind::Misplaced,
    }
}

fn mark_of(fault: MarkupFault) -> Mark<DixKind>
    ensures { result ≡ mark_of fault }
{
    Mark {
        place: fault.place,
        line: fault.line,
        kind: kind_of(fault.kind),
    }
}

fn refusal(mark: Mark<DixKind>) -> DixRefusal
    ensures { result ≡ DixRefusal.Fault (fault_of mark) }
{
    DixRefusal::Fault(DixFault {
        kind: mark.kind,
        line: mark.line,
    })
}

/// The dictionary of a tree, or its first fault.
fn judged(alloc: Global, tree: Elements) -> Result<Dictionary, DixRefusal>
    ensures value { IfOk result (λ d. judged (Ok (node_then tree.root Done, tree.first)) ≡ Ok d) }
    ensures fault { IfErr result
        (λ e. IfFault e (λ f. judged (Ok (node_then tree.root Done, tree.first)) ≡ Err f)) }
{
    let Elements { root, first } = tree;
    let own = first_mark(alloc, &root)?;
    let first = match first {
        None => own,
        Some(fault) => sooner(Some(mark_of(fault)), own),
    };
    match first {
        None => Ok(dictionary(alloc, root.parts)?),
        Some(mark) => Err(refusal(mark)),
    }
}

/// Reads a dictionary file (the Apertium dictionary format): its alphabet, its paradigms and its
/// sections, each in the order of the file.
///
/// The refusal is `Fault` exactly where the text spells no dictionary, and then it is its first
/// fault: one of the kinds NotUtf8 and Syntax before all others, and among those the one of the
/// least place, and at one place the one of the least number. It is `Memory` for want of memory
/// alone. A text of `re` that is no expression is BadRegex at the start tag.
pub fn read_dictionary(alloc: Global, text: &[u8]) -> Result<Dictionary, DixRefusal>
    ensures spells { IfOk result (λ d. Spells text.now d) }
    ensures sound { IfOk result (λ d. IsSound d) }
    ensures fault { IfErr result (λ e. IfFault e (IsFirstFault text.now)) }
{
    match read_elements(alloc, text, Table::Dix) {
        Ok(tree) => judged(alloc, tree),
        Err(MarkupRefusal::Fault(fault)) => Err(refusal(mark_of(fault))),
        Err(MarkupRefusal::Memory) => Err(DixRefusal::Memory),
    }
}
