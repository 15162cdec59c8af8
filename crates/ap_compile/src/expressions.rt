ghost use Rattle.std.specs.Prelude.{◌≡◌, ◌↔◌, ◌+◌, ◌<◌, ◌≤◌, ◌∷◌, [], List, ℕ, map, not, IsTrue, IfOk};
ghost use Rattle.std.specs.List.{list_any};
ghost use Rattle.std.specs.List.Sorted.{IsNonDecreasingBy};
ghost use Rattle.ap_dix.specs.Forms.{forms_of};
ghost use Rattle.ap_dix.specs.Language.{Lang, LangAll, LangSome, IsOfClass, spans};
ghost use Rattle.ap_dix.specs.Plain.{plain};
ghost use Rattle.ap_dix.specs.Soundness.{is_one_symbol, is_sound_form, are_sound_forms};
ghost use Rattle.ap_compile.specs.Drafts.{IsDraftOf, IsMoreBy};
ghost use Rattle.ap_compile.specs.Forming.{OfStrings, IsCode, IsOfSpan, range_first};

use ap_dix::{Expr, Range};
use ap_fst::{Draft, Label};
use ap_symbol::{Memory, Symbol, is_white};
use std::alloc::Global;

/// Accepts the symbol with itself.
fn symbol_draft(alloc: Global, symbol: &Symbol) -> Result<Draft, Memory>
    ensures { IfOk result (λ made. IsTrue (is_one_symbol symbol.now) →
        IsDraftOf (OfStrings (λ s. s ≡ symbol.now ∷ [])) made) }
{
    let label = Label {
        left: Some(symbol.copy(alloc)?),
        right: Some(symbol.copy(alloc)?),
    };
    Draft::letter(alloc, label)
}

/// Accepts the character of that code with itself too, where there is one and it is no white space.
fn with_code(alloc: Global, made: Draft, code: u32) -> Result<Draft, Memory>
    ensures { IfOk result (λ all. IsMoreBy (OfStrings (IsCode code)) made all) }
{
    let Some(c) = char::from_u32(code) else {
        return Ok(made);
    };
    if is_white(c) {
        return Ok(made);
    }
    let more = symbol_draft(alloc, &Symbol::Letter(c))?;
    made.either(more)
}

/// The same for the codes from the first on, and before the end.
fn with_span(alloc: Global, made: Draft, first: u32, end: u32) -> Result<Draft, Memory>
    ensures { IfOk result (λ all. IsMoreBy (OfStrings (IsOfSpan first end)) made all) }
{
    let mut all = made;
    for code in first..end {
        all = with_code(alloc, all, code)?;
    }
    Ok(all)
}

fn copied(alloc: Global, ranges: &[Range]) -> Result<Vec<Range>, Memory>
    ensures { IfOk result (λ made. made.items ≡ ranges.now) }
{
    let mut made = Vec::new(alloc);
    for range in ranges {
        made.push(*range)?;
    }
    Ok(made)
}

/// The ranges in the order of their first characters.
fn sorted_ranges(alloc: Global, ranges: &[Range]) -> Result<Vec<Range>, Memory>
    ensures sorted { IfOk result (λ sorted. IsNonDecreasingBy range_first sorted.items) }
    ensures same { IfOk result (λ sorted. (c : ℕ) → IsTrue (list_any (spans c) sorted.items)
        ↔ IsTrue (list_any (spans c) ranges.now)) }
{
    let mut sorted = copied(alloc, ranges)?;
    sorted.sort_unstable_by_key(|range| range.first as u32);
    Ok(sorted)
}

/// Accepts each character of the ranges with itself, each once: what an earlier range held is
/// passed over.
fn ranges_draft(alloc: Global, ranges: &[Range]) -> Result<Draft, Memory>
    requires { IsNonDecreasingBy range_first ranges.now }
    ensures { IfOk result (λ made. IsDraftOf (OfStrings (IsOfClass ranges.now)) made) }
{
    let mut made = Draft::nothing(alloc)?;
    let mut next: u32 = 0;
    for range in ranges {
        let start = next.max(range.first as u32);
        let end = range.last as u32 + 1;
        made = with_span(alloc, made, start, end)?;
        next = next.max(end);
    }
    Ok(made)
}

fn class_draft(alloc: Global, ranges: &[Range]) -> Result<Draft, Memory>
    ensures { IfOk result (λ made. IsDraftOf (OfStrings (IsOfClass ranges.now)) made) }
{
    let sorted = sorted_ranges(alloc, ranges)?;
    ranges_draft(alloc, sorted.as_slice())
}

/// Accepts a string of each expression, one after another.
#[cycle(form)]
fn sequence_draft(alloc: Global, es: &[Expr]) -> Result<Draft, Memory>
    ensures { IfOk result (λ made. IsTrue (are_sound_forms (forms_of (map plain es.now))) →
        IsDraftOf (OfStrings (LangAll (forms_of (map plain es.now)))) made) }
{
    let mut made = Draft::empty(alloc)?;
    for e in es {
        made = made.join(expression_draft(alloc, e)?)?;
    }
    Ok(made)
}

/// Accepts a string of one of the expressions.
#[cycle(form)]
fn choice_draft(alloc: Global, es: &[Expr]) -> Result<Draft, Memory>
    ensures { IfOk result (λ made. IsTrue (are_sound_forms (forms_of (map plain es.now))) →
        IsDraftOf (OfStrings (LangSome (forms_of (map plain es.now)))) made) }
{
    let mut made = Draft::nothing(alloc)?;
    for e in es {
        made = made.either(expression_draft(alloc, e)?)?;
    }
    Ok(made)
}

/// Accepts the strings of the expression, which is sound, each symbol with itself. A class has a
/// move for each character that it holds.
#[cycle(form)]
pub fn expression_draft(alloc: Global, e: &Expr) -> Result<Draft, Memory>
    ensures { IfOk result (λ made. IsTrue (is_sound_form (plain e.now)) →
        IsDraftOf (OfStrings (Lang (plain e.now))) made) }
{
    match e {
        Expr::One(symbol) => symbol_draft(alloc, symbol),
        Expr::Class(ranges) => class_draft(alloc, ranges.as_slice()),
        Expr::Sequence(es) => sequence_draft(alloc, es.as_slice()),
        Expr::Either(es) => choice_draft(alloc, es.as_slice()),
        Expr::Star(inner) => expression_draft(alloc, inner)?.star(),
        Expr::Plus(inner) => expression_draft(alloc, inner)?.plus(),
        Expr::Opt(inner) => expression_draft(alloc, inner)?.opt(),
    }
}

/// Whether each of the expressions has the empty string.
#[cycle(empty)]
fn all_have_empty(es: &[Expr]) -> bool
    ensures { IsTrue result ↔ LangAll (forms_of (map plain es.now)) [] }
{
    for e in es {
        if !has_empty(e) {
            return false;
        }
    }
    true
}

/// Whether one of the expressions has the empty string.
#[cycle(empty)]
fn some_has_empty(es: &[Expr]) -> bool
    ensures { IsTrue result ↔ LangSome (forms_of (map plain es.now)) [] }
{
    for e in es {
        if has_empty(e) {
            return true;
        }
    }
    false
}

/// Whether the expression has the empty string.
#[cycle(empty)]
pub fn has_empty(e: &Expr) -> bool
    ensures { IsTrue result ↔ Lang (plain e.now) [] }
{
    match e {
        Expr::One(_) => false,
        Expr::Class(_) => false,
        Expr::Sequence(es) => all_have_empty(es.as_slice()),
        Expr::Either(es) => some_has_empty(es.as_slice()),
        Expr::Star(_) => true,
        Expr::Plus(inner) => has_empty(inner),
        Expr::Opt(_) => true,
    }
}
