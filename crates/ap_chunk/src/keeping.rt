ghost use Rattle.std.specs.Prelude.{◌≡◌, ◌++◌, ◌∷◌, [], ℕ, List, Bool, ◌+◌, ◌<◌, length, drop, IfOk, OnOk};
ghost use Rattle.std.specs.List.{filter};
ghost use Rattle.ap_chunk.specs.Choice.{unit_of};
ghost use Rattle.ap_chunk.specs.Live.{met_of, stays, finishes, lesser, least_from, is_live, is_over, IsLeast, AreLive, begun, AreBegun};
ghost use Rattle.ap_chunk.specs.Patterns.{has};

use crate::patterns::{Patterns, has_items};
use ap_symbol::Memory;

/// What the items that a pattern still wants are for one more unit.
#[derive(Clone, Copy, Debug, PartialEq, Eq)]
enum Met {
    /// The unit isn't of the category that the next item wants, or no item is left.
    Fails,
    /// The unit is, and the pattern is over.
    Ends,
    /// The unit is, and there are more items.
    GoesOn,
}

/// Whether a unit with this row is of a category.
fn has_category(unit: &[bool], category: usize) -> bool
    ensures { result ≡ unit_of unit.now category }
{
    match unit.get(category) {
        None => false,
        Some(fits) => *fits,
    }
}

fn meet(wanted: &[usize], unit: &[bool]) -> Met
    ensures { result ≡ met_of (unit_of unit.now) wanted.now }
{
    match wanted {
        [] => Met::Fails,
        [category, more @ ..] => {
            if !has_category(unit, *category) {
                Met::Fails
            } else if has_items(more) {
                Met::GoesOn
            } else {
                Met::Ends
            }
        }
    }
}

/// What a pattern is for one more unit, where so many stand before it.
fn meet_at(pattern: &[usize], count: usize, unit: &[bool]) -> Met
    ensures { result ≡ met_of (unit_of unit.now) (drop count pattern.now) }
{
    if pattern.len() <= count {
        return Met::Fails;
    }
    meet(&pattern[count..], unit)
}

fn lesser(least: Option<usize>, rule: usize) -> Option<usize>
    ensures { result ≡ lesser least rule }
{
    match least {
        None => Some(rule),
        Some(other) => {
            if rule < other {
                Some(rule)
            } else {
                Some(other)
            }
        }
    }
}

/// Keeps a rule where it stays live with the unit, of which so many stand before. The answer is
/// the least rule whose pattern is over with the unit, this rule and those before it counted.
fn keep_one(
    patterns: &Patterns,
    count: usize,
    unit: &[bool],
    rule: usize,
    over: Option<usize>,
    kept: &mut Vec<usize>,
) -> Result<Option<usize>, Memory>
    ensures kept { OnOk result (kept.new.items ≡ kept.old.items
        ++ filter (stays patterns.now count (unit_of unit.now)) (rule ∷ [])) }
    ensures over { IfOk result
        (λ least. least ≡ least_from over
        (filter (finishes patterns.now count (unit_of unit.now)) (rule ∷ []))) }
{
    match meet_at(patterns.pattern(rule), count, unit) {
        Met::Fails => Ok(over),
        Met::Ends => Ok(lesser(over, rule)),
        Met::GoesOn => {
            kept.push(rule)?;
            Ok(over)
        }
    }
}

/// Keeps those rules that stay live with the unit, of which so many stand before. The answer is
/// the least rule whose pattern is over with the unit, those before these rules counted.
fn keep(
    patterns: &Patterns,
    count: usize,
    unit: &[bool],
    live: &[usize],
    over: Option<usize>,
    kept: &mut Vec<usize>,
) -> Result<Option<usize>, Memory>
    ensures kept { OnOk result (kept.new.items ≡ kept.old.items
        ++ filter (stays patterns.now count (unit_of unit.now)) live.now) }
    ensures over { IfOk result
        (λ least. least ≡ least_from over
        (filter (finishes patterns.now count (unit_of unit.now)) live.now)) }
{
    let mut least = over;
    'rules: for rule in live {
        least = keep_one(patterns, count, unit, *rule, least, kept)?;
    }
    Ok(least)
}

/// Keeps those rules that stay live with this one unit and whose pattern begins with the category,
/// if the unit is of that category. The answer is the least rule whose pattern is over with the
/// unit, those before these rules counted.
fn keep_category(
    patterns: &Patterns,
    unit: &[bool],
    category: usize,
    over: Option<usize>,
    kept: &mut Vec<usize>,
) -> Result<Option<usize>, Memory>
    requires { category < length unit.now }
    ensures kept { OnOk result (AreBegun (unit_of unit.now) category patterns.now kept.old.items →
        AreBegun (unit_of unit.now) (category + 1) patterns.now kept.new.items) }
    ensures over { IfOk result
        (λ least. IsLeast (begun (unit_of unit.now) category patterns.now
        (finishes patterns.now 0 (unit_of unit.now))) over →
        IsLeast (begun (unit_of unit.now) (category + 1) patterns.now
        (finishes patterns.now 0 (unit_of unit.now))) least) }
{
    if unit[category] {
        let rules = patterns.beginning_with(category);
        return keep(patterns, 0, unit, rules, over, kept);
    }
    Ok(over)
}

/// Makes of `kept` the rules that are live after this one unit: those alone are looked at whose
/// pattern begins with a category of the unit. The answer is the least rule whose pattern is over
/// with the unit.
fn keep_first(
    patterns: &Patterns,
    unit: &[bool],
    kept: &mut Vec<usize>,
) -> Result<Option<usize>, Memory>
    requires { kept.old.items ≡ [] }
    ensures kept { OnOk result ((r : ℕ) →
        has kept.new.items r ≡ is_live patterns.now (unit_of unit.now ∷ []) r) }
    ensures over { IfOk result
        (λ least. IsLeast (is_over patterns.now (unit_of unit.now ∷ [])) least) }
{
    let mut least = None;
    'categories: for category in 0..unit.len() {
        least = keep_category(patterns, unit, category, least, kept)?;
    }
    Ok(least)
}

/// Makes of `kept` the rules that are live after one more unit, where so many units stand before
/// it, after which those of `live` are. The answer is the least rule whose pattern is over with
/// the unit.
pub(crate) fn go_on(
    patterns: &Patterns,
    count: usize,
    unit: &[bool],
    live: &[usize],
    kept: &mut Vec<usize>,
) -> Result<Option<usize>, Memory>
    ensures kept { OnOk result ((units : List (ℕ → Bool)) → count ≡ length units →
        AreLive patterns.now units live.now →
        AreLive patterns.now (units ++ unit_of unit.now ∷ []) kept.new.items) }
    ensures over { IfOk result (λ least. (units : List (ℕ → Bool)) → count ≡ length units →
        AreLive patterns.now units live.now →
        IsLeast (is_over patterns.now (units ++ unit_of unit.now ∷ [])) least) }
{
    kept.clear();
    if count == 0 {
        return keep_first(patterns, unit, kept);
    }
    keep(patterns, count, unit, live, None, kept)
}
